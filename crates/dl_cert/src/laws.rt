//! The laws of labels and of steps that pass, over the definitions alone. Nothing here runs.

ghost use Rattle.std.specs.Prelude.{ℕ, ◌≡◌, ◌<◌, List, length, get_or};
ghost use Rattle.dl_model.specs.Prelude.{Family, product, nothing, SameCells, Encloses, GridEncloses, total, aggregates_of};
ghost use Rattle.dl_iv.specs.declared.interval.Iv.{Iv};
ghost use Rattle.dl_plan.specs.declared.plan.Plan.{Plan};
ghost use Rattle.dl_plan.specs.Valid.{IsValid};
ghost use Rattle.dl_cert.specs.Covered.{IsCovered};
ghost use Rattle.dl_cert.specs.Targets.{parts_of_plan, target};
ghost use Rattle.dl_cert.specs.Steps.{Step};
ghost use Rattle.dl_cert.specs.Passes.{Certifies};
ghost use Rattle.dl_cert.specs.Verified.{Verifies, IsBadStep};
ghost use Rattle.dl_cert.specs.Labels.{Label, no_unit, once, together, labelled, HasValues};

/// Products of families with the same declared values have the same declared values.
pub fn law_same_products()
    ensures { (F F' G G' : Family) → HasValues F → HasValues F' → HasValues G → HasValues G'
        → SameCells F F' → SameCells G G' → SameCells (product F G) (product F' G') }
{}

/// A grid that encloses the outcome 0 encloses the label of no unit, one that encloses a unit's
/// family the label that counts it once, and one that encloses the product of two labels their
/// sum.
pub fn law_labelled()
    ensures none { (Fs : List Family) (scale cells : ℕ) (lo hi : ℕ → ℕ)
        → Encloses scale cells lo hi nothing → Encloses scale cells lo hi (labelled Fs no_unit) }
    ensures unit { (Fs : List Family) (u : ℕ) (scale cells : ℕ) (lo hi : ℕ → ℕ) → u < length Fs
        → Encloses scale cells lo hi (get_or Fs u nothing)
        → Encloses scale cells lo hi (labelled Fs (once u)) }
    ensures both { (Fs : List Family) (a b : Label) (scale cells : ℕ) (lo hi : ℕ → ℕ)
        → Encloses scale cells lo hi (product (labelled Fs a) (labelled Fs b))
        → Encloses scale cells lo hi (labelled Fs (together a b)) }
{}

/// The parts of the units of a valid and covered plan, each as often as the target counts it, have
/// in every cell the declared value of the plan's total. So what encloses the label of the target
/// encloses the total.
pub fn law_target()
    ensures values { (plan : Plan) → IsValid plan → IsCovered plan
        → SameCells (labelled (parts_of_plan plan) (target plan)) (total (aggregates_of plan)) }
    ensures encloses { (plan : Plan) (scale cells : ℕ) (lo hi : ℕ → ℕ) → IsValid plan
        → IsCovered plan → Encloses scale cells lo hi (labelled (parts_of_plan plan) (target plan))
        → Encloses scale cells lo hi (total (aggregates_of plan)) }
{}

/// The grid of steps that pass one after the other encloses the total of the plan, where the last
/// of them counts each unit as often as the target does.
pub fn law_certified()
    ensures { (plan : Plan) (steps : List Step) (grid : List (Iv 56)) → IsValid plan
        → IsCovered plan → Certifies plan steps grid
        → GridEncloses grid (total (aggregates_of plan)) }
{}

/// A text that certifies a plan's total has no bad step.
pub fn law_verified()
    ensures { (plan : Plan) (text : List ℕ) (grid : List (Iv 56)) (k : ℕ)
        → Verifies plan text grid → ¬ IsBadStep plan text k }
{}
