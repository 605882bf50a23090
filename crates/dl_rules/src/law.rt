//! Laws for the callers.

ghost use Rattle.std.specs.Prelude.{◌≡◌, ◌≤◌, [], None, length};
ghost use Rattle.dl_limits.specs.Limits.{standard_units};
ghost use Rattle.dl_reading.specs.First.{in_turn};
ghost use Rattle.dl_ast.specs.declared.ast.Program.{Program};
ghost use Rattle.dl_ast.specs.WellFormed.{IsWellFormed};
ghost use Rattle.dl_plan.specs.declared.plan.Plan.{Plan};
ghost use Rattle.dl_plan.specs.declared.settings.Settings.{Settings};
ghost use Rattle.dl_plan.specs.Valid.{IsValid};
ghost use Rattle.dl_limits.specs.declared.rules.Rules.TheVariants.{Extended, Standard};
ghost use Rattle.dl_rules.specs.Faults.{by, fault_of_total, first_fault, first_fault_of};
ghost use Rattle.dl_rules.specs.Checked.{IsSet};
ghost use Rattle.dl_rules.specs.Plans.{IsPlanOf};

/// A program that breaks no rule has a plan, and that is valid.
pub fn law_accepted()
    ensures { (program : Program) (settings : Settings) → IsWellFormed program → IsSet settings
        → first_fault program settings ≡ None
        → (plan : Plan) × IsPlanOf program settings plan × IsValid plan }
{}

/// A program and settings have at most one plan.
#[tactic(auto, using(crate::proofs::OnePlan::one_plan))]
pub fn law_plan_unique()
    ensures { (program : Program) (settings : Settings) (a b : Plan) → IsPlanOf program settings a
        → IsPlanOf program settings b → a ≡ b }
{}

/// Where the standard rules accept a program, the extended rules accept it, with the same plan.
pub fn law_rules()
    ensures accepted { (program : Program) (settings : Settings)
        → first_fault program (by Standard settings) ≡ None
        → first_fault program (by Extended settings) ≡ None }
    ensures plan { (program : Program) (settings : Settings) (plan : Plan)
        → IsPlanOf program (by Standard settings) plan
        → IsPlanOf program (by Extended settings) plan }
{}

/// At most 16 units that break no rule of their own are not too large all together: by the standard
/// rules the last rule is never broken.
pub fn law_total()
    ensures { (program : Program) (settings : Settings) → IsWellFormed program
        → length program.units ≤ standard_units
        → in_turn (first_fault_of settings program.port program.sevs) [] program.units ≡ None
        → fault_of_total settings program ≡ None }
{}
