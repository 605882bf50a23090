//! The law of the total of Poisson units (Klugman, Panjer and Willmot, Loss Models, "Compound
//! frequency distributions": independent compound Poisson sums add up to one).

ghost use Rattle.std.specs.Prelude.{ℕ, ◌++◌, List, [], ◌∷◌, map};
ghost use Rattle.dl_iv.specs.declared.interval.Iv.{Iv};
ghost use Rattle.dl_plan.specs.declared.plan.Unit.{Unit as UnitOfPlan};
ghost use Rattle.dl_model.specs.CommonUnits.{IsPoissonSum};
ghost use Rattle.dl_model.specs.Family.{GridEncloses, SameCells};
ghost use Rattle.dl_model.specs.Plans.{compound_of, loss_of};
ghost use Rattle.dl_model.specs.Program.{Loss, AreDeclarable, total};

/// The sum of the claims of one Poisson unit in the place of some has in every cell the declared
/// value of their total, so that a grid which encloses it encloses their total. Beside other losses,
/// the total with that one unit has the cells of the total with all of them.
pub fn law_poisson_total()
    ensures same { (units : List UnitOfPlan) (made : UnitOfPlan) → IsPoissonSum units made
        → SameCells (compound_of made.freq made.sev) (total (map loss_of units)) }
    ensures encloses { (units : List UnitOfPlan) (made : UnitOfPlan) → IsPoissonSum units made
        → (B : ℕ) (grid : List (Iv B)) → GridEncloses grid (compound_of made.freq made.sev)
        → GridEncloses grid (total (map loss_of units)) }
    ensures among { (units : List UnitOfPlan) (made : UnitOfPlan) → IsPoissonSum units made
        → (rest : List Loss) → AreDeclarable rest
        → SameCells (total (rest ++ loss_of made ∷ [])) (total (rest ++ map loss_of units)) }
{}
