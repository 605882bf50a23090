//! The laws of the means of units with aggregate clauses: from the mean of the sum of the claims,
//! and from those of the layers of that sum.

ghost use Rattle.std.specs.Prelude.{ℕ, ◌≡◌, ◌++◌, true, false, None, Some, List, [], ◌∷◌, All};
ghost use Rattle.dl_exact.specs.Prelude.{Fraction, whole, ◌+ℚ◌, ◌-ℚ◌, ◌*ℚ◌, sum_over};
ghost use Rattle.dl_plan.specs.declared.cede.CedeLayer.{CedeLayer};
ghost use Rattle.dl_plan.specs.declared.plan.Unit.{Unit as UnitOfPlan};
ghost use Rattle.dl_plan.specs.Prelude.{pairs_of, mean_amount, Clause, expected_count, IsValidUnit};
ghost use Rattle.dl_model.specs.Series.{Holds};
ghost use Rattle.dl_model.specs.Program.{One, Mean, Layer, partial_sums, total};
ghost use Rattle.dl_model.specs.Family.{Encloses};
ghost use Rattle.dl_model.specs.Units.{loss, IsDeclared};
ghost use Rattle.dl_model.specs.Plans.{aggregate_of, compound_of, claims_of, mean_ceded};

/// The sum of the claims of a valid plan's unit can be declared, whatever the clause. A grid that
/// encloses the compound sum encloses it, and its mean is the expected count times the mean of one
/// claim.
pub fn law_claims()
    ensures declared { (cells : ℕ) (u : UnitOfPlan) → IsValidUnit cells u
        → IsDeclared (claims_of u) }
    ensures encloses { (cells : ℕ) (u : UnitOfPlan) (scale size : ℕ) (lo hi : ℕ → ℕ)
        → IsValidUnit cells u
        → Encloses scale size lo hi (compound_of u.freq u.sev)
        → Encloses scale size lo hi (total (loss (claims_of u) ∷ [])) }
    ensures mean { (cells : ℕ) (u : UnitOfPlan) → IsValidUnit cells u
        → Holds (partial_sums (loss (claims_of u) ∷ []) Mean)
        (partial_sums (loss (claims_of u) ∷ []) One)
        (expected_count u.freq *ℚ mean_amount (pairs_of u.sev))
        (expected_count u.freq *ℚ mean_amount (pairs_of u.sev)) }
{}

/// The mean of what layers take of the sum of the claims is the sum over the layers of the share
/// times the mean of the layer: of no layers it is 0, of one layer its part, and of two lists of
/// layers the sum.
pub fn law_mean_ceded()
    ensures none { (u : UnitOfPlan)
        → Holds (mean_ceded u []) (partial_sums (loss (claims_of u) ∷ []) One) (whole 0) (whole 0) }
    ensures alone { (u : UnitOfPlan) (layer : CedeLayer) (l h : Fraction)
        → Holds (partial_sums (loss (claims_of u) ∷ []) (Layer layer.limit layer.attach))
        (partial_sums (loss (claims_of u) ∷ []) One) l h
        → Holds (mean_ceded u (layer ∷ [])) (partial_sums (loss (claims_of u) ∷ []) One)
        (layer.share *ℚ l) (layer.share *ℚ h) }
    ensures together { (cells : ℕ) (u : UnitOfPlan) (layers others : List CedeLayer)
        (l h l' h' : Fraction)
        → IsValidUnit cells u
        → Holds (mean_ceded u layers) (partial_sums (loss (claims_of u) ∷ []) One) l h
        → Holds (mean_ceded u others) (partial_sums (loss (claims_of u) ∷ []) One) l' h'
        → Holds (mean_ceded u (layers ++ others)) (partial_sums (loss (claims_of u) ∷ []) One)
        (l +ℚ l') (h +ℚ h') }
    ensures each { (cells : ℕ) (u : UnitOfPlan) (layers : List CedeLayer)
        (l h : CedeLayer → Fraction)
        → IsValidUnit cells u
        → All (λ layer. Holds
        (partial_sums (loss (claims_of u) ∷ []) (Layer layer.limit layer.attach))
        (partial_sums (loss (claims_of u) ∷ []) One) (l layer) (h layer)) layers
        → Holds (mean_ceded u layers) (partial_sums (loss (claims_of u) ∷ []) One)
        (sum_over layers (λ layer. layer.share *ℚ l layer))
        (sum_over layers (λ layer. layer.share *ℚ h layer)) }
{}

/// The mean of a valid plan's unit after its aggregate clause, before its probability of no claim
/// is changed: on the ceded side it is that of what
/// the layers take, and on the net side what this leaves of the mean of the sum of the claims.
/// Where there is no clause, the unit is the sum of its claims.
pub fn law_clause_mean()
    ensures none { (u : UnitOfPlan) → u.cede ≡ None → aggregate_of u ≡ claims_of u }
    ensures ceded { (cells : ℕ) (u : UnitOfPlan) (clause : Clause) (l h : Fraction)
        → IsValidUnit cells u
        → u.cede ≡ Some clause → clause.0 ≡ false
        → Holds (mean_ceded u clause.1) (partial_sums (loss (claims_of u) ∷ []) One) l h
        → Holds (partial_sums (loss (aggregate_of u) ∷ []) Mean)
        (partial_sums (loss (aggregate_of u) ∷ []) One) l h }
    ensures net { (cells : ℕ) (u : UnitOfPlan) (clause : Clause) (l h m n : Fraction)
        → IsValidUnit cells u
        → u.cede ≡ Some clause → clause.0 ≡ true
        → Holds (mean_ceded u clause.1) (partial_sums (loss (claims_of u) ∷ []) One) l h
        → Holds (partial_sums (loss (claims_of u) ∷ []) Mean)
        (partial_sums (loss (claims_of u) ∷ []) One) m n
        → Holds (partial_sums (loss (aggregate_of u) ∷ []) Mean) (partial_sums (loss (aggregate_of u) ∷ []) One)
        (m -ℚ h) (n -ℚ l) }
{}
