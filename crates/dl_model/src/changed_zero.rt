//! The laws of a changed probability of no claim (Klugman, Panjer and Willmot, Loss Models,
//! "Truncation and modification at zero").

ghost use Rattle.std.specs.Prelude.{ℕ, suc, ◌≡◌, ◌*◌, ◌<◌, ◌≤◌, nat_eq};
ghost use Rattle.dl_exact.specs.Prelude.{Fraction, whole, ◌+ℚ◌, ◌over◌, ◌-ℚ◌, ◌*ℚ◌, ◌/ℚ◌, ◌≤ℚ◌, ◌<ℚ◌, sum_to};
ghost use Rattle.dl_model.specs.Series.{Series, IsBound, AtMost, AtLeast, Holds, Rises};
ghost use Rattle.dl_model.specs.Compound.{cell};
ghost use Rattle.dl_model.specs.Counts.{fixed, binomial, poisson, gamma_of, AreCountWeights};
ghost use Rattle.dl_model.specs.Program.{where_true};
ghost use Rattle.dl_model.specs.Units.{Aggregate, IsDeclared, outcome, loss};
ghost use Rattle.dl_model.specs.Measures.{IsDeclaredLoss, level_mean};
ghost use Rattle.dl_model.specs.ChangedZero.{without_none, with_none, changed, changed_end, IsWithNone};

/// No claim comes to 0: so compound sums have the weight of no claim at 0, beside the part from at
/// least one claim, also after an aggregate clause that maps 0 to 0.
#[tactic(auto, using(crate::proofs::ChangedZero::compound_with_none, crate::proofs::ChangedZero::clause_with_none))]
pub fn law_with_none()
    ensures compound { (w f : ℕ → Fraction) (y : ℕ)
        → IsWithNone y (w 0) (cell w f y) (λ N. sum_to N w) (cell (without_none w) f y)
        (λ N. sum_to N (without_none w)) }
    ensures clause { (w f : ℕ → Fraction) (clause : ℕ → ℕ) (most y : ℕ) → clause 0 ≡ 0
        → IsWithNone y (w 0)
        (λ N. sum_to (N * most) (λ s. where_true (nat_eq (clause s) y) (cell w f s N)))
        (λ N. sum_to N w)
        (λ N. sum_to (N * most)
        (λ s. where_true (nat_eq (clause s) y) (cell (without_none w) f s N)))
        (λ N. sum_to N (without_none w)) }
{}

/// The outcomes with the probability `p` of no claim never fall, add up to the whole weight of at
/// least one claim where its parts do, and have `1 - p` times the mean of these parts.
#[tactic(auto, using(crate::proofs::ChangedZero::with_none_rises, crate::proofs::ChangedZero::with_none_all, crate::proofs::ChangedZero::with_none_mean))]
pub fn law_changed_outcomes()
    ensures rises { (p : Fraction) (y : ℕ) (part rest : Series) → Rises part → Rises rest
        → Rises (with_none p y part rest) }
    ensures full { (p : Fraction) (k N : ℕ) (part : ℕ → Series) (rest : Series) → p ≤ℚ whole 1
        → sum_to k (λ y. part y N) ≡ rest N
        → sum_to k (λ y. with_none p y (part y) rest N) ≡ rest N }
    ensures mean { (p : Fraction) (k N : ℕ) (part : ℕ → Series) (rest : Series)
        → sum_to k (λ y. whole y *ℚ with_none p y (part y) rest N)
        ≡ (whole 1 -ℚ p) *ℚ sum_to k (λ y. whole y *ℚ part y N) }
{}

/// The outcome `y` with the probability `p` of no claim, from ends of it before the change and ends
/// of the probability of no claim, whose high end is below 1: the high end of the latter is taken
/// off the low end at `y = 0`, and its low end off the high end.
pub fn law_changed_zero()
    ensures { (p none low high none_low none_high bound : Fraction) (y : ℕ)
        (cell all part rest : Series) → IsWithNone y none cell all part rest
        → Rises part → Rises rest → IsBound all bound
        → Holds cell all low high → Holds (λ N. none) all none_low none_high
        → none_low ≤ℚ none_high → none_high <ℚ whole 1
        → Holds (with_none p y part rest) rest (changed_end p y low none_high none_low)
        (changed_end p y high none_low none_high) }
{}

/// Low ends that add up to at most 1 do so after the change.
pub fn law_changed_lows()
    ensures { (none none_low none_high bound : Fraction) (k level : ℕ) (cells : ℕ → Series)
        (all : Series) (low : ℕ → Fraction) → ((y : ℕ) → Rises (cells y)) → Rises all
        → IsBound all bound → whole 0 <ℚ all level
        → ((y : ℕ) → y ≤ k → AtLeast (cells y) all (low y))
        → AtLeast (λ N. none) all none_low → none_low ≤ℚ none_high
        → ((N : ℕ) → none ≤ℚ cells 0 N) → ((N : ℕ) → sum_to k (λ y. cells y N) ≤ℚ all N)
        → sum_to k low ≤ℚ whole 1 → (p : Fraction) → p ≤ℚ whole 1 → none_low <ℚ whole 1
        → sum_to k (λ y. changed_end p y (low y) none_high none_low) ≤ℚ whole 1 }
{}

/// The weights of at least one claim are those of a count that can be declared, where one of their
/// sums is above 0.
pub fn law_without_none()
    ensures { (w : ℕ → Fraction) → AreCountWeights w → (level : ℕ)
        → whole 0 <ℚ sum_to level (without_none w) → AreCountWeights (without_none w) }
{}

/// A unit with its probability of no claim changed to `p` has a loss that can be declared, where
/// the unit can and some sum of its weights of at least one claim is above 0. No claim adds 0, so
/// from at most `N` claims the mean is `1 - p` times that of the unit.
pub fn law_changed_loss()
    ensures declared { (p : Fraction) (u : Aggregate) → p ≤ℚ whole 1 → IsDeclared u
        → (level : ℕ) → whole 0 <ℚ sum_to level (without_none u.count)
        → IsDeclaredLoss (changed p u) }
    ensures mean { (p : Fraction) (u : Aggregate) → IsDeclared u → (N : ℕ)
        → level_mean (changed p u) N ≡ (whole 1 -ℚ p) *ℚ level_mean (loss u) N }
{}

/// The outcome `y` and the mean of that loss, from ends of those of the unit and ends of the unit's
/// probability of no claim, whose high end is below 1. Low ends of the outcomes 0 to `k` that add
/// up to at most 1 do so after the change.
pub fn law_changed_values()
    ensures outcome { (p low high none_low none_high : Fraction) (y : ℕ) (u : Aggregate)
        → IsDeclared u → Holds (outcome u y) (λ N. sum_to N u.count) low high
        → Holds (λ N. u.count 0) (λ N. sum_to N u.count) none_low none_high
        → none_low ≤ℚ none_high → none_high <ℚ whole 1
        → Holds ((changed p u).family.cells y) (changed p u).family.all
        (changed_end p y low none_high none_low) (changed_end p y high none_low none_high) }
    ensures mean { (p low high none_low none_high : Fraction) (u : Aggregate)
        → IsDeclared u → Holds (level_mean (loss u)) (λ N. sum_to N u.count) low high
        → Holds (λ N. u.count 0) (λ N. sum_to N u.count) none_low none_high
        → none_low ≤ℚ none_high → none_high <ℚ whole 1
        → Holds (level_mean (changed p u)) (changed p u).family.all
        ((whole 1 -ℚ p) *ℚ (low /ℚ (whole 1 -ℚ none_low)))
        ((whole 1 -ℚ p) *ℚ (high /ℚ (whole 1 -ℚ none_high))) }
    ensures lows { (p none_low none_high : Fraction) (k : ℕ) (u : Aggregate) (low : ℕ → Fraction)
        → p ≤ℚ whole 1 → IsDeclared u
        → ((y : ℕ) → y ≤ k → AtLeast (outcome u y) (λ N. sum_to N u.count) (low y))
        → AtLeast (λ N. u.count 0) (λ N. sum_to N u.count) none_low
        → none_low ≤ℚ none_high → none_low <ℚ whole 1 → sum_to k low ≤ℚ whole 1
        → sum_to k (λ y. changed_end p y (low y) none_high none_low) ≤ℚ whole 1 }
{}

/// Where at least 1 / 16 of a claim is expected, the probability of no claim is at most 16 / 17:
/// of exactly `m` claims, of `m` trials with probability `a / b`, Poisson, and gamma of a shape `r`
/// of at least 1 and mean `v`; of a smaller shape, where the weight of one claim is at least 1 /
/// 16.
pub fn law_some_claim()
    ensures fixed { (m : ℕ) → 0 < m
        → AtMost (λ N. fixed m 0) (λ N. sum_to N (fixed m)) (16 over 17) }
    ensures binomial { (m a b : ℕ) → 0 < b → a ≤ b → 1 over 16 ≤ℚ whole m *ℚ a over b
        → AtMost (λ N. binomial m a b 0) (λ N. sum_to N (binomial m a b)) (16 over 17) }
    ensures poisson { (v : Fraction) → 1 over 16 ≤ℚ v
        → AtMost (λ N. poisson v 0) (λ N. sum_to N (poisson v)) (16 over 17) }
    ensures gamma { (r v : Fraction) → whole 1 ≤ℚ r → 1 over 16 ≤ℚ v
        → AtMost (λ N. gamma_of r v 0) (λ N. sum_to N (gamma_of r v)) (16 over 17) }
    ensures gamma_below_one { (r v : Fraction) → 1 over 16 ≤ℚ r *ℚ (v /ℚ (r +ℚ v))
        → AtMost (λ N. gamma_of r v 0) (λ N. sum_to N (gamma_of r v)) (16 over 17) }
{}
