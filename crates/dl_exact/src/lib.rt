//! The exact numbers of the definitions: fractions of whole numbers in lowest terms, finite sums,
//! floors and ceilings, common divisors and multiples. Nothing here runs: each law is the contract
//! of a function with an empty body, and the crates above cite the lemmas. Each fact of numbers
//! alone is here, once.
#![tactic(auto)]

ghost use Rattle.std.specs.Prelude.{◌≡◌, ◌⊎◌, ℕ, suc, ◌+◌, ◌*◌, ◌/◌, ◌<◌, ◌≤◌};
ghost use Rattle.std.specs.Int.{div_ceil};
ghost use Rattle.dl_exact.specs.Fraction.{Fraction, whole, ◌over◌, ◌+ℚ◌, ◌-ℚ◌, ◌*ℚ◌, ◌/ℚ◌, ◌≤ℚ◌, ◌<ℚ◌};
ghost use Rattle.dl_exact.specs.Rounding.{IsFloor, IsCeiling};
ghost use Rattle.dl_exact.specs.Sum.{sum_to, sum_pairs};

/// The parts of `n over d` have the ratio of `n` to `d`.
#[tactic(auto, using(crate::proofs::Over::over_cross))]
pub fn law_over()
    ensures { (n d : ℕ) → 0 < d → (n over d).num * d ≡ n * (n over d).den }
{}

/// Fractions that are equal by cross multiplication are one.
#[tactic(auto, using(crate::proofs::Over::over_same))]
pub fn law_equal()
    ensures { (n d m e : ℕ) → 0 < d → 0 < e → n * e ≡ m * d → n over d ≡ m over e }
{}

/// Sums and products are commutative and associative, products distribute over sums, and 0 and 1
/// are their neutral fractions.
#[tactic(auto, using(crate::proofs::Laws::ring))]
pub fn law_sums_and_products()
    ensures plus_comm { (x y : Fraction) → x +ℚ y ≡ y +ℚ x }
    ensures plus_assoc { (x y z : Fraction) → x +ℚ y +ℚ z ≡ x +ℚ (y +ℚ z) }
    ensures times_comm { (x y : Fraction) → x *ℚ y ≡ y *ℚ x }
    ensures times_assoc { (x y z : Fraction) → x *ℚ y *ℚ z ≡ x *ℚ (y *ℚ z) }
    ensures times_plus { (x y z : Fraction) → x *ℚ (y +ℚ z) ≡ x *ℚ y +ℚ x *ℚ z }
    ensures plus_zero { (x : Fraction) → x +ℚ whole 0 ≡ x }
    ensures times_one { (x : Fraction) → x *ℚ whole 1 ≡ x }
{}

/// A difference plus what was subtracted, and a quotient times its divisor, are the first fraction.
#[tactic(auto, using(crate::proofs::Laws::sub_plus, crate::proofs::Laws::div_times))]
pub fn law_back()
    ensures minus { (x y : Fraction) → y ≤ℚ x → x -ℚ y +ℚ y ≡ x }
    ensures divided { (x y : Fraction) → whole 0 <ℚ y → x /ℚ y *ℚ y ≡ x }
{}

/// The order is total, and a sum or product on both sides keeps it.
#[tactic(auto, using(crate::proofs::Laws::lt_or_le, crate::proofs::Laws::le_antisymm, crate::proofs::Laws::le_trans, crate::proofs::Laws::plus_le_plus, crate::proofs::Laws::times_le_times))]
pub fn law_order()
    ensures decided { (x y : Fraction) → (x <ℚ y) ⊎ (y ≤ℚ x) }
    ensures both_ways { (x y : Fraction) → x ≤ℚ y → y ≤ℚ x → x ≡ y }
    ensures chain { (x y z : Fraction) → x ≤ℚ y → y ≤ℚ z → x ≤ℚ z }
    ensures plus { (x y z : Fraction) → x ≤ℚ y → x +ℚ z ≤ℚ y +ℚ z }
    ensures times { (x y z : Fraction) → x ≤ℚ y → x *ℚ z ≤ℚ y *ℚ z }
{}

/// A quotient of whole numbers rounded down is the floor of their fraction, and rounded up its
/// ceiling.
pub fn law_rounding()
    ensures down { (n d : ℕ) → 0 < d → IsFloor (n over d) (n / d) }
    ensures up { (n d : ℕ) → 0 < d → IsCeiling (n over d) (div_ceil n d) }
{}

/// Two finite sums, one inside the other, may be exchanged.
#[tactic(auto, using(crate::proofs::Sums::sum_to_swap))]
pub fn law_sum_swap()
    ensures { (n m : ℕ) (f : ℕ → ℕ → Fraction)
        → sum_to n (λ i. sum_to m (λ j. f i j)) ≡ sum_to m (λ j. sum_to n (λ i. f i j)) }
{}

/// A sum over all `i + j = n` is the same with `i` and `j` exchanged, and a sum over all
/// `i + j + k = n` the same with either two of them added first.
#[tactic(auto, using(crate::proofs::Sums::sum_pairs_turn, crate::proofs::Sums::sum_pairs_assoc))]
pub fn law_pairs()
    ensures turn { (n : ℕ) (f : ℕ → ℕ → Fraction) → sum_pairs n (λ i j. f j i) ≡ sum_pairs n f }
    ensures three { (n : ℕ) (f : ℕ → ℕ → ℕ → Fraction)
        → sum_pairs n (λ i j. sum_pairs i (λ k l. f k l j))
        ≡ sum_pairs n (λ k m. sum_pairs m (λ l j. f k l j)) }
{}
