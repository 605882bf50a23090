//! The laws of the width rule. Nothing here runs.

ghost use Rattle.std.specs.Prelude.{◌≡◌, ℕ, ◌+◌, ◌*◌, ◌<◌, ◌≤◌};
ghost use Rattle.std.specs.Int.{div_ceil};
ghost use Rattle.dl_exact.specs.Prelude.{Fraction, ◌over◌, IsCeiling};
ghost use Rattle.dl_grid.specs.Width.{up, convolution_spread, power_spread, rounded_spread, IsSizeWithin};

/// `up` is the ceiling, and of a quotient it is the quotient rounded up.
#[tactic(auto, using(crate::proofs::WidthLaws::up_quotient))]
pub fn law_up()
    ensures ceiling { (x : Fraction) → IsCeiling x (up x) }
    ensures quotient { (n d : ℕ) → 0 < d → up (n over d) ≡ div_ceil n d }
{}

/// More cells and wider operands never give a narrower convolution.
#[tactic(auto, using(crate::proofs::WidthLaws::cv_rises))]
pub fn law_convolution_spread_rises()
    ensures { (S k l x u y v : ℕ) → 0 < S → k ≤ l → x ≤ u → y ≤ v → convolution_spread S k x y ≤ convolution_spread S l u v }
{}

/// The spread of a power, case by case: of none, of one, of an even and of an odd number of
/// factors.
#[tactic(auto, using(crate::proofs::WidthLaws::pw_none, crate::proofs::WidthLaws::pw_one, crate::proofs::WidthLaws::pw_even, crate::proofs::WidthLaws::pw_odd))]
pub fn law_power_spread()
    ensures none { (S k b : ℕ) → power_spread S k b 0 ≡ 0 }
    ensures one { (S k b : ℕ) → power_spread S k b 1 ≡ b }
    ensures even { (S k b m : ℕ) → 1 ≤ m → power_spread S k b (2 * m) ≡ convolution_spread S k (power_spread S k b m) (power_spread S k b m) }
    ensures odd { (S k b m : ℕ) → 1 ≤ m → power_spread S k b (2 * m + 1) ≡ convolution_spread S k (power_spread S k b (2 * m)) b }
{}

/// More cells and a wider base never give a narrower power.
#[tactic(auto, using(crate::proofs::WidthLaws::pw_rises))]
pub fn law_power_spread_rises()
    ensures { (S k l b c m : ℕ) → 0 < S → k ≤ l → b ≤ c → power_spread S k b m ≤ power_spread S l c m }
{}

/// How large spreads grow. With `x'`, `y'` and `z'` the rounded spreads of two operands and of what
/// one step makes of them, `1 + z'/S` is at most the product of `1 + x'/S` and `1 + y'/S`; a step
/// may add `more` units, as that of a listed count adds 2. So where `x'` is at most `c / (1 - c/S)`
/// and `y'` at most `d / (1 - d/S)`, `z'` is at most the same of `c + d`: `n` operands of at most
/// `c` come to at most that of `n * c`, in whatever order the steps join them.
#[tactic(auto, using(crate::proofs::WidthLaws::size_step, crate::proofs::WidthLaws::size_one, crate::proofs::WidthLaws::size_joined))]
pub fn law_size()
    ensures step { (S k more x y : ℕ) → 0 < S
        → (S + rounded_spread k more (convolution_spread S k x y + more)) * S
        ≤ (S + rounded_spread k more x) * (S + rounded_spread k more y) }
    ensures one { (S c : ℕ) → IsSizeWithin S c c }
    ensures joined { (S c d x y z : ℕ) → 0 < S → c + d ≤ S → IsSizeWithin S c x → IsSizeWithin S d y
        → (S + z) * S ≤ (S + x) * (S + y) → IsSizeWithin S (c + d) z }
{}
