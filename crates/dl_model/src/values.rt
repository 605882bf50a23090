//! The laws of declared values under sums, differences, factors, products and quotients.

ghost use Rattle.std.specs.Prelude.{ℕ, ◌≡◌};
ghost use Rattle.dl_exact.specs.Fraction.{Fraction, whole, ◌+ℚ◌, ◌*ℚ◌, ◌/ℚ◌, ◌≤ℚ◌, ◌<ℚ◌};
ghost use Rattle.dl_model.specs.Series.{Series, IsBound, AtMost, AtLeast, Holds, Rises, plus, times};

/// A value that lies in an interval lies in each wider one.
pub fn law_wider()
    ensures { (Q R : Series) (l l' h h' : Fraction) → l' ≤ℚ l → h ≤ℚ h' → Holds Q R l h
        → Holds Q R l' h' }
{}

/// Values over the same series add up.
pub fn law_sum()
    ensures { (Q Q' R : Series) (l l' h h' : Fraction) → Rises Q → Rises Q'
        → Holds Q R l h → Holds Q' R l' h' → Holds (plus Q Q') R (l +ℚ l') (h +ℚ h') }
{}

/// One of two values, from those of their sum and of the other.
pub fn law_difference()
    ensures low { (Q Q' R : Series) (l h v : Fraction) → Rises R → IsBound R v
        → AtLeast (plus Q Q') R (l +ℚ h) → AtMost Q' R h → AtLeast Q R l }
    ensures high { (Q Q' R : Series) (h l : Fraction) → Rises Q → Rises Q'
        → AtMost (plus Q Q') R (h +ℚ l) → AtLeast Q' R l → AtMost Q R h }
{}

/// Where two series add up to a third at each level, their values over it add up to 1.
pub fn law_complement()
    ensures low { (Q Q' R : Series) (h k v : Fraction) → ((N : ℕ) → plus Q Q' N ≡ R N)
        → IsBound R v → h +ℚ k ≡ whole 1
        → AtMost Q R h → AtLeast Q' R k }
    ensures high { (Q Q' R : Series) (l k : Fraction) → Rises Q → Rises Q'
        → ((N : ℕ) → plus Q Q' N ≡ R N) → l +ℚ k ≡ whole 1
        → AtLeast Q R l → AtMost Q' R k }
{}

/// A factor of the series is a factor of the value.
pub fn law_factor()
    ensures { (k : Fraction) (Q R : Series) (l h : Fraction) → Holds Q R l h
        → Holds (λ N. k *ℚ Q N) R (k *ℚ l) (k *ℚ h) }
{}

/// The value of a product of two series, level by level, is the product of their values, for all
/// series that never fall.
pub fn law_product()
    ensures { (Q R Q' R' : Series) (l l' h h' : Fraction) → Rises Q → Rises R → Rises Q' → Rises R'
        → Holds Q R l h → Holds Q' R' l' h' → Holds (times Q Q') (times R R') (l *ℚ l') (h *ℚ h') }
{}

/// The value of one series over another is the quotient of their values over a third.
pub fn law_quotient()
    ensures { (Q R O : Series) (l h l' h' : Fraction) → whole 0 <ℚ l' → whole 0 <ℚ h'
        → Holds Q O l h → Holds R O l' h' → Holds Q R (l /ℚ h') (h /ℚ l') }
{}

/// The value of 1 over a bounded series lies between the reciprocals of the bound and of any term.
pub fn law_reciprocal()
    ensures { (R : Series) (level : ℕ) (bound : Fraction) → whole 0 <ℚ R level → IsBound R bound
        → Holds (λ N. whole 1) R (whole 1 /ℚ bound) (whole 1 /ℚ R level) }
{}
