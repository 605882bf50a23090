//! Laws of the definitions alone. Nothing here runs: each law is the contract of a
//! function with an empty body.

ghost use Rattle.std.specs.Prelude.{◌≡◌, ◌⊎◌, ℕ, List, [], ◌∷◌, ◌++◌, length, ◌+◌, ◌-◌, ◌^◌, ◌<◌, ◌↔◌, IsTrue};
ghost use Rattle.std.specs.Str.Parse.{AllDigits, IsNumeral as IsNumber, digits_value};
ghost use Rattle.dl_exact.specs.Prelude.{Fraction, whole, ◌over◌, ◌/ℚ◌, IsLcm, lcm};
ghost use Rattle.dl_frac.specs.Exact.{FitsFrac, IsTooFine};
ghost use Rattle.dl_bytes.specs.Numerals.{IsDecimal};
ghost use Rattle.dl_frac.specs.Numerals.{numeral_value, is_bad, digit_count};

/// Each fraction either fits in a `Frac` or is too fine, and never both.
pub fn law_fits()
    ensures decided { (x : Fraction) → FitsFrac x ⊎ IsTooFine x }
    ensures apart { (x : Fraction) → FitsFrac x → ¬ IsTooFine x }
{}

/// `lcm a b` is the one least common multiple of `a` and `b`.
pub fn law_lcm()
    ensures is { (a b : ℕ) → 0 < b → IsLcm a b (lcm a b) }
    ensures one { (a b m n : ℕ) → IsLcm a b m → IsLcm a b n → m ≡ n }
{}

/// The value of each kind of numeral by its parts; 46 is `.`, 37 is `%` and 47 is `/`.
pub fn law_numeral_values()
    ensures plain { (text : List ℕ) → IsNumber 10 text
        → numeral_value text ≡ whole (digits_value 10 text) }
    ensures pointed { (front back : List ℕ) → AllDigits 10 front → AllDigits 10 back
        → 0 < length front + length back
        → numeral_value (front ++ 46 ∷ back)
        ≡ digits_value 10 (front ++ back) over 10 ^ length back }
    ensures percent { (front : List ℕ) → IsDecimal front
        → numeral_value (front ++ 37 ∷ []) ≡ numeral_value front /ℚ whole 100 }
    ensures fraction { (first second : List ℕ) → AllDigits 10 first → AllDigits 10 second
        → numeral_value (first ++ 47 ∷ second) ≡ digits_value 10 first over digits_value 10 second }
{}

/// With a limit of `d` digits a decimal is bad exactly where it has more, a percent where it has
/// more than `d - 2`, and a fraction where a part has more, or the second is 0.
pub fn law_bad_numerals()
    ensures decimal { (d : ℕ) (text : List ℕ) → IsDecimal text
        → IsTrue (is_bad d text) ↔ (d < digit_count text) }
    ensures percent { (d : ℕ) (front : List ℕ) → IsDecimal front
        → IsTrue (is_bad d (front ++ 37 ∷ [])) ↔ (d - 2 < digit_count front) }
    ensures fraction { (d : ℕ) (first second : List ℕ) → AllDigits 10 first → AllDigits 10 second
        → IsTrue (is_bad d (first ++ 47 ∷ second))
        ↔ ((d < length first) ⊎ (d < length second) ⊎ (digits_value 10 second ≡ 0)) }
{}
