//! Products of many numbers with one fraction, rounded to whole numbers. Each is guessed from a
//! guess at the fraction, and the guess is tried: it makes a product faster, and no other than it
//! is.

ghost use Rattle.std.specs.Prelude.{◌≡◌, ◌*◌, ◌/◌, ◌%◌, ◌^◌, ◌<◌};
ghost use Rattle.std.specs.Int.{div_ceil};

/// The fraction `times / by`, by which numbers are multiplied.
#[derive(Clone, Copy)]
pub(crate) struct Factor {
    /// The numerator.
    pub times: u64,
    /// The denominator, above 0.
    pub by: u64,
    /// A guess at 2^59 times the fraction, rounded up. No product rests on it.
    pub about: u64,
    ghost positive: { 0 < by },
}

/// The lowest 64 bits.
fn word(n: u128) -> u64 {
    (n % (1 << 64)) as u64
}

/// The quotient of `exact` by `by`, and the rest. As a function of its own, it is not begun before
/// the guess is tried.
#[cold]
#[inline(never)]
fn divided(exact: u128, by: u64) -> (u64, u64)
    requires positive { 0 < by }
    requires fits { exact / by < 2 ^ 64 }
    ensures whole { result.0 ≡ exact / by }
    ensures rest { result.1 ≡ exact % by }
{
    let by = u128::from(by);
    ((exact / by) as u64, (exact % by) as u64)
}

impl Factor {
    /// The fraction `times / by`. Guesses are near where it is below 32.
    pub(crate) fn new(times: u64, by: u64) -> Factor
        requires positive { 0 < by }
        ensures numerator { result.times ≡ times }
        ensures denominator { result.by ≡ by }
    {
        let about = word((u128::from(times) << 59) / u128::from(by) + 1);
        Factor { times, by, about }
    }

    /// A guess at the product with `x`, rounded down. With a fraction that is rounded up, whole
    /// products are guessed right.
    fn guess(self, x: u64) -> u64 {
        word((u128::from(x) * u128::from(self.about)) >> 59)
    }

    /// The product with `x`, rounded down, and the rest, in units of `1 / by`: the guess where that
    /// is right, else by a division.
    fn product(self, x: u64) -> (u64, u64)
        requires { div_ceil (x * self.times) self.by < 2 ^ 64 }
        ensures whole { result.0 ≡ x * self.times / self.by }
        ensures rest { result.1 ≡ x * self.times % self.by }
    {
        if self.times == self.by {
            return (x, 0);
        }
        let exact = u128::from(x) * u128::from(self.times);
        let by = u128::from(self.by);
        let guess = self.guess(x);
        let near = u128::from(guess) * by;
        if near <= exact {
            let rest = exact - near;
            if rest < by {
                return (guess, rest as u64);
            }
        }
        divided(exact, self.by)
    }

    /// The product with `x`, rounded down.
    pub(crate) fn floor(self, x: u64) -> u64
        requires { div_ceil (x * self.times) self.by < 2 ^ 64 }
        ensures { result ≡ x * self.times / self.by }
    {
        self.product(x).0
    }

    /// The product with `x`, rounded up.
    pub(crate) fn ceil(self, x: u64) -> u64
        requires { div_ceil (x * self.times) self.by < 2 ^ 64 }
        ensures { result ≡ div_ceil (x * self.times) self.by }
    {
        let (whole, rest) = self.product(x);
        whole + rest.min(1)
    }
}
