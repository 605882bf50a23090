//! Quotients by divisors that grow little by little. Each is guessed from a guess at the inverse of
//! its divisor, and the guess is tried: it makes a quotient faster, and no other than it is.

ghost use Rattle.std.specs.Prelude.{◌≡◌, ◌/◌, ◌<◌, ◌≤◌};

/// A guess at 2^127 over a divisor that is shifted up to 64 bits. No quotient rests on it.
#[derive(Clone, Copy)]
pub struct Inverse {
    /// The guess.
    pub about: u64,
    /// The guess for the divisor before, or the same one.
    pub before: u64,
    /// By how many bits the divisor is shifted up.
    pub up: u32,
}

impl Inverse {
    /// A guess that is none yet.
    pub(crate) fn none() -> Self {
        Inverse {
            about: 0,
            before: 0,
            up: 0,
        }
    }
}

/// 2^127.
const WHOLE: u128 = 1 << 127;

/// 2^64.
const WORD: u128 = 1 << 64;

/// The number of cells from which on the next divisor is near enough to the last.
const NEAR: usize = 512;

/// The lowest 64 bits.
fn word(n: u128) -> u64 {
    (n % WORD) as u64
}

/// A nearer guess at 2^127 over `shifted`, by one round of Newton's method: it doubles the number
/// of right bits. All factors have 64 bits, so each product is one multiplication.
fn nearer(about: u64, shifted: u64) -> u64 {
    let about = u128::from(about);
    let product = (about * u128::from(shifted)) >> 64;
    word((about * (WORD - 1 - product)) >> 63)
}

/// A guess at `2^127` over the divisor `d`, moved up to 64 bits. `d` is `n` times the first
/// divisor, and `last` the guess for `n - 1` times it: as much again as that is below the one
/// before is right to about `2 * log2 n` bits, and each round doubles them.
pub(crate) fn inverse_of(d: u64, n: usize, last: Inverse) -> Inverse {
    let up = d.leading_zeros().min(63);
    let shifted = d << up;
    if n < NEAR || up != last.up {
        let about = word((WHOLE - 1) / u128::from(shifted.max(1)));
        return Inverse {
            about,
            before: about,
            up,
        };
    }
    let first = last
        .about
        .wrapping_sub(last.before.wrapping_sub(last.about));
    Inverse {
        about: nearer(nearer(first, shifted), shifted),
        before: last.about,
        up,
    }
}

/// A guess at `n` over the divisor that the inverse is of.
fn guess_of(n: u128, inverse: Inverse) -> u64 {
    let about = u128::from(inverse.about);
    let high = (n >> 64) * about;
    let low = ((n % WORD) * about) >> 64;
    word((high + low) >> (63 - inverse.up.min(63)))
}

/// `n` over `d`, rounded down: the guess or one more where that is right, else by a division.
pub(crate) fn quotient(n: u128, d: u64, inverse: Inverse) -> u128
    requires positive { 0 < d }
    ensures { result ≡ n / d }
{
    let guess = u128::from(guess_of(n, inverse));
    let d = u128::from(d);
    let product = guess * d;
    if product <= n {
        let rest = n - product;
        if rest < d {
            return guess;
        }
        if rest - d < d {
            return guess + 1;
        }
    }
    n / d
}
