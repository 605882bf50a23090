//! Lists of fractions with a common denominator.

ghost use Rattle.std.specs.Option.{SomeIff};
ghost use Rattle.std.specs.Prelude.{◌≡◌, ◌≤◌, ◌↔◌, IsTrue};
ghost use Rattle.dl_exact.specs.Prelude.{whole, sum_over};
ghost use Rattle.dl_plan.specs.Fine.{common_denominator, numerator_over};

use dl_frac::{Frac, lcm_to};

/// The common denominator of the fractions; `None` exactly where it passes `most`. Takes no memory.
#[tactic(auto, using(crate::proofs::CommonDenominators::lcm_pos, crate::proofs::CommonDenominators::common_step))]
pub fn common_denominator_of(fracs: &[Frac], most: u64) -> Option<u64>
    ensures { SomeIff result (common_denominator fracs.now ≤ most) (common_denominator fracs.now) }
{
    let mut common = 1;
    'fracs: for frac in fracs {
        match lcm_to(common, frac.den(), most) {
            Some(multiple) => common = multiple,
            None => return None,
        }
    }
    if common <= most { Some(common) } else { None }
}

/// The numerator of a fraction over `common`, a multiple of its denominator. Takes no memory.
pub fn numerator_over(x: Frac, common: u64) -> u128
    ensures { result ≡ numerator_over common x }
{
    x.num() as u128 * (common / x.den()) as u128
}

/// Whether fractions sum to 1, by their numerators over their common denominator. Takes no memory.
#[tactic(auto, using(std::proofs::lemmas::List::take_all, crate::proofs::WholeParts::whole_within, crate::proofs::WholeParts::one_sum))]
pub fn sum_to_one(fracs: &[Frac], common: u64) -> bool
    requires { common ≡ common_denominator fracs.now }
    ensures { IsTrue result ↔ (sum_over fracs.now (λ x. x) ≡ whole 1) }
{
    let mut left = common as u128;
    'fracs: for &frac in fracs {
        let parts = numerator_over(frac, common);
        if parts > left {
            return false;
        }
        left -= parts;
    }
    left == 0
}
