//! The mean of a severity.

ghost use Rattle.std.specs.Prelude.{◌≡◌, ◌≤◌, ◌^◌, All};
ghost use Rattle.dl_limits.specs.Limits.{most_amount};
ghost use Rattle.dl_plan.specs.Severity.{pairs_of, mean_amount};

use dl_frac::Frac;
use dl_plan::{Sev, weighted_sum};

/// The mean of the severity, in buckets; its amounts are at most 2^22.
pub fn mean(sev: &Sev) -> Frac
    requires { All (λ item. item.amount ≤ most_amount) sev.now.items }
    ensures { result ≡ mean_amount (pairs_of sev.now) }
{
    let sum = weighted_sum(sev.items.as_slice());
    Frac::make(sum as u128, sev.total as u128).unwrap()
}
