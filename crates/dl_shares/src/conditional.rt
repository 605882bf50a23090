//! Conditional means.

ghost use Rattle.std.specs.Prelude.{◌≡◌, ℕ, ◌+◌, ◌-◌, ◌*◌, ◌^◌, ◌<◌, ◌≤◌, ◌↔◌, IsNone, IfSome};
ghost use Rattle.dl_exact.specs.Fraction.{◌over◌};
ghost use Rattle.dl_limits.specs.Limits.{rarest_parts, most_high};
ghost use Rattle.dl_model.specs.Series.{Series, AtLeast, Holds};

use dl_grid::units_of_one;
use dl_iv::Iv;
use dl_limits::RAREST_PARTS;

/// The conditional mean, in buckets: a joint mean divided by the probability `at` of its total.
/// None exactly where the low end of that probability is below `1 / RAREST_PARTS`. Where the mean
/// is at most `k` buckets, its width is at most `RAREST_PARTS * (k * w + v) + 2` units, with `w`
/// the width of the probability and `v` that of the joint mean.
pub fn conditional_mean<const B: u32>(joint: Iv<B>, at: Iv<B>) -> Option<Iv<B>>
    requires small { joint.hi * 2 ^ B ≤ most_high }
    ensures none { IsNone result ↔ (at.entry.lo * rarest_parts < 2 ^ B) }
    ensures holds { IfSome result (λ r. (Q R O : Series)
        → Holds Q O (joint.entry.lo over 2 ^ B) (joint.entry.hi over 2 ^ B)
        → Holds R O (at.entry.lo over 2 ^ B) (at.entry.hi over 2 ^ B)
        → AtLeast R O (1 over rarest_parts) × Holds Q R (r.lo over 2 ^ B) (r.hi over 2 ^ B)) }
    ensures width { IfSome result (λ r. (k : ℕ) → joint.entry.lo ≤ k * at.entry.hi
        → r.hi - r.lo ≤ rarest_parts
        * (k * (at.entry.hi - at.entry.lo) + (joint.entry.hi - joint.entry.lo)) + 2) }
{
    let least = units_of_one(B).div_ceil(RAREST_PARTS);
    if at.lo < least {
        return None;
    }
    Some(joint.div(at))
}
