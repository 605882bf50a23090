//! The unit of the extra claims of a gamma unit.

ghost use Rattle.std.specs.Prelude.{ℕ, IsSome, IfOk, IfSome};
ghost use Rattle.dl_limits.specs.Limits.{most_expected};
ghost use Rattle.dl_exact.specs.Fraction.{whole, ◌-ℚ◌, ◌*ℚ◌, ◌≤ℚ◌};
ghost use Rattle.dl_plan.specs.Prelude.{HasPartsOf48Bits, probability_of, expected_count, CanRaise, IsValidUnit};
ghost use Rattle.dl_pool.specs.Extra.{IsExtra, extra_count};

use crate::pooling::are_admitted;
use dl_bytes::Text;
use dl_frac::Frac;
use dl_plan::{Freq, Unit};
use dl_severity::copied;
use std::alloc::{AllocError, Global};

/// The unit of the extra claims of a gamma unit of shape `r` and mean `m`: the same severity with a
/// gamma count of shape 1 and mean `m / r`. From the grid of the total with one such unit more comes
/// what the gamma unit adds to the total. None where the extra unit would not be valid: where a part
/// of its expected number of claims, or of that of its claims above 0, is 2^48 or more, or the
/// latter passes 4,096. It is valid with any grid that the gamma unit is valid with.
pub fn extra(alloc: Global, unit: &Unit) -> Result<Option<Unit>, AllocError>
    requires valid { (cells : ℕ) × IsValidUnit cells unit.now }
    requires gamma { CanRaise unit.now }
    ensures extra { IfOk result (λ made. IfSome made (IsExtra unit.now)) }
    ensures valid { IfOk result (λ made. IfSome made (λ one. (cells : ℕ)
        → IsValidUnit cells unit.now → IsValidUnit cells one)) }
    ensures there { IfOk result (λ made.
        HasPartsOf48Bits (expected_count (extra_count unit.now.freq))
        → HasPartsOf48Bits (expected_count (extra_count unit.now.freq)
        *ℚ (whole 1 -ℚ probability_of unit.now.sev 0))
        → expected_count (extra_count unit.now.freq) *ℚ (whole 1 -ℚ probability_of unit.now.sev 0)
        ≤ℚ whole most_expected → IsSome made) }
{
    let Freq::Gamma { shape, mean } = &unit.freq else {
        unreachable!()
    };
    let Ok(mean) = mean.div(*shape) else {
        return Ok(None);
    };
    if !are_admitted(mean, &unit.sev) {
        return Ok(None);
    }
    let name = Text::copy(alloc, unit.name.as_slice())?;
    let sev = copied(alloc, &unit.sev)?;
    Ok(Some(Unit {
        name,
        sev,
        freq: Freq::Gamma {
            shape: Frac::whole(1),
            mean,
        },
        cede: None,
        zero: None,
    }))
}
