//! The pooled unit with one more in its shape.

ghost use Rattle.std.specs.Prelude.{IfOk};
ghost use Rattle.dl_exact.specs.Fraction.{Fraction};
ghost use Rattle.dl_plan.specs.declared.plan.Plan.{Plan};
ghost use Rattle.dl_plan.specs.Prelude.{IsValid, SharesFactor};
ghost use Rattle.dl_pool.specs.Pooled.{IsPooled, IsRaised, alone};

use dl_bytes::Text;
use dl_frac::Frac;
use dl_plan::{Freq, Unit};
use dl_severity::copied;
use std::alloc::{AllocError, Global};

/// The same unit as `pooled`, what `pool` gives for a plan with a factor of shape `r`, but with
/// shape `r + 1` and mean `v * (r + 1) / r` for its mean `v`. From its grid comes what one unit
/// adds to a total. Its plan is valid.
pub fn raised(alloc: Global, pooled: &Unit) -> Result<Unit, AllocError>
    requires { (plan : Plan) × (r : Fraction) × SharesFactor plan r
        × IsPooled r plan.units pooled.now }
    ensures raised { IfOk result (λ unit. (plan : Plan) (r : Fraction) → SharesFactor plan r
        → IsPooled r plan.units pooled.now → IsRaised r plan.units unit) }
    ensures valid { IfOk result (λ unit. (plan : Plan) (r : Fraction) → SharesFactor plan r
        → IsPooled r plan.units pooled.now → IsValid (alone plan unit)) }
{
    let Freq::Gamma { shape, mean } = &pooled.freq else {
        unreachable!()
    };
    let next_shape = shape.add(Frac::whole(1)).unwrap();
    let raised_mean = dl_plan::raised(*shape, *mean).unwrap();
    let name = Text::copy(alloc, pooled.name.as_slice())?;
    let sev = copied(alloc, &pooled.sev)?;
    Ok(Unit {
        name,
        sev,
        freq: Freq::Gamma {
            shape: next_shape,
            mean: raised_mean,
        },
        cede: None,
        zero: None,
    })
}
