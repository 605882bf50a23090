//! How large the grid of a plan is, and the bounds of the rules that are set.

ghost use Rattle.std.specs.Prelude.{◌≡◌, ◌≤◌};
ghost use Rattle.dl_limits.specs.Limits.{most_amount};
ghost use Rattle.dl_limits.specs.Rules.{AreBounds};
ghost use Rattle.dl_rules.specs.Faults.{bounds_asked, cells_asked, most_asked};
ghost use Rattle.dl_rules.specs.Checked.{IsSet};

use dl_limits::{Bounds, bounds_of, most_amount};
use dl_plan::Settings;

/// How many cells the grid has.
pub(crate) fn cells(settings: &Settings) -> u32
    requires { IsSet settings.now }
    ensures { result ≡ cells_asked settings.now }
{
    1 << settings.log2
}

/// The bounds of the rules that are set.
#[tactic(auto, using(dl_limits::proofs::RuleBounds::bounds_within))]
pub(crate) fn bounds_asked(settings: &Settings) -> Bounds
    ensures value { result ≡ bounds_asked settings.now }
    ensures bounds { AreBounds result }
{
    bounds_of(settings.rules)
}

/// The greatest amount on that grid, in buckets.
#[tactic(auto, using(dl_limits::proofs::Scales::amount_fits))]
pub(crate) fn most_asked(settings: &Settings) -> u32
    requires { IsSet settings.now }
    ensures value { result ≡ most_asked settings.now }
    ensures fits { result ≤ most_amount }
{
    most_amount(cells(settings))
}
