//! The facts of an ask before anything is computed.

ghost use Rattle.std.specs.Prelude.{◌≡◌, option_map};
ghost use Rattle.dl_plan.specs.Facts.{facts_of};

use crate::cede::end_of;
use crate::settings::{Ask, Settings};
use dl_bytes::Text;

impl Ask {
    /// The fewest cells of a grid that the ask lies inside; 0 where any will do.
    pub fn least_cells(&self) -> u64
        ensures { result ≡ (facts_of self.now).least_cells }
    {
        match self {
            Ask::Pmf(x) | Ask::Cdf(x) => *x as u64 + 1,
            Ask::LayerMean { limit, attach } => end_of(*limit, *attach),
            Ask::Joint { at, .. } | Ask::Kappa { at, .. } => *at as u64 + 1,
            Ask::Mean
            | Ask::Quantile(_)
            | Ask::Tail(_)
            | Ask::Price(_)
            | Ask::Cotail { .. }
            | Ask::Share { .. } => 0,
        }
    }

    /// The name of the unit that the ask is about, if it names one.
    pub fn unit(&self) -> Option<&Text>
        ensures { option_map (λ name. name.now) result ≡ (facts_of self.now).unit }
    {
        match self {
            Ask::Joint { unit, .. }
            | Ask::Kappa { unit, .. }
            | Ask::Cotail { unit, .. }
            | Ask::Share { unit, .. } => Some(unit),
            _ => None,
        }
    }

    /// The most that the settings let the ask's printed ends lie apart, in units of the last digit:
    /// one width for probabilities and quantiles, another for means.
    pub fn most_width(&self, settings: &Settings) -> u64
        ensures { result ≡ (facts_of self.now).most settings.now }
    {
        match self {
            Ask::Pmf(_) | Ask::Cdf(_) | Ask::Quantile(_) => settings.width,
            _ => settings.mwidth,
        }
    }
}
