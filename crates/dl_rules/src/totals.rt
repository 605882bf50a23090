//! How large the units of a portfolio are all together.

ghost use Rattle.std.specs.Prelude.{◌≡◌, ◌*◌, ◌≤◌, ℕ, Ok, All, map, length};
ghost use Rattle.dl_limits.specs.Limits.{mean_num_bound, most_growth, most_units};
ghost use Rattle.dl_plan.specs.Valid.{IsValidUnit};
ghost use Rattle.dl_plan.specs.Prelude.{growth, whole_mean};
ghost use Rattle.dl_rules.specs.Answer.{HasFault, AnswersUnits};
ghost use Rattle.dl_rules.specs.Checked.{IsSet};
ghost use Rattle.dl_rules.specs.Faults.{fault_of_total};
ghost use Rattle.dl_rules.specs.Totals.{is_total_large, size_of};

use crate::broken::broken;
use crate::fault::CheckFault;
use crate::rule::Rule;
use crate::scale::cells;
use dl_ast::Program;
use dl_frac::Frac;
use dl_limits::{MOST_CHANGED, MOST_GROWTH, most_total};
use dl_plan::{Settings, Unit};
use dl_reading::span_if;

/// The rule on how large the units of a portfolio are all together, whose units have these in the
/// plan.
pub(crate) fn check_total(
    program: &Program,
    settings: &Settings,
    units: &[Unit],
) -> Result<(), CheckFault>
    requires set { IsSet settings.now }
    requires few { length units.now ≤ most_units }
    requires units { AnswersUnits settings.now program.now.port program.now.sevs program.now.units
        (Ok units.now) }
    ensures { HasFault (fault_of_total settings.now program.now) result }
{
    let Some(head) = &program.port else {
        return Ok(());
    };
    let is_large = is_total_large(units, cells(settings));
    broken(0, Rule::TotalTooLarge, span_if(is_large, head.name.span))
}

/// Whether more than 16 units have a changed probability of no claim, or the means of all units
/// pass what a plan on a grid of so many cells has room for.
fn is_total_large(units: &[Unit], cells: u32) -> bool
    requires few { length units.now ≤ most_units }
    requires valid { All (IsValidUnit cells) units.now }
    ensures { result ≡ is_total_large cells (map size_of units.now) }
{
    let mut changed = 0;
    let mut total = 0;
    'units: for unit in units {
        total += whole_mean(unit);
        if unit.zero.is_some() {
            changed += 1;
        }
    }
    (changed > MOST_CHANGED) | (total > most_total(cells))
}

/// A number of buckets that the mean of the outcomes of a unit of a valid plan does not pass.
fn whole_mean(unit: &Unit) -> u128
    requires { (cells : ℕ) × IsValidUnit cells unit.now }
    ensures mean { result ≡ whole_mean unit.now }
    ensures small { result ≤ most_growth * mean_num_bound }
{
    let (num, den) = unit.mean_parts();
    (growth(&unit.zero) * num).div_ceil(den)
}

/// How many times as large a change of the probability of no claim can make a mean.
fn growth(zero: &Option<Frac>) -> u128
    ensures value { result ≡ growth zero.now }
    ensures few { result ≤ most_growth }
{
    match zero {
        Some(_) => MOST_GROWTH,
        None => 1,
    }
}
