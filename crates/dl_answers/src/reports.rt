//! The rows of a report.

ghost use Rattle.std.specs.Prelude.{◌≡◌, ◌<◌, ◌≤◌, ◌^◌, ℕ, All, IfOk, IfSome, length};
ghost use Rattle.dl_limits.specs.Limits.{most_digits};
ghost use Rattle.dl_plan.specs.At.{IsPlanAt};
ghost use Rattle.dl_plan.specs.declared.settings.Ask.TheVariants as kinds;
ghost use Rattle.dl_plan.specs.Prelude.{AreInRange};
ghost use Rattle.dl_shares.specs.Drawn.{AreDrawnOf, IsMeanOf, Reaches};
ghost use Rattle.dl_shares.specs.Source.{reach};
ghost use Rattle.dl_answers.specs.Admission.{IsAdmissionOf};
ghost use Rattle.dl_answers.specs.Answers.{AreAdmitted, IsGoodReport};
ghost use Rattle.dl_answers.specs.Grounds.{AreReached, IsAskAbout, IsGround, IsPart, cells_read, reach_of, total_of};
ghost use Rattle.dl_answers.specs.Rows.{IsAnswerTo, IsPastAbove};

use crate::admission::Admitted;
use crate::rows::{ends_row, price_row, quantile_row, tail_row};
use crate::shares::{Part, joint_of, share_row, tail_share_row, whole_share_row};
use dl_bytes::Text;
use dl_iv::Iv;
use dl_measures::{Distribution, layer_mean};
use dl_plan::{Ask, Items, Plan, Settings};
use dl_report::{Report, Row};
use dl_shares::{Drawn, source_of, sums_of};
use std::alloc::{AllocError, Global};

/// What the rows of a plan are drawn from.
#[derive(Clone, Copy)]
pub(crate) struct Ground<'a, const B: u32> {
    /// The plan.
    pub(crate) plan: &'a Plan,
    /// The grids and means that are drawn from it.
    pub(crate) drawn: &'a Drawn<B>,
    /// The running sums of the grids, in order: the first are those of the total.
    pub(crate) sums: &'a [Distribution<'a, B>],
}

/// What the shares of unit `i` are drawn from.
fn part_of<'a, const B: u32>(ground: &'a Ground<'a, B>, i: u32) -> Part<'a, B>
    requires ground { IsGround ground.now }
    requires unit { i < length ground.now.plan.now.units }
    requires there { Reaches ground.now.drawn.now i 1 }
    ensures part { IsPart result }
    ensures plan { result.plan ≡ ground.now.plan }
    ensures total { result.total.now ≡ total_of ground.now }
    ensures unit { result.i ≡ i }
    ensures reach { (n : ℕ) → Reaches ground.now.drawn.now i n → n ≤ reach result.source }
{
    Part {
        plan: ground.plan,
        total: &ground.sums[0],
        i,
        source: source_of(ground.plan, ground.drawn, ground.sums, i),
        mean: ground.drawn.means.as_slice()[i as usize],
    }
}

/// The row of an ask that names the unit with this number, if it names one.
#[tactic(auto, using(crate::proofs::Scales::ground_scale))]
fn row<const B: u32>(
    text: Text,
    digits: u32,
    ground: &Ground<B>,
    ask: &Ask,
    unit: Option<u32>,
) -> Row
    requires digits { digits ≤ most_digits }
    requires ground { IsGround ground.now }
    requires ask { IsAskAbout ground.now.plan.now unit ask.now }
    requires reached { IfSome unit (λ i.
        Reaches ground.now.drawn.now i (cells_read ground.now.plan.now.cells ask.now)) }
    ensures ask { result.ask ≡ text }
    ensures answer { IsAnswerTo (2 ^ B) ground.now.plan.now digits ask.now result }
    ensures past { IsPastAbove (reach_of (total_of ground.now)) ask.now result }
{
    let total = &ground.sums[0];
    let mean = ground.drawn.mean;
    match ask {
        Ask::Pmf(x) => ends_row(text, digits, total.at(*x)),
        Ask::Cdf(x) => ends_row(text, digits, total.cdf(*x)),
        Ask::Mean => ends_row(text, digits, mean),
        Ask::Quantile(p) => quantile_row(text, total, *p),
        Ask::LayerMean { limit, attach } => {
            ends_row(text, digits, layer_mean(total, *limit, *attach, mean))
        }
        Ask::Tail(p) => tail_row(text, digits, total, mean, *p),
        Ask::Price(terms) => price_row(text, digits, total, mean, terms.as_slice()),
        Ask::Joint { at, .. } => {
            ends_row(text, digits, joint_of(&part_of(ground, unit.unwrap()), *at))
        }
        Ask::Kappa { at, .. } => share_row(text, digits, &part_of(ground, unit.unwrap()), *at),
        Ask::Cotail { p, .. } => {
            tail_share_row(text, digits, &part_of(ground, unit.unwrap()), *p)
        }
        Ask::Share { p, .. } => {
            whole_share_row(text, digits, &part_of(ground, unit.unwrap()), *p)
        }
    }
}

/// The rows of the asks of a call that is admitted, in order, from the grids and means of the plan.
/// What the joint means of the named units are drawn from reaches all totals that the asks look at.
pub fn report<const B: u32>(
    alloc: Global,
    plan: &Plan,
    settings: &Settings,
    admitted: &Admitted,
    drawn: &Drawn<B>,
) -> Result<Report, AllocError>
    requires plan { IsPlanAt B plan.now }
    requires ranges { AreInRange settings.now }
    requires admitted { AreAdmitted plan.now settings.now }
    requires told { IsAdmissionOf (2 ^ B) plan.now settings.now.asks admitted.now }
    requires drawn { AreDrawnOf plan.now drawn.now }
    requires reached { AreReached plan.now settings.now.asks admitted.now.budgets drawn.now }
    ensures { IfOk result (IsGoodReport plan.now settings.now) }
{
    let sums = sums_of(alloc, drawn)?;
    let ground = Ground {
        plan,
        drawn,
        sums: sums.as_slice(),
    };
    let asks = settings.asks.as_slice();
    let named = admitted.named.as_slice();
    let mut rows = Vec::new(alloc);
    for i in 0..asks.len() {
        let asked = &asks[i];
        let text = Text::copy(alloc, asked.text.as_slice())?;
        rows.push(row(text, settings.digits, &ground, &asked.ask, named[i]))?;
    }
    Ok(Report {
        digits: settings.digits,
        rows: Items::from_vec(rows),
    })
}

/// The same where all asks are for the mean of the total, from that mean.
#[tactic(auto, using(crate::proofs::Scales::at_scale))]
pub fn mean_report<const B: u32>(
    alloc: Global,
    plan: &Plan,
    settings: &Settings,
    mean: Iv<B>,
) -> Result<Report, AllocError>
    requires plan { IsPlanAt B plan.now }
    requires ranges { AreInRange settings.now }
    requires means { All (λ asked. asked.ask ≡ kinds.Mean) settings.now.asks }
    requires mean { IsMeanOf plan.now mean }
    ensures { IfOk result (IsGoodReport plan.now settings.now) }
{
    let asks = settings.asks.as_slice();
    let mut rows = Vec::new(alloc);
    for i in 0..asks.len() {
        let asked = &asks[i];
        let text = Text::copy(alloc, asked.text.as_slice())?;
        rows.push(ends_row(text, settings.digits, mean))?;
    }
    Ok(Report {
        digits: settings.digits,
        rows: Items::from_vec(rows),
    })
}
