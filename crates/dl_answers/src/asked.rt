//! What asks look at.

ghost use Rattle.std.specs.Prelude.{◌≡◌, ◌≤◌, ◌↔◌, IsTrue, All};
ghost use Rattle.dl_plan.specs.declared.settings.Ask.TheVariants as kinds;
ghost use Rattle.dl_budget.specs.Asks.{IsInside};
ghost use Rattle.dl_answers.specs.Grounds.{cells_read};

use dl_plan::{Ask, Asked};

/// Whether all asks are for the mean, so that no grid is needed.
pub fn are_means(asks: &[Asked]) -> bool
    ensures { IsTrue result ↔ All (λ asked. asked.ask ≡ kinds.Mean) asks.now }
{
    asks.iter().all(|asked| matches!(asked.ask, Ask::Mean))
}

/// How many cells of a grid an ask looks at, where there are `cells`: of the total, and of what the
/// joint means of the unit that it names are drawn from.
fn cells_read(cells: u32, ask: &Ask) -> u32
    requires inside { IsInside cells ask.now }
    ensures value { result ≡ cells_read cells ask.now }
    ensures within { result ≤ cells }
{
    match ask {
        Ask::Cotail { .. } | Ask::Share { .. } => cells,
        _ => ask.least_cells() as u32,
    }
}

/// The fewest cells that hold all that the asks look at, at least one, where the grid of the total
/// has `cells`: what the joint means of units are drawn from needs no more.
pub fn cells_asked(cells: u32, asks: &[Asked]) -> u32
    requires some { 1 ≤ cells }
    requires inside { All (λ asked. IsInside cells asked.ask) asks.now }
    ensures some { 1 ≤ result }
    ensures within { result ≤ cells }
    ensures inside { All (λ asked. cells_read cells asked.ask ≤ result) asks.now }
{
    let mut most = 1;
    'asks: for i in 0..asks.len() {
        most = most.max(cells_read(cells, &asks[i].ask));
    }
    most
}
