//! Which units have the same outcomes, whatever their names are.

ghost use Rattle.std.specs.Prelude.{◌≡◌, ◌<◌, ◌≤◌, ◌⊎◌, ◌↔◌, IsTrue, IfSome, length, get_or};
ghost use Rattle.dl_plan.specs.declared.plan.Unit.{Unit as UnitOfPlan};
ghost use Rattle.dl_sources.specs.Same.{AreAlike, AreAllAlike};

use dl_frac::Frac;
use dl_plan::{Cede, CedeLayer, Freq, Item, Sev, Unit};

/// Whether two fractions are the same.
fn same_fraction(a: Frac, b: Frac) -> bool
    ensures { IsTrue result ↔ (a ≡ b) }
{
    a.num() == b.num() && a.den() == b.den()
}

/// Whether two lists of items are the same.
fn same_items(a: &[Item], b: &[Item]) -> bool
    ensures { IsTrue result ↔ (a.now ≡ b.now) }
{
    a == b
}

/// Whether two layers are the same.
fn same_layer(a: &CedeLayer, b: &CedeLayer) -> bool
    ensures { IsTrue result ↔ (a.now ≡ b.now) }
{
    same_fraction(a.share, b.share) && a.limit == b.limit && a.attach == b.attach
}

/// Whether two lists of layers are the same.
fn same_layers(a: &[CedeLayer], b: &[CedeLayer]) -> bool
    ensures { IsTrue result ↔ (a.now ≡ b.now) }
{
    if a.len() != b.len() {
        return false;
    }
    for i in 0..a.len() {
        if !same_layer(&a[i], &b[i]) {
            return false;
        }
    }
    true
}

/// Whether two aggregate clauses are the same, or there is none twice.
fn same_clause(a: &Option<Cede>, b: &Option<Cede>) -> bool
    ensures { IsTrue result ↔ (a.now ≡ b.now) }
{
    match (a, b) {
        (Some(a), Some(b)) => a.net() == b.net() && same_layers(a.layers(), b.layers()),
        (None, None) => true,
        _ => false,
    }
}

/// Whether two claim counts are the same.
fn same_count(a: &Freq, b: &Freq) -> bool
    ensures { IsTrue result ↔ (a.now ≡ b.now) }
{
    match (a, b) {
        (Freq::Fixed(m), Freq::Fixed(n)) => m == n,
        (
            Freq::Table { counts, total },
            Freq::Table {
                counts: others,
                total: sum,
            },
        ) => total == sum && same_items(counts.as_slice(), others.as_slice()),
        (Freq::Bernoulli(p), Freq::Bernoulli(q)) => same_fraction(*p, *q),
        (Freq::Binomial { trials, q }, Freq::Binomial { trials: n, q: p }) => {
            trials == n && same_fraction(*q, *p)
        }
        (Freq::Poisson(mean), Freq::Poisson(other)) => same_fraction(*mean, *other),
        (Freq::Gamma { shape, mean }, Freq::Gamma { shape: r, mean: m }) => {
            same_fraction(*shape, *r) && same_fraction(*mean, *m)
        }
        _ => false,
    }
}

/// Whether two severities are the same.
fn same_severity(a: &Sev, b: &Sev) -> bool
    ensures { IsTrue result ↔ ((a.now.items ≡ b.now.items) × (a.now.total ≡ b.now.total)) }
{
    a.total == b.total && same_items(a.items.as_slice(), b.items.as_slice())
}

/// Whether two probabilities of no claim are changed to the same, or both are not.
fn same_zero(a: &Option<Frac>, b: &Option<Frac>) -> bool
    ensures { IsTrue result ↔ (a.now ≡ b.now) }
{
    match (a, b) {
        (Some(a), Some(b)) => same_fraction(*a, *b),
        (None, None) => true,
        _ => false,
    }
}

/// Whether two units have the same severity, claim count, aggregate clause and changed probability
/// of no claim.
pub(crate) fn are_alike(a: &Unit, b: &Unit) -> bool
    ensures { IsTrue result ↔ AreAlike a.now b.now }
{
    same_count(&a.freq, &b.freq)
        && same_clause(&a.cede, &b.cede)
        && same_zero(&a.zero, &b.zero)
        && same_severity(&a.sev, &b.sev)
}

/// Whether all of these units are like the first of them, which is there.
pub(crate) fn are_all_alike(units: &[Unit]) -> bool
    requires some { 1 ≤ length units.now }
    ensures alike { IsTrue result → AreAllAlike units.now }
    ensures more { (2 ≤ length units.now) ⊎ IsTrue result }
{
    for i in 1..units.len() {
        if !are_alike(&units[0], &units[i]) {
            return false;
        }
    }
    true
}

/// The place of the first of these units that is like this one, where there is one.
pub(crate) fn first_alike(units: &[Unit], unit: &Unit) -> Option<usize>
    ensures inside { IfSome result (λ j. j < length units.now) }
    ensures alike { IfSome result (λ j. (u : UnitOfPlan)
        → AreAlike (get_or units.now j u) unit.now) }
{
    for j in 0..units.len() {
        if are_alike(&units[j], unit) {
            return Some(j);
        }
    }
    None
}
