//! Joint means of one unit from its claims and one grid.

ghost use Rattle.std.specs.Prelude.{ℕ, ◌≡◌, ◌+◌, ◌-◌, ◌*◌, ◌^◌, ◌<◌, ◌≤◌, min, length};
ghost use Rattle.dl_limits.specs.Limits.{most_weights, most_claim_mean};
ghost use Rattle.dl_exact.specs.Prelude.{whole, ◌over◌, ◌*ℚ◌, sum_to};
ghost use Rattle.dl_grid.specs.Prelude.{low_at, high_at, spread, up};
ghost use Rattle.dl_plan.specs.Prelude.{weight_sum, expected_count, thinned_mean};
ghost use Rattle.dl_budget.specs.Shared.{shared_joint_budget};
ghost use Rattle.dl_model.specs.Prelude.{Series, AtMost, Holds};
ghost use Rattle.dl_model.specs.Series.{Rises};
ghost use Rattle.dl_shares.specs.Amounts.{amounts_to, claims_mean};
ghost use Rattle.dl_shares.specs.Claims.{HasClaims, claims_down, claims_up, positive_weight};

use crate::running::running_sums;
use dl_grid::units_of_one;
use dl_iv::Iv;
use dl_measures::Distribution;
use dl_plan::{Item, Unit, numerator_over};

/// The sums over the amounts up to `q`, each times its weight times the low end, and the high end,
/// of the cell at the rest of `q`.
fn cell_sums<const B: u32>(items: &[Item], total: &Distribution<B>, q: u32) -> (u128, u128)
    requires inside { q < length total.now }
    requires within { weight_sum items.now ≤ most_weights }
    ensures low { result.0 ≡ amounts_to q (low_at total.now) items.now }
    ensures high { result.1 ≡ amounts_to q (high_at total.now) items.now }
{
    prove!(total.cells() > 0);
    let mut low = 0;
    let mut high = 0;
    'items: for item in items {
        if item.amount <= q {
            let cell = total.at(q - item.amount);
            let parts = item.amount as u128 * item.weight as u128;
            low += parts * cell.lo;
            high += parts * cell.hi;
        }
    }
    (low, high)
}

/// The expected claims of a unit times the mean of one positive claim, in buckets, where the ends
/// of that mean times the weight of the positive amounts are `low` and `high`.
fn of_claims<const B: u32>(unit: &Unit, low: u128, high: u128) -> Iv<B>
    requires scale_above { 1 ≤ B }
    requires scale_below { B ≤ 56 }
    requires claims { HasClaims unit.now }
    requires order { low ≤ high }
    requires fits { high ≤ most_claim_mean * positive_weight unit.now }
    ensures low { result.lo ≡ claims_down unit.now low }
    ensures high { result.hi ≡ claims_up unit.now high }
    ensures holds { (Q R : Series) → Holds Q R
        (expected_count unit.now.freq *ℚ low over (unit.now.sev.total * 2 ^ B))
        (expected_count unit.now.freq *ℚ high over (unit.now.sev.total * 2 ^ B))
        → Holds Q R (result.lo over 2 ^ B) (result.hi over 2 ^ B) }
    ensures width { (k : ℕ)
        → high ≤ low + k * positive_weight unit.now
        → result.hi - result.lo ≤ (k + 1) * up (thinned_mean unit.now) + 1 }
{
    let mean = unit.freq.thinned(&unit.sev);
    if mean.num() == 0 {
        return Iv::point(0);
    }
    let positive = numerator_over(unit.sev.share_above_zero(), unit.sev.total);
    let one = Iv {
        lo: low / positive,
        hi: high.div_ceil(positive),
    };
    one.scale(mean.num(), mean.den())
}

/// A unit's expected number of claims above 0 times the sum, over the amounts of one claim up to
/// `q`, of the amount times its probability given that it is positive times what the grid has at
/// the rest of `q`, in buckets; no more than `q`. Of a Poisson unit this is the joint mean at the
/// total `q`, where the grid is that of the total, by Panjer's recursion; of a gamma unit, where it
/// is that of the total with the unit's extra claims; and under a common factor, where it is that of
/// the one unit in the place of all with one more in its shape.
pub(crate) fn claims_joint<const B: u32>(unit: &Unit, grid: &Distribution<B>, q: u32) -> Iv<B>
    requires claims { HasClaims unit.now }
    requires inside { q < length grid.now }
    ensures low { result.lo ≡ min
        (claims_down unit.now (amounts_to q (low_at grid.now) unit.now.sev.items)) (q * 2 ^ B) }
    ensures high { result.hi ≡ min
        (claims_up unit.now (amounts_to q (high_at grid.now) unit.now.sev.items)) (q * 2 ^ B) }
    ensures holds { (Q R : Series)
        → Holds Q R (claims_mean unit.now (2 ^ B) q (low_at grid.now))
        (claims_mean unit.now (2 ^ B) q (high_at grid.now))
        → AtMost Q R (whole q) → Holds Q R (result.lo over 2 ^ B) (result.hi over 2 ^ B) }
    ensures width { result.hi - result.lo
        ≤ shared_joint_budget (length grid.now) (spread grid.now) (thinned_mean unit.now) }
{
    prove!(grid.cells() > 0);
    let (low, high) = cell_sums(unit.sev.items.as_slice(), grid, q);
    of_claims(unit, low, high).clamp_to(q as u128 * units_of_one(B))
}

/// The sum of what `claims_joint` holds at the totals up to `q`, in buckets: the same with what the
/// grid has up to the rest of `q`. The high ends of the cells are above the low ends by no more than
/// the spread of the grid, so a running sum of them is no further above that of the low ends.
pub(crate) fn claims_sums<const B: u32>(unit: &Unit, grid: &Distribution<B>, q: u32) -> Iv<B>
    requires claims { HasClaims unit.now }
    requires inside { q < length grid.now }
    requires narrow { spread grid.now < 2 ^ B }
    ensures holds { (joint : ℕ → Series) (R : Series) → ((x : ℕ) → Rises (joint x))
        → ((x : ℕ) → x ≤ q → Holds (joint x) R (claims_mean unit.now (2 ^ B) x (low_at grid.now))
        (claims_mean unit.now (2 ^ B) x (high_at grid.now)))
        → Holds (λ N. sum_to q (λ x. joint x N)) R (result.lo over 2 ^ B) (result.hi over 2 ^ B) }
    ensures width { result.hi - result.lo
        ≤ shared_joint_budget (length grid.now) (spread grid.now) (thinned_mean unit.now) }
{
    prove!(grid.cells() > 0);
    let (low, parts) = running_sums(unit.sev.items.as_slice(), grid, q);
    of_claims(unit, low, low + parts * grid.spread())
}
