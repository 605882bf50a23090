//! Sums of products of two lists, one product after another.

ghost use Rattle.std.specs.Prelude.{◌≡◌, ℕ, ◌+◌, ◌-◌, ◌*◌, ◌/◌, ◌^◌, ◌<◌, ◌≤◌, length, get_or};
ghost use Rattle.dl_limits.specs.Limits.{most_cell_end};
ghost use Rattle.dl_exact.specs.Count.{count_below};
ghost use Rattle.dl_convolution.specs.Sums.{pair_sum, ItemsFit};

/// The product of two ends of at most 1: one multiplication of 64 bits by 64 bits.
pub fn product_of_ends(x: u128, y: u128) -> u128
    requires first { x ≤ most_cell_end }
    requires second { y ≤ most_cell_end }
    ensures { result ≡ x * y }
{
    u128::from(x as u64) * u128::from(y as u64)
}

/// The sum of the products of the first `to` items of `a` and of the items of `b`, of those whose
/// places add up to `s`.
pub fn sum_up_to(a: &[u128], b: &[u128], s: usize, to: usize) -> u128
    requires fits { ItemsFit a.now b.now (s + 1) }
    requires inside { to ≤ length a.now }
    requires within { to ≤ s + 1 }
    ensures { result ≡ count_below to (λ k. get_or a.now k 0 * get_or b.now (s - k) 0) }
{
    let from = (s + 1).saturating_sub(b.len());
    let mut sum = 0;
    for i in from..to {
        sum += product_of_ends(a[i], b[s - i]);
    }
    sum
}

/// The sum of the products of items whose places add up to `s`, in two lists of any lengths.
fn sum_at(a: &[u128], b: &[u128], s: usize) -> u128
    requires { ItemsFit a.now b.now (s + 1) }
    ensures { result ≡ pair_sum a.now b.now s }
{
    let to = a.len().min(s + 1);
    sum_up_to(a, b, s, to)
}

/// Item `k` of a list, or 0 past its end.
fn item_or_zero(list: &[u128], k: usize) -> u128
    ensures { result ≡ get_or list.now k 0 }
{
    if k < list.len() { list[k] } else { 0 }
}

/// For two neighbouring places, `s` and `s + 1`, the sum of the products of the first `to` items of
/// `a` and of the items of `b`, of those whose places add up to it. A step loads one item of each
/// list and makes two products, since the item of `b` that place `s` takes in a step is the one that
/// place `s + 1` takes in the next. As a function of its own, which loads that item between the two
/// products, it keeps both sums in registers and makes no copy of the item.
#[inline(never)]
fn two_sums_up_to(a: &[u128], b: &[u128], s: usize, to: usize) -> (u128, u128)
    requires fits { ItemsFit a.now b.now (s + 2) }
    requires inside { to ≤ length a.now }
    requires within { to ≤ s + 1 }
    ensures first { result.0 ≡ count_below to (λ k. get_or a.now k 0 * get_or b.now (s - k) 0) }
    ensures second { result.1 ≡ count_below to (λ k. get_or a.now k 0 * get_or b.now (s + 1 - k) 0) }
{
    let from = (s + 1).saturating_sub(b.len());
    let mut item = item_or_zero(b, s + 1 - from);
    let mut first = 0;
    let mut second = 0;
    for i in from..to {
        second += product_of_ends(a[i], item);
        item = b[s - i];
        first += product_of_ends(a[i], item);
    }
    (first, second)
}

/// For two neighbouring places, `s` and `s + 1`, the sum of the products of items whose places add
/// up to it, in two lists of any lengths.
fn two_sums_at(a: &[u128], b: &[u128], s: usize) -> (u128, u128)
    requires { ItemsFit a.now b.now (s + 2) }
    ensures first { result.0 ≡ pair_sum a.now b.now s }
    ensures second { result.1 ≡ pair_sum a.now b.now (s + 1) }
{
    let (first, second) = two_sums_up_to(a, b, s, (s + 1).min(a.len()));
    // item s + 1 of a and the first of b, whose product belongs to place s + 1 alone
    let last = product_of_ends(item_or_zero(a, s + 1), item_or_zero(b, 0));
    (first, second + last)
}

/// The first items of the product of two lists of any lengths, as many as `out` has, two at a time;
/// where their number is odd, all but the last.
fn sums_by_twos(a: &[u128], b: &[u128], out: &mut [u128])
    requires { ItemsFit a.now b.now (length out.old) }
    ensures each { (s : ℕ) → s < 2 * (length out.old / 2)
        → get_or out.new s 0 ≡ pair_sum a.now b.now s }
{
    for half in 0..out.len() / 2 {
        let s = 2 * half;
        let (first, second) = two_sums_at(a, b, s);
        out[s] = first;
        out[s + 1] = second;
    }
}

/// The first items of the product of two lists of any lengths, as many as `out` has, each as the
/// sum of all its products. It takes no memory.
pub fn plain_sums(a: &[u128], b: &[u128], out: &mut [u128])
    requires { ItemsFit a.now b.now (length out.old) }
    ensures each { (s : ℕ) → s < length out.old → get_or out.new s 0 ≡ pair_sum a.now b.now s }
{
    sums_by_twos(a, b, out);
    if out.len() % 2 == 1 {
        let s = out.len() - 1;
        out[s] = sum_at(a, b, s);
    }
}
