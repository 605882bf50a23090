//! The part of a list between its first and its last item that is not 0.

ghost use Rattle.std.specs.Prelude.{◌≡◌, ℕ, ◌+◌, ◌-◌, ◌<◌, ◌≤◌, length, get_or};
ghost use Rattle.dl_product.specs.Windows.{IsWindow};

/// The place of the first item that is not 0, and the one past the last; 0 and 0 where none is.
#[derive(Clone, Copy)]
pub(crate) struct Window {
    pub(crate) start: usize,
    pub(crate) end: usize,
}

/// The place of the first item that is not 0; 0 where none is.
fn start_of(xs: &[u128]) -> usize
    ensures within { result ≤ length xs.now - 1 }
    ensures zeros { (i : ℕ) → i < result → get_or xs.now i 0 ≡ 0 }
{
    for i in 0..xs.len() {
        if xs[i] != 0 {
            return i;
        }
    }
    0
}

/// The place past the last item from `start` on that is not 0.
fn end_of(xs: &[u128], start: usize) -> usize
    requires { start ≤ length xs.now }
    ensures after { start ≤ result }
    ensures within { result ≤ length xs.now }
    ensures zeros { (i : ℕ) → result ≤ i → get_or xs.now i 0 ≡ 0 }
{
    for i in start..xs.len() {
        let end = xs.len() - (i - start);
        if xs[end - 1] != 0 {
            return end;
        }
    }
    start
}

/// The window of a list.
pub(crate) fn window_of(xs: &[u128]) -> Window
    ensures { IsWindow xs.now result.start result.end }
{
    let start = start_of(xs);
    Window {
        start,
        end: end_of(xs, start),
    }
}

impl Window {
    /// The items in the window.
    pub(crate) fn part(self, xs: &[u128]) -> &[u128]
        requires { IsWindow xs.now self.start self.end }
        ensures long { length result.now ≡ self.end - self.start }
        ensures few { length result.now ≤ length xs.now }
        ensures each { (i : ℕ) → get_or result.now i 0 ≡ get_or xs.now (self.start + i) 0 }
    {
        &xs[self.start..self.end]
    }
}
