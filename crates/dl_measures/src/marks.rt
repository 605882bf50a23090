//! Running sums of a list of ends, read from marks.

ghost use Rattle.std.specs.Prelude.{◌≡◌, ℕ, suc, ◌+◌, ◌-◌, ◌*◌, ◌<◌, ◌≤◌, length, IfOk};
ghost use Rattle.dl_limits.specs.Limits.{most_level_den};
ghost use Rattle.dl_exact.specs.Count.{count_below};
ghost use Rattle.dl_measures.specs.Running.{end_at, IsMark, AreFew, AreMarks, IsRunning};

use std::alloc::{AllocError, Global};

/// How many ends lie from one mark to the next.
const BLOCK: usize = 64;

/// The running sums at one cell: over the ends before it.
#[derive(Clone, Copy)]
pub(crate) struct Mark {
    /// Their sum.
    pub(crate) sum: u128,
    /// The sum of what each of the running sums, from that of one end on, leaves of 1.
    pub(crate) rest: u128,
}

/// The ends of the cells of a grid, in units of `1 / one`, with a mark after each whole block of
/// `BLOCK` ends, or with fewer marks or none. A running sum is the mark before it and a walk on
/// from there.
#[derive(Clone, Copy)]
pub(crate) struct Running<'a> {
    pub(crate) one: u128,
    pub(crate) ends: &'a [u128],
    pub(crate) marks: &'a [Mark],
}

/// The running sums of the first `last` ends, by a walk from `mark`, those of the first `first`.
fn walk(one: u128, ends: &[u128], mark: Mark, first: usize, last: usize) -> Mark
    requires few { AreFew one ends.now }
    requires mark { IsMark one (end_at ends.now) first mark }
    requires order { first ≤ last }
    requires inside { last ≤ length ends.now }
    ensures { IsMark one (end_at ends.now) last result }
{
    let mut sum = mark.sum;
    let mut rest = mark.rest;
    for x in first..last {
        sum += ends[x];
        rest += one.saturating_sub(sum);
    }
    Mark { sum, rest }
}

/// The marks of these ends, one after each whole block.
pub(crate) fn marks_of(alloc: Global, one: u128, ends: &[u128]) -> Result<Vec<Mark>, AllocError>
    requires { AreFew one ends.now }
    ensures { IfOk result (λ marks. AreMarks one ends.now marks.items) }
{
    let blocks = ends.len() / BLOCK;
    let mut marks = Vec::with_capacity(alloc, blocks)?;
    let mut mark = Mark { sum: 0, rest: 0 };
    for block in 0..blocks {
        mark = walk(one, ends, mark, block * BLOCK, (block + 1) * BLOCK);
        marks.push(mark)?;
    }
    Ok(marks)
}

impl<'a> Running<'a> {
    /// The running sums of the ends of the first `blocks` blocks.
    fn mark(self, blocks: usize) -> Mark
        requires running { IsRunning self.one self.ends.now self.marks.now }
        requires inside { blocks ≤ length self.marks.now }
        ensures { IsMark self.entry.one (end_at self.entry.ends.now) (blocks * 64) result }
    {
        if blocks == 0 {
            return Mark { sum: 0, rest: 0 };
        }
        self.marks[blocks - 1]
    }

    /// The running sums of the first `x` ends.
    pub(crate) fn at(self, x: usize) -> Mark
        requires running { IsRunning self.one self.ends.now self.marks.now }
        requires inside { x ≤ length self.ends.now }
        ensures { IsMark self.entry.one (end_at self.entry.ends.now) x result }
    {
        let blocks = (x / BLOCK).min(self.marks.len());
        walk(self.one, self.ends, self.mark(blocks), blocks * BLOCK, x)
    }

    /// What the running sums leave of 1, added up over the ends from `first` on and before `last`.
    pub(crate) fn layer(self, first: usize, last: usize) -> u128
        requires running { IsRunning self.one self.ends.now self.marks.now }
        requires order { first ≤ last }
        requires inside { last ≤ length self.ends.now }
        ensures { result ≡ count_below (last - first) (λ i. self.entry.one
            - count_below (suc (first + i)) (end_at self.entry.ends.now)) }
    {
        self.at(last).rest - self.at(first).rest
    }

    /// How many blocks can be passed over in a search for the first running sum that reaches
    /// `goal` when it is taken `den` times: none of theirs does. It is found by halving.
    fn blocks_below(self, den: u128, goal: u128) -> usize
        requires running { IsRunning self.one self.ends.now self.marks.now }
        requires den { den ≤ most_level_den }
        ensures within { result ≤ length self.entry.marks.now }
        ensures before { (x : ℕ) → x < result * 64
            → count_below (suc x) (end_at self.entry.ends.now) * den < goal }
    {
        let mut first = 0;
        let mut last = self.marks.len();
        while first < last {
            let middle = last - (last - first) / 2;
            if self.mark(middle).sum * den < goal {
                first = middle;
            } else {
                last = middle - 1;
            }
        }
        first
    }

    /// The first end up to which the running sum reaches `goal` when it is taken `den` times; the
    /// number of ends where none does.
    pub(crate) fn first_reaching(self, den: u128, goal: u128) -> u32
        requires running { IsRunning self.one self.ends.now self.marks.now }
        requires den { den ≤ most_level_den }
        ensures within { result ≤ length self.entry.ends.now }
        ensures before { (x : ℕ) → x < result
            → count_below (suc x) (end_at self.entry.ends.now) * den < goal }
        ensures reached { result < length self.entry.ends.now
            → goal ≤ count_below (suc result) (end_at self.entry.ends.now) * den }
    {
        let blocks = self.blocks_below(den, goal);
        let mut sum = self.mark(blocks).sum;
        for x in blocks * BLOCK..self.ends.len() {
            sum += self.ends[x];
            if sum * den >= goal {
                return x as u32;
            }
        }
        self.ends.len() as u32
    }
}
