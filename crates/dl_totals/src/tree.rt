//! The sums of all units, and of all units but one, from one tree. Its leaves are the units, and each
//! node is the sum of two parts: units or earlier nodes, those with the fewest cells in use. What
//! stands outside a part of a node is what stands outside the node, and the other part. A place
//! counts the units first, and then the nodes; a root is the place of a sum that is no part yet.

ghost use Rattle.std.specs.Prelude.{◌≡◌, ℕ, ◌+◌, ◌-◌, ◌<◌, ◌≤◌, [], ◌∷◌, ◌++◌, replicate, None, if◌then◌else◌, nat_lt, nat_eq, length, get_or, All, IfOk, OnOk, IfSome, Some};
ghost use Rattle.std.specs.List.{sum_by};
ghost use Rattle.dl_grid.specs.Prelude.{IsConvolution};
ghost use Rattle.dl_totals.specs.Shared.{AreUnits, HaveCells, IsSumOfPart};
ghost use Rattle.dl_totals.specs.Tree.{sum_at, AreOthers, IsForest, IsTree, ReachDown};

use crate::no_units;
use crate::shared::no_others;
use crate::shortest::last_used;
use dl_grid::Grid;
use dl_product::{Workspace, product};
use std::alloc::{AllocError, Global};

/// The sum of two parts that have no unit in common.
#[derive(Drop)]
pub(crate) struct Node<const B: u32> {
    /// The sum of the units in it.
    pub(crate) grid: Grid<B>,
    /// The place of one part.
    pub(crate) first: usize,
    /// The place of the other part.
    pub(crate) second: usize,
    /// Whether some unit in it is asked for.
    pub(crate) asked: bool,
}

/// The sum at a place.
pub(crate) fn sum_at<'a, const B: u32>(
    units: &'a [Grid<B>],
    nodes: &'a [Node<B>],
    at: usize,
) -> &'a Grid<B>
    requires { at < length units.now + length nodes.now }
    ensures { result.now ≡ sum_at units.now nodes.now at }
{
    if at < units.len() {
        return &units[at];
    }
    &nodes[at - units.len()].grid
}

/// Whether some unit in the sum at a place is asked for.
fn is_asked<const B: u32>(asked: &[bool], nodes: &[Node<B>], at: usize) -> bool
    requires { at < length asked.now + length nodes.now }
{
    if at < asked.len() {
        return asked[at];
    }
    nodes[at - asked.len()].asked
}

/// Whether some unit in one of two sums is asked for.
fn is_either_asked<const B: u32>(
    asked: &[bool],
    nodes: &[Node<B>],
    first: usize,
    second: usize,
) -> bool
    requires first { first < length asked.now + length nodes.now }
    requires second { second < length asked.now + length nodes.now }
{
    is_asked(asked, nodes, first) || is_asked(asked, nodes, second)
}

/// The index of a root whose sum has the fewest cells in use.
fn shortest_root<const B: u32>(units: &[Grid<B>], nodes: &[Node<B>], roots: &[usize]) -> usize
    requires some { 1 ≤ length roots.now }
    requires inside { All (λ at. at < length units.now + length nodes.now) roots.now }
    ensures { result < length roots.now }
{
    let mut least = 0;
    let mut fewest = last_used(sum_at(units, nodes, roots[0]));
    for index in 1..roots.len() {
        let many = last_used(sum_at(units, nodes, roots[index]));
        if many < fewest {
            least = index;
            fewest = many;
        }
    }
    least
}

/// The node of the sums at two places.
fn node_of<const B: u32>(
    alloc: Global,
    work: &mut Workspace,
    units: &[Grid<B>],
    asked: &[bool],
    nodes: &[Node<B>],
    first: usize,
    second: usize,
    cells: u32,
) -> Result<Node<B>, AllocError>
    requires cells { HaveCells cells units.now }
    requires asked { length asked.now ≡ length units.now }
    requires first { first < length units.now + length nodes.now }
    requires second { second < length units.now + length nodes.now }
    requires long { (at : ℕ) → at < length units.now + length nodes.now
        → cells ≤ length (sum_at units.now nodes.now at) }
    ensures first { IfOk result (λ node. node.first ≡ first) }
    ensures second { IfOk result (λ node. node.second ≡ second) }
    ensures cells { IfOk result (λ node. length node.grid ≡ cells) }
    ensures convolution { IfOk result (λ node. IsConvolution cells (sum_at units.now nodes.now first)
        (sum_at units.now nodes.now second) node.grid) }
{
    let one = sum_at(units, nodes, first);
    let other = sum_at(units, nodes, second);
    let asked = is_either_asked(asked, nodes, first, second);
    let grid = product(alloc, work, one, other, cells)?;
    Ok(Node {
        grid,
        first,
        second,
        asked,
    })
}

/// The two roots whose sums have the fewest cells in use become the parts of a node, which is a root
/// in their place.
fn join_two<const B: u32>(
    alloc: Global,
    work: &mut Workspace,
    units: &[Grid<B>],
    asked: &[bool],
    nodes: &mut Vec<Node<B>>,
    roots: &mut Vec<usize>,
    cells: u32,
) -> Result<(), AllocError>
    requires roots { 2 ≤ length roots.old.items }
    requires cells { HaveCells cells units.now }
    requires asked { length asked.now ≡ length units.now }
    requires forest { IsForest cells units.now nodes.old.items roots.old.items }
    ensures more { OnOk result (length nodes.new.items ≡ length nodes.old.items + 1) }
    ensures fewer { OnOk result (length roots.new.items + 1 ≡ length roots.old.items) }
    ensures forest { OnOk result (IsForest cells units.now nodes.new.items roots.new.items) }
{
    let first = roots.remove(shortest_root(units, nodes.as_slice(), roots.as_slice()));
    let second = roots.remove(shortest_root(units, nodes.as_slice(), roots.as_slice()));
    let node = node_of(
        alloc,
        work,
        units,
        asked,
        nodes.as_slice(),
        first,
        second,
        cells,
    )?;
    roots.push(units.len() + nodes.len())?;
    nodes.push(node)?;
    Ok(())
}

/// The places from 0 on, `many` of them.
fn first_places(alloc: Global, many: usize) -> Result<Vec<usize>, AllocError>
    ensures many { IfOk result (λ roots. length roots.items ≡ many) }
    ensures each { IfOk result (λ roots. (i : ℕ) (d : ℕ) → i < many → get_or roots.items i d ≡ i) }
    ensures once { IfOk result (λ roots. (i : ℕ) →
        sum_by (λ at. if nat_eq i at then 1 else 0) roots.items ≡ (if nat_lt i many then 1 else 0)) }
{
    let mut roots = Vec::new(alloc);
    for at in 0..many {
        roots.push(at)?;
    }
    Ok(roots)
}

/// Joins the two shortest roots until one is left; the roots are the units at first.
fn join_all<const B: u32>(
    alloc: Global,
    work: &mut Workspace,
    units: &[Grid<B>],
    asked: &[bool],
    nodes: &mut Vec<Node<B>>,
    roots: &mut Vec<usize>,
    cells: u32,
) -> Result<(), AllocError>
    requires cells { AreUnits cells units.now }
    requires asked { length asked.now ≡ length units.now }
    requires many { length roots.old.items ≡ length units.now }
    requires forest { IsForest cells units.now nodes.old.items roots.old.items }
    ensures { OnOk result (IsTree cells units.now nodes.new.items) }
{
    for _ in 1..units.len() {
        join_two(alloc, work, units, asked, nodes, roots, cells)?;
    }
    Ok(())
}

/// The nodes of a tree over all units, the shortest sums first, as in Huffman's tree: one fewer than
/// there are units. The last one is the sum of all units.
pub(crate) fn nodes_over<const B: u32>(
    alloc: Global,
    work: &mut Workspace,
    units: &[Grid<B>],
    asked: &[bool],
    cells: u32,
) -> Result<Vec<Node<B>>, AllocError>
    requires cells { AreUnits cells units.now }
    requires asked { length asked.now ≡ length units.now }
    ensures { IfOk result (λ nodes. IsTree cells units.now nodes.items) }
{
    let mut nodes = Vec::new(alloc);
    let mut roots = first_places(alloc, units.len())?;
    join_all(alloc, work, units, asked, &mut nodes, &mut roots, cells)?;
    Ok(nodes)
}

/// The sum of the units outside a part, where some unit in it is asked for: of those outside its
/// node and of the other part.
fn outside_part<const B: u32>(
    alloc: Global,
    work: &mut Workspace,
    outside: &Grid<B>,
    other: &Grid<B>,
    asked: bool,
    cells: u32,
) -> Result<Option<Grid<B>>, AllocError>
    requires some { 1 ≤ cells }
    requires in_outside { cells ≤ length outside.now }
    requires in_other { cells ≤ length other.now }
    ensures cells { IfOk result (λ sum. IfSome sum (λ g. length g ≡ cells)) }
    ensures convolution { IfOk result (λ sum.
        IfSome sum (IsConvolution cells outside.now other.now)) }
{
    if !asked {
        return Ok(None);
    }
    let sum = product(alloc, work, outside, other, cells)?;
    Ok(Some(sum))
}

/// Makes the sums of all units outside each of a node's two parts from `sum`, that of all units
/// outside the node, and puts each at the place of its part.
fn parts_down<const B: u32>(
    alloc: Global,
    work: &mut Workspace,
    units: &[Grid<B>],
    asked: &[bool],
    left: &[Node<B>],
    node: &Node<B>,
    sum: &Grid<B>,
    outer: &mut Vec<Option<Grid<B>>>,
    cells: u32,
) -> Result<(), AllocError>
    requires cells { HaveCells cells units.now }
    requires asked { length asked.now ≡ length units.now }
    requires down { ReachDown cells units.now (left.now ++ node.now ∷ [])
        (outer.old.items ++ Some sum.now ∷ []) }
    ensures { OnOk result (ReachDown cells units.now left.now outer.new.items) }
{
    let one = sum_at(units, left, node.first);
    let other = sum_at(units, left, node.second);
    let asked_first = is_asked(asked, left, node.first);
    let asked_second = is_asked(asked, left, node.second);
    let of_first = outside_part(alloc, work, sum, other, asked_first, cells)?;
    outer[node.first] = of_first;
    let of_second = outside_part(alloc, work, sum, one, asked_second, cells)?;
    outer[node.second] = of_second;
    Ok(())
}

/// The last node and what stands outside it leave the lists, and what stands outside its parts is
/// there instead.
fn one_node_down<const B: u32>(
    alloc: Global,
    work: &mut Workspace,
    units: &[Grid<B>],
    asked: &[bool],
    nodes: &mut Vec<Node<B>>,
    outer: &mut Vec<Option<Grid<B>>>,
    cells: u32,
) -> Result<(), AllocError>
    requires cells { HaveCells cells units.now }
    requires asked { length asked.now ≡ length units.now }
    requires down { ReachDown cells units.now nodes.old.items outer.old.items }
    ensures fewer { OnOk result (length nodes.new.items ≡ length nodes.old.items - 1) }
    ensures down { OnOk result (ReachDown cells units.now nodes.new.items outer.new.items) }
{
    let Some(node) = nodes.pop() else {
        return Ok(());
    };
    let Some(Some(sum)) = outer.pop() else {
        return Ok(());
    };
    parts_down(
        alloc,
        work,
        units,
        asked,
        nodes.as_slice(),
        &node,
        &sum,
        outer,
        cells,
    )
}

/// `many` times none, and then this sum.
fn none_but_last<const B: u32>(
    alloc: Global,
    many: usize,
    last: Grid<B>,
) -> Result<Vec<Option<Grid<B>>>, AllocError>
    ensures { IfOk result (λ outer. outer.items ≡ replicate many None ++ Some last.entry ∷ []) }
{
    let mut outer = no_others(alloc, many)?;
    outer.push(Some(last))?;
    Ok(outer)
}

/// For each place none, but for the last one, outside of which there is no unit.
fn outside_all<const B: u32>(
    alloc: Global,
    units: &[Grid<B>],
    nodes: &[Node<B>],
    cells: u32,
) -> Result<Vec<Option<Grid<B>>>, AllocError>
    requires cells { AreUnits cells units.now }
    requires tree { IsTree cells units.now nodes.now }
    ensures { IfOk result (λ outer. ReachDown cells units.now nodes.now outer.items) }
{
    let none = no_units(alloc, &units[0], cells)?;
    none_but_last(alloc, units.len() + nodes.len() - 1, none)
}

/// Takes off all nodes, the last one first: `outer` becomes for each unit none or the sum of all
/// other units, which is there where the unit is asked for.
fn all_down<const B: u32>(
    alloc: Global,
    work: &mut Workspace,
    units: &[Grid<B>],
    asked: &[bool],
    nodes: &mut Vec<Node<B>>,
    outer: &mut Vec<Option<Grid<B>>>,
    cells: u32,
) -> Result<(), AllocError>
    requires cells { HaveCells cells units.now }
    requires asked { length asked.now ≡ length units.now }
    requires down { ReachDown cells units.now nodes.old.items outer.old.items }
    ensures many { OnOk result (length outer.new.items ≡ length units.now) }
    ensures each { OnOk result (AreOthers cells units.now outer.new.items) }
{
    for _ in 0..nodes.len() {
        one_node_down(alloc, work, units, asked, nodes, outer, cells)?;
    }
    Ok(())
}

/// For each unit none or the sum of all other units, which is there where the unit is asked for.
pub(crate) fn outside_units<const B: u32>(
    alloc: Global,
    work: &mut Workspace,
    units: &[Grid<B>],
    asked: &[bool],
    nodes: Vec<Node<B>>,
    cells: u32,
) -> Result<Vec<Option<Grid<B>>>, AllocError>
    requires cells { AreUnits cells units.now }
    requires asked { length asked.now ≡ length units.now }
    requires tree { IsTree cells units.now nodes.items }
    ensures many { IfOk result (λ outer. length outer.items ≡ length units.now) }
    ensures each { IfOk result (λ outer. AreOthers cells units.now outer.items) }
{
    let mut nodes = nodes;
    let mut outer = outside_all(alloc, units, nodes.as_slice(), cells)?;
    all_down(alloc, work, units, asked, &mut nodes, &mut outer, cells)?;
    Ok(outer)
}

/// The sum of all units, which is the one at the last place.
pub(crate) fn sum_of_all<const B: u32>(
    alloc: Global,
    units: &[Grid<B>],
    nodes: &[Node<B>],
    cells: u32,
) -> Result<Grid<B>, AllocError>
    requires cells { AreUnits cells units.now }
    requires tree { IsTree cells units.now nodes.now }
    ensures { IfOk result (λ sum. IsSumOfPart cells units.now (λ us. us) (Some sum)) }
{
    let last = units.len() + nodes.len() - 1;
    Grid::truncate(alloc, sum_at(units, nodes, last), cells)
}
