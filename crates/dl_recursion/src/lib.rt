//! Grids of compound Poisson and compound gamma sums by Panjer's recursion at the full mean
//! (Klugman, Panjer and Willmot, Loss Models, "The recursive method"). The cells are numbers of 64
//! bits that share one exponent: where one grows too large all are shifted down, low ends by floor
//! and high ends by ceiling. Cell 0 is 1 until the end, when each cell is multiplied by the
//! probability of no claim. The recursion goes over the multiples of the common divisor of the
//! amounts alone, since no other sum has a probability above 0.
//!
//! `parts` makes the amounts and their weights of a severity, in steps of their common divisor,
//! rows of one weight as runs; `sums` adds up what they give to the next cell; `quotient` divides;
//! `recursion` adds the cell and shifts; `rest` has the cells past those that count; `passes` makes
//! the cells of a gamma count of a small shape without a division, where the amounts are one run;
//! `blocks` makes those of a Poisson count with many amounts that are in no run, with one product
//! of two lists for each block of cells; `to_grid` makes the grid, from the probability of no claim
//! of `dl_start`, and `direct` has the two counts.
//!
//! `poisson_direct` and `gamma_direct` give a grid that encloses the compound sum, or none
//! (`encloses`). No clause says when there is none: `unit_grid_with` of `dl_unit` then makes the
//! unit from equal parts of its mean, with the same contract, which costs time alone. What a run of
//! amounts gives to a cell by its window, two sums over cells that move on with each cell, is what
//! its amounts give one by one (`runs_contribution`), and a quotient that was guessed is the
//! quotient (`quotient`), so neither changes an answer. Nor do blocks: what the cells give to the
//! next one is the same sum (the clause of `with_block`). A gamma count of any shape takes the same
//! steps: an amount counts by the shape and the cells before it by 1, both times the divisor of the
//! shape (`contribution`), so that no number is negative. One of a whole shape up to 8 whose amounts
//! are one run goes by as many passes, each of which raises the shape by one (`round` of
//! `pass`; `raised_next` of its proofs), with the same contract. Where all amounts are multiples of
//! a number, the sums of claims are those of the amounts over it, at its multiples, and 0 between
//! (`multiples_enclose` of `dl_model`).
#![tactic(auto)]

mod blocks;
mod cells;
mod direct;
mod parts;
mod passes;
mod quotient;
mod recursion;
mod rest;
mod sums;
mod to_grid;

pub use direct::{gamma_direct, poisson_direct};
