//! Tests of intervals, products of grids and transforms.

mod iv;
mod products;
mod quotients;
mod transform;
