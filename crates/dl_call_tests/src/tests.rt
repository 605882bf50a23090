//! Tests of whole calls.

mod helpers;
mod hostile;
mod limits;
mod top;
