//! The kinds of a step.

/// The kind of a step of a certificate.
#[derive(Clone, Copy)]
pub enum Kind {
    /// From nothing: the outcome 0.
    One,
    /// The part of the unit of this number, counted from 0.
    Start(u32),
    /// The convolution of two earlier steps, by their numbers, counted from 0.
    Times(u32, u32),
}
