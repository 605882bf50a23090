//! Tests of sources and sinks.

mod endless;
mod streams;
