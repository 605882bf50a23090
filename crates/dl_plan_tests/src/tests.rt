//! Tests of the steps of severities.

mod severities;
