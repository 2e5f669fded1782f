//! Laws of moments of a clock, where the lines of a zone have whole seconds: which second a report
//! is of, so that what caches may hold is not retired.
#![tactic(auto)]

pub mod laws;
