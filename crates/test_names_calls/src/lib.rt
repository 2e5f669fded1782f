//! Tests of names that no line of `test_names` carries: buffers of fixed sizes, what is written in
//! place, walks from places, faults that no text brings, and laws. They stand in a crate of their
//! own, since a crate is proved anew with its tests.
#![tactic(auto)]

#[cfg(test)]
mod label_tests;
#[cfg(test)]
mod name_tests;
