//! Wrong rules of denial, each of which decides falsely. Each differs from those of `denial_laws`
//! in one choice, and derives from true facts about a small zone what the zone does not say.
#![tactic(auto)]

pub mod laws;
