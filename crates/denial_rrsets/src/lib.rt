//! Records that stand together by owner and by type, and walks over these groups.
#![tactic(auto)]

pub mod ends;
pub mod groups;
mod rows;
pub mod runs;
pub mod slices;
pub mod walks;
