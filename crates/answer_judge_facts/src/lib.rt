//! What signatures verify in two messages under the keys that a DS set trusts: the facts that
//! decide a verdict.
#![tactic(auto)]

pub mod facts;
pub mod groups;
pub mod key_rrset;
pub mod times;
pub mod validity;

pub use answer_judge_keys as keys;
