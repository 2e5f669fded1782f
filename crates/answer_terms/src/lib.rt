//! Terms that the publisher and the judge share: accepted zones, allowed questions, what an answer
//! contains. Also which bytes spell an answer, how a zone uses its keys, and where a DNAME leads.
#![tactic(auto)]

pub mod dnskey;
pub mod laws;
pub mod mode;
pub mod owner;
pub mod question;
pub mod ranked;
pub mod redirection;
