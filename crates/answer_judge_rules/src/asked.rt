//! What is asked of a zone.

use messages::names::Name;
use names_rdata::rtype::Rtype;

/// What is asked of a zone: the records of a name and a type, at or below its apex.
#[derive(Drop)]
pub struct Asked<'a> {
    pub apex: &'a Name<Vec<u8>>,
    pub name: &'a Name<Vec<u8>>,
    pub rtype: Rtype,
}
