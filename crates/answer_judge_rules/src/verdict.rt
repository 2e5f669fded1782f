//! What a zone says of a name and a type.
ghost use Rattle.std.specs.Prelude.{◌≡◌, map};

use std::marker::Model;

/// Canonical data of an RRset, in ascending order of octets. A contract sees a list of octets.
#[derive(Debug, Drop)]
pub struct DataList {
    items: Vec<Vec<u8>>,
}

impl Model for DataList {
    ghost use Rattle.std.specs.Prelude.{List, ℕ, map};

    ghost Value = { List (List ℕ) };

    ghost view = { λ d. map (λ v. v.items) d.items.items };
}

impl DataList {
    /// A list of data.
    pub fn new(items: Vec<Vec<u8>>) -> Self
        ensures { result ≡ map (λ v. v.items) items.items }
    {
        DataList { items }
    }

    /// The data, ascending.
    pub fn as_slice(&self) -> &[Vec<u8>]
        ensures { map (λ v. v.items) result.now ≡ self.now }
    {
        &self.items
    }
}

/// What a zone says of a name and a type.
#[derive(Debug, Drop)]
pub enum Verdict {
    /// The name has records of the type: these data.
    Records(DataList),
    /// The name exists and has no record of the type.
    NoType,
    /// The name does not exist, and no wildcard stands for it.
    NoName,
    /// A wildcard stands for the name, with these data (RFC 4592).
    StarRecords(DataList),
    /// A wildcard stands for the name and has no record of the type.
    StarNoType,
    /// The name is at or below a delegation.
    Delegated,
    /// An opt-out chain leaves open what is there (RFC 5155, 6).
    Open,
    /// The DS set is empty, so nothing vouches for the zone's keys (RFC 4035, 5.2).
    Unsigned,
}
