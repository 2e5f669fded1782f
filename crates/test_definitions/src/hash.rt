//! A stand-in for the hash of names: their labels in lower case, each with a zero octet behind it.
//! No two names in lower case share one, and its order is not that of names.
ghost use Rattle.std.specs.Prelude.{◌≡◌, ◌∷◌, [], ◌++◌, OnOk};
ghost use Rattle.std.specs.List.{flat_map};
ghost use Rattle.std.specs.Str.{str_to_ascii_lowercase};

use definitions::reference::Octets;
use denial_laws::reference::facts::NameHash;
use std::alloc::{AllocError, Global};

/// Hashes by spelling.
#[derive(Clone, Copy, Debug)]
pub struct Spelling;

impl NameHash for Spelling {
    ghost use Rattle.test_definitions.specs.Hashing.{spelling};

    ghost hash_of = { λ _ name. spelling name };

    fn hash(&self, alloc: Global, name: &[Octets]) -> Result<Octets, AllocError> {
        let mut octets = Vec::new(alloc);
        for label in name {
            push_label(&mut octets, label.as_slice())?;
        }
        Octets::from_slice(alloc, &octets)
    }
}

/// Adds a label in lower case and a zero octet.
fn push_label(octets: &mut Vec<u8>, label: &[u8]) -> Result<(), AllocError>
    ensures { OnOk result (octets.new.items
        ≡ octets.old.items ++ (str_to_ascii_lowercase label.now ++ 0 ∷ [])) }
{
    for octet in label {
        octets.push(octet.to_ascii_lowercase())?;
    }
    Ok(octets.push(0)?)
}
