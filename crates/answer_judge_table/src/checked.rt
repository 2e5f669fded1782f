//! Signatures that a caller has checked.
ghost use Rattle.std.specs.Prelude.{◌≡◌};
ghost use Rattle.definitions.specs.Dnskey.{same_key};
ghost use Rattle.answer_judge_table.specs.Table.{is_entry_of, told, tried};

use denial_data::Dnskey;
use messages::names::Octets;
use std::marker::Model;

/// A signature that a caller has checked with a key and octets, and whether it passes: an entry of
/// a table.
#[derive(Debug, Drop)]
pub struct CheckedSignature<'a> {
    pub key: Dnskey<&'a [u8]>,
    /// What the signature is made over (RFC 4034, 3.1.8.1).
    pub octets: &'a [u8],
    pub signature: &'a [u8],
    pub passes: bool,
}

impl<'a> Model for CheckedSignature<'a> {
    ghost use Rattle.answer_judge_table.specs.Table.{Checked, tried};

    ghost Value = { Checked };

    ghost view = { λ c. record {
      tried = tried c.key c.octets.now c.signature.now;
      passes = c.passes;
    } };
}

impl<'a> CheckedSignature<'a> {
    /// Whether it is this signature, checked with this key and these octets.
    fn is_of(&self, key: &Dnskey<&[u8]>, octets: &[u8], signature: &[u8]) -> bool
        ensures { result ≡ is_entry_of (tried key.now octets.now signature.now) self.now }
    {
        self.signature == signature && self.octets == octets && is_same_key(&self.key, key)
    }
}

/// Whether two keys are the same, however their octets are kept.
pub(crate) fn is_same_key<A: Octets, B: Octets>(key: &Dnskey<A>, other: &Dnskey<B>) -> bool
    ensures { result ≡ same_key key.now other.now }
{
    key.flags() == other.flags()
        && key.protocol() == other.protocol()
        && key.algorithm() == other.algorithm()
        && key.public_key().as_slice() == other.public_key().as_slice()
}

/// What the first entry of a signature says; nothing where the table does not have it.
pub fn entry_of(
    table: &[CheckedSignature],
    key: &Dnskey<&[u8]>,
    octets: &[u8],
    signature: &[u8],
) -> Option<bool>
    ensures { let t = tried key.now octets.now signature.now in result ≡ told table.now t }
{
    for entry in table {
        if entry.is_of(key, octets, signature) {
            return Some(entry.passes);
        }
    }
    None
}
