//! Signatures that a caller has made.
ghost use Rattle.std.specs.Prelude.{◌≡◌};
ghost use Rattle.std.specs.Option.{option_copied};
ghost use Rattle.definitions.specs.Dnskey.{same_key};
ghost use Rattle.answer_publisher.specs.Inputs.{input};
ghost use Rattle.server_signatures.specs.Table.{is_of, signature_in};

use denial_keys::dnskey::Dnskey;
use std::marker::Model;

/// A signature that was made with a key over octets: an entry of a table.
#[derive(Debug, Drop)]
pub struct MadeSignature<'a> {
    pub key: Dnskey<&'a [u8]>,
    /// What the signature is made over (RFC 4034, 3.1.8.1).
    pub octets: &'a [u8],
    pub signature: &'a [u8],
}

impl<'a> Model for MadeSignature<'a> {
    ghost use Rattle.answer_publisher.specs.Inputs.{input};
    ghost use Rattle.server_signatures.specs.Table.{Made, made};

    ghost Value = { Made };

    ghost view = { λ m. made (input m.key m.octets.now) m.signature.now };
}

impl<'a> MadeSignature<'a> {
    /// Whether the signature was made with this key over these octets.
    fn is_of(&self, key: &Dnskey<&[u8]>, octets: &[u8]) -> bool
        ensures { result ≡ is_of (input key.now octets.now) self.now }
    {
        self.octets == octets && is_same_key(&self.key, key)
    }
}

/// Whether two keys are the same.
fn is_same_key(key: &Dnskey<&[u8]>, other: &Dnskey<&[u8]>) -> bool
    ensures { result ≡ same_key key.now other.now }
{
    key.flags() == other.flags()
        && key.protocol() == other.protocol()
        && key.algorithm() == other.algorithm()
        && key.public_key() == other.public_key()
}

/// The first signature of a table that was made with a key over octets.
pub(crate) fn signature_in<'a>(
    table: &[MadeSignature<'a>],
    key: &Dnskey<&[u8]>,
    octets: &[u8],
) -> Option<&'a [u8]>
    ensures { let found = signature_in table.now (input key.now octets.now) in
        option_copied result ≡ found }
{
    for entry in table {
        if entry.is_of(key, octets) {
            return Some(entry.signature);
        }
    }
    None
}
