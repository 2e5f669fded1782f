//! What a zone asks of its keys, beside what all DNSKEY data have (RFC 4034, 2).
ghost use Rattle.std.specs.Prelude.{◌≡◌, ◌≤◌, ◌++◌, length, IfOk, OnOk};
ghost use Rattle.definitions.specs.Dnskey.{Dnskey as Key, digested, dnskey_data, dnskey_of_data};

pub use denial_keys::dnskey::Dnskey;
use messages::names::{Name, Octets, ZoneName};
use names_parser::parser::Parser;
use names_rdata::data::ComposeRecordData;
use std::alloc::{AllocError, Global};

/// What a zone asks of a key.
pub trait ZoneKey {
    /// Flags, protocol, algorithm and octets.
    ghost fields: { Self → Key };

    /// This key over a slice of its octets.
    fn for_ref(&self) -> Dnskey<&[u8]>
        ensures { result ≡ fields self.now };

    /// A copy of this key with octets of its own.
    fn try_clone(&self, alloc: Global) -> Result<Dnskey<Vec<u8>>, AllocError>
        ensures { IfOk result (λ k. k ≡ fields self.now) };

    /// Writes a DNSKEY record's data at the end (RFC 4034, 2.1).
    fn compose(&self, out: &mut Vec<u8>) -> Result<(), AllocError>
        ensures ok { let octets = dnskey_data (fields self.now) in
            OnOk result (out.new.items ≡ out.old.items ++ octets) };

    /// What a DS record's digest is made of: the owner in canonical form and the record's data
    /// (RFC 4034, 5.1.4).
    fn digested(&self, alloc: Global, owner: &Name<Vec<u8>>) -> Result<Vec<u8>, AllocError>
        ensures { IfOk result (λ v. v.items ≡ digested owner.now (fields self.now)) };
}

impl<Octs: Octets> ZoneKey for Dnskey<Octs> {
    ghost fields = { λ k. k };

    fn for_ref(&self) -> Dnskey<&[u8]> {
        let _len = self.rdlen(false);
        Dnskey::new_unchecked(
            self.flags(),
            self.protocol(),
            self.algorithm(),
            self.public_key().as_slice(),
        )
    }

    fn try_clone(&self, alloc: Global) -> Result<Dnskey<Vec<u8>>, AllocError> {
        let _len = self.rdlen(false);
        let public_key = self.public_key().as_slice().to_vec(alloc)?;
        Ok(Dnskey::new_unchecked(self.flags(), self.protocol(), self.algorithm(), public_key))
    }

    fn compose(&self, out: &mut Vec<u8>) -> Result<(), AllocError> {
        self.compose_rdata(out).map_err(|_| AllocError)
    }

    fn digested(&self, alloc: Global, owner: &Name<Vec<u8>>) -> Result<Vec<u8>, AllocError> {
        let key = self.public_key().as_slice().len().saturating_add(4);
        let mut octets = Vec::with_capacity(alloc, owner.as_slice().len().saturating_add(key))?;
        owner.compose_canonical(&mut octets)?;
        self.compose(&mut octets)?;
        Ok(octets)
    }
}

/// The key that a DNSKEY record's data spell, over the same octets; None where they end within the
/// fields before the key (RFC 4034, 2.1).
pub fn key_of_data(rdata: &[u8]) -> Option<Dnskey<&[u8]>>
    requires { length rdata.now ≤ 65535 }
    ensures { result ≡ dnskey_of_data rdata.now }
{
    match Dnskey::parse(&mut Parser::from_ref(rdata)) {
        Ok(key) => {
            let _flags = key.flags();
            Some(key)
        }
        Err(_) => None,
    }
}
