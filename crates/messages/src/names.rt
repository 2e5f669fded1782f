//! What a zone asks of its names, beyond what all names have.
ghost use Rattle.std.specs.Prelude.{◌≡◌, ℕ, ◌-◌, ◌<◌, ◌≤◌, ◌↔◌, ◌++◌, List, length, drop, None};
ghost use Rattle.std.specs.Prelude.{IfOk, OnOk, IfSome};
ghost use Rattle.definitions.specs.Name.{IsName, wire, wire_len, low};
ghost use Rattle.definitions.specs.Signing.{label_count};
ghost use Rattle.definitions.specs.Zone.{star_under};
ghost use Rattle.messages.specs.HandedRr.{has_star};
ghost use Rattle.messages.specs.Star.{begins_with_star};

pub use names_flat::name::Name;
use names_labels::flat::{behind, split_label};
use names_labels::traits::{Labels, ToLabelIter};
use names_rdata::composer::compose_canonical_name;
pub use names_traits::to_name::ToName;
pub use names_wire::octets::Octets;
use std::alloc::{AllocError, Global};

mod above;
mod read;
mod wire;

pub use above::{is_above, is_at_or_above};
pub use names_parsed::parsed::ParsedName;
pub use read::read_name;
pub use wire::{copy_name, cow_name, name_at_place, name_from_octets};

/// What a zone asks of a name.
pub trait ZoneName: Labels {
    /// How many labels the name has, the root's not counted.
    fn depth(&self) -> usize
        ensures { result ≡ length (Self.name self.now) };

    /// What every name keeps (RFC 1035, 2.3.4), for callers whose proofs need it. It does nothing.
    fn keeps(&self)
        ensures { IsName (Self.name self.now) };

    /// The name of the last `count` labels. Under an ancestor there is room for a wildcard.
    fn suffix(&self, alloc: Global, count: usize) -> Result<Name<Vec<u8>>, AllocError>
        requires { count ≤ length (Self.name self.now) }
        ensures labels { let n = Self.name self.now in
            IfOk result (λ m. m ≡ drop (length n - count) n) }
        ensures room { count < length (Self.name self.now)
            → IfOk result (λ m. wire_len (star_under m) ≤ 255) };

    /// The wildcard name under this one (RFC 4592, 2.1.1); `None` where it would be too long.
    fn wildcard_child(&self, alloc: Global) -> Result<Option<Name<Vec<u8>>>, AllocError>
        ensures some { IfOk result (λ o. IfSome o (λ n. n ≡ star_under (Self.name self.now))) }
        ensures none { let star = star_under (Self.name self.now) in
            IfOk result (λ o. (o ≡ None) ↔ (255 < wire_len star)) };

    /// Whether the first label is a star (RFC 4592, 2.1.1).
    fn is_wildcard(&self) -> bool
        ensures { result ≡ begins_with_star (Self.name self.now) };

    /// Whether any label is a star.
    fn has_star(&self) -> bool
        ensures { result ≡ has_star (Self.name self.now) };

    /// The number of labels that a signature counts: neither the root nor a leading star (RFC 4034,
    /// 3.1.3).
    fn rrsig_label_count(&self) -> u8
        ensures { result ≡ label_count (Self.name self.now) };

    /// Appends the wire form, as spelled (RFC 1035, 3.1).
    fn compose(&self, out: &mut Vec<u8>) -> Result<(), AllocError>
        ensures ok { OnOk result (out.new.items ≡ out.old.items ++ wire (Self.name self.now)) };

    /// Appends the canonical form: the wire form with letters lowered (RFC 4034, 6.2).
    fn compose_canonical(&self, out: &mut Vec<u8>) -> Result<(), AllocError>
        ensures ok { let octets = wire (low (Self.name self.now)) in
            OnOk result (out.new.items ≡ out.old.items ++ octets) };
}

impl<Octs: Octets> ZoneName for Name<Octs> {
    fn depth(&self) -> usize {
        self.label_count() - 1
    }

    fn keeps(&self) {
        let _octets = self.as_slice();
    }

    fn suffix(&self, alloc: Global, count: usize) -> Result<Name<Vec<u8>>, AllocError> {
        Name::copied(alloc, behind(self.as_slice(), self.depth() - count))
    }

    fn wildcard_child(&self, alloc: Global) -> Result<Option<Name<Vec<u8>>>, AllocError> {
        let run = self.as_slice();
        if run.len() > 253 {
            return Ok(None);
        }
        let mut octets = Vec::with_capacity(alloc, run.len() + 2)?;
        octets.extend_from_slice(b"\x01*")?;
        octets.extend_from_slice(run)?;
        Ok(Name::from_octets(octets).ok())
    }

    fn is_wildcard(&self) -> bool {
        self.first().as_slice() == b"*".as_slice()
    }

    fn has_star(&self) -> bool {
        let mut rest = self.as_slice();
        while let Some((label, behind)) = split_label(rest) {
            if label.as_slice() == b"*".as_slice() {
                return true;
            }
            rest = behind;
        }
        false
    }

    fn rrsig_label_count(&self) -> u8 {
        self.keeps();
        let count = self.depth() as u8;
        if self.is_wildcard() { count - 1 } else { count }
    }

    fn compose(&self, out: &mut Vec<u8>) -> Result<(), AllocError> {
        out.extend_from_slice(self.as_slice())
    }

    fn compose_canonical(&self, out: &mut Vec<u8>) -> Result<(), AllocError> {
        match compose_canonical_name(self, out) {
            Ok(()) => Ok(()),
            Err(_) => Err(AllocError),
        }
    }
}
