//! The canonical orders of DNSSEC data are total, which sorted records require of their data. Each
//! law is the contract of a function that does nothing.

ghost use Rattle.std.specs.Cmp.{IsTotalOrder};

use crate::rrsig::Rrsig;
use denial_keys::dnskey::Dnskey;
use denial_keys::ds::Ds;
use denial_nsec_data::nsec::Nsec;
use denial_nsec_data::nsec3::Nsec3;
use denial_nsec_data::nsec3param::Nsec3param;
use names_rdata::canonical::CanonicalOrd;
use names_traits::to_name::ToName;
use names_wire::octets::Octets;

/// The canonical order of DNSKEY data is total.
pub fn dnskey_order_is_total<Octs: Octets>()
    ensures { IsTotalOrder ⟦<Dnskey<Octs> as CanonicalOrd>⟧.canonical }
{}

/// The canonical order of DS data is total.
pub fn ds_order_is_total<Octs: Octets>()
    ensures { IsTotalOrder ⟦<Ds<Octs> as CanonicalOrd>⟧.canonical }
{}

/// The canonical order of RRSIG data is total.
pub fn rrsig_order_is_total<Octs: Octets, N: ToName>()
    ensures { IsTotalOrder ⟦<Rrsig<Octs, N> as CanonicalOrd>⟧.canonical }
{}

/// The canonical order of NSEC data is total.
pub fn nsec_order_is_total<Octs: Octets, N: ToName>()
    ensures { IsTotalOrder ⟦<Nsec<Octs, N> as CanonicalOrd>⟧.canonical }
{}

/// The canonical order of NSEC3 data is total.
pub fn nsec3_order_is_total<Octs: Octets>()
    ensures { IsTotalOrder ⟦<Nsec3<Octs> as CanonicalOrd>⟧.canonical }
{}

/// The canonical order of NSEC3PARAM data is total.
pub fn nsec3param_order_is_total<Octs: Octets>()
    ensures { IsTotalOrder ⟦<Nsec3param<Octs> as CanonicalOrd>⟧.canonical }
{}
