//! The data of records within a message (RFC 1035, 3.3; RFC 4034, 3.1 and 4.1; RFC 5155, 3.2), read
//! in place.
ghost use Rattle.std.specs.Prelude.{◌≡◌, ◌+◌, ◌++◌, ◌<◌, ◌≤◌, length, true, IfOk, IfSome, IfNone};
ghost use Rattle.std.specs.Prelude.{Some};
ghost use Rattle.definitions.specs.Name.{wire};
ghost use Rattle.definitions.specs.Limits.{pointer_limit};
ghost use Rattle.std.specs.Cow.{cow_slice_items};
ghost use Rattle.std.specs.Option.{option_map};
ghost use Rattle.messages.specs.Message.{rrsig_at, nsec_at, nsec3_at, nsec3_of};
ghost use Rattle.messages.specs.Message.{canonical_data, data_of, ns_data, soa_data, nsec_data};
ghost use Rattle.messages.specs.Message.{nsec3_data};
ghost use Rattle.messages.specs.Record.{hashed_link_of};
ghost use Rattle.names_parsed.specs.Parsed.{parsed_name};
ghost use Rattle.plain.specs.Ns.{ns_canonical};
ghost use Rattle.plain.specs.Soa.{soa_canonical};

use crate::octets::{clipped, u16_at};
use crate::view::ViewRecord;
use denial_data::{Nsec, Nsec3, Rrsig};
use names_labels::traits::{Absolute, Labels};
use names_parsed::parsed::ParsedName;
use names_parser::parser::Parser;
use names_rdata::data::ComposeRecordData;
use names_rdata::rtype::Rtype;
use plain::ns::Ns;
use plain::soa::Soa;
use std::alloc::{AllocError, Global};
use std::borrow::CowSlice;

impl<'a> ViewRecord<'a> {
    ghost use Rattle.messages.specs.Record.{spelled, reader_of, signature_of, link_of};

    /// The octets of the data, as far as the message has them.
    pub fn octets<'m>(&self, message: &'m [u8]) -> &'m [u8]
        ensures data { result.now ≡ data_of message.now (spelled self.now) }
        ensures few { length result.now ≤ 65535 }
    {
        clipped(message, self.start, self.start + self.length)
    }

    /// The signature that the data spell (RFC 4034, 3.1).
    pub fn signature<'m>(&self, message: &'m [u8]) -> Option<Rrsig<&'m [u8], ParsedName<'m>>>
        ensures { option_map signature_of result
            ≡ rrsig_at pointer_limit message.now (spelled self.now) }
    {
        let mut parser = self.parser(message)?;
        match Rrsig::parse(&mut parser) {
            Ok(signature) => {
                signature.keeps();
                Some(signature)
            }
            Err(_) => None,
        }
    }

    /// The type covered by the signature that the data spell (RFC 4034, 3.1.1), for callers who
    /// need only that of most signatures. Where the data are no signature it may be any type.
    pub fn covered_type(&self, message: &[u8]) -> Option<Rtype>
        ensures { IfSome (rrsig_at pointer_limit message.now (spelled self.now))
            (λ f. result ≡ Some f.0.covered) }
    {
        let covered = u16_at(message, self.start).ok()?;
        Some(Rtype::from_int(covered))
    }

    /// The link of the chain of names that the data spell (RFC 4034, 4.1).
    pub fn link<'m>(&self, message: &'m [u8]) -> Option<Nsec<&'m [u8], ParsedName<'m>>>
        ensures { option_map link_of result
            ≡ nsec_at pointer_limit message.now (spelled self.now) }
    {
        let mut parser = self.parser(message)?;
        match Nsec::parse(&mut parser) {
            Ok(link) => {
                let _next = Labels::label_count(link.next_name());
                Some(link)
            }
            Err(_) => None,
        }
    }

    /// The link of the chain of hashed names that the data spell (RFC 5155, 3.2).
    pub fn hashed_link<'m>(&self, message: &'m [u8]) -> Option<Nsec3<&'m [u8]>>
        ensures { option_map hashed_link_of result ≡ nsec3_at message.now (spelled self.now) }
    {
        read_hashed_link(self.octets(message))
    }

    /// The canonical data (RFC 4034, 6.2), borrowed where the message has them in this form. `None`
    /// where the data don't read as their type's.
    pub fn canonical_cow<'m>(
        &self,
        alloc: Global,
        message: &'m [u8],
    ) -> Result<Option<CowSlice<'m, u8>>, AllocError>
        ensures { IfOk result (λ o. option_map cow_slice_items o
            ≡ canonical_data pointer_limit message.now (spelled self.now)) }
    {
        match self.rtype {
            Rtype::NS => self.ns_data(alloc, message),
            Rtype::SOA => self.soa_data(alloc, message),
            Rtype::NSEC => self.nsec_data(alloc, message),
            Rtype::NSEC3 => match self.nsec3_data(message) {
                None => Ok(None),
                Some(octets) => Ok(Some(CowSlice::Borrowed(octets))),
            },
            _ => Ok(Some(CowSlice::Borrowed(self.octets(message)))),
        }
    }

    /// The canonical data of an NS record (RFC 1035, 3.3.11).
    fn ns_data<'m>(
        &self,
        alloc: Global,
        message: &'m [u8],
    ) -> Result<Option<CowSlice<'m, u8>>, AllocError>
        ensures { IfOk result (λ o. option_map cow_slice_items o
            ≡ ns_data pointer_limit message.now (spelled self.now)) }
    {
        match self.name_server(message) {
            None => Ok(None),
            Some(ns) => Ok(Some(CowSlice::Owned(canonical_octets(alloc, &ns)?))),
        }
    }

    /// The canonical data of an SOA record (RFC 1035, 3.3.13).
    fn soa_data<'m>(
        &self,
        alloc: Global,
        message: &'m [u8],
    ) -> Result<Option<CowSlice<'m, u8>>, AllocError>
        ensures { IfOk result (λ o. option_map cow_slice_items o
            ≡ soa_data pointer_limit message.now (spelled self.now)) }
    {
        match self.start_of_authority(message) {
            None => Ok(None),
            Some(soa) => Ok(Some(CowSlice::Owned(canonical_octets(alloc, &soa)?))),
        }
    }

    /// The canonical data of an NSEC record, whose next name isn't lowered (RFC 6840, 5.1). They
    /// are borrowed where that name stands in full.
    fn nsec_data<'m>(
        &self,
        alloc: Global,
        message: &'m [u8],
    ) -> Result<Option<CowSlice<'m, u8>>, AllocError>
        ensures { IfOk result (λ o. option_map cow_slice_items o
            ≡ nsec_data pointer_limit message.now (spelled self.now)) }
    {
        let Some(link) = self.link(message) else {
            return Ok(None);
        };
        let octets = self.octets(message);
        if is_in_full(octets, &link) {
            return Ok(Some(CowSlice::Borrowed(octets)));
        }
        Ok(Some(CowSlice::Owned(canonical_octets(alloc, &link)?)))
    }

    /// The canonical data of an NSEC3 record: they have no names, so they are the octets
    /// themselves.
    fn nsec3_data<'m>(&self, message: &'m [u8]) -> Option<&'m [u8]>
        ensures { option_map (λ s. s.now) result ≡ nsec3_data message.now (spelled self.now) }
    {
        let _link = self.hashed_link(message)?;
        Some(self.octets(message))
    }

    /// The NS data that the data spell.
    fn name_server<'m>(&self, message: &'m [u8]) -> Option<Ns<ParsedName<'m>>>
        ensures { option_map (λ d. ns_canonical parsed_name d) result
            ≡ ns_data pointer_limit message.now (spelled self.now) }
    {
        let mut parser = self.parser(message)?;
        match Ns::parse(&mut parser) {
            Ok(ns) => {
                let _server = Labels::label_count(ns.nsdname());
                Some(ns)
            }
            Err(_) => None,
        }
    }

    /// The SOA data that the data spell.
    fn start_of_authority<'m>(&self, message: &'m [u8]) -> Option<Soa<ParsedName<'m>>>
        ensures { option_map (λ d. soa_canonical parsed_name d) result
            ≡ soa_data pointer_limit message.now (spelled self.now) }
    {
        let mut parser = self.parser(message)?;
        match Soa::parse(&mut parser) {
            Ok(soa) => {
                let _first = Labels::label_count(soa.mname());
                let _second = Labels::label_count(soa.rname());
                Some(soa)
            }
            Err(_) => None,
        }
    }

    /// A parser of the data, where the message has them.
    fn parser<'m>(&self, message: &'m [u8]) -> Option<Parser<'m>>
        ensures inside { IfSome result (λ p. (p ≡ reader_of message.now (spelled self.now))
            × (self.now.start + self.now.length ≤ length message.now)) }
        ensures outside { IfNone result (length message.now < self.now.start + self.now.length) }
    {
        let mut parser = Parser::from_ref(message);
        parser.seek(self.start).ok()?;
        parser.parse_parser(self.length).ok()
    }
}

/// Whether data are as long as a link's types and its next name in full, without pointers.
fn is_in_full(octets: &[u8], link: &Nsec<&[u8], ParsedName>) -> bool
    ensures { let next = wire (parsed_name link.now.next_name) in
        result ≡ true → length octets.now ≡ length next + length link.now.types }
{
    match link.next_name().label_row() {
        None => false,
        Some(row) => { octets.len().checked_sub(row.len()) == Some(link.types().as_slice().len()) }
    }
}

/// The link of the chain of hashed names that octets spell as data (RFC 5155, 3.2).
pub fn read_hashed_link(octets: &[u8]) -> Option<Nsec3<&[u8]>>
    requires { length octets.now ≤ 65535 }
    ensures { option_map hashed_link_of result ≡ nsec3_of octets.now }
{
    let mut parser = Parser::from_ref(octets);
    match Nsec3::parse(&mut parser) {
        Ok(link) => {
            let _iterations = link.iterations();
            let _types = link.types().as_slice();
            Some(link)
        }
        Err(_) => None,
    }
}

/// The octets of data in canonical form (RFC 4034, 6.2).
pub fn canonical_octets<D: ComposeRecordData>(
    alloc: Global,
    rdata: &D,
) -> Result<Vec<u8>, AllocError>
    ensures { IfOk result (λ v. v.items ≡ D.canonical_rdata rdata.now) }
{
    let mut octets = Vec::with_capacity(alloc, 64)?;
    match rdata.compose_canonical_rdata(&mut octets) {
        Ok(()) => Ok(octets),
        Err(_) => Err(AllocError),
    }
}
