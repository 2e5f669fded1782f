//! The start of a zone of authority (RFC 1035, 3.3.13).

ghost use Rattle.std.specs.Prelude.{◌≡◌, ◌++◌, true, length, take, IfOk, OnOk, OnErr};
ghost use Rattle.std.specs.Int.{w32, to_be_bytes};
ghost use Rattle.std.specs.Ordering.{nat_cmp};
ghost use Rattle.std.specs.Cmp.Lexicographic.{slice_cmp};
ghost use Rattle.definitions.specs.Name.{wire, low};
ghost use Rattle.names_wire.specs.Room.{LeavesRoom};
ghost use Rattle.names_parsed.specs.Parsed.{parsed_name};
ghost use Rattle.names_rdata.specs.Reading.{ReadsPart, ReadsData, data_at};
ghost use Rattle.plain.specs.Soa.{soa_octets, soa_canonical, soa_part, times_octets};

use names_labels::order::lowercase_composed_cmp;
use names_labels::traits::{Absolute, Labels, ToLabelIter};
use names_parsed::parsed::ParsedName;
use names_parser::error::ParseError;
use names_parser::parser::Parser;
use names_parser::serial::Serial;
use names_rdata::canonical::CanonicalOrd;
use names_rdata::composer::{Composer, compose_canonical_name, or_undone};
use names_rdata::data::{ComposeRecordData, ParseRecordData, RecordData};
use names_rdata::reading::{closed, parse_array, parse_name};
use names_rdata::rtype::Rtype;
use names_wire::builder::{OctetsBuilder, ShortBuf};
use numbers::ttl::Ttl;
use std::cmp::Ordering;

/// The numbers of the data, in their order; times in seconds.
#[derive(Clone, Copy, Debug, PartialEq, Eq, PartialOrd, Ord, Hash)]
struct Times {
    serial: u32,
    refresh: u32,
    retry: u32,
    expire: u32,
    minimum: u32,
}

impl Times {
    fn octets(&self) -> [u8; 20]
        ensures { result ≡ times_octets self.now }
    {
        let [a, b, c, d] = self.serial.to_be_bytes();
        let [e, f, g, h] = self.refresh.to_be_bytes();
        let [i, j, k, l] = self.retry.to_be_bytes();
        let [m, n, o, p] = self.expire.to_be_bytes();
        let [q, r, s, t] = self.minimum.to_be_bytes();
        [a, b, c, d, e, f, g, h, i, j, k, l, m, n, o, p, q, r, s, t]
    }

    fn of_octets(octets: [u8; 20]) -> Self
        ensures { times_octets result ≡ octets }
    {
        let [a, b, c, d, e, f, g, h, i, j, k, l, m, n, o, p, q, r, s, t] = octets;
        Times {
            serial: number([a, b, c, d]),
            refresh: number([e, f, g, h]),
            retry: number([i, j, k, l]),
            expire: number([m, n, o, p]),
            minimum: number([q, r, s, t]),
        }
    }
}

fn number(octets: [u8; 4]) -> u32
    ensures { to_be_bytes w32 result ≡ octets }
{
    u32::from_be_bytes(octets)
}

/// SOA data. They are equal, ordered and hashed by their names first and then by their numbers.
#[derive(Clone, Copy, Debug, PartialEq, Eq, PartialOrd, Ord, Hash, Drop)]
pub struct Soa<N> {
    mname: N,
    rname: N,
    times: Times,
}

impl<N> Soa<N> {
    /// The primary name server, the mailbox of the person responsible (as a name), the serial
    /// number, the refresh, retry and expire intervals, and the TTL of negative answers (RFC 2308,
    /// 4).
    pub fn new(
        mname: N,
        rname: N,
        serial: Serial,
        refresh: Ttl,
        retry: Ttl,
        expire: Ttl,
        minimum: Ttl,
    ) -> Self
        ensures mname { result.mname ≡ mname }
        ensures rname { result.rname ≡ rname }
        ensures serial { result.times.serial ≡ serial.0 }
        ensures refresh { result.times.refresh ≡ refresh }
        ensures retry { result.times.retry ≡ retry }
        ensures expire { result.times.expire ≡ expire }
        ensures minimum { result.times.minimum ≡ minimum }
    {
        Soa {
            mname,
            rname,
            times: Times {
                serial: serial.into_int(),
                refresh: refresh.as_secs(),
                retry: retry.as_secs(),
                expire: expire.as_secs(),
                minimum: minimum.as_secs(),
            },
        }
    }

    pub fn mname(&self) -> &N
        ensures { result.now ≡ self.now.mname }
    {
        &self.mname
    }

    pub fn rname(&self) -> &N
        ensures { result.now ≡ self.now.rname }
    {
        &self.rname
    }

    pub fn serial(&self) -> Serial
        ensures { result.0 ≡ self.now.times.serial }
    {
        Serial(self.times.serial)
    }

    pub fn refresh(&self) -> Ttl
        ensures { result ≡ self.now.times.refresh }
    {
        Ttl::from_secs(self.times.refresh)
    }

    pub fn retry(&self) -> Ttl
        ensures { result ≡ self.now.times.retry }
    {
        Ttl::from_secs(self.times.retry)
    }

    pub fn expire(&self) -> Ttl
        ensures { result ≡ self.now.times.expire }
    {
        Ttl::from_secs(self.times.expire)
    }

    pub fn minimum(&self) -> Ttl
        ensures { result ≡ self.now.times.minimum }
    {
        Ttl::from_secs(self.times.minimum)
    }
}

impl<N> Soa<N> {
    /// The octets of the five numbers.
    pub(crate) fn numbers(&self) -> [u8; 20]
        ensures { result ≡ times_octets self.now.times }
    {
        self.times.octets()
    }
}

impl<'a> Soa<ParsedName<'a>> {
    /// Reads the data up to the parser's end. A refused call leaves the parser where it was.
    pub fn parse(parser: &mut Parser<'a>) -> Result<Self, ParseError>
        ensures { let found = data_at soa_part parser.old in
            ReadsData found (soa_octets parsed_name) parser.old parser.new result }
    {
        let (_message, start) = (parser.as_slice(), parser.pos());
        let found = parse_fields(parser);
        closed(parser, start, found)
    }
}

fn parse_fields<'a>(parser: &mut Parser<'a>) -> Result<Soa<ParsedName<'a>>, ParseError>
    ensures { ReadsPart soa_part (soa_octets parsed_name) parser.old parser.new result }
{
    let mname = parse_name(parser)?;
    let rname = parse_name(parser)?;
    let times = Times::of_octets(parse_array(parser)?);
    Ok(Soa {
        mname,
        rname,
        times,
    })
}

impl<N: Absolute> RecordData for Soa<N> {
    ghost use Rattle.plain.specs.SoaLaws.{soa_as_long};

    ghost type_of = { λ _. 6 };

    ghost rdata = { soa_octets N.name };

    ghost canonical_rdata = { soa_canonical N.name };

    ghost as_long = { soa_as_long N.name };

    fn rtype(&self) -> Rtype {
        Rtype::SOA
    }
}

impl<N: Absolute> ComposeRecordData for Soa<N> {
    ghost compressible = { λ _. true };

    fn rdlen(&self, compress: bool) -> Option<u16> {
        if compress {
            return None;
        }
        let _short = (self.mname.label_count(), self.rname.label_count());
        Some(self.mname.compose_len() + self.rname.compose_len() + 20)
    }

    fn compose_rdata<B: Composer>(&self, target: &mut B) -> Result<(), ShortBuf> {
        let len = target.as_slice().len();
        let done = compose_fields(self, target);
        or_undone(target, len, done)
    }

    fn compose_canonical_rdata<B: Composer>(&self, target: &mut B) -> Result<(), ShortBuf> {
        let len = target.as_slice().len();
        let done = compose_canonical_fields(self, target);
        or_undone(target, len, done)
    }
}

/// Appends the fields. A refused call leaves the fields for which there was room.
fn compose_fields<N: Absolute, B: Composer>(soa: &Soa<N>, target: &mut B) -> Result<(), ShortBuf>
    ensures ok { let octets = soa_octets N.name soa.now in
        OnOk result (B.bytes target.new ≡ B.bytes target.old ++ octets) }
    ensures err { let old = B.bytes target.old in
        OnErr result (take (length old) (B.bytes target.new) ≡ old) }
    ensures full { OnErr result (B.lacks_room target.old (length (soa_octets N.name soa.now))) }
    ensures left { let n = length (soa_octets N.name soa.now) in
        OnOk result (LeavesRoom B.lacks_room target.old target.new n) }
{
    target.append_compressed_name(&soa.mname)?;
    target.append_compressed_name(&soa.rname)?;
    target.append_slice(&soa.times.octets())
}

/// Appends the fields in canonical form. A refused call leaves the fields for which there was room.
fn compose_canonical_fields<N: Absolute, B: Composer>(
    soa: &Soa<N>,
    target: &mut B,
) -> Result<(), ShortBuf>
    ensures ok { let octets = soa_canonical N.name soa.now in
        OnOk result (B.bytes target.new ≡ B.bytes target.old ++ octets) }
    ensures err { let old = B.bytes target.old in
        OnErr result (take (length old) (B.bytes target.new) ≡ old) }
    ensures full { OnErr result (B.lacks_room target.old (length (soa_canonical N.name soa.now))) }
    ensures left { let n = length (soa_canonical N.name soa.now) in
        OnOk result (LeavesRoom B.lacks_room target.old target.new n) }
{
    compose_canonical_name(&soa.mname, target)?;
    compose_canonical_name(&soa.rname, target)?;
    target.append_slice(&soa.times.octets())
}

impl<'a> ParseRecordData<'a> for Soa<ParsedName<'a>> {
    ghost use Rattle.std.specs.Prelude.{nat_eq};

    ghost is_read = { λ t. nat_eq t 6 };

    ghost reading = { λ _ r. data_at soa_part r };

    fn parse_rdata(rtype: Rtype, parser: &mut Parser<'a>) -> Result<Option<Self>, ParseError> {
        if rtype != Rtype::SOA {
            return Ok(None);
        }
        Ok(Some(Soa::parse(parser)?))
    }
}

/// The order of the octets in canonical form (RFC 4034, 6.3).
impl<N: Absolute> CanonicalOrd for Soa<N> {
    ghost canonical = { λ a b.
        slice_cmp nat_cmp (soa_canonical N.name a) (soa_canonical N.name b) };

    fn canonical_cmp(&self, other: &Self) -> Ordering {
        let _names = (self.mname.label_count(), other.mname.label_count());
        let order = lowercase_composed_cmp(&self.mname, &other.mname);
        if order.is_ne() {
            return order;
        }
        let _names = (self.rname.label_count(), other.rname.label_count());
        let order = lowercase_composed_cmp(&self.rname, &other.rname);
        if order.is_ne() {
            return order;
        }
        self.times.octets().cmp(&other.times.octets())
    }
}
