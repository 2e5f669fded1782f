//! A master file to the lines of a session's zone.
ghost use Rattle.std.specs.Prelude.{◌≡◌, true, [], IfOk, OnOk, string_bytes};
ghost use Rattle.std.specs.List.{list_all};
ghost use Rattle.std.specs.Option.{option_map};
ghost use Rattle.definitions.specs.Text.{is_printable};
ghost use Rattle.master_files.specs.Reading.{AreZoneLines, HasRead, IsWanted, NotesApex, ReadsOn};
ghost use Rattle.master_files.specs.Reading.{given_name, read_of};

use crate::checks::{Noted, first_fault};
use crate::entries::{Entry, read_entries};
pub use crate::fault::{EntryFault, ZoneFileError};
use crate::lines::{push_head, push_record};
use master_file_data::data::octets_of;
use master_file_data::decimals::seconds_of;
use master_file_data::fault::DataFault;
use master_file_data::field::{Field, name_from, name_of};
use master_file_data::type_text::{TypeText, type_of};
use messages::names::{Name, ToName};
use names_rdata::rtype::Rtype;
use std::alloc::{AllocError, Global};

/// What a master file is read for: texts, each of which may be empty.
#[derive(Clone, Copy, Debug, Drop)]
pub struct Reading<'a> {
    /// The name below which relative names stand until the file names one.
    pub origin: &'a [u8],
    /// The words behind the apex in the line of the zone, as `nsec 0 604800`; without them the
    /// lines are those of the records alone.
    pub chain: &'a [u8],
    /// The name of the zone whose records these are to be.
    pub apex: &'a [u8],
}

/// What is known while entries are read.
#[derive(Drop)]
struct Zone {
    alloc: Global,
    origin: Option<Name<Vec<u8>>>,
    /// The name that the apex is to be.
    wanted: Option<Name<Vec<u8>>>,
    /// The owner of the last record.
    owner: Option<Name<Vec<u8>>>,
    /// What `$TTL` said last.
    default_ttl: Option<u32>,
    /// The TTL that a record said last.
    last_ttl: Option<u32>,
    /// The owner of the SOA record.
    apex: Option<Name<Vec<u8>>>,
    /// The lines of the records.
    lines: String,
    /// The line that is read.
    line: usize,
    /// The records.
    noted: Vec<Noted>,
}

/// The lines of a zone for a master file: those of its records, behind that of the zone if a chain
/// is given.
///
/// What is read of the files of RFC 1035, 5 and RFC 2308, 4: owners, TTLs, class IN, data in the
/// text forms of their types (`master_file_data`) or as octets (RFC 3597, 5), `$ORIGIN`, `$TTL`,
/// `@`, relative names, parentheses, quotes and comments. TTLs and times of SOA records may have
/// units. Names in data, but for NS and SOA records and the types that came later, are written in
/// lower case, in which they are signed (RFC 4034, 6.2). All else is refused with its line, as are
/// records that no zone holds together.
pub fn session_lines(alloc: Global, text: &[u8], reading: &Reading) -> Result<String, ZoneFileError>
    ensures { let are = AreZoneLines reading.now.chain.now reading.now.apex.now in
        IfOk result (λ lines. are (string_bytes lines)) }
{
    let chain = chain_of(reading.chain)?;
    let mut zone = Zone::new(alloc, reading)?;
    for entry in &read_entries(alloc, text)? {
        match zone.read(entry) {
            Ok(()) => {}
            Err(fault) => return Err(of_line(entry.line, fault)),
        }
    }
    let Some(apex) = &zone.apex else {
        return Err(ZoneFileError::NoSoa);
    };
    check(alloc, apex, &zone.noted)?;
    let mut lines = String::new(alloc);
    push_head(&mut lines, apex, chain)?;
    lines.push_str(&zone.lines)?;
    Ok(lines)
}

/// Whether the records are a zone's, as far as that is seen here.
fn check(alloc: Global, apex: &Name<Vec<u8>>, records: &[Noted]) -> Result<(), ZoneFileError> {
    match first_fault(alloc, apex, records)? {
        Some(found) => Err(of_line(found.line, found.fault)),
        None => Ok(()),
    }
}

/// The words of a chain: they are a part of a line.
fn chain_of(octets: &[u8]) -> Result<&str, ZoneFileError>
    ensures same { IfOk result (λ words. words.now ≡ octets.now) }
    ensures words { OnOk result (list_all is_printable octets.now ≡ true) }
{
    if !are_printable(octets) {
        return Err(ZoneFileError::Chain);
    }
    match str::from_utf8(octets) {
        Ok(words) => Ok(words),
        Err(_) => Err(ZoneFileError::Chain),
    }
}

/// Whether octets are blanks and printable characters of ASCII.
fn are_printable(octets: &[u8]) -> bool
    ensures { result ≡ list_all is_printable octets.now }
{
    octets.iter().all(|octet| is_printable(*octet))
}

/// Whether an octet is a blank or a printable character of ASCII.
fn is_printable(octet: u8) -> bool
    ensures { result ≡ is_printable octet }
{
    octet >= b' ' && octet <= b'~'
}

/// The name of a text, if it is not empty.
fn given_name(
    alloc: Global,
    octets: &[u8],
    fault: ZoneFileError,
) -> Result<Option<Name<Vec<u8>>>, ZoneFileError>
    ensures { IfOk result (λ found. found ≡ given_name octets.now) }
{
    if octets.is_empty() {
        return Ok(None);
    }
    let Ok(text) = str::from_utf8(octets) else {
        return Err(fault);
    };
    match name_from(alloc, text) {
        Ok(name) => Ok(Some(name)),
        Err(DataFault::Memory) => Err(ZoneFileError::Memory),
        Err(_) => Err(fault),
    }
}

fn of_line(line: usize, fault: EntryFault) -> ZoneFileError {
    match fault {
        EntryFault::Memory => ZoneFileError::Memory,
        _ => ZoneFileError::Line { line, fault },
    }
}

impl Zone {
    /// Nothing is read yet.
    fn new(alloc: Global, reading: &Reading) -> Result<Self, ZoneFileError>
        ensures { IfOk result (λ z. HasRead (given_name reading.now.apex.now) (read_of z) []) }
    {
        Ok(Zone {
            alloc,
            origin: given_name(alloc, reading.origin, ZoneFileError::Origin)?,
            wanted: given_name(alloc, reading.apex, ZoneFileError::Apex)?,
            owner: None,
            default_ttl: None,
            last_ttl: None,
            apex: None,
            lines: String::new(alloc),
            line: 0,
            noted: Vec::new(alloc),
        })
    }

    /// The name of an owner or an origin.
    fn name_of(&self, field: &Field) -> Result<Name<Vec<u8>>, EntryFault> {
        match name_of(self.alloc, field, self.origin.as_ref()) {
            Ok(name) => Ok(name),
            Err(DataFault::Memory) => Err(EntryFault::Memory),
            Err(fault) => Err(EntryFault::Name(fault)),
        }
    }

    /// The octets of data.
    fn octets_of(&self, rtype: Rtype, fields: &[Field]) -> Result<Vec<u8>, EntryFault> {
        match octets_of(self.alloc, rtype, fields, self.origin.as_ref()) {
            Ok(octets) => Ok(octets),
            Err(DataFault::Memory) => Err(EntryFault::Memory),
            Err(fault) => {
                let rtype = TypeText(rtype);
                Err(EntryFault::Data { rtype, fault })
            }
        }
    }

    /// Reads a directive or a record.
    fn read(&mut self, entry: &Entry) -> Result<(), EntryFault>
        ensures { OnOk result (ReadsOn (read_of self.old) (read_of self.new)) }
    {
        let fields = entry.fields.as_slice();
        let [first, others @ ..] = fields else {
            return Ok(());
        };
        self.line = entry.line;
        if entry.is_indented {
            return self.read_record(fields);
        }
        if first.text.starts_with("$") && !first.is_quoted {
            return self.read_directive(first, others);
        }
        self.owner = Some(self.name_of(first)?);
        self.read_record(others)
    }

    /// Reads `$ORIGIN` and `$TTL` (RFC 2308, 4).
    fn read_directive(&mut self, word: &Field, others: &[Field]) -> Result<(), EntryFault>
        ensures { OnOk result (ReadsOn (read_of self.old) (read_of self.new)) }
    {
        let [value] = others else {
            return Err(EntryFault::Directive);
        };
        if word.text.eq_ignore_ascii_case("$ORIGIN") {
            self.origin = Some(self.name_of(value)?);
            return Ok(());
        }
        if !word.text.eq_ignore_ascii_case("$TTL") {
            return Err(EntryFault::Directive);
        }
        self.default_ttl = Some(seconds_of(&value.text).ok_or(EntryFault::Directive)?);
        Ok(())
    }

    /// Reads a record behind its owner: TTL and class, in either order or missing, type and data.
    fn read_record(&mut self, fields: &[Field]) -> Result<(), EntryFault>
        ensures { OnOk result (ReadsOn (read_of self.old) (read_of self.new)) }
    {
        let (mut ttl, mut rest, mut has_class) = (None, fields, false);
        for _ in 0..2 {
            let Some((first, others)) = rest.split_first() else {
                break;
            };
            if ttl.is_none() && seconds_of(&first.text).is_some() {
                ttl = seconds_of(&first.text);
                rest = others;
            } else if !has_class && is_class(&first.text)? {
                (has_class, rest) = (true, others);
            }
        }
        let Some((word, data)) = rest.split_first() else {
            return Err(EntryFault::Type);
        };
        let rtype = type_of(&word.text).ok_or(EntryFault::Type)?;
        let octets = self.octets_of(rtype, data)?;
        let ttl = self.ttl_of(ttl)?;
        self.note(rtype, ttl, &octets)?;
        self.add(rtype, ttl, &octets)
    }

    /// The TTL of a record that says it or not: then it is that of `$TTL`, or without one the last
    /// that a record said (RFC 1035, 5.1; RFC 2308, 4).
    fn ttl_of(&mut self, said: Option<u32>) -> Result<u32, EntryFault>
        ensures { read_of self.new ≡ read_of self.old }
    {
        if said.is_some() {
            self.last_ttl = said;
        }
        said.or(self.default_ttl)
            .or(self.last_ttl)
            .ok_or(EntryFault::NoTtl)
    }

    /// Notes a record for the checks behind the last.
    fn note(&mut self, rtype: Rtype, ttl: u32, octets: &[u8]) -> Result<(), EntryFault>
        ensures { read_of self.new ≡ read_of self.old }
    {
        let Some(owner) = &self.owner else {
            return Err(EntryFault::NoOwner);
        };
        let noted = Noted {
            line: self.line,
            owner: owner.to_vec(self.alloc).map_err(|_| EntryFault::Memory)?,
            ttl,
            rtype,
            octets: Vec::from_slice(self.alloc, octets)?,
        };
        self.noted.push(noted).map_err(AllocError::from)?;
        Ok(())
    }

    /// Adds the line of a record.
    fn add(&mut self, rtype: Rtype, ttl: u32, octets: &[u8]) -> Result<(), EntryFault>
        ensures { OnOk result (ReadsOn (read_of self.old) (read_of self.new)) }
    {
        self.note_apex(rtype)?;
        let Some(owner) = &self.owner else {
            return Err(EntryFault::NoOwner);
        };
        Ok(push_record(&mut self.lines, owner, ttl, rtype, octets)?)
    }

    /// Notes the owner of the first SOA record as the apex.
    fn note_apex(&mut self, rtype: Rtype) -> Result<(), EntryFault>
        ensures kept { self.new ≡ record self.old { apex = self.new.apex } }
        ensures apex { OnOk result (NotesApex rtype self.old self.new) }
    {
        if rtype != Rtype::SOA || self.apex.is_some() {
            return Ok(());
        }
        let Some(owner) = &self.owner else {
            return Err(EntryFault::NoOwner);
        };
        self.apex = Some(apex_of(self.alloc, owner, self.wanted.as_ref())?);
        Ok(())
    }
}

/// The apex by the owner of an SOA record, which is to be the name that is wanted.
fn apex_of(
    alloc: Global,
    owner: &Name<Vec<u8>>,
    wanted: Option<&Name<Vec<u8>>>,
) -> Result<Name<Vec<u8>>, EntryFault>
    ensures same { IfOk result (λ apex. apex ≡ owner.now) }
    ensures wanted { let name = option_map (λ n. n.now) wanted.entry in
        IfOk result (λ apex. IsWanted name apex) }
{
    if wanted.is_some_and(|name| !owner.name_eq(name)) {
        return Err(EntryFault::OtherZone);
    }
    owner.to_vec(alloc).map_err(|_| EntryFault::Memory)
}

/// Whether a field is the class IN; another class is refused.
fn is_class(text: &str) -> Result<bool, EntryFault> {
    if text.eq_ignore_ascii_case("IN") || text.eq_ignore_ascii_case("CLASS1") {
        return Ok(true);
    }
    let others = ["CH", "HS", "ANY", "NONE"];
    let is_other = others.iter().any(|class| text.eq_ignore_ascii_case(class))
        || text.starts_with("CLASS")
        || text.starts_with("class");
    if is_other {
        Err(EntryFault::Class)
    } else {
        Ok(false)
    }
}
