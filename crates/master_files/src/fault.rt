//! Why a master file is not read.

use master_file_data::fault::DataFault;
use master_file_data::type_text::TypeText;
use std::alloc::AllocError;
use thiserror::Error;

/// Why a master file is not read: mostly the number of a line, from 1 on, and what is wrong there.
#[derive(Clone, Copy, Debug, PartialEq, Eq, Drop, Error)]
pub enum ZoneFileError {
    #[error("line {line}: {fault}")]
    Line { line: usize, fault: EntryFault },
    #[error("no SOA record: `@ 3600 IN SOA ns.example. host.example. 1 3600 900 86400 3600`")]
    NoSoa,
    #[error("the origin that is given is no name: `example.`")]
    Origin,
    #[error("the apex that is given is no name: `example.`")]
    Apex,
    #[error("the chain that is given is not words: `nsec 0 604800`")]
    Chain,
    #[error("out of memory")]
    Memory,
}

/// What is wrong with an entry, and a right one.
#[derive(Clone, Copy, Debug, PartialEq, Eq, Drop, Error)]
pub enum EntryFault {
    #[error("it is no text in UTF-8")]
    NotText,
    #[error("a quoted text or a parenthesis does not end, or ends where none began: `a TXT \"one\" ( \"two\" )`")]
    Unbalanced,
    #[error("only $ORIGIN with a name and $TTL with seconds are read: `$ORIGIN example.`, `$TTL 3600`, `$TTL 1h`")]
    Directive,
    #[error("no owner to repeat: `www 3600 IN A 192.0.2.1`")]
    NoOwner,
    #[error("{0}")]
    Name(DataFault),
    #[error("no TTL, neither here nor by $TTL nor of a record before: `$TTL 3600`")]
    NoTtl,
    #[error("only class IN is read: `www 3600 IN A 192.0.2.1`")]
    Class,
    #[error("no type: `www 3600 IN A 192.0.2.1`, or `a TYPE65280 \\# 1 00`")]
    Type,
    #[error("data of {rtype}: {fault}")]
    Data { rtype: TypeText, fault: DataFault },
    #[error("an SOA record of another zone than the one whose records these are to be")]
    OtherZone,
    #[error("an owner that is not the zone's name, nor below it")]
    Outside,
    #[error("signing adds records of this type: leave RRSIG, NSEC, DNSKEY, NSEC3 and NSEC3PARAM out")]
    SignedType,
    #[error("no zone holds records of this type")]
    MetaType,
    #[error("an SOA record below the zone's name")]
    SoaBelowApex,
    #[error("two SOA records")]
    TwoSoa,
    #[error("a DS record at the zone's name: it belongs in the zone above")]
    DsAtApex,
    #[error("no NS record at the zone's name: `@ 3600 IN NS ns`")]
    NoServer,
    #[error("an NS or DNAME record at a wildcard name")]
    Star,
    #[error("another record beside a CNAME record")]
    BesideCname,
    #[error("two DNAME records at one name")]
    TwoDname,
    #[error("a DNAME record at a delegation")]
    DnameAtCut,
    #[error("a record below a DNAME record")]
    BelowDname,
    #[error("records of one name and type with two TTLs")]
    TwoTtls,
    #[error("out of memory")]
    Memory,
}

impl From<AllocError> for ZoneFileError {
    fn from(_error: AllocError) -> ZoneFileError {
        ZoneFileError::Memory
    }
}

impl From<AllocError> for EntryFault {
    fn from(_error: AllocError) -> EntryFault {
        EntryFault::Memory
    }
}
