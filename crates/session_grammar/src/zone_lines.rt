//! The lines of a zone: the zone itself, and its records.
ghost use Rattle.std.specs.Prelude.{◌≡◌, ◌+◌, ◌≤◌, IfOk, length, take, drop};
ghost use Rattle.std.specs.Int.{w32, to_be_bytes};
ghost use Rattle.plain.specs.ZoneData.{zone_type};
ghost use Rattle.answer_events.specs.HandedRr.{handed_of};
ghost use Rattle.session_grammar.specs.Grammar.{zone_line, zone_fields, hashed_fields};
ghost use Rattle.session_grammar.specs.Grammar.{opt_out_field, salt_field, life_field};
ghost use Rattle.session_grammar.specs.Grammar.{record_line, record_fields, data_octets};
ghost use Rattle.session_grammar.specs.Grammar.{soa_octets};
ghost use Rattle.session_grammar.specs.Readings.{Reads, texts, zone_view, data_view, soa_view};

use crate::fields::{hex_octets, name, name_of_ns, name_of_soa};
use crate::form::{Field, Form};
use crate::line_error::{FieldFault, LineError, LineFault};
use crate::number_fields::{number_u16, number_u32};
use crate::zone::Zone;
use answer_events::names::{Name, Serial, UnknownRecordData};
use answer_events::record::{ZoneData, ZoneRecord};
use answer_terms::mode::Mode;
use denial_fields::salt::Nsec3Salt;
use numbers::class::Class;
use numbers::rtype::Rtype;
use numbers::ttl::Ttl;
use plain::ns::Ns;
use plain::record::Record;
use plain::soa::Soa;
use plain::zone_data::ZoneRecordData;
use std::alloc::Global;

/// The longest life of a signature, in seconds: serial numbers compare up to here (RFC 4034,
/// 3.1.5).
const MAX_LIFE: u32 = 2_147_483_647;

/// The most octets of a record's data (RFC 1035, 3.2.1).
const MAX_DATA: usize = 65_535;

/// The most octets of a salt (RFC 5155, 3.1.4).
const MAX_SALT: usize = 255;

/// Reads `zone APEX nsec LIMIT LIFE`, or `zone APEX nsec3 ITERATIONS SALT LIMIT LIFE`, or the same
/// with `nsec3optout`.
pub fn read_zone(alloc: Global, fields: &[&str]) -> Result<Zone, LineError>
    ensures { Reads zone_view result (zone_line (texts fields.now)) }
{
    match *fields {
        [word, apex, mode, limit, life] => zone_of(alloc, word, apex, mode, limit, life),
        [word, apex, mode, iterations, salt, limit, life] => {
            hashed_zone(alloc, word, apex, mode, iterations, salt, limit, life)
        }
        _ => Err(LineError::Unreadable(other_zone(fields))),
    }
}

/// What is said of a line whose fields are not as many as those of a zone's line.
fn other_zone(fields: &[&str]) -> LineFault {
    match (fields.first().copied(), fields.get(2).copied()) {
        (Some("zone"), Some("nsec3" | "nsec3optout")) => LineFault::Fields(Form::HashedZone),
        (Some("zone"), _) => LineFault::Fields(Form::Zone),
        _ => LineFault::NotZone,
    }
}

/// A zone with a chain of names.
fn zone_of(
    alloc: Global,
    word: &str,
    apex: &str,
    mode: &str,
    limit: &str,
    life: &str,
) -> Result<Zone, LineError>
    ensures { Reads zone_view result (zone_fields word.now apex.now mode.now limit.now life.now) }
{
    if word != "zone" {
        return Err(LineError::Unreadable(LineFault::NotZone));
    }
    if mode != "nsec" {
        return Err(LineError::Unreadable(other_mode(mode)));
    }
    let form = Form::Zone;
    Ok(Zone {
        apex: name(alloc, form.field(2), apex)?,
        mode: Mode::Nsec,
        limit: number_u16(form.field(4), limit)?,
        life: read_life(form.field(5), life)?,
    })
}

/// What is said of another mode than `nsec` where that has its number of fields.
fn other_mode(mode: &str) -> LineFault {
    match mode {
        "nsec3" | "nsec3optout" => LineFault::Fields(Form::HashedZone),
        _ => LineFault::At(Form::Zone.field(3), FieldFault::Mode),
    }
}

/// A zone with a chain of hashes.
fn hashed_zone(
    alloc: Global,
    word: &str,
    apex: &str,
    mode: &str,
    iterations: &str,
    salt: &str,
    limit: &str,
    life: &str,
) -> Result<Zone, LineError>
    ensures { Reads zone_view result
        (hashed_fields word.now apex.now mode.now iterations.now salt.now limit.now life.now) }
{
    if word != "zone" {
        return Err(LineError::Unreadable(LineFault::NotZone));
    }
    let opt_out = read_opt_out(mode)?;
    let form = Form::HashedZone;
    Ok(Zone {
        apex: name(alloc, form.field(2), apex)?,
        mode: Mode::Nsec3 {
            iterations: number_u16(form.field(4), iterations)?,
            salt: read_salt(alloc, form.field(5), salt)?,
            opt_out,
        },
        limit: number_u16(form.field(6), limit)?,
        life: read_life(form.field(7), life)?,
    })
}

/// Whether a chain of hashes opts out (RFC 5155, 6).
fn read_opt_out(mode: &str) -> Result<bool, LineError>
    ensures { Reads (λ b. b) result (opt_out_field mode.now) }
{
    match mode {
        "nsec3" => Ok(false),
        "nsec3optout" => Ok(true),
        "nsec" => Err(LineError::Unreadable(LineFault::Fields(Form::Zone))),
        _ => Err(Form::HashedZone.field(3).fault(FieldFault::Mode)),
    }
}

/// A salt in hexadecimal; `-` for the empty one (RFC 5155, 3.3).
fn read_salt(alloc: Global, field: Field, text: &str) -> Result<Nsec3Salt<Vec<u8>>, LineError>
    ensures { Reads (λ s. s) result (salt_field text.now) }
{
    match Nsec3Salt::from_octets(hex_octets(alloc, field, text, MAX_SALT)?) {
        Ok(salt) => Ok(salt),
        Err(_) => Err(field.fault(FieldFault::TooLong(MAX_SALT))),
    }
}

fn read_life(field: Field, text: &str) -> Result<u32, LineError>
    ensures small { IfOk result (λ life. life ≤ 2147483647) }
    ensures read { Reads (λ life. life) result (life_field text.now) }
{
    let life = number_u32(field, text)?;
    if life > MAX_LIFE {
        return Err(field.fault(FieldFault::Life));
    }
    Ok(life)
}

/// Reads `rr OWNER TTL CLASS TYPE HEX`.
pub fn read_record(alloc: Global, fields: &[&str]) -> Result<ZoneRecord, LineError>
    ensures { Reads handed_of result (record_line (texts fields.now)) }
{
    match *fields {
        [word, owner, ttl, class, rtype, octets] => {
            record_of(alloc, word, owner, ttl, class, rtype, octets)
        }
        _ => Err(LineError::Unreadable(LineFault::Fields(Form::Record))),
    }
}

fn record_of(
    alloc: Global,
    word: &str,
    owner: &str,
    ttl: &str,
    class: &str,
    rtype: &str,
    octets: &str,
) -> Result<ZoneRecord, LineError>
    ensures { Reads handed_of result
        (record_fields word.now owner.now ttl.now class.now rtype.now octets.now) }
{
    if word != "rr" {
        return Err(LineError::Unreadable(LineFault::Word));
    }
    let form = Form::Record;
    let owner = name(alloc, form.field(2), owner)?;
    let ttl = Ttl::from_secs(number_u32(form.field(3), ttl)?);
    let class = Class::from_int(number_u16(form.field(4), class)?);
    let rtype = Rtype::from_int(number_u16(form.field(5), rtype)?);
    let octets = hex_octets(alloc, form.field(6), octets, MAX_DATA)?;
    let data = read_rdata(alloc, form.field(6), rtype, octets)?;
    Ok(Record::new(owner, class, ttl, data))
}

fn read_rdata(
    alloc: Global,
    field: Field,
    rtype: Rtype,
    octets: Vec<u8>,
) -> Result<ZoneData, LineError>
    ensures rtype { IfOk result (λ d. zone_type d ≡ rtype) }
    ensures read { Reads data_view result (data_octets rtype octets.items) }
{
    if rtype == Rtype::SOA {
        return Ok(ZoneRecordData::Soa(read_soa(alloc, field, &octets)?));
    }
    if rtype == Rtype::NS {
        return Ok(ZoneRecordData::Ns(Ns::new(name_of_ns(alloc, field, &octets)?)));
    }
    match UnknownRecordData::from_octets(rtype, octets) {
        Ok(rdata) => Ok(ZoneRecordData::Unknown(rdata)),
        Err(_) => Err(field.fault(FieldFault::TooLong(MAX_DATA))),
    }
}

/// Two names and five numbers of 32 bits (RFC 1035, 3.3.13).
fn read_soa(alloc: Global, field: Field, octets: &[u8]) -> Result<Soa<Name<Vec<u8>>>, LineError>
    ensures { Reads soa_view result (soa_octets octets.now) }
{
    let (mname, behind) = name_of_soa(alloc, field, octets, 0)?;
    let (rname, front) = name_of_soa(alloc, field, octets, behind)?;
    let numbers = &octets[front..];
    if numbers.len() != 20 {
        return Err(field.fault(FieldFault::SoaData));
    }
    Ok(Soa::new(
        mname,
        rname,
        Serial(number_at(numbers, 0)),
        Ttl::from_secs(number_at(numbers, 4)),
        Ttl::from_secs(number_at(numbers, 8)),
        Ttl::from_secs(number_at(numbers, 12)),
        Ttl::from_secs(number_at(numbers, 16)),
    ))
}

/// A number of 32 bits, the highest octet first (RFC 1035, 2.3.2).
fn number_at(octets: &[u8], at: usize) -> u32
    requires { at + 4 ≤ length octets.now }
    ensures { to_be_bytes w32 result ≡ take 4 (drop at octets.now) }
{
    u32::from_be_bytes([octets[at], octets[at + 1], octets[at + 2], octets[at + 3]])
}
