//! The lines of a journal for a master file.
ghost use Rattle.std.specs.Prelude.{◌≡◌};
ghost use Rattle.server_zone_octets.specs.Masters.{IsToldFault, SaysMaster, TellsMaster};
ghost use Rattle.server_zone_octets.specs.Masters.{is_file_memory, line_of};
ghost use Rattle.server_zone_octets.specs.Telling.{told_seen};

use crate::code::ZoneCode;
use crate::report::ZoneReport;
use crate::told::{CodeAndOctets, hand_out, put};
use master_files::zone_file::{Reading, ZoneFileError, session_lines};
use std::alloc::Global;

/// A master file, and what is wanted of it.
#[repr(C)]
#[derive(Drop)]
pub struct OctetMaster<'a> {
    /// How many octets this has as its caller knows it: 72.
    pub size: usize,
    /// The file.
    pub text: &'a [u8],
    /// The name below which relative names stand until the file names one; it may be empty.
    pub origin: &'a [u8],
    /// The words of the zone's chain; without them the records alone are told.
    pub chain: &'a [u8],
    /// The name of the zone whose records these are to be; it may be empty.
    pub apex: &'a [u8],
}

/// How many octets it has in memory.
const MASTER_SIZE: usize = 72;

const _: () = prove!(size_of::<OctetMaster>() == MASTER_SIZE);

/// Tells the lines of a journal for a master file, as [`session_lines`] makes them. Where it is
/// refused, the report says at which line, if it is one, and why is written to the front of `out`
/// if there is room for it.
pub fn master_octets(
    alloc: Global,
    master: &OctetMaster,
    out: &mut [u8],
    report: &mut ZoneReport,
) -> ZoneCode
    ensures { SaysMaster master.now report.old report.new out.old out.new result }
{
    if !report.is_known() || master.size != MASTER_SIZE {
        return ZoneCode::BadCall;
    }
    let reading = Reading {
        origin: master.origin,
        chain: master.chain,
        apex: master.apex,
    };
    match session_lines(alloc, master.text, &reading) {
        Ok(lines) => {
            let told = CodeAndOctets {
                code: ZoneCode::Done,
                octets: lines.into_bytes(),
            };
            hand_out(&told, out, report)
        }
        Err(fault) => {
            let told = told_fault(alloc, &fault);
            *report = ZoneReport::of(told.octets.len());
            report.line = line_of(&fault);
            let _ = put(&told.octets, out);
            told.code
        }
    }
}

/// Why a master file is refused.
fn told_fault(alloc: Global, fault: &ZoneFileError) -> CodeAndOctets
    ensures { IsToldFault fault.now (told_seen result) }
{
    if is_file_memory(fault) {
        return CodeAndOctets::only(alloc, ZoneCode::OutOfMemory);
    }
    let text = match fault {
        ZoneFileError::Line { line: _, fault } => format!(in alloc; "{fault}"),
        other => format!(in alloc; "{other}"),
    };
    match text {
        Ok(text) => CodeAndOctets {
            code: ZoneCode::Refused,
            octets: text.into_bytes(),
        },
        Err(_) => CodeAndOctets::only(alloc, ZoneCode::OutOfMemory),
    }
}

/// Whether memory ran out.
fn is_file_memory(fault: &ZoneFileError) -> bool
    ensures { result ≡ is_file_memory fault.now }
{
    matches!(fault, ZoneFileError::Memory)
}

/// The line that is refused, counted from 1 on; 0 where it is none.
fn line_of(fault: &ZoneFileError) -> usize
    ensures { result ≡ line_of fault.now }
{
    match fault {
        ZoneFileError::Line { line, fault: _ } => *line,
        _ => 0,
    }
}
