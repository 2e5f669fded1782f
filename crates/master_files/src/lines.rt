//! The lines of a zone and of its records.
ghost use Rattle.std.specs.Prelude.{◌≡◌, ◌++◌, IfOk, OnOk, string_bytes};
ghost use Rattle.std.specs.List.{flat_map};
ghost use Rattle.std.specs.Str.{chars};
ghost use Rattle.definitions.specs.Text.{text_of_name};
ghost use Rattle.master_files.specs.Lines.{FileRecord, character_field, name_field, octets_field};
ghost use Rattle.master_files.specs.Lines.{record_line, zone_line, zone_lines};

use messages::names::Name;
use names_rdata::rtype::Rtype;
use std::alloc::{AllocError, Global};

/// Adds the line of a zone whose chain is of these words, if there are any.
pub(crate) fn push_head(
    lines: &mut String,
    apex: &Name<Vec<u8>>,
    chain: &str,
) -> Result<(), AllocError>
    ensures { let head = zone_lines apex.now chain.now in
        OnOk result (string_bytes lines.new ≡ string_bytes lines.old ++ head) }
{
    if chain.is_empty() {
        return Ok(());
    }
    push_zone(lines, apex, chain)
}

/// Adds the line of a zone whose chain is of these words.
fn push_zone(lines: &mut String, apex: &Name<Vec<u8>>, chain: &str) -> Result<(), AllocError>
    ensures { let line = zone_line apex.now chain.now in
        OnOk result (string_bytes lines.new ≡ string_bytes lines.old ++ line) }
{
    lines.push_str("zone ")?;
    push_name(lines, apex)?;
    writeln!(lines, " {chain}")
}

/// Adds the line of a record of class IN.
pub(crate) fn push_record(
    lines: &mut String,
    owner: &Name<Vec<u8>>,
    ttl: u32,
    rtype: Rtype,
    octets: &[u8],
) -> Result<(), AllocError>
    ensures { let r : FileRecord =
        record { owner = owner.now; ttl = ttl; rtype = rtype; octets = octets.now } in
        OnOk result (string_bytes lines.new ≡ string_bytes lines.old ++ record_line r) }
{
    let number = rtype.to_int();
    lines.push_str("rr ")?;
    push_name(lines, owner)?;
    write!(lines, " {ttl} 1 {number} ")?;
    push_octets(lines, octets)?;
    lines.push('\n')
}

/// Adds a name as a field of a line.
fn push_name(lines: &mut String, name: &Name<Vec<u8>>) -> Result<(), AllocError>
    ensures { let field = name_field name.now in
        OnOk result (string_bytes lines.new ≡ string_bytes lines.old ++ field) }
{
    let text = text_of(*lines.allocator(), name)?;
    push_field(lines, &text)
}

/// The text of a name.
fn text_of(alloc: Global, name: &Name<Vec<u8>>) -> Result<String, AllocError>
    ensures { IfOk result (λ text. string_bytes text ≡ text_of_name name.now) }
{
    format!(in alloc; "{name}")
}

/// Adds a name's text as a field of a line, in which blanks part fields: those of its labels, which
/// stand behind a backslash, are three digits there (RFC 1035, 5.1).
fn push_field(lines: &mut String, text: &str) -> Result<(), AllocError>
    ensures { let field = flat_map character_field (chars text.now) in
        OnOk result (string_bytes lines.new ≡ string_bytes lines.old ++ field) }
{
    for c in text.chars() {
        if c == ' ' {
            lines.push_str("032")?;
        } else {
            lines.push(c)?;
        }
    }
    Ok(())
}

/// Adds octets in hexadecimal, or a dash for none.
fn push_octets(lines: &mut String, octets: &[u8]) -> Result<(), AllocError>
    ensures { let field = octets_field octets.now in
        OnOk result (string_bytes lines.new ≡ string_bytes lines.old ++ field) }
{
    if octets.is_empty() {
        return lines.push('-');
    }
    let digits = hex::encode(*lines.allocator(), octets)?;
    lines.push_str(&digits)
}
