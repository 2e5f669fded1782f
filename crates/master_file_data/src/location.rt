//! Locations (RFC 1876).

use crate::decimals::{fixed_of, number_of};
use crate::fault::DataFault;
use crate::field::Field;
use std::alloc::Global;

/// A location: latitude, longitude, altitude, size and two precisions.
pub(crate) fn location_octets(alloc: Global, fields: &[Field]) -> Result<Vec<u8>, DataFault> {
    match location_of(fields) {
        Some(location) => spelled(alloc, &location),
        None => Err(DataFault::Location),
    }
}

fn spelled(alloc: Global, location: &Location) -> Result<Vec<u8>, DataFault> {
    let mut out = Vec::from_slice(alloc, &[0])?;
    out.extend_from_slice(&location.sizes)?;
    for number in location.place {
        out.extend_from_slice(&number.to_be_bytes())?;
    }
    Ok(out)
}

/// A size with a horizontal and a vertical precision; latitude, longitude and altitude.
#[derive(Clone, Copy, Drop)]
struct Location {
    sizes: [u8; 3],
    place: [u32; 3],
}

fn location_of(fields: &[Field]) -> Option<Location> {
    let (latitude, behind) = angle_of(fields, 90, "N", "S")?;
    let (longitude, behind) = angle_of(behind, 180, "E", "W")?;
    let (altitude, sizes) = behind.split_first()?;
    let altitude = altitude_of(altitude.text.as_str())?;
    if sizes.len() > 3 {
        return None;
    }
    let horizontal = size_at(sizes, 1, 0x16)?;
    let vertical = size_at(sizes, 2, 0x13)?;
    Some(Location {
        sizes: [size_at(sizes, 0, 0x12)?, horizontal, vertical],
        place: [latitude, longitude, altitude],
    })
}

/// An angle: degrees, maybe minutes, maybe seconds, and a letter. In thousandths of a second, 2^31
/// being none; and the fields behind it.
fn angle_of<'f>(
    fields: &'f [Field],
    most: u32,
    plus: &str,
    minus: &str,
) -> Option<(u32, &'f [Field])> {
    let (degrees, mut rest) = fields.split_first()?;
    let mut angle = number_of(degrees.text.as_str())?.saturating_mul(3_600_000);
    for place in 0..3 {
        let (first, behind) = rest.split_first()?;
        let text = first.text.as_str();
        let is_plus = text.eq_ignore_ascii_case(plus);
        rest = behind;
        if is_plus || text.eq_ignore_ascii_case(minus) {
            return Some((turned(angle, most, is_plus)?, rest));
        }
        angle = angle.saturating_add(fraction_of(text, place)?);
    }
    None
}

/// An angle east or north of none, or else west or south.
fn turned(angle: u32, most: u32, is_plus: bool) -> Option<u32> {
    if angle > most.saturating_mul(3_600_000) {
        None
    } else if is_plus {
        Some((1u32 << 31).saturating_add(angle))
    } else {
        Some((1u32 << 31).saturating_sub(angle))
    }
}

/// Minutes, or seconds with three places, below 60: in thousandths of a second.
fn fraction_of(text: &str, place: u32) -> Option<u32> {
    if place == 0 {
        let minutes = number_of(text)?;
        return if minutes < 60 {
            Some(minutes.saturating_mul(60_000))
        } else {
            None
        };
    }
    let seconds = fixed_of(text, 3)?;
    if place == 1 && seconds < 60_000 {
        u32::try_from(seconds).ok()
    } else {
        None
    }
}

/// Metres, which may have an m behind them, in centimetres.
fn centimetres_of(text: &str) -> Option<u64> {
    let metres = match text.strip_suffix('m') {
        Some(metres) => metres,
        None => text,
    };
    fixed_of(metres, 2)
}

/// Metres above or below the reference spheroid, in centimetres from 100,000 m below it.
fn altitude_of(text: &str) -> Option<u32> {
    let (is_below, shown) = match text.strip_prefix('-') {
        Some(behind) => (true, behind),
        None => (false, text),
    };
    let centimetres = centimetres_of(shown)?;
    let altitude = if is_below {
        10_000_000u64.checked_sub(centimetres)?
    } else {
        centimetres.checked_add(10_000_000)?
    };
    u32::try_from(altitude).ok()
}

/// A size at a place, or the one that stands for none.
fn size_at(sizes: &[Field], place: usize, usual: u8) -> Option<u8> {
    match sizes.get(place) {
        Some(size) => size_of_metres(size.text.as_str()),
        None => Some(usual),
    }
}

/// A size: its first digit, and how many digits stand behind it in centimetres.
fn size_of_metres(text: &str) -> Option<u8> {
    let mut centimetres = centimetres_of(text)?;
    for exponent in 0..10u8 {
        if centimetres < 10 {
            return Some((centimetres as u8) << 4 | exponent);
        }
        centimetres /= 10;
    }
    None
}
