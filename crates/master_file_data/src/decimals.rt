//! Numbers and times in text.

ghost use Rattle.master_file_data.specs.Decimals.{ReadsNumber};

/// A decimal number of 32 bits.
pub fn number_of(text: &str) -> Option<u32>
    ensures { ReadsNumber 32 text.now result }
{
    match text.as_bytes() {
        [b'+', ..] => None,
        _ => text.parse::<u32>().ok(),
    }
}

fn are_digits(text: &str) -> bool {
    !text.is_empty() && text.bytes().all(|octet| octet.is_ascii_digit())
}

/// A decimal number of 8 bits.
pub(crate) fn number8_of(text: &str) -> Option<u8>
    ensures { ReadsNumber 8 text.now result }
{
    match text.as_bytes() {
        [b'+', ..] => None,
        _ => text.parse::<u8>().ok(),
    }
}

/// A decimal number of 16 bits.
pub(crate) fn number16_of(text: &str) -> Option<u16>
    ensures { ReadsNumber 16 text.now result }
{
    match text.as_bytes() {
        [b'+', ..] => None,
        _ => text.parse::<u16>().ok(),
    }
}

/// Seconds, below 2^31 (RFC 2181, 8): a number, or numbers each with its unit of w, d, h, m or s
/// behind it. The last may have none.
pub fn seconds_of(text: &str) -> Option<u32> {
    let (mut total, mut number, mut has_digits) = (0u64, 0u64, false);
    for octet in text.bytes() {
        if octet.is_ascii_digit() {
            number = with_digit(number, octet);
            has_digits = true;
        } else {
            let unit = unit_of(octet)?;
            if !has_digits {
                return None;
            }
            total = total.saturating_add(number.saturating_mul(unit));
            (number, has_digits) = (0, false);
        }
    }
    if text.is_empty() {
        return None;
    }
    let seconds = total.saturating_add(number);
    if seconds < 1 << 31 {
        Some(seconds as u32)
    } else {
        None
    }
}

/// How many seconds a unit has.
fn unit_of(octet: u8) -> Option<u64> {
    match octet.to_ascii_lowercase() {
        b'w' => Some(604_800),
        b'd' => Some(86_400),
        b'h' => Some(3_600),
        b'm' => Some(60),
        b's' => Some(1),
        _ => None,
    }
}

/// A number with one digit more.
fn with_digit(number: u64, digit: u8) -> u64 {
    number
        .saturating_mul(10)
        .saturating_add(u64::from(digit.wrapping_sub(b'0')))
}

/// A decimal number that may have a point and at most so many places behind it, as a number of
/// the smallest place.
pub(crate) fn fixed_of(text: &str, places: usize) -> Option<u64> {
    let (whole, behind) = text.split_once('.').unwrap_or((text, ""));
    if !are_digits(whole) || behind.len() > places {
        return None;
    }
    let zeros = "0000".bytes().take(places.saturating_sub(behind.len()));
    let mut number = 0u64;
    for octet in whole.bytes().chain(behind.bytes()).chain(zeros) {
        if !octet.is_ascii_digit() {
            return None;
        }
        number = with_digit(number, octet);
    }
    Some(number)
}
