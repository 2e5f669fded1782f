//! Record data that is too long.

ghost use Rattle.std.specs.Prelude.{◌≡◌, ◌↔◌, ◌+◌, ◌≤◌, IsOk, codes, sum};

use names_parser::error::ParseError;
use thiserror::Error;

/// Record data would have more than 65,535 octets.
#[derive(Clone, Copy, Debug, PartialEq, Eq, Error)]
#[error("record data too long")]
pub struct LongRecordData;

impl LongRecordData {
    /// What is printed.
    pub fn as_str(self) -> &'static str
        ensures { result.now ≡ codes "record data too long" }
    {
        "record data too long"
    }

    /// Refuses more than 65,535 octets.
    pub fn check_len(len: usize) -> Result<(), LongRecordData>
        ensures { IsOk result ↔ (len ≤ 65535) }
    {
        if len > 65_535 {
            Err(LongRecordData)
        } else {
            Ok(())
        }
    }

    /// Refuses more than 65,535 octets in two parts.
    pub fn check_append_len(len: usize, extra_len: usize) -> Result<(), LongRecordData>
        ensures { IsOk result ↔ (len + extra_len ≤ 65535) }
    {
        match len.checked_add(extra_len) {
            Some(sum) => LongRecordData::check_len(sum),
            None => Err(LongRecordData),
        }
    }

    /// Refuses parts that have more than 65,535 octets in all.
    pub fn check_multi_len<const N: usize>(lens: &[usize; N]) -> Result<(), LongRecordData>
        ensures { IsOk result ↔ (sum lens.now ≤ 65535) }
    {
        let mut sum = 0;
        for &len in lens {
            LongRecordData::check_append_len(sum, len)?;
            sum += len;
        }
        Ok(())
    }
}

impl From<LongRecordData> for ParseError {
    ghost use Rattle.std.specs.Prelude.{Some};
    ghost use Rattle.names_parser.specs.Errors.{form_text};

    ghost from_gives = { λ _ e. form_text e ≡ Some (codes "record data too long") };

    fn from(_: LongRecordData) -> ParseError {
        ParseError::form_error("record data too long")
    }
}
