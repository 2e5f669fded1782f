//! Whether octets are the wire form of a name.

ghost use Rattle.std.specs.Prelude.{length, IfErr, OnOk};
ghost use Rattle.names_labels.specs.Flat.{IsFlat, IsFlatRelative};
ghost use Rattle.names_labels.specs.Refused.{RefusedName};
ghost use Rattle.names_labels.specs.RefusedRelative.{RefusedRelative};

use crate::name_error::NameError;
use crate::relative_error::RelativeNameError;
use names_wire::label::Label;

/// Whether octets are the wire form of an absolute name.
pub fn check_absolute(octets: &[u8]) -> Result<(), NameError>
    ensures ok { OnOk result (IsFlat octets.now) }
    ensures refused { IfErr result (RefusedName octets.now) }
{
    if octets.len() > 255 {
        return Err(NameError::LongName);
    }
    let mut rest = octets;
    loop {
        let (label, behind) = Label::split_from(rest)?;
        if label.is_root() {
            return if behind.is_empty() {
                Ok(())
            } else {
                Err(NameError::TrailingData)
            };
        }
        if behind.is_empty() {
            return Err(NameError::RelativeName);
        }
        rest = behind;
    }
}

/// Whether octets are the labels of a relative name.
pub fn check_relative(octets: &[u8]) -> Result<(), RelativeNameError>
    ensures ok { OnOk result (IsFlatRelative octets.now) }
    ensures refused { IfErr result (RefusedRelative octets.now) }
{
    if octets.len() > 254 {
        return Err(RelativeNameError::LongName);
    }
    let mut rest = octets;
    while !rest.is_empty() {
        let (label, behind) = Label::split_from(rest)?;
        if label.is_root() {
            return Err(RelativeNameError::AbsoluteName);
        }
        rest = behind;
    }
    Ok(())
}
