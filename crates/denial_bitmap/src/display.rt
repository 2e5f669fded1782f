//! Bitmaps as text: their types, separated by blanks (RFC 4034, 4.2).

ghost use Rattle.std.specs.Prelude.{Some};
ghost use Rattle.denial_bitmap.specs.Types.{types_in};
ghost use Rattle.denial_bitmap.specs.Texts.{types_text};

use crate::bitmap::RtypeBitmap;
use names_wire::octets::Octets;
use std::fmt;

impl<Octs: Octets> fmt::Display for RtypeBitmap<Octs> {
    ghost output = { λ b. Some (types_text (types_in b)) };

    fn fmt<W: fmt::Write>(&self, f: &mut fmt::Formatter<W>) -> fmt::Result {
        let mut types = self.iter();
        let Some(first) = types.next() else {
            return Ok(());
        };
        write!(f, "{first}")?;
        while let Some(rtype) = types.next() {
            write!(f, " {rtype}")?;
        }
        Ok(())
    }
}
