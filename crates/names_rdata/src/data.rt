//! What the data of records have in common, whatever their type (RFC 1035, 3.2.1).

ghost use Rattle.std.specs.Prelude.{◌≡◌, ◌↔◌, ◌++◌, ℕ, Bool, true, List, Result, length, IfSome};
ghost use Rattle.std.specs.Prelude.{IfOk, IsNone, IsTrue, OnOk, OnErr};
ghost use Rattle.definitions.specs.Reading.{ReadFault};
ghost use Rattle.names_parser.specs.Reader.{Reader};
ghost use Rattle.names_wire.specs.Room.{LeavesRoom};
ghost use Rattle.names_rdata.specs.Composing.{with_length};
ghost use Rattle.names_rdata.specs.Reading.{ReadsData, ReadsType};

use crate::composer::{Composer, or_undone};
use crate::rtype::Rtype;
use names_parser::compose::Compose;
use names_parser::error::ParseError;
use names_parser::parser::Parser;
use names_wire::builder::{OctetsBuilder, ShortBuf};

/// Data of a record.
pub trait RecordData {
    /// The number of its type.
    ghost type_of: { Self → ℕ };

    /// Its octets in wire form, names in full.
    ghost rdata: { Self → List ℕ };

    /// Its octets in canonical form (RFC 4034, 6.2).
    ghost canonical_rdata: { Self → List ℕ };

    fn rtype(&self) -> Rtype
        ensures { result ≡ type_of self.now };

    /// Lower case changes no length.
    ghost as_long: { (d : Self) → length (canonical_rdata d) ≡ length (rdata d) };
}

/// Data that can be written.
pub trait ComposeRecordData: RecordData {
    /// Whether a target that compresses names may write fewer octets.
    ghost compressible: { Self → Bool };

    /// How many octets the data take, where that is known before they are written. It is not known
    /// of data with names that `compress` allows to be compressed.
    fn rdlen(&self, compress: bool) -> Option<u16>
        ensures unknown { IsNone result ↔ (IsTrue compress × IsTrue (compressible self.now)) }
        ensures len { IfSome result (λ n. n ≡ length (Self.rdata self.now)) };

    /// Appends the octets. A refused call leaves the target as it was.
    fn compose_rdata<B: Composer>(&self, target: &mut B) -> Result<(), ShortBuf>
        ensures ok { OnOk result (B.bytes target.new ≡ B.bytes target.old ++ Self.rdata self.now) }
        ensures err { OnErr result (B.bytes target.new ≡ B.bytes target.old) }
        ensures full { OnErr result (B.lacks_room target.old (length (Self.rdata self.now))) }
        ensures left { let n = length (Self.rdata self.now) in
            OnOk result (LeavesRoom B.lacks_room target.old target.new n) };

    /// Appends the octets in canonical form (RFC 4034, 6.2). A refused call leaves the target as it
    /// was.
    fn compose_canonical_rdata<B: Composer>(&self, target: &mut B) -> Result<(), ShortBuf>
        ensures ok { let octets = Self.canonical_rdata self.now in
            OnOk result (B.bytes target.new ≡ B.bytes target.old ++ octets) }
        ensures err { OnErr result (B.bytes target.new ≡ B.bytes target.old) }
        ensures full { let n = length (Self.canonical_rdata self.now) in
            OnErr result (B.lacks_room target.old n) }
        ensures left { let n = length (Self.canonical_rdata self.now) in
            OnOk result (LeavesRoom B.lacks_room target.old target.new n) };

    /// Appends the number of octets as two octets, and the octets behind it (RFC 1035, 3.2.1).
    fn compose_len_rdata<B: Composer>(&self, target: &mut B) -> Result<(), ShortBuf>
        ensures ok { let octets = with_length (Self.rdata self.now) in
            OnOk result (B.bytes target.new ≡ B.bytes target.old ++ octets) }
        ensures err { OnErr result (B.bytes target.new ≡ B.bytes target.old) }
        ensures full { let n = length (with_length (Self.rdata self.now)) in
            OnErr result (B.lacks_room target.old n) }
        ensures left { let n = length (with_length (Self.rdata self.now)) in
            OnOk result (LeavesRoom B.lacks_room target.old target.new n) }
    {
        let Some(len) = self.rdlen(target.can_compress()) else {
            unreachable!()
        };
        let start = target.as_slice().len();
        let done = match len.compose(target) {
            Ok(()) => self.compose_rdata(target),
            Err(error) => Err(error),
        };
        or_undone(target, start, done)
    }

    /// Appends the number of octets as two octets, and behind it the octets in canonical form.
    fn compose_canonical_len_rdata<B: Composer>(&self, target: &mut B) -> Result<(), ShortBuf>
        ensures ok { let octets = with_length (Self.canonical_rdata self.now) in
            OnOk result (B.bytes target.new ≡ B.bytes target.old ++ octets) }
        ensures err { OnErr result (B.bytes target.new ≡ B.bytes target.old) }
        ensures full { let n = length (with_length (Self.canonical_rdata self.now)) in
            OnErr result (B.lacks_room target.old n) }
        ensures left { let n = length (with_length (Self.canonical_rdata self.now)) in
            OnOk result (LeavesRoom B.lacks_room target.old target.new n) }
    {
        let Some(len) = self.rdlen(false) else {
            unreachable!()
        };
        let start = target.as_slice().len();
        let done = match len.compose(target) {
            Ok(()) => self.compose_canonical_rdata(target),
            Err(error) => Err(error),
        };
        or_undone(target, start, done)
    }
}

/// Data of some types, read in a message. The parser's end is that of the data; names in them are
/// read in the whole message.
pub trait ParseRecordData<'a>: RecordData + Sized {
    /// Whether data of a type are read.
    ghost is_read: { ℕ → Bool };

    /// What is read of data of a type, or why nothing is.
    ghost reading: { ℕ → Reader → Result (List ℕ) ReadFault };

    /// Reads the data up to the parser's end; `None` where they are of a type that isn't read. A
    /// refused call leaves the parser where it was.
    fn parse_rdata(rtype: Rtype, parser: &mut Parser<'a>) -> Result<Option<Self>, ParseError>
        ensures read { let found = reading rtype parser.old in
            ReadsType (is_read rtype) found Self.rdata parser.old parser.new result }
        ensures typed { IfOk result (λ found. IfSome found (λ d. Self.type_of d ≡ rtype)) };
}

/// Data of any type, read in a message.
pub trait ParseAnyRecordData<'a>: RecordData + Sized {
    /// What is read of data of a type, or why nothing is.
    ghost any_reading: { ℕ → Reader → Result (List ℕ) ReadFault };

    /// Reads the data up to the parser's end. A refused call leaves the parser where it was.
    fn parse_any_rdata(rtype: Rtype, parser: &mut Parser<'a>) -> Result<Self, ParseError>
        ensures read { let found = any_reading rtype parser.old in
            ReadsData found Self.rdata parser.old parser.new result }
        ensures typed { IfOk result (λ d. Self.type_of d ≡ rtype) };
}

impl<D: RecordData> RecordData for &D {
    ghost type_of = { λ d. D.type_of d.now };

    ghost rdata = { λ d. D.rdata d.now };

    ghost canonical_rdata = { λ d. D.canonical_rdata d.now };

    ghost as_long = { λ d. D.as_long d.now };

    fn rtype(&self) -> Rtype {
        (**self).rtype()
    }
}

impl<D: ComposeRecordData> ComposeRecordData for &D {
    ghost compressible = { λ d. D.compressible d.now };

    fn rdlen(&self, compress: bool) -> Option<u16> {
        (**self).rdlen(compress)
    }

    fn compose_rdata<B: Composer>(&self, target: &mut B) -> Result<(), ShortBuf> {
        (**self).compose_rdata(target)
    }

    fn compose_canonical_rdata<B: Composer>(&self, target: &mut B) -> Result<(), ShortBuf> {
        (**self).compose_canonical_rdata(target)
    }
}
