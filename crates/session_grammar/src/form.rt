//! The forms of lines, and what their fields are called.

use std::fmt;

/// A form of line, told by its first word; a zone's line has two.
#[derive(Clone, Copy, Debug, PartialEq, Eq)]
pub enum Form {
    /// A zone with a chain of names.
    Zone,
    /// A zone with a chain of hashes.
    HashedZone,
    Record,
    Key,
    Start,
    Report1,
    Wait1,
    Report2,
    Wait2,
    Done,
    Delete,
    Replace,
    Ds,
    Dnskey,
    Cds,
    Cdnskey,
    Ask,
    Judge,
    Bytes,
}

impl Form {
    /// What the fields of such a line are called, the first, a word, as it is written.
    pub fn fields(self) -> &'static [&'static str] {
        match self {
            Form::Zone => &["zone", "APEX", "nsec", "LIMIT", "LIFE"],
            Form::HashedZone => &[
                "zone",
                "APEX",
                "nsec3",
                "ITERATIONS",
                "SALT",
                "LIMIT",
                "LIFE",
            ],
            Form::Record => &["rr", "OWNER", "TTL", "CLASS", "TYPE", "HEX"],
            Form::Key => &["key", "KIND", "REF", "ALGORITHM", "BASE64", "M"],
            Form::Start => &["start", "ROLL", "OLD", "NEW", "M"],
            Form::Report1 => &["report1", "ROLL", "TTL", "M"],
            Form::Wait1 => &["wait1", "ROLL", "M"],
            Form::Report2 => &["report2", "ROLL", "TTL", "M"],
            Form::Wait2 => &["wait2", "ROLL", "M"],
            Form::Done => &["done", "ROLL", "M"],
            Form::Delete => &["delete", "REF", "M"],
            Form::Replace => &["replace", "M"],
            Form::Ds => &["ds", "M"],
            Form::Dnskey => &["dnskey", "M"],
            Form::Cds => &["cds", "M"],
            Form::Cdnskey => &["cdnskey", "M"],
            Form::Ask => &["ask", "NAME", "TYPE", "M"],
            Form::Judge => &["judge", "DS", "DNSKEY", "ANSWER", "M"],
            Form::Bytes => &["bytes", "DS", "HEX", "HEX", "NAME", "TYPE", "M"],
        }
    }

    /// The form of the events that begin with a word.
    pub(crate) fn of_event(word: &str) -> Option<Form> {
        match word {
            "key" => Some(Form::Key),
            "start" => Some(Form::Start),
            "report1" => Some(Form::Report1),
            "wait1" => Some(Form::Wait1),
            "report2" => Some(Form::Report2),
            "wait2" => Some(Form::Wait2),
            "done" => Some(Form::Done),
            "delete" => Some(Form::Delete),
            "ds" => Some(Form::Ds),
            "dnskey" => Some(Form::Dnskey),
            "cds" => Some(Form::Cds),
            "cdnskey" => Some(Form::Cdnskey),
            "ask" => Some(Form::Ask),
            "judge" => Some(Form::Judge),
            "bytes" => Some(Form::Bytes),
            _ => None,
        }
    }

    /// The field at a place of such a line, counted from 1 on.
    pub(crate) fn field(self, place: usize) -> Field {
        Field { form: self, place }
    }
}

/// The words of its fields, as a line has them.
impl fmt::Display for Form {
    fn fmt<W: fmt::Write>(&self, f: &mut fmt::Formatter<W>) -> fmt::Result {
        for (place, name) in self.fields().iter().enumerate() {
            if place > 0 {
                f.write_str(" ")?;
            }
            f.write_str(name)?;
        }
        Ok(())
    }
}

/// A field of a line.
#[derive(Clone, Copy, Debug, PartialEq, Eq)]
pub struct Field {
    pub form: Form,
    /// The field's place in the line, counted from 1 on.
    pub place: usize,
}

impl fmt::Display for Field {
    fn fmt<W: fmt::Write>(&self, f: &mut fmt::Formatter<W>) -> fmt::Result {
        let place = self.place;
        match self.form.fields().get(place.wrapping_sub(1)) {
            Some(name) => write!(f, "field {place} ({name})"),
            None => write!(f, "field {place}"),
        }
    }
}
