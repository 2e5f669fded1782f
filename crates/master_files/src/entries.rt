//! The entries of a master file: its fields, over several lines where parentheses stand (RFC 1035,
//! 5.1).

use crate::fault::{EntryFault, ZoneFileError};
use master_file_data::field::Field;
use std::alloc::{AllocError, Global};

/// The fields of an entry.
#[derive(Debug, Drop)]
pub(crate) struct Entry {
    /// The number of its first line, from 1 on.
    pub(crate) line: usize,
    /// Whether a blank stands before the first field, so that the last owner is meant.
    pub(crate) is_indented: bool,
    pub(crate) fields: Vec<Field>,
}

/// Where the reader is in a line.
#[derive(Clone, Copy, PartialEq, Eq)]
enum Place {
    /// Before the first octet of an entry.
    Start,
    Between,
    InField,
    Quoted,
    Comment,
}

/// Reads octet by octet.
#[derive(Drop)]
struct Reader {
    alloc: Global,
    line: usize,
    place: Place,
    /// The octet behind a backslash.
    is_escaped: bool,
    is_open: bool,
    /// Whether the field began behind another without a blank.
    is_joined: bool,
    field: Vec<u8>,
    entry: Entry,
    entries: Vec<Entry>,
}

impl Reader {
    fn fault<T>(&self, fault: EntryFault) -> Result<T, ZoneFileError> {
        let line = self.line;
        Err(ZoneFileError::Line { line, fault })
    }

    /// An entry without fields.
    fn next_entry(&self) -> Entry {
        Entry {
            line: self.line,
            is_indented: false,
            fields: Vec::new(self.alloc),
        }
    }

    /// Ends a field, if one has begun.
    fn end_field(&mut self, is_quoted: bool) -> Result<(), ZoneFileError> {
        if self.place != Place::InField && self.place != Place::Quoted {
            return Ok(());
        }
        let octets = std::mem::replace(&mut self.field, Vec::new(self.alloc));
        let Ok(text) = str::from_utf8(&octets) else {
            return self.fault(EntryFault::NotText);
        };
        let field = Field {
            text: String::from_str(self.alloc, text)?,
            is_quoted,
            is_joined: self.is_joined,
        };
        self.entry.fields.push(field).map_err(AllocError::from)?;
        (self.place, self.is_joined) = (Place::Between, false);
        Ok(())
    }

    /// Ends a line, and with it the entry unless a parenthesis is open.
    fn end_line(&mut self) -> Result<(), ZoneFileError> {
        if self.place == Place::Quoted || self.is_escaped {
            return self.fault(EntryFault::Unbalanced);
        }
        self.end_field(false)?;
        self.line = self.line.wrapping_add(1);
        self.place = Place::Between;
        if self.is_open {
            return Ok(());
        }
        let next = self.next_entry();
        let entry = std::mem::replace(&mut self.entry, next);
        if !entry.fields.is_empty() {
            self.entries.push(entry).map_err(AllocError::from)?;
        }
        self.place = Place::Start;
        Ok(())
    }

    fn read(&mut self, octet: u8) -> Result<(), ZoneFileError> {
        if octet == b'\n' {
            self.end_line()
        } else if self.place == Place::Comment {
            Ok(())
        } else if self.is_escaped {
            self.is_escaped = false;
            self.keep(octet)
        } else {
            self.read_in_line(octet)
        }
    }

    /// Reads what stands in a line, outside comments and not behind a backslash.
    fn read_in_line(&mut self, octet: u8) -> Result<(), ZoneFileError> {
        let is_quoted = self.place == Place::Quoted;
        if octet == b'\\' {
            self.is_escaped = true;
            self.read_plain(octet)
        } else if is_quoted && octet == b'"' {
            self.end_field(true)
        } else if is_quoted {
            self.read_plain(octet)
        } else if matches!(octet, b' ' | b'\t' | b'\r') {
            self.read_blank()
        } else {
            self.read_special(octet)
        }
    }

    /// Reads a blank outside quotes.
    fn read_blank(&mut self) -> Result<(), ZoneFileError> {
        if self.place == Place::Start {
            self.entry.is_indented = true;
        }
        let ended = self.end_field(false);
        self.place = Place::Between;
        ended
    }

    /// Reads what stands outside quotes and is no blank.
    fn read_special(&mut self, octet: u8) -> Result<(), ZoneFileError> {
        match octet {
            b';' => {
                self.end_field(false)?;
                self.place = Place::Comment;
                Ok(())
            }
            b'(' | b')' => {
                self.end_field(false)?;
                if self.is_open == (octet == b'(') {
                    return self.fault(EntryFault::Unbalanced);
                }
                self.is_open = !self.is_open;
                self.place = Place::Between;
                Ok(())
            }
            b'"' => {
                let is_joined = self.place == Place::InField;
                self.end_field(false)?;
                (self.place, self.is_joined) = (Place::Quoted, is_joined);
                Ok(())
            }
            _ => self.read_plain(octet),
        }
    }

    /// Adds an octet to the field.
    fn read_plain(&mut self, octet: u8) -> Result<(), ZoneFileError> {
        if self.place != Place::Quoted {
            self.place = Place::InField;
        }
        self.keep(octet)
    }

    fn keep(&mut self, octet: u8) -> Result<(), ZoneFileError> {
        match self.field.push(octet) {
            Ok(()) => Ok(()),
            Err(_) => Err(ZoneFileError::Memory),
        }
    }
}

/// The entries of a master file, or its first line that is none.
pub(crate) fn read_entries(alloc: Global, text: &[u8]) -> Result<Vec<Entry>, ZoneFileError> {
    let entry = Entry {
        line: 1,
        is_indented: false,
        fields: Vec::new(alloc),
    };
    let mut reader = Reader {
        alloc,
        line: 1,
        place: Place::Start,
        is_escaped: false,
        is_open: false,
        is_joined: false,
        field: Vec::new(alloc),
        entry,
        entries: Vec::new(alloc),
    };
    for octet in text {
        reader.read(*octet)?;
    }
    reader.end_line()?;
    if reader.is_open {
        let (line, fault) = (reader.entry.line, EntryFault::Unbalanced);
        return Err(ZoneFileError::Line { line, fault });
    }
    Ok(reader.entries)
}
