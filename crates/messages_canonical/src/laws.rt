//! Laws of canonical forms.

ghost use Rattle.messages_canonical.specs.Laws.{CanonicalReadsBack, DataStayInForm, NamesAreReadSo};

/// A message written in canonical form reads back as the same question and the same records, with
/// data in canonical form.
pub fn canonical_reads_back()
    ensures { CanonicalReadsBack }
{}

/// Data that are in form by themselves are in form wherever they stand in a message.
pub fn data_stay_in_form()
    ensures { DataStayInForm }
{}

/// NS, SOA and NSEC data that read as their type's read in canonical form, however they stand, so
/// they need not be rewritten.
pub fn names_are_read_so()
    ensures { NamesAreReadSo }
{}
