//! Removing records from sorted ones.

ghost use Rattle.std.specs.Prelude.{◌≡◌, None, Some, not};
ghost use Rattle.std.specs.List.{filter, list_any};
ghost use Rattle.std.specs.List.Sorted.{IsStrictlySortedBy};
ghost use Rattle.plain.specs.Records.{record_canonical_cmp};
ghost use Rattle.denial_rrsets.specs.Groups.{of_one_owner};
ghost use Rattle.denial_sorted.specs.Removing.{IsFirstOf, is_asked, without_first};
ghost use Rattle.denial_sorted.specs.Spans.{HoldsAll};
ghost use Rattle.denial_rrsets.specs.Starts.{starts_in};

use crate::search::{Span, only_class, span_of};
use crate::sorted::SortedRecords;
use crate::sorter::Sorter;
use crate::starts::fill;
use denial_rrsets::runs::ByOwner;
use names_rdata::canonical::CanonicalOrd;
use names_rdata::data::RecordData;
use names_rdata::rtype::Rtype;
use names_traits::to_name::ToName;
use plain::Class;
use plain::record::Record;

impl<N: ToName + Drop, D: RecordData + CanonicalOrd + Drop, S: Sorter> SortedRecords<N, D, S> {
    /// Removes each record of an owner, of the class and type that are given, and returns whether
    /// there was one.
    pub fn remove_all_by_name_class_rtype(
        &mut self,
        name: &N,
        class: Option<Class>,
        rtype: Option<Rtype>,
    ) -> bool
        ensures found { let asked = is_asked N.name D.type_of (N.name name.now) class rtype in
            result ≡ list_any asked self.old }
        ensures left { let asked = is_asked N.name D.type_of (N.name name.now) class rtype in
            self.new ≡ filter (λ r. not (asked r)) self.old }
    {
        let Some(_first) = first_of(&self.records, &self.starts, name, &class, &rtype) else {
            return false;
        };
        self.records.retain(|rr| !is_of(rr, name, &class, &rtype));
        fill::<Record<N, D>, ByOwner>(&mut self.starts, &self.records);
        true
    }

    /// Removes the first record of an owner, of the class and type that are given, and returns
    /// whether there was one.
    pub fn remove_first_by_name_class_rtype(
        &mut self,
        name: &N,
        class: Option<Class>,
        rtype: Option<Rtype>,
    ) -> bool
        ensures found { let asked = is_asked N.name D.type_of (N.name name.now) class rtype in
            result ≡ list_any asked self.old }
        ensures left { let asked = is_asked N.name D.type_of (N.name name.now) class rtype in
            self.new ≡ without_first asked self.old }
    {
        let Some(place) = first_of(&self.records, &self.starts, name, &class, &rtype) else {
            return false;
        };
        self.records.remove(place);
        fill::<Record<N, D>, ByOwner>(&mut self.starts, &self.records);
        true
    }
}

/// Whether a record is of an owner, and of the class and type that are given.
fn is_of<N: ToName, D: RecordData>(
    rr: &Record<N, D>,
    name: &N,
    class: &Option<Class>,
    rtype: &Option<Rtype>,
) -> bool
    ensures { result ≡ is_asked N.name D.type_of (N.name name.now) class.now rtype.now rr.now }
{
    let of_class = match class {
        Some(class) => rr.class() == *class,
        None => true,
    };
    let of_type = match rtype {
        Some(rtype) => rr.rtype() == *rtype,
        None => true,
    };
    of_class && of_type && rr.owner().name_eq(name)
}

/// The place of the first record of an owner, of the class and type that are given. It is found by
/// the places at which owners begin, unless there are several classes and none is given.
fn first_of<N: ToName, D: RecordData + CanonicalOrd>(
    records: &[Record<N, D>],
    starts: &[usize],
    name: &N,
    class: &Option<Class>,
    rtype: &Option<Rtype>,
) -> Option<usize>
    requires order { let by = record_canonical_cmp N.name D.type_of D.canonical in
        IsStrictlySortedBy by records.now }
    requires starts { starts.now ≡ starts_in (of_one_owner N.name) records.now }
    ensures { let asked = is_asked N.name D.type_of (N.name name.now) class.now rtype.now in
        IsFirstOf asked records.now result }
{
    let Some(span) = span_sought(records, starts, name, class) else {
        return None;
    };
    first_in(records, span, name, class, rtype)
}

/// A span with all records of an owner and of the class that is given. It is the span of all
/// records where no class is given and there are several.
fn span_sought<N: ToName, D: RecordData + CanonicalOrd>(
    records: &[Record<N, D>],
    starts: &[usize],
    name: &N,
    class: &Option<Class>,
) -> Option<Span>
    requires order { let by = record_canonical_cmp N.name D.type_of D.canonical in
        IsStrictlySortedBy by records.now }
    requires starts { starts.now ≡ starts_in (of_one_owner N.name) records.now }
    ensures { let asked = is_asked N.name D.type_of (N.name name.now) class.now None in
        HoldsAll asked records.now result }
{
    match class {
        Some(class) => span_of(records, starts, *class, name),
        None => span_of_any(records, starts, name),
    }
}

/// A span with all records of an owner, whatever their class. It is the span of all records where
/// there are several classes.
fn span_of_any<N: ToName, D: RecordData + CanonicalOrd>(
    records: &[Record<N, D>],
    starts: &[usize],
    name: &N,
) -> Option<Span>
    requires order { let by = record_canonical_cmp N.name D.type_of D.canonical in
        IsStrictlySortedBy by records.now }
    requires starts { starts.now ≡ starts_in (of_one_owner N.name) records.now }
    ensures { let asked = is_asked N.name D.type_of (N.name name.now) None None in
        HoldsAll asked records.now result }
{
    match only_class(records) {
        Some(class) => span_of(records, starts, class, name),
        None => Some(Span {
            start: 0,
            end: records.len(),
        }),
    }
}

/// The place of the first record of the class and type that are given, in a span that has all
/// records of the owner and class.
fn first_in<N: ToName, D: RecordData>(
    records: &[Record<N, D>],
    span: Span,
    name: &N,
    class: &Option<Class>,
    rtype: &Option<Rtype>,
) -> Option<usize>
    requires { let asked = is_asked N.name D.type_of (N.name name.now) class.now None in
        HoldsAll asked records.now (Some span) }
    ensures { let asked = is_asked N.name D.type_of (N.name name.now) class.now rtype.now in
        IsFirstOf asked records.now result }
{
    for place in span.start..span.end {
        if is_of(&records[place], name, class, rtype) {
            return Some(place);
        }
    }
    None
}
