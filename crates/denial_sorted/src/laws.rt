//! Laws of sorted records. Each is a function without a parameter, whose contract is the law.

ghost use Rattle.std.specs.Prelude.{List};
ghost use Rattle.std.specs.Cmp.{IsTotalOrder};
ghost use Rattle.std.specs.List.Sorted.{IsStrictlySortedBy};
ghost use Rattle.plain.specs.Records.{record_canonical_cmp};
ghost use Rattle.plain.specs.declared.record.Record.{Record};
ghost use Rattle.denial_sorted.specs.Adding.{AddsFirsts};

use names_rdata::canonical::CanonicalOrd;
use names_rdata::data::RecordData;
use names_rdata::unknown::UnknownRecordData;
use names_traits::to_name::ToName;
use names_wire::octets::Octets;
use plain::zone_data::ZoneRecordData;

/// The canonical order of data of any type, as octets, is total.
pub fn unknown_data_order_is_total<Octs: Octets>()
    ensures { IsTotalOrder ⟦<UnknownRecordData<Octs> as CanonicalOrd>⟧.canonical }
{}

/// The canonical order of a zone's data is total.
pub fn zone_data_order_is_total<Octs: Octets, N: ToName>()
    ensures { IsTotalOrder ⟦<ZoneRecordData<Octs, N> as CanonicalOrd>⟧.canonical }
{}

/// Records that are inserted one after another are in order, and of equal records the first is
/// kept: a record that is there stays, and a record is added if none that is equal is there or
/// earlier among those inserted.
pub fn added_records_are_the_first<N: ToName, D: RecordData + CanonicalOrd>()
    ensures { let by = record_canonical_cmp N.name D.type_of D.canonical in
        IsTotalOrder D.canonical → (held records : List (Record N D)) → IsStrictlySortedBy by held →
        AddsFirsts by held records }
{}
