//! What makes a list of records no zone that is published.
ghost use Rattle.std.specs.Prelude.{◌≡◌, map};
ghost use Rattle.std.specs.List.{list_any};
ghost use Rattle.messages.specs.HandedRr.{handed_of, is_meta};
ghost use Rattle.answer_terms.specs.Accepting.{
  delegates_star,
  is_added_by_signing,
  is_alias,
  is_of_other_class,
  is_outside,
  over_limit,
};
ghost use Rattle.answer_zone_records.specs.Faults.{first_fault};
ghost use Rattle.answer_terms.specs.ModeView.{mode_of};

use crate::fault::ZoneFault;
use crate::record_faults::{
    delegates_star, is_added_by_signing, is_alias, is_meta, is_of_other_class, is_outside,
};
use answer_terms::mode::Mode;
use messages::names::Name;
use messages::record::ZoneRecord;

/// The first fault of a list, each sought in the whole list before the next.
pub fn first_fault(
    apex: &Name<Vec<u8>>,
    mode: &Mode,
    limit: u16,
    records: &[ZoneRecord],
) -> Option<ZoneFault>
    ensures { result ≡ first_fault apex.now (mode_of mode.now) limit (map handed_of records.now) }
{
    if any_of_other_class(records) {
        Some(ZoneFault::WrongClass)
    } else if any_outside(apex, records) {
        Some(ZoneFault::OutsideApex)
    } else if any_added_by_signing(records) {
        Some(ZoneFault::SignedType)
    } else if any_alias(records) {
        Some(ZoneFault::Alias)
    } else if any_meta(records) {
        Some(ZoneFault::MetaType)
    } else if any_star_delegation(records) {
        Some(ZoneFault::StarNs)
    } else if is_over_limit(mode, limit) {
        Some(ZoneFault::IterationsOverLimit)
    } else {
        None
    }
}

pub(crate) fn any_of_other_class(records: &[ZoneRecord]) -> bool
    ensures { result ≡ list_any is_of_other_class (map handed_of records.now) }
{
    records.iter().any(|r| is_of_other_class(r))
}

pub(crate) fn any_outside(apex: &Name<Vec<u8>>, records: &[ZoneRecord]) -> bool
    ensures { result ≡ list_any (is_outside apex.now) (map handed_of records.now) }
{
    records.iter().any(|r| is_outside(r, apex))
}

pub(crate) fn any_added_by_signing(records: &[ZoneRecord]) -> bool
    ensures { result ≡ list_any is_added_by_signing (map handed_of records.now) }
{
    records.iter().any(|r| is_added_by_signing(r))
}

/// Whether a record is an alias.
pub fn any_alias(records: &[ZoneRecord]) -> bool
    ensures { result ≡ list_any is_alias (map handed_of records.now) }
{
    records.iter().any(|r| is_alias(r))
}

pub(crate) fn any_meta(records: &[ZoneRecord]) -> bool
    ensures { result ≡ list_any is_meta (map handed_of records.now) }
{
    records.iter().any(|r| is_meta(r))
}

pub(crate) fn any_star_delegation(records: &[ZoneRecord]) -> bool
    ensures { result ≡ list_any delegates_star (map handed_of records.now) }
{
    records.iter().any(|r| delegates_star(r))
}

/// Whether a chain's iterations are over the limit (RFC 5155, 10.3). A chain of names has none.
pub(crate) fn is_over_limit(mode: &Mode, limit: u16) -> bool
    ensures { result ≡ over_limit (mode_of mode.now) limit }
{
    match mode {
        Mode::Nsec => false,
        Mode::Nsec3 { iterations, .. } => limit < *iterations,
    }
}
