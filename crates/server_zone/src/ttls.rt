//! The greatest TTL of records.
ghost use Rattle.std.specs.Prelude.{◌≡◌, map};
ghost use Rattle.messages.specs.HandedRr.{handed_of};
ghost use Rattle.server_zone.specs.States.{greatest_ttl};

use messages::record::ZoneRecord;

/// The greatest TTL of records, or this one where none is greater.
pub(crate) fn greatest_ttl(ttl: u32, records: &[ZoneRecord]) -> u32
    ensures { result ≡ greatest_ttl ttl (map handed_of records.now) }
{
    let mut greatest = ttl;
    for record in records {
        greatest = greatest.max(record.ttl().as_secs());
    }
    greatest
}
