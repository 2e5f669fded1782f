//! The owners that have records of a chain.

use super::chains::{end, refused, say_types};
use super::zone::{Data, Rr, Zone};
use denial::{OwnerRrs, RecordsIter, RtypeBitmapBuilder, is_canonical_order, is_one_class};
use denial_chain_owners::owners::{ChainOwners, chain_owners};
use denial_chain_owners::types::add_types;
use denial_sorted::laws::zone_data_order_is_total;
use names::ParsedName;
use test_lines::Line;

/// The TTL and the minimum of the SOA record, the TTL of a chain's records, and the owners with
/// their types.
pub fn owners(line: &mut Line<'_>, zone: &Zone) {
    match (zone.apex(), zone.sorted(line)) {
        (Some(apex), Some(records)) => of_records(line, &apex, records.as_slice()),
        _ => line.lose(),
    }
}

fn of_records<'a>(line: &mut Line<'_>, apex: &ParsedName<'a>, records: &[Rr<'a>]) {
    zone_data_order_is_total::<&[u8], ParsedName<'_>>();
    if !is_one_class(records) || !is_canonical_order(records) {
        line.lose();
        return;
    }
    let excluding = line.word(1) == "without-unsigned";
    let records = RecordsIter::new_from_owned(records);
    match chain_owners(line.alloc(), apex, records, excluding) {
        Ok(chain) => told(line, apex, &chain),
        Err(error) => refused(line, &error),
    }
}

fn told<'a>(
    line: &mut Line<'_>,
    apex: &ParsedName<'a>,
    chain: &ChainOwners<'a, ParsedName<'a>, Data<'a>>,
) {
    let mut soa = line.aside(" ");
    soa.say("soa");
    soa.value(&chain.soa.ttl.as_secs());
    soa.value(&chain.soa.minimum.as_secs());
    soa.value(&chain.soa.chain_ttl().as_secs());
    end(line, soa);
    for owner in &chain.owners {
        tell_owner(line, apex, owner);
    }
}

fn tell_owner<'a>(
    line: &mut Line<'_>,
    apex: &ParsedName<'a>,
    owner: &OwnerRrs<'a, ParsedName<'a>, Data<'a>>,
) {
    let mut types = RtypeBitmapBuilder::new_vec(line.alloc());
    line.must(add_types(&mut types, apex, owner));
    let mut told = line.aside(" ");
    told.say("owner");
    told.value(owner.owner());
    say_types(&mut told, &types.finalize());
    end(line, told);
}

/// Whether the records, as they stand in the lines, are of one class and in canonical order.
pub fn conditions(line: &mut Line<'_>, zone: &Zone) {
    let records = zone.records(line);
    zone_data_order_is_total::<&[u8], ParsedName<'_>>();
    let is_one = is_one_class(&records);
    line.say(if is_one { "one class," } else { "more class," });
    let is_in_order = is_canonical_order(&records);
    line.say(if is_in_order {
        "in order"
    } else {
        "out of order"
    });
    line.mark("\n");
}
