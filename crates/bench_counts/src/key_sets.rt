//! Makes the calls of a roll of zone signing keys on a large key set, half of whose keys are old
//! and half of them new.

use keyset::{Available, Error, KeySet, RollType, UnixTime};
use names_flat::name::Name;
use numbers::algorithm::SecurityAlgorithm;
use std::alloc::{AllocError, Global};
use std::io;
use std::time::Duration;

fn references(alloc: Global, letter: &str, count: u16) -> io::Result<Vec<String>> {
    let mut names = Vec::new(alloc);
    for i in 0..count {
        names.push(format!(in alloc; "{letter}{i}")?)?;
    }
    Ok(names)
}

fn texts(alloc: Global, names: &[String]) -> io::Result<Vec<&str>> {
    let mut list = Vec::new(alloc);
    for name in names {
        list.push(name.as_str())?;
    }
    Ok(list)
}

fn add_all(alloc: Global, set: &mut KeySet, names: &[String], tag: u16) -> Result<(), Error> {
    let mut key_tag = tag;
    for name in names {
        set.add_key_zsk(
            String::from_str(alloc, name.as_str())?,
            None,
            SecurityAlgorithm::from_int(13),
            key_tag,
            UnixTime::new(Duration::ZERO),
            Available::Available,
        )?;
        key_tag = key_tag.wrapping_add(1);
    }
    Ok(())
}

/// Makes one call of the roll.
fn call(set: &mut KeySet, step: u64, old: &[&str], new: &[&str]) -> Result<(), Error> {
    let now = UnixTime::new(Duration::from_secs(step));
    let roll = RollType::ZskRoll;
    match step {
        0 => set.start_roll(roll, old, new, &now)?,
        1 => set.propagation1_complete(roll, 0, &now)?,
        2 => set.cache_expired1(roll, &now)?,
        3 => set.propagation2_complete(roll, 0, &now)?,
        4 => set.cache_expired2(roll, &now)?,
        _ => set.roll_done(roll)?,
    };
    Ok(())
}

/// How many of a number of calls were accepted on a set of a number of keys.
pub(crate) fn counted(alloc: Global, keys: &str, calls: u64) -> io::Result<u64> {
    let half = keys.parse().unwrap_or(0u16) / 2;
    let (olds, news) = (
        references(alloc, "old", half)?,
        references(alloc, "new", half)?,
    );
    let (old, new) = (texts(alloc, &olds)?, texts(alloc, &news)?);
    let root = Name::root(alloc).map_err(|_| AllocError)?;
    let mut set = KeySet::new(alloc, root);
    let is_filled = add_all(alloc, &mut set, &olds, 0).is_ok()
        && add_all(alloc, &mut set, &news, 32768).is_ok();
    let mut accepted = 0u64;
    for step in 0..calls {
        if is_filled && call(&mut set, step, &old, &new).is_ok() {
            accepted = accepted.wrapping_add(1);
        }
    }
    Ok(accepted)
}
