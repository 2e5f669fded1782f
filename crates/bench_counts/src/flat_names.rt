//! Work on names over flat octets, a name as text on each line.

use names_flat::name::Name;
use names_traits::to_name::ToName;
use std::alloc::Global;
use std::io;

/// How many pairs of the names are in ascending order.
fn compare(names: &[Name<Vec<u8>>]) -> u64 {
    let mut count = 0u64;
    for left in names {
        for right in names {
            if left.name_cmp(right).is_lt() {
                count = count.wrapping_add(1);
            }
        }
    }
    count
}

/// How many pairs of the names are equal.
fn equal(names: &[Name<Vec<u8>>]) -> u64 {
    let mut count = 0u64;
    for left in names {
        for right in names {
            if left.name_eq(right) {
                count = count.wrapping_add(1);
            }
        }
    }
    count
}

/// How many octets the names of texts have, each read to octets of its own.
fn read(alloc: Global, texts: &[String]) -> u64 {
    let mut count = 0u64;
    for text in texts {
        if let Ok(name) = Name::vec_from_str(alloc, text.as_str()) {
            count = count.wrapping_add(name.as_slice().len() as u64);
        }
    }
    count
}

/// How many octets the texts of names have, each printed to a text of its own.
fn print(alloc: Global, names: &[Name<Vec<u8>>]) -> u64 {
    let mut count = 0u64;
    for name in names {
        if let Ok(text) = name.to_string(alloc) {
            count = count.wrapping_add(text.len() as u64);
        }
    }
    count
}

/// How many octets copies of the names have.
fn copy(alloc: Global, names: &[Name<Vec<u8>>]) -> u64 {
    let mut count = 0u64;
    for name in names {
        if let Ok(copy) = name.to_vec(alloc) {
            count = count.wrapping_add(copy.as_slice().len() as u64);
        }
    }
    count
}

/// How many octets the labels of the names have, walked from the front.
fn walk(names: &[Name<Vec<u8>>]) -> u64 {
    let mut count = 0u64;
    for name in names {
        let mut labels = name.iter();
        while let Some(label) = labels.next() {
            count = count.wrapping_add(label.len() as u64);
        }
    }
    count
}

/// The sum of `walk`, with labels taken from the back.
fn walk_back(names: &[Name<Vec<u8>>]) -> u64 {
    let mut count = 0u64;
    for name in names {
        let mut labels = name.iter();
        while let Some(label) = labels.next_back() {
            count = count.wrapping_add(label.len() as u64);
        }
    }
    count
}

/// Sorts the names, and gives how many octets the first one has.
fn sort(names: &mut [Name<Vec<u8>>]) -> u64 {
    names.sort_unstable();
    names.first().map_or(0, |name| name.as_slice().len() as u64)
}

/// What the task counts, done as often as asked.
pub(crate) fn counted(alloc: Global, task: &str, rounds: u64, lines: &[String]) -> io::Result<u64> {
    let (mut names, mut texts) = (Vec::new(alloc), Vec::new(alloc));
    for line in lines {
        if let Ok(name) = Name::vec_from_str(alloc, line.as_str()) {
            let text: Result<_, _> = name.to_string(alloc);
            texts.push(text?)?;
            names.push(name)?;
        }
    }
    let mut count = 0u64;
    for _ in 0..rounds {
        let more = match task {
            "compare" => compare(&names),
            "equal" => equal(&names),
            "read" => read(alloc, &texts),
            "print" => print(alloc, &names),
            "copy" => copy(alloc, &names),
            "walk" => walk(&names),
            "walk_back" => walk_back(&names),
            _ => sort(&mut names),
        };
        count = count.wrapping_add(more);
    }
    Ok(count)
}
