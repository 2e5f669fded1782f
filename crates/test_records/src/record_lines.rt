//! What is asked of records and record data.
//!
//! Octets are in hexadecimal, `-` is none of them, and numbers are decimal. What is answered to
//! each word stands above the lines that begin with it.

mod data;
mod groups;
mod named_numbers;
mod rooms;
mod rows;
mod sorted;
mod unknown;

use test_lines::Line;

/// Answers a line of records.
pub fn answer(line: &mut Line<'_>) {
    match line.word(0) {
        "constants" => named_numbers::constants(line),
        "type" => named_numbers::rtype(line),
        "class" => named_numbers::class(line),
        "ttl" => named_numbers::ttl(line),
        "algorithm" => named_numbers::algorithm(line),
        "digest" => named_numbers::digest(line),
        "encode" => named_numbers::encode(line),
        "decode" => named_numbers::decode(line),
        "lengths" => named_numbers::lengths(line),
        _ => of_data(line),
    }
}

fn of_data(line: &mut Line<'_>) {
    match line.word(0) {
        "data" => data::data(line),
        "soa" => data::soa(line),
        "ns" => data::ns(line),
        "order" => data::order(line),
        "unknown" => unknown::unknown(line),
        "unknown-order" => unknown::order(line),
        "zeros" => unknown::zeros(line),
        "record" => rows::record(line),
        "record-order" => rows::order(line),
        "rooms" => rooms::rooms(line),
        _ => of_sorted(line),
    }
}

fn of_sorted(line: &mut Line<'_>) {
    match line.word(0) {
        "sort" => sorted::sort(line),
        "extend" => sorted::extend(line),
        "insert" => sorted::insert(line),
        "remove-first" | "remove-all" => sorted::remove(line),
        "owners" => groups::owners(line),
        "sets" => groups::sets(line),
        "find-soa" => groups::find_soa(line),
        "singles" => groups::singles(line),
        "find" => groups::find(line),
        "group" => groups::group(line),
        "zone" => groups::zone(line),
        _ => line.lose(),
    }
}
