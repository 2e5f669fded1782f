//! What a client has of a message that answers it.

use server_queries::{Query, read_query};
use server_responses::{ResponseError, ResponseSizes, Transport, response, size_limit};
use test_lines::Line;

/// What a line asks of a query and of a message that answers it.
pub fn told(line: &mut Line<'_>) {
    let query = line.octets(3);
    match read_query(&query) {
        Ok(query) => response_to(line, &query),
        Err(_) => line.lose(),
    }
}

/// What carries a response: `tcp`, or the limit of a datagram.
fn transport(line: &mut Line<'_>) -> Transport {
    if line.word(1) == "tcp" {
        Transport::Stream
    } else {
        Transport::Datagram {
            limit: line.u16_at(1),
        }
    }
}

fn response_to(line: &mut Line<'_>, query: &Query<'_>) {
    let (carried, udp_size, message) = (transport(line), line.u16_at(2), line.octets(4));
    let sizes = ResponseSizes {
        limit: size_limit(carried, query.edns),
        udp_size,
    };
    match response(line.alloc(), query, &message, &[], sizes) {
        Ok(octets) => line.hex(&octets),
        Err(ResponseError::Unreadable) => line.say("unreadable"),
        Err(ResponseError::Memory) => line.lose(),
    }
}
