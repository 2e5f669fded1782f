//! Laws of messages: what is written reads back.

ghost use Rattle.messages.specs.Numbers.{NumbersReadAlike};
ghost use Rattle.messages.specs.WrittenLaws.{NamesReadBack, MessagesReadBack, SignaturesReadBack};
ghost use Rattle.messages.specs.WrittenLaws.{DataReadBack};

/// A name in wire form reads as itself, with its own spelling, wherever it stands, whatever number
/// of pointers may be followed (RFC 1035, 3.1 and 4.1.4).
pub fn names_read_back()
    ensures { NamesReadBack }
{}

/// A message whose fields hold what is written reads as its question and its records, each with its
/// data (RFC 1035, 4.1).
pub fn messages_read_back()
    ensures { MessagesReadBack }
{}

/// The data of an RRSIG record, written with the signer uncompressed, read as their fields, with
/// the signer in canonical form, and the signature (RFC 4034, 3.1).
pub fn signatures_read_back()
    ensures { SignaturesReadBack }
{}

/// The data of NS, SOA and NSEC records, written with their names uncompressed, read as their
/// canonical form (RFC 4034, 6.2). Those of NSEC3 records read as what they say, and as they stand
/// (RFC 5155, 3.2).
pub fn data_read_back()
    ensures { DataReadBack }
{}

/// Where its octets are there, a number is the same whether it is read step by step, as of a
/// message, or at once, as of a record's data (RFC 1035, 2.3.2).
pub fn numbers_read_alike()
    ensures { NumbersReadAlike }
{}
