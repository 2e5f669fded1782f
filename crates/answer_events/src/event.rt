//! What happens to a signed zone over time.
ghost use Rattle.std.specs.Prelude.{◌≡◌, length, string_bytes, true, None};
ghost use Rattle.answer_events.specs.Calls.{Add, call_of};
ghost use Rattle.answer_events.specs.Events.{added_by_call};

use crate::key_kind::KeyKind;
use keyset::{Available, RollType, UnixTime};
use messages::question::Question;
use messages::record::ZoneRecord;
use numbers::algorithm::SecurityAlgorithm;
use std::fmt;

/// An act at a moment. A key call takes the moment as its present, and an added key as its
/// creation.
#[derive(Debug, Drop)]
pub struct Event {
    pub at: UnixTime,
    pub act: Act,
}

/// What a zone's keeper, a resolver or a stranger does.
///
/// A place counts the things shown so far that can be judged, from 0 on.
#[derive(Drop)]
pub enum Act {
    /// A call on the keys of the zone.
    Key(KeyCall),
    /// Publishes other records in the place of the zone's.
    Replace(Vec<ZoneRecord>),
    /// Shows the DS set of the parent (RFC 4034, 5).
    ShowDs,
    /// Shows the CDS set, which asks the parent for a DS set. It takes no place (RFC 7344, 3).
    ShowCds,
    /// Shows the CDNSKEY set. It takes no place.
    ShowCdnskey,
    /// Shows the answer for the DNSKEY RRset.
    ShowDnskey,
    /// Shows the zone's answer to a question.
    Ask(Question),
    /// Judges three shown things by their places, for the question that the zone answer was given
    /// to.
    Judge {
        ds: usize,
        dnskey: usize,
        answer: usize,
    },
    /// Judges any two strings of bytes beside a DS set that was shown.
    JudgeBytes {
        ds: usize,
        dnskey_bytes: Vec<u8>,
        answer_bytes: Vec<u8>,
        question: Question,
    },
}

/// Records are counted, not listed.
impl fmt::Debug for Act {
    fn fmt<W: fmt::Write>(&self, f: &mut fmt::Formatter<W>) -> fmt::Result {
        match self {
            Act::Key(call) => f.debug_tuple("Key").field(call).finish(),
            Act::Replace(records) => f.debug_tuple("Replace").field(&records.len()).finish(),
            Act::ShowDs => f.write_str("ShowDs"),
            Act::ShowCds => f.write_str("ShowCds"),
            Act::ShowCdnskey => f.write_str("ShowCdnskey"),
            Act::ShowDnskey => f.write_str("ShowDnskey"),
            Act::Ask(question) => f.debug_tuple("Ask").field(question).finish(),
            Act::Judge { ds, dnskey, answer } => f
                .debug_struct("Judge")
                .field("ds", ds)
                .field("dnskey", dnskey)
                .field("answer", answer)
                .finish(),
            Act::JudgeBytes {
                ds,
                dnskey_bytes,
                answer_bytes,
                question,
            } => f
                .debug_struct("JudgeBytes")
                .field("ds", ds)
                .field("dnskey_bytes", dnskey_bytes)
                .field("answer_bytes", answer_bytes)
                .field("question", question)
                .finish(),
        }
    }
}

/// What a call that adds a key is handed of it. A key's octets are at most 65,531.
#[derive(Debug, Drop)]
pub struct AddKey {
    pub pubref: String,
    pub privref: Option<String>,
    pub algorithm: SecurityAlgorithm,
    pub public_key: Vec<u8>,
    pub available: Available,
}

impl AddKey {
    /// An available key, without a private reference.
    pub fn new(pubref: String, algorithm: SecurityAlgorithm, public_key: Vec<u8>) -> Self
        ensures { result ≡ record {
          pubref = pubref;
          privref = None;
          algorithm = algorithm;
          public_key = public_key;
          available = Available.Available;
        } }
    {
        AddKey {
            pubref,
            privref: None,
            algorithm,
            public_key,
            available: Available::Available,
        }
    }
}

/// A call on the keys of a zone, with its arguments. A key's octets are at most 65,531.
#[derive(Debug, Drop)]
pub enum KeyCall {
    /// Adds a key signing key.
    AddKeyKsk(AddKey),
    /// Adds a zone signing key.
    AddKeyZsk(AddKey),
    /// Adds a key that signs both, keys and zone.
    AddKeyCsk(AddKey),
    /// Adds a key of another owner, which signs nothing here.
    AddPublicKey {
        pubref: String,
        algorithm: SecurityAlgorithm,
        public_key: Vec<u8>,
        available: bool,
    },
    /// Sets whether a key is no longer managed by its references.
    SetDecoupled {
        pubref: String,
        value: bool,
    },
    /// Puts a key into the DNSKEY RRset, or takes it out, outside a roll.
    SetPresent {
        pubref: String,
        value: bool,
    },
    /// Sets whether a key signs, outside a roll.
    SetSigner {
        pubref: String,
        value: bool,
    },
    /// Sets whether the parent's DS RRset has a key, outside a roll.
    SetAtParent {
        pubref: String,
        value: bool,
    },
    /// Sets since when all servers have a key in the DNSKEY RRset.
    SetVisible {
        pubref: String,
        time: UnixTime,
    },
    /// Sets since when all servers of the parent have a key's DS record.
    SetDsVisible {
        pubref: String,
        time: UnixTime,
    },
    /// Sets since when all servers have a key's signatures.
    SetRrsigVisible {
        pubref: String,
        time: UnixTime,
    },
    /// Takes a key out of use at once, outside a roll.
    SetStale {
        pubref: String,
    },
    /// Deletes a key that is stale. Its reference stays bound to it.
    DeleteKey {
        pubref: String,
    },
    /// Starts a roll from old keys to new ones.
    StartRoll {
        rolltype: RollType,
        old: Vec<String>,
        new: Vec<String>,
    },
    /// Reports that the first changes are on all servers, with the greatest TTL in seconds.
    Propagation1Complete {
        rolltype: RollType,
        ttl: u32,
    },
    /// Says that what was served before the first report has expired.
    CacheExpired1 {
        rolltype: RollType,
    },
    /// Reports that the second changes are on all servers, with the greatest TTL in seconds.
    Propagation2Complete {
        rolltype: RollType,
        ttl: u32,
    },
    /// Says that what was served before the second report has expired.
    CacheExpired2 {
        rolltype: RollType,
    },
    /// Ends a roll whose last actions are done.
    RollDone {
        rolltype: RollType,
    },
}

impl KeyCall {
    /// The add of an available key of a kind, without a private reference.
    pub fn add(
        kind: KeyKind,
        pubref: String,
        algorithm: SecurityAlgorithm,
        public_key: Vec<u8>,
    ) -> Self
        ensures octets { added_by_call result ≡ length public_key.items }
        ensures call { let octets = public_key.items in
            call_of result ≡ Add kind (string_bytes pubref) None algorithm octets true }
    {
        match kind {
            KeyKind::Ksk => KeyCall::AddKeyKsk(AddKey::new(pubref, algorithm, public_key)),
            KeyKind::Zsk => KeyCall::AddKeyZsk(AddKey::new(pubref, algorithm, public_key)),
            KeyKind::Csk => KeyCall::AddKeyCsk(AddKey::new(pubref, algorithm, public_key)),
            KeyKind::Include => KeyCall::AddPublicKey {
                pubref,
                algorithm,
                public_key,
                available: true,
            },
        }
    }
}
