//! OPT records (RFC 6891, 6.1).
ghost use Rattle.std.specs.Prelude.{◌≡◌, ◌∷◌, [], take, MatchOption};
ghost use Rattle.messages.specs.Record.{spelled};
ghost use Rattle.server_queries.specs.Options.{edns_of, first_edns, has_opt, only_edns, opts};

use crate::rcode::Rcode;
use messages::view::{Records, ViewRecord};
use plain::Rtype;

/// What an OPT record says of whoever sent it (RFC 6891, 6.1.2 and 6.1.3).
#[derive(Clone, Copy, Debug, PartialEq, Eq)]
pub struct Edns {
    pub version: u8,
    /// How many octets a reply by UDP may have, at least 512.
    pub udp_size: u16,
    /// Whether records of DNSSEC are wanted (DO; RFC 3225).
    pub dnssec_ok: bool,
}

impl Edns {
    /// What an OPT record says.
    pub fn of_record(opt: &ViewRecord<'_>) -> Edns
        ensures { result ≡ edns_of (spelled opt.now) }
    {
        let bits = opt.ttl.as_secs();
        Edns {
            version: (bits / 0x0001_0000 % 256) as u8,
            udp_size: opt.class.to_int().max(512),
            dnssec_ok: bits / 0x8000 % 2 == 1,
        }
    }
}

/// What the one OPT record says, if there is any. Two of them, or one whose owner is not the root,
/// make no query (RFC 6891, 6.1.1 and 6.1.2).
pub(crate) fn only_edns(records: Records<'_>) -> Result<Option<Edns>, Rcode>
    ensures { result ≡ only_edns (opts records.entry) }
{
    let mut records = records;
    let Some(opt) = next_opt(&mut records) else {
        return Ok(None);
    };
    if next_opt(&mut records).is_some() || !opt.owner.name().is_root() {
        return Err(Rcode::FormErr);
    }
    let edns = Edns::of_record(&opt);
    if edns.version > 0 {
        return Err(Rcode::BadVers);
    }
    Ok(Some(edns))
}

/// What the first OPT record says, whatever else there is.
pub(crate) fn first_edns(records: Records<'_>) -> Option<Edns>
    ensures { result ≡ first_edns (opts records.entry) }
{
    let mut records = records;
    let opt = next_opt(&mut records)?;
    Some(Edns::of_record(&opt))
}

/// Whether an OPT record is among the first records.
pub(crate) fn has_opt(records: Records<'_>, count: usize) -> bool
    ensures { result ≡ has_opt (take count records.entry) }
{
    let mut records = records;
    for _ in 0..count {
        let Some(record) = records.next() else {
            return false;
        };
        if record.rtype == Rtype::OPT {
            return true;
        }
    }
    false
}

/// The next OPT record; what stands before it is passed over.
fn next_opt<'a>(records: &mut Records<'a>) -> Option<ViewRecord<'a>>
    ensures { MatchOption result (opts records.old ≡ [])
        (λ r. opts records.old ≡ spelled r ∷ opts records.new) }
{
    while let Some(record) = records.next() {
        if record.rtype == Rtype::OPT {
            return Some(record);
        }
    }
    None
}
