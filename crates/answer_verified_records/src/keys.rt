//! The keys that may sign the zone (RFC 4035, 5.2).
ghost use Rattle.std.specs.Prelude.{◌≡◌, ◌+◌, ◌<◌, ◌≤◌, ◌^◌, IfOk, filter, length, map};
ghost use Rattle.std.specs.Option.{option_map};
ghost use Rattle.definitions.specs.Limits.{pointer_limit};
ghost use Rattle.messages.specs.Record.{spelled};
ghost use Rattle.answer_scheme.specs.Answers.{EachAgreeing, SignatureTest};
ghost use Rattle.answer_judge_keys.specs.Trusted.{is_signature};
ghost use Rattle.answer_verified_records.specs.Records.{signing_keys};

use answer_judge::Case;
use answer_judge_facts::key_rrset::are_verified;
use answer_judge_keys::check_run::CheckRun;
use answer_judge_keys::key_index::KeyIndex;
use answer_judge_keys::keys::{TaggedKey, trusted_keys, usable_keys};
use answer_judge_keys::trust::Trust;
use answer_scheme::checks::Checks;
use messages::ViewRecord;
use messages::names::ZoneName;
use std::alloc::AllocError;

/// The usable ones of some keys, where one that a DS record names signs all of them.
pub(crate) fn signing_keys<'a, C: Checks>(
    case: &Case,
    records: &[ViewRecord],
    keys: Vec<TaggedKey<'a>>,
    check_run: &mut CheckRun<C>,
) -> Result<Option<Vec<TaggedKey<'a>>>, AllocError>
    requires none_yet { check_run.old.count ≡ 0 }
    requires room { length records.now < 2 ^ 32 }
    ensures exact { EachAgreeing (C.answers check_run.old.checks.now)
        (C.agrees check_run.new.checks.now) (λ a. let rs = map spelled records.now in
        IfOk result (λ o. option_map (λ ks. ks.items) o
        ≡ signing_keys a pointer_limit case.now rs keys.entry.items)) }
    ensures agrees { (test : SignatureTest) → C.agrees check_run.new.checks.now test
        → C.agrees check_run.old.checks.now test }
    ensures counted { C.verified check_run.new.checks.now
        ≡ C.verified check_run.old.checks.now + check_run.new.count }
    ensures bound { let rs = map spelled records.now in
        check_run.new.count ≤ length (filter is_signature rs) }
    ensures few { check_run.new.count ≤ length records.now }
    ensures hashed { C.hashed check_run.new.checks.now ≡ C.hashed check_run.old.checks.now }
    ensures same { C.answers check_run.new.checks.now ≡ C.answers check_run.old.checks.now }
    ensures same_checks { check_run.new.checks.ghost_name ≡ check_run.old.checks.ghost_name }
{
    check_run.octets.reserve(512)?;
    let trusted = trusted_keys(case.apex, case.ds, &keys, check_run)?;
    let index = KeyIndex::new(check_run.alloc, &trusted)?;
    let trust = Trust {
        apex: case.apex,
        depth: case.apex.depth(),
        keys: &index,
        moment: case.moment.timestamp(),
    };
    let mut seconds = 0;
    if are_verified(case.dnskey, records, &keys, &trust, check_run, &mut seconds)? {
        return Ok(Some(usable_keys(keys)));
    }
    Ok(None)
}
