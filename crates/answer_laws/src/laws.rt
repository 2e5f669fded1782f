//! Laws of a zone's key life.
ghost use Rattle.answer_laws.specs.PublishedKeys.{PublishedKeysAreOfTheZone};
ghost use Rattle.answer_laws.specs.Simulations.{RunsAreSimulations};
ghost use Rattle.answer_laws.specs.StaysBound.{AddsBind, ReferencesStayBound};
ghost use Rattle.answer_laws.specs.ThroughRollsRows.{RollByHand};

/// An accepted add binds its reference to its key, for good: whatever calls come behind, also once
/// the key is deleted.
pub fn references_stay_bound()
    ensures bind { AddsBind }
    ensures stay { ReferencesStayBound }
{}

/// The keys that a publisher publishes are keys of a zone, whatever calls are behind them: flags
/// 256 or 257, protocol 3. So they are what a judge asks of the keys of a DNSKEY answer (RFC 4034,
/// 2.1).
pub fn published_keys_are_of_the_zone()
    ensures { PublishedKeysAreOfTheZone }
{}

/// Whatever outcomes the definitions of a simulation allow of events over an accepted zone, event
/// by event, its judgements say the zone's verdicts: of things that one state of the keys showed,
/// where its keys meet, and of things that any three states showed, none of them retired (RFC 6781,
/// 4.1).
pub fn runs_are_simulations()
    ensures { RunsAreSimulations }
{}

/// A roll of a zone signing key, worked through on the definitions: what may be in use together,
/// and what is retired.
pub fn a_roll_by_hand()
    ensures { RollByHand }
{}
