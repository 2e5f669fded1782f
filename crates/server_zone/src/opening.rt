//! Opening a zone from its journal.
ghost use Rattle.std.specs.Prelude.{◌≡◌, ◌++◌, ◌≤◌, ◌==◌, length, map, IfErr, IfOk, Some, false};
ghost use Rattle.std.specs.Prelude.{take, true};
ghost use Rattle.answer_publisher.specs.World.{world_of};
ghost use Rattle.messages.specs.HandedRr.{handed_of};
ghost use Rattle.answer_zone_records.specs.AliasFaults.{IsAcceptedWithAliases};
ghost use Rattle.answer_zone_records.specs.AliasFaults.{RefusesZoneWithAliases};
ghost use Rattle.server_answers.specs.Zones.{IsZone};
ghost use Rattle.session_grammar.specs.Readings.{zone_view};
ghost use Rattle.server_zone.specs.Journals.{HasRead, IsEndFit, IsFit, IsFresh, IsJournalOf};
ghost use Rattle.server_zone.specs.Journals.{IsLineFit, IsOpenError, IsOpening, IsOwnFit};
ghost use Rattle.server_zone.specs.Journals.{IsSettledAt, NoneSettledBehind, RefusesBehind};
ghost use Rattle.server_zone.specs.Journals.{RefusesBeginning};
ghost use Rattle.server_zone.specs.Journals.{RefusesEnd, RefusesFirst, RefusesOwn, ended};
ghost use Rattle.server_zone.specs.Journals.{first_line, is_settled, journal_state, own_line};
ghost use Rattle.server_zone.specs.Journals.{phase_view, ran, with_line, with_own};
ghost use Rattle.server_zone.specs.Lines.{has_feed, unfinished};
ghost use Rattle.server_zone.specs.StateLines.{added_in, is_event, line_view, state_line};
ghost use Rattle.server_zone.specs.States.{OfLine, RefusesLine, RefusesTo, after, applied_line};
ghost use Rattle.server_zone.specs.States.{made};
ghost use Rattle.server_zone.specs.States.{state_of};

use crate::line::{Line, read_line};
use crate::lines::split_line;
use crate::open_zone::Zone;
use crate::refusals::{OpenError, Refusal};
use crate::ttls::greatest_ttl;
use answer_events::record::ZoneRecord;
use answer_publisher::fault::ZoneFault;
use answer_publisher::publishing::Publisher;
use answer_scheme::scheme::Scheme;
use denial_nsec3_hash::hasher::Nsec3Hasher;
use server_glue::Addresses;
use session_grammar::line_error::LineFault;
use session_grammar::lines::is_passed_over;
use session_grammar::session::fields_of;
use session_grammar::zone::Zone as ZoneLine;
use session_grammar::zone_lines::read_zone;
use std::alloc::Global;

/// A zone that was opened from a journal.
#[derive(Drop)]
pub struct Opened<'a, S: Scheme, H: Nsec3Hasher> {
    pub zone: Zone<'a, S, H>,
    /// How many octets the lines have that end in a line feed. Behind them stands a line that is
    /// not finished, or nothing: it was not applied.
    pub whole: usize,
    /// How many octets stand up to the last line behind which no records were gathered. Where it is
    /// less than `whole`, a replacement is half written, and a journal that is cut here is as it
    /// was before, as long as nothing but the replacement stands behind.
    pub settled: usize,
}

/// How far the lines have come.
#[derive(Drop)]
enum Phase<'a, S: Scheme, H: Nsec3Hasher> {
    /// No line of a zone stands yet.
    Empty,
    /// The zone's line, and its own records so far.
    Beginning(ZoneLine, Vec<ZoneRecord>),
    /// An event stands.
    Running(Zone<'a, S, H>),
}

/// What a zone is opened with.
#[derive(Drop)]
struct Opener<'a, S: Scheme, H: Nsec3Hasher> {
    alloc: Global,
    scheme: &'a S,
    hasher: &'a H,
}

impl<'a, S: Scheme, H: Nsec3Hasher> Zone<'a, S, H> {
    /// Opens a zone from its journal: the lines of a session (its zone, its records, then
    /// replacements and calls on the keys) that end in a line feed. The first line that cannot be
    /// read or is refused refuses the whole, and so does a line that asks, shows or judges. A
    /// journal that opened opens again, also with the lines behind it that the zone accepted
    /// ([`laws`](crate::laws)).
    pub fn open(
        alloc: Global,
        journal: &[u8],
        scheme: &'a S,
        hasher: &'a H,
    ) -> Result<Opened<'a, S, H>, OpenError>
        ensures state { let digest = S.digest_of scheme.now in
            IfOk result (λ o. journal_state digest journal.now ≡ Some (state_of o.zone)) }
        ensures journal { let digest = S.digest_of scheme.now in
            let hash = H.hash_of hasher.now in
            IfOk result (λ o. IsJournalOf digest hash journal.now (state_of o.zone)) }
        ensures fresh { let hash = H.hash_of hasher.now in
            IfOk result (λ o. IsFresh hash scheme.now hasher.now o.zone) }
        ensures accepted { let world = world_of S.signature_of S.verifies S.digest_of H.hash_of in
            IfOk result (λ o. IsZone (world o.zone.publisher)) }
        ensures whole { let rest = unfinished journal.now in
            IfOk result (λ o. journal.now ≡ take o.whole journal.now ++ rest) }
        ensures settled { let digest = S.digest_of scheme.now in
            IfOk result (λ o. IsSettledAt digest journal.now o.settled) }
        ensures last { let digest = S.digest_of scheme.now in
            IfOk result (λ o. NoneSettledBehind digest journal.now o.settled o.whole) }
        ensures all { IfOk result (λ o. (length o.zone.gathered.items == 0) ≡ true
            → o.settled ≡ o.whole) }
        ensures inside { IfOk result
            (λ o. (o.settled ≤ o.whole) × (o.whole ≤ length journal.now)) }
        ensures err { let digest = S.digest_of scheme.now in let hash = H.hash_of hasher.now in
            IfErr result (IsOpenError digest hash journal.now) }
    {
        let opener = Opener {
            alloc,
            scheme,
            hasher,
        };
        let read = match opener.read_lines(journal) {
            Ok(read) => read,
            Err(error) => return Err(error),
        };
        let whole = journal.len() - read.rest.len();
        match opener.finish(read.phase) {
            Ok(zone) => Ok(Opened {
                zone,
                whole,
                settled: read.settled,
            }),
            Err(reason) => Err(OpenError {
                number: read.number + 1,
                reason,
            }),
        }
    }
}

/// What was read of a journal, and what was not.
#[derive(Drop)]
struct Progress<'a, 'j, S: Scheme, H: Nsec3Hasher> {
    phase: Phase<'a, S, H>,
    rest: &'j [u8],
    /// How many lines were read.
    number: usize,
    settled: usize,
}

impl<'a, S: Scheme, H: Nsec3Hasher> Phase<'a, S, H> {
    /// Whether no records are gathered for a replacement.
    fn is_settled(&self) -> bool
        ensures { result ≡ is_settled (phase_view self.now) }
    {
        match self {
            Phase::Running(zone) => zone.is_settled(),
            Phase::Empty | Phase::Beginning(..) => true,
        }
    }
}

impl<'a, S: Scheme, H: Nsec3Hasher> Opener<'a, S, H> {
    /// Reads the lines of a journal that end in a line feed.
    fn read_lines<'j>(&self, journal: &'j [u8]) -> Result<Progress<'a, 'j, S, H>, OpenError>
        ensures ok { let scheme = self.now.scheme.now in let hasher = self.now.hasher.now in
            let has_read = HasRead (S.digest_of scheme) (H.hash_of hasher) scheme hasher in
            IfOk result (λ p. has_read journal.now p.rest.now p.phase p.number p.settled) }
        ensures all { IfOk result (λ p. has_feed p.rest.now ≡ false) }
        ensures err { let hash = H.hash_of self.now.hasher.now in
            let is_error = IsOpenError (S.digest_of self.now.scheme.now) hash in
            IfErr result (is_error journal.now) }
    {
        let (mut phase, mut rest) = (Phase::Empty, journal);
        let (mut number, mut settled) = (0, 0);
        while let Some((line, behind)) = split_line(rest) {
            phase = match self.read(phase, line) {
                Ok(phase) => phase,
                Err(reason) => {
                    let number = number + 1;
                    return Err(OpenError { number, reason });
                }
            };
            number += 1;
            rest = behind;
            if phase.is_settled() {
                settled = journal.len() - rest.len();
            }
        }
        Ok(Progress {
            phase,
            rest,
            number,
            settled,
        })
    }

    /// Reads a line more.
    fn read(&self, phase: Phase<'a, S, H>, line: &[u8]) -> Result<Phase<'a, S, H>, Refusal>
        requires { let hash = H.hash_of self.now.hasher.now in
            IsOpening hash self.now.scheme.now self.now.hasher.now phase }
        ensures ok { let digest = S.digest_of self.now.scheme.now in
            let with = with_line digest (phase_view phase.entry) line.now in
            IfOk result (λ q. with ≡ Some (phase_view q)) }
        ensures fit { let hash = H.hash_of self.now.hasher.now in
            IfOk result (λ _. IsLineFit hash (phase_view phase.entry) line.now) }
        ensures kept { let hash = H.hash_of self.now.hasher.now in
            IfOk result (IsOpening hash self.now.scheme.now self.now.hasher.now) }
        ensures err { let hash = H.hash_of self.now.hasher.now in
            let refuses = RefusesBehind (S.digest_of self.now.scheme.now) hash in
            IfErr result (refuses (phase_view phase.entry) line.now) }
    {
        match phase {
            Phase::Empty => self.read_first(line),
            Phase::Beginning(zone, records) => self.read_own(zone, records, line),
            Phase::Running(zone) => go_on(zone, line),
        }
    }

    /// Reads a line where no zone's line stands yet.
    fn read_first(&self, line: &[u8]) -> Result<Phase<'a, S, H>, Refusal>
        ensures ok { IfOk result (λ q. first_line line.now ≡ Some (phase_view q)) }
        ensures kept { let hash = H.hash_of self.now.hasher.now in
            IfOk result (IsOpening hash self.now.scheme.now self.now.hasher.now) }
        ensures err { IfErr result (RefusesFirst line.now) }
    {
        if is_passed_over(line) {
            return Ok(Phase::Empty);
        }
        match str::from_utf8(line) {
            Ok(text) => {
                let fields = fields_of(self.alloc, text)?;
                let zone = read_zone(self.alloc, &fields)?;
                Ok(Phase::Beginning(zone, Vec::new(self.alloc)))
            }
            Err(_) => Err(Refusal::Unreadable(LineFault::NotText)),
        }
    }

    /// Reads a line where the zone's own records stand: one more, or the first event.
    fn read_own(
        &self,
        zone: ZoneLine,
        mut records: Vec<ZoneRecord>,
        line: &[u8],
    ) -> Result<Phase<'a, S, H>, Refusal>
        ensures ok { let z = zone_view zone in let rs = map handed_of records.items in
            let with = with_own (S.digest_of self.now.scheme.now) z rs line.now in
            IfOk result (λ q. with ≡ Some (phase_view q)) }
        ensures fit { let z = zone_view zone in let rs = map handed_of records.items in
            let hash = H.hash_of self.now.hasher.now in
            IfOk result (λ _. OfLine (IsOwnFit hash z rs) (state_line line.now)) }
        ensures kept { let hash = H.hash_of self.now.hasher.now in
            IfOk result (IsOpening hash self.now.scheme.now self.now.hasher.now) }
        ensures err { let z = zone_view zone in let rs = map handed_of records.items in
            let digest = S.digest_of self.now.scheme.now in
            let refuses = RefusesBeginning digest (H.hash_of self.now.hasher.now) z rs in
            IfErr result (refuses line.now) }
    {
        match read_line(self.alloc, line)? {
            Line::Nothing => Ok(Phase::Beginning(zone, records)),
            Line::Record(record) => {
                records.push(record)?;
                Ok(Phase::Beginning(zone, records))
            }
            Line::Replacement(at) => self.begin(zone, records, Line::Replacement(at)),
            Line::Call(call, at) => self.begin(zone, records, Line::Call(call, at)),
            Line::Other => self.begin(zone, records, Line::Other),
        }
    }

    /// Applies the first event to the zone of its own records.
    fn begin(
        &self,
        zone: ZoneLine,
        records: Vec<ZoneRecord>,
        event: Line,
    ) -> Result<Phase<'a, S, H>, Refusal>
        requires event { is_event (line_view event) ≡ true }
        requires small { added_in event ≤ 65531 }
        ensures ok { let z = zone_view zone in let rs = map handed_of records.items in
            let with = own_line (S.digest_of self.now.scheme.now) z rs (line_view event) in
            IfOk result (λ q. with ≡ Some (phase_view q)) }
        ensures fit { let z = zone_view zone in let rs = map handed_of records.items in
            let hash = H.hash_of self.now.hasher.now in
            IfOk result (λ _. IsOwnFit hash z rs (line_view event)) }
        ensures kept { let hash = H.hash_of self.now.hasher.now in
            IfOk result (IsOpening hash self.now.scheme.now self.now.hasher.now) }
        ensures err { let z = zone_view zone in let rs = map handed_of records.items in
            let digest = S.digest_of self.now.scheme.now in
            let hash = H.hash_of self.now.hasher.now in
            IfErr result (RefusesOwn digest hash z rs (line_view event)) }
    {
        match self.made(zone, records) {
            Ok(zone) => follow_first(zone, event),
            Err(fault) => Err(Refusal::Zone(fault)),
        }
    }

    /// A zone of its own records.
    fn made(&self, zone: ZoneLine, records: Vec<ZoneRecord>) -> Result<Zone<'a, S, H>, ZoneFault>
        ensures ok { let own = made (zone_view zone) (map handed_of records.items) in
            IfOk result (λ z. state_of z ≡ own) }
        ensures fresh { let hash = H.hash_of self.now.hasher.now in
            IfOk result (IsFresh hash self.now.scheme.now self.now.hasher.now) }
        ensures accepted { let z = zone_view zone in let rs = map handed_of records.items in
            let hash = H.hash_of self.now.hasher.now in
            IfOk result (λ _. IsAcceptedWithAliases hash z.apex z.mode z.limit rs) }
        ensures err { let z = zone_view zone in let rs = map handed_of records.items in
            let hash = H.hash_of self.now.hasher.now in
            IfErr result (RefusesZoneWithAliases hash z.apex z.mode z.limit rs) }
    {
        let addresses = Addresses::of(self.alloc, &records);
        let ttl = greatest_ttl(0, &records);
        let life = zone.life;
        let publisher = Publisher::with_aliases(
            self.alloc,
            zone.apex,
            records,
            zone.mode,
            self.scheme,
            self.hasher,
            zone.limit,
            life,
        )?;
        match addresses {
            Ok(addresses) => Ok(Zone::new(self.alloc, publisher, addresses, life, ttl)),
            Err(_) => Err(ZoneFault::Memory),
        }
    }

    /// The zone behind all whole lines.
    fn finish(&self, phase: Phase<'a, S, H>) -> Result<Zone<'a, S, H>, Refusal>
        requires { let hash = H.hash_of self.now.hasher.now in
            IsOpening hash self.now.scheme.now self.now.hasher.now phase }
        ensures ok { let state = ended (phase_view phase.entry) in
            IfOk result (λ z. state ≡ Some (state_of z)) }
        ensures fresh { let hash = H.hash_of self.now.hasher.now in
            IfOk result (IsFresh hash self.now.scheme.now self.now.hasher.now) }
        ensures fit { let hash = H.hash_of self.now.hasher.now in
            IfOk result (λ _. IsEndFit hash (phase_view phase.entry)) }
        ensures err { let hash = H.hash_of self.now.hasher.now in
            IfErr result (RefusesEnd hash (phase_view phase.entry)) }
    {
        match phase {
            Phase::Empty => Err(Refusal::Unreadable(LineFault::NoZone)),
            Phase::Beginning(zone, records) => match self.made(zone, records) {
                Ok(zone) => Ok(zone),
                Err(fault) => Err(Refusal::Zone(fault)),
            },
            Phase::Running(zone) => Ok(zone),
        }
    }
}

/// Applies the first event.
fn follow_first<'a, S: Scheme, H: Nsec3Hasher>(
    mut zone: Zone<'a, S, H>,
    event: Line,
) -> Result<Phase<'a, S, H>, Refusal>
    requires { added_in event ≤ 65531 }
    ensures ok { let z = zone.entry in let digest = S.digest_of z.publisher.scheme.now in
        let after = after digest (line_view event) (state_of z) in
        IfOk result (λ q. ran after ≡ Some (phase_view q)) }
    ensures fit { let z = zone.entry in let hash = H.hash_of z.publisher.zone.hasher in
        IfOk result (λ _. IsFit hash (state_of z) (line_view event)) }
    ensures kept { let z = zone.entry in
        let scheme = z.publisher.scheme.now in let hasher = z.publisher.zone.hasher in
        let hash = H.hash_of hasher in
        IsFresh hash scheme hasher z → IfOk result (IsOpening hash scheme hasher) }
    ensures err { let z = zone.entry in let p = z.publisher in
        let digest = S.digest_of p.scheme.now in let hash = H.hash_of p.zone.hasher in
        IfErr result (RefusesTo digest hash p.latest (state_of z) (line_view event)) }
{
    match zone.follow(event) {
        Ok(_) => Ok(Phase::Running(zone)),
        Err(refusal) => Err(refusal),
    }
}

/// Applies a line more.
fn go_on<'a, S: Scheme, H: Nsec3Hasher>(
    mut zone: Zone<'a, S, H>,
    line: &[u8],
) -> Result<Phase<'a, S, H>, Refusal>
    ensures ok { let z = zone.entry in
        let with = applied_line (S.digest_of z.publisher.scheme.now) (state_of z) line.now in
        IfOk result (λ q. ran with ≡ Some (phase_view q)) }
    ensures fit { let z = zone.entry in let hash = H.hash_of z.publisher.zone.hasher in
        IfOk result (λ _. OfLine (IsFit hash (state_of z)) (state_line line.now)) }
    ensures kept { let z = zone.entry in
        let scheme = z.publisher.scheme.now in let hasher = z.publisher.zone.hasher in
        let hash = H.hash_of hasher in
        IsFresh hash scheme hasher z → IfOk result (IsOpening hash scheme hasher) }
    ensures err { let z = zone.entry in let p = z.publisher in
        let digest = S.digest_of p.scheme.now in let hash = H.hash_of p.zone.hasher in
        IfErr result (RefusesLine digest hash p.latest (state_of z) line.now) }
{
    match zone.apply(line) {
        Ok(_) => Ok(Phase::Running(zone)),
        Err(refusal) => Err(refusal),
    }
}
