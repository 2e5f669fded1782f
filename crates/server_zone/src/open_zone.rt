//! A zone that is open, and the lines that are applied to it.
ghost use Rattle.std.specs.Prelude.{◌≤◌, ◌≡◌, ◌==◌, [], IfErr, IfOk, None, OnErr, Some, length};
ghost use Rattle.answer_events.specs.Calls.{call_of};
ghost use Rattle.answer_events.specs.Events.{added_by_call};
ghost use Rattle.answer_publisher.specs.Replacing.{is_too_soon};
ghost use Rattle.messages.specs.HandedRr.{handed_of};
ghost use Rattle.keyset_due.specs.Dues.{IsDue};
ghost use Rattle.server_zone.specs.StateLines.{Added, Called, Replaced, added_in, line_view};
ghost use Rattle.server_zone.specs.StateLines.{state_line};
ghost use Rattle.server_zone.specs.States.{Follows, HoldsZone, IsRestKept, OfLine, RefusesLine};
ghost use Rattle.server_zone.specs.States.{RefusesTo, applied_line, is_begun, state_of, ungathered};

use crate::line::{Line, read_line};
use crate::lines::has_feed;
use crate::moments::{is_too_soon, noted};
use crate::refusals::Refusal;
use crate::ttls::greatest_ttl;
use answer_events::event::KeyCall;
use answer_publisher::publishing::Publisher;
use answer_scheme::scheme::Scheme;
use answer_zone_records::copies::copy_records;
use denial_nsec3_hash::hasher::Nsec3Hasher;
use keyset::{Action, RollType, UnixTime};
use keyset_due::{Due, due_of};
use messages::record::ZoneRecord;
use server_glue::Addresses;
use std::alloc::{AllocError, Global};

/// What an accepted line answers.
#[derive(Debug, Drop)]
pub enum Applied {
    /// The line says nothing: it is empty, or a comment.
    Nothing,
    /// The record is kept for the next replacement.
    Gathered,
    /// The call on the keys is made; the keeper of the zone does these.
    Actions(Vec<Action>),
    /// The zone has the records that were gathered.
    Replaced,
}

/// A zone that is open. Its lines determine its state: its records, its keys and their rolls, the
/// records that are gathered for the next replacement, and the moments that answers may be of.
///
/// Handles of one journal have one state. Each notes its own last answer, so a replacement is to
/// lie behind the last answer of every handle. Answers then lie behind the replacement
/// ([`Zone::is_closed`]), so that each second has one version of the zone.
#[derive(Drop)]
pub struct Zone<'a, S: Scheme, H: Nsec3Hasher> {
    alloc: Global,
    /// What answers questions. Its keys and records change by lines alone.
    pub publisher: Publisher<'a, S, H>,
    /// The addresses of the zone, of which referrals have their glue. They change with its records.
    pub addresses: Addresses,
    gathered: Vec<ZoneRecord>,
    /// How many seconds a signature holds.
    life: u32,
    /// The greatest second of an event behind the zone's own records.
    last: Option<u64>,
    /// The greatest second of a replacement.
    closed: Option<u64>,
    /// The greatest TTL of the records that the zone has or had.
    ttl: u32,
}

impl<'a, S: Scheme, H: Nsec3Hasher> Zone<'a, S, H> {
    /// A zone without events, whose signatures hold so many seconds, and of whose records this is
    /// the greatest TTL.
    pub(crate) fn new(
        alloc: Global,
        publisher: Publisher<'a, S, H>,
        addresses: Addresses,
        life: u32,
        ttl: u32,
    ) -> Self
        ensures publisher { result.publisher ≡ publisher.entry }
        ensures addresses { result.addresses ≡ addresses }
        ensures gathered { result.gathered.items ≡ [] }
        ensures life { result.life ≡ life }
        ensures last { result.last ≡ None }
        ensures closed { result.closed ≡ None }
        ensures ttl { result.ttl ≡ ttl }
    {
        Zone {
            alloc,
            publisher,
            addresses,
            gathered: Vec::new(alloc),
            life,
            last: None,
            closed: None,
            ttl,
        }
    }

    /// How many seconds a signature holds.
    pub fn life(&self) -> u32
        ensures { result ≡ self.now.life }
    {
        self.life
    }

    /// The greatest second of a call on the keys or a replacement; nothing where there is none.
    pub fn last(&self) -> Option<u64>
        ensures { result ≡ self.now.last }
    {
        self.last
    }

    /// The greatest second of a replacement; nothing where there is none.
    pub fn closed(&self) -> Option<u64>
        ensures { result ≡ self.now.closed }
    {
        self.closed
    }

    /// The greatest TTL of the records that the zone has or had.
    pub fn greatest_ttl(&self) -> u32
        ensures { result ≡ self.now.ttl }
    {
        self.ttl
    }

    /// Whether the zone gives no answer of a moment: its records were replaced in the second of the
    /// moment, or in a later one.
    pub fn is_closed(&self, at: &UnixTime) -> bool
        ensures { result ≡ is_too_soon self.now.closed at.now }
    {
        is_too_soon(self.closed, at)
    }

    /// Whether an event stands behind the zone's own records.
    fn is_begun(&self) -> bool
        ensures { result ≡ is_begun (state_of self.now) }
    {
        self.last.is_some()
    }

    /// Whether no records are gathered for the next replacement.
    pub fn is_settled(&self) -> bool
        ensures { result ≡ (length self.now.gathered.items == 0) }
    {
        self.gathered.is_empty()
    }

    /// Drops the records that are gathered, as though their lines had not been applied.
    pub fn forget_gathered(&mut self)
        ensures state { state_of self.new ≡ ungathered (state_of self.old) }
        ensures rest { self.new.publisher ≡ self.old.publisher }
        ensures addresses { self.new.addresses ≡ self.old.addresses }
    {
        self.gathered.clear();
    }

    /// Applies a line, without its line feed: a record for the next replacement, a replacement, a
    /// call on the keys; an empty line or a comment changes nothing. A line that is refused leaves
    /// everything as it was.
    ///
    /// What a journal is extended by are the accepted lines, each with a line feed behind it.
    pub fn apply(&mut self, line: &[u8]) -> Result<Applied, Refusal>
        ensures ok { let p = self.old.publisher in
            let digest = S.digest_of p.scheme.now in let hash = H.hash_of p.zone.hasher in
            let s = state_of self.old in let t = state_of self.new in
            let follows = Follows digest hash p.latest s in
            IfOk result (λ a. OfLine (λ l. follows l a t) (state_line line.now)) }
        ensures state { let digest = S.digest_of self.old.publisher.scheme.now in
            let after = applied_line digest (state_of self.old) line.now in
            IfOk result (λ _. after ≡ Some (state_of self.new)) }
        ensures rest { IsRestKept self.old.publisher self.new.publisher }
        ensures holds { let hash = H.hash_of self.old.publisher.zone.hasher in
            HoldsZone hash self.old → HoldsZone hash self.new }
        ensures refused { OnErr result (state_of self.new ≡ state_of self.old) }
        ensures same { OnErr result (self.new.publisher ≡ self.old.publisher) }
        ensures fault { let p = self.old.publisher in
            let digest = S.digest_of p.scheme.now in let hash = H.hash_of p.zone.hasher in
            let refuses = RefusesLine digest hash p.latest (state_of self.old) line.now in
            IfErr result refuses }
    {
        if has_feed(line) {
            return Err(Refusal::ManyLines);
        }
        let line = read_line(self.alloc, line)?;
        self.follow(line)
    }

    /// Applies a line that was read.
    pub(crate) fn follow(&mut self, line: Line) -> Result<Applied, Refusal>
        requires { added_in line ≤ 65531 }
        ensures ok { let p = self.old.publisher in
            let digest = S.digest_of p.scheme.now in let hash = H.hash_of p.zone.hasher in
            let s = state_of self.old in let t = state_of self.new in
            IfOk result (λ a. Follows digest hash p.latest s (line_view line) a t) }
        ensures rest { IsRestKept self.old.publisher self.new.publisher }
        ensures holds { let hash = H.hash_of self.old.publisher.zone.hasher in
            HoldsZone hash self.old → HoldsZone hash self.new }
        ensures refused { OnErr result (state_of self.new ≡ state_of self.old) }
        ensures same { OnErr result (self.new.publisher ≡ self.old.publisher) }
        ensures fault { let p = self.old.publisher in
            let digest = S.digest_of p.scheme.now in let hash = H.hash_of p.zone.hasher in
            IfErr result (RefusesTo digest hash p.latest (state_of self.old) (line_view line)) }
    {
        match line {
            Line::Nothing => Ok(Applied::Nothing),
            Line::Record(record) => self.gather(record),
            Line::Replacement(at) => self.replace(&at),
            Line::Call(call, at) => self.call(&call, &at),
            Line::Other => Err(Refusal::NotOfState),
        }
    }

    /// Keeps a record for the next replacement.
    fn gather(&mut self, added: ZoneRecord) -> Result<Applied, Refusal>
        ensures ok { let p = self.old.publisher in
            let digest = S.digest_of p.scheme.now in let hash = H.hash_of p.zone.hasher in
            let s = state_of self.old in let t = state_of self.new in
            IfOk result (λ a. Follows digest hash p.latest s (Added (handed_of added)) a t) }
        ensures rest { IsRestKept self.old.publisher self.new.publisher }
        ensures holds { let hash = H.hash_of self.old.publisher.zone.hasher in
            HoldsZone hash self.old → HoldsZone hash self.new }
        ensures refused { OnErr result (state_of self.new ≡ state_of self.old) }
        ensures same { OnErr result (self.new.publisher ≡ self.old.publisher) }
        ensures fault { let p = self.old.publisher in
            let digest = S.digest_of p.scheme.now in let hash = H.hash_of p.zone.hasher in
            let refuses = RefusesTo digest hash p.latest (state_of self.old) in
            IfErr result (refuses (Added (handed_of added))) }
    {
        if !self.is_begun() {
            return Err(Refusal::TooEarly);
        }
        self.gathered.push(added)?;
        Ok(Applied::Gathered)
    }

    /// Publishes the records that were gathered in the place of the zone's, and closes the second
    /// of the moment to answers. They stay gathered where it is refused.
    fn replace(&mut self, at: &UnixTime) -> Result<Applied, Refusal>
        ensures ok { let p = self.old.publisher in
            let digest = S.digest_of p.scheme.now in let hash = H.hash_of p.zone.hasher in
            let s = state_of self.old in let t = state_of self.new in
            IfOk result (λ a. Follows digest hash p.latest s (Replaced at.now) a t) }
        ensures rest { IsRestKept self.old.publisher self.new.publisher }
        ensures holds { let hash = H.hash_of self.old.publisher.zone.hasher in
            HoldsZone hash self.old → HoldsZone hash self.new }
        ensures refused { OnErr result (state_of self.new ≡ state_of self.old) }
        ensures same { OnErr result (self.new.publisher ≡ self.old.publisher) }
        ensures fault { let p = self.old.publisher in
            let digest = S.digest_of p.scheme.now in let hash = H.hash_of p.zone.hasher in
            IfErr result (RefusesTo digest hash p.latest (state_of self.old) (Replaced at.now)) }
    {
        let copies = copy_records(self.alloc, &self.gathered)?;
        let addresses = Addresses::of(self.alloc, &self.gathered)?;
        match self.publisher.replace_zone_with_aliases(copies, at) {
            Ok(()) => {
                self.ttl = greatest_ttl(self.ttl, &self.gathered);
                self.addresses = addresses;
                self.gathered = Vec::new(self.alloc);
                self.last = noted(self.last, at);
                self.closed = noted(self.closed, at);
                Ok(Applied::Replaced)
            }
            Err(fault) => Err(Refusal::Replace(fault)),
        }
    }

    /// Makes a call on the keys.
    fn call(&mut self, call: &KeyCall, at: &UnixTime) -> Result<Applied, Refusal>
        requires { added_by_call call.now ≤ 65531 }
        ensures ok { let p = self.old.publisher in
            let digest = S.digest_of p.scheme.now in let hash = H.hash_of p.zone.hasher in
            let s = state_of self.old in let t = state_of self.new in
            let called = Called at.now (call_of call.now) in
            IfOk result (λ a. Follows digest hash p.latest s called a t) }
        ensures rest { IsRestKept self.old.publisher self.new.publisher }
        ensures holds { let hash = H.hash_of self.old.publisher.zone.hasher in
            HoldsZone hash self.old → HoldsZone hash self.new }
        ensures refused { OnErr result (state_of self.new ≡ state_of self.old) }
        ensures same { OnErr result (self.new.publisher ≡ self.old.publisher) }
        ensures fault { let p = self.old.publisher in
            let digest = S.digest_of p.scheme.now in let hash = H.hash_of p.zone.hasher in
            let refuses = RefusesTo digest hash p.latest (state_of self.old) in
            IfErr result (refuses (Called at.now (call_of call.now))) }
    {
        match self.publisher.apply(call, at) {
            Ok(actions) => {
                self.last = noted(self.last, at);
                Ok(Applied::Actions(actions))
            }
            Err(fault) => Err(Refusal::Key(fault)),
        }
    }

    /// What is due of a roll; nothing where it does not run.
    pub fn due(&self, rolltype: RollType) -> Result<Option<Due>, AllocError>
        ensures { IfOk result (IsDue self.now.publisher.keys.keys rolltype) }
    {
        due_of(self.alloc, self.publisher.key_set(), rolltype)
    }
}
