//! What each roll does to one key.
ghost use Rattle.std.specs.Prelude.{◌≡◌, ◌≤◌, ◌*◌, if◌then◌else◌};
ghost use Rattle.keyset_keys.specs.Keys.{main_is, ksk_is, zsk_is, on_ksk, on_zsk, on_each, current};
ghost use Rattle.keyset_keys.specs.Keys.{outgoing, is_present, is_at_parent, is_old, signs};
ghost use Rattle.keyset_rolls.specs.Changes.{changed, retire, hand_over, swap, take_over, fade};
ghost use Rattle.keyset_rolls.specs.Changes.{leave_parent};
ghost use Rattle.keyset_rolls.specs.Rolls.{touches, new_roles, started_roles, started_key, watched};
ghost use Rattle.keyset_rolls.specs.Rolls.{awaited, is_missing, rest_of, reported1, reported2};
ghost use Rattle.keyset_rolls.specs.Rolls.{wait1_roles, wait2_roles, waited1, waited2, leaves};
ghost use Rattle.keyset_rolls.specs.Rolls.{idle, meets_need, needs, stamp_read};

use crate::rolls::{RollType, Turn};
use keyset_keys::{Key, KeyState, KeyType, UnixTime};

/// What a roll does to the flags of a role.
#[derive(Clone, Copy, Debug, PartialEq, Eq)]
pub(crate) enum RoleChange {
    /// The role is on its way out.
    MarkOld,
    /// The role enters the DNSKEY RRset, and signs.
    Serve,
    /// The role enters the DNSKEY RRset.
    Show,
    /// The role enters the parent's DS RRset.
    Delegate,
    /// The DS RRset changes from the old keys in the DNSKEY RRset to the other keys in it.
    HandOver,
    /// The DNSKEY RRset changes from the old keys in it to the other keys at the parent.
    Swap,
    /// The signatures change from the old keys to the other keys in the DNSKEY RRset.
    TakeOver,
    /// The role leaves the DNSKEY RRset, and no longer signs.
    Retire,
    /// A role that is old leaves the DNSKEY RRset, and no longer signs.
    RetireOld,
    /// A role that is old and in the DNSKEY RRset leaves it, and no longer signs.
    Leave,
    /// A role that is old and no longer signs leaves the DNSKEY RRset.
    Fade,
    /// A role that is old leaves the parent's DS RRset.
    LeaveParent,
}

impl RoleChange {
    fn of(self, state: KeyState) -> KeyState
        ensures { result ≡ changed self state }
    {
        match self {
            RoleChange::MarkOld => state.with_old(true),
            RoleChange::Serve => state.with_signer(true).with_present(true),
            RoleChange::Show => state.with_present(true),
            RoleChange::Delegate => state.with_at_parent(true),
            RoleChange::HandOver => hand_over(state),
            RoleChange::Swap => swap(state),
            RoleChange::TakeOver => take_over(state),
            RoleChange::Retire => retire(state),
            RoleChange::RetireOld => retire_if(state, state.old()),
            RoleChange::Leave => retire_if(state, state.old() && state.present()),
            RoleChange::Fade => fade(state),
            RoleChange::LeaveParent => leave_parent(state),
        }
    }

    fn of_ksk(self, keytype: KeyType) -> KeyType
        ensures { result ≡ on_ksk (changed self) keytype }
    {
        match keytype {
            KeyType::Ksk(state) => KeyType::Ksk(self.of(state)),
            KeyType::Zsk(state) => KeyType::Zsk(state),
            KeyType::Csk(ksk, zsk) => KeyType::Csk(self.of(ksk), zsk),
            KeyType::Include(state) => KeyType::Include(state),
        }
    }

    fn of_zsk(self, keytype: KeyType) -> KeyType
        ensures { result ≡ on_zsk (changed self) keytype }
    {
        match keytype {
            KeyType::Ksk(state) => KeyType::Ksk(state),
            KeyType::Zsk(state) => KeyType::Zsk(self.of(state)),
            KeyType::Csk(ksk, zsk) => KeyType::Csk(ksk, self.of(zsk)),
            KeyType::Include(state) => KeyType::Include(state),
        }
    }

    fn of_each(self, keytype: KeyType) -> KeyType
        ensures { result ≡ on_each (changed self) keytype }
    {
        match keytype {
            KeyType::Ksk(state) => KeyType::Ksk(self.of(state)),
            KeyType::Zsk(state) => KeyType::Zsk(self.of(state)),
            KeyType::Csk(ksk, zsk) => KeyType::Csk(self.of(ksk), self.of(zsk)),
            KeyType::Include(state) => KeyType::Include(self.of(state)),
        }
    }
}

fn retire(state: KeyState) -> KeyState
    ensures { result ≡ retire state }
{
    state.with_signer(false).with_present(false)
}

fn hand_over(state: KeyState) -> KeyState
    ensures { result ≡ hand_over state }
{
    if state.present() {
        state.with_at_parent(!state.old())
    } else {
        state
    }
}

fn swap(state: KeyState) -> KeyState
    ensures { result ≡ swap state }
{
    if state.old() && state.present() {
        retire(state)
    } else if !state.old() && state.at_parent() {
        state.with_signer(true).with_present(true)
    } else {
        state
    }
}

fn take_over(state: KeyState) -> KeyState
    ensures { result ≡ take_over state }
{
    if state.old() {
        state.with_signer(false)
    } else if state.present() {
        state.with_signer(true)
    } else {
        state
    }
}

fn retire_if(state: KeyState, leaves: bool) -> KeyState
    ensures { result ≡ (if leaves then retire state else state) }
{
    if leaves { retire(state) } else { state }
}

fn fade(state: KeyState) -> KeyState
    ensures { result ≡ fade state }
{
    if state.old() && !state.signer() {
        state.with_present(false)
    } else {
        state
    }
}

fn leave_parent(state: KeyState) -> KeyState
    ensures { result ≡ leave_parent state }
{
    if state.old() && state.at_parent() {
        state.with_at_parent(false)
    } else {
        state
    }
}

/// What the start of a roll requires of some key that the roll touches.
#[derive(Clone, Copy, Debug, PartialEq, Eq)]
pub enum Need {
    /// The key stays, and is in the DNSKEY RRset.
    Present,
    /// The key stays, and is in the parent's DS RRset.
    AtParent,
    /// The key stays as a key signing key in the DNSKEY RRset.
    KskPresent,
    /// The key stays as a zone signing key in the DNSKEY RRset.
    ZskPresent,
}

impl Need {
    /// Whether a key of these roles meets the requirement.
    pub fn is_met_by(self, keytype: KeyType) -> bool
        ensures { result ≡ meets_need self keytype }
    {
        match self {
            Need::Present => is_current_and_present(keytype.main_role()),
            Need::AtParent => !keytype.main_role().old() && keytype.main_role().at_parent(),
            Need::KskPresent => has_present_ksk(keytype),
            Need::ZskPresent => match keytype {
                KeyType::Zsk(state) | KeyType::Csk(_, state) => is_current_and_present(state),
                KeyType::Ksk(_) | KeyType::Include(_) => false,
            },
        }
    }
}

fn is_current_and_present(state: KeyState) -> bool
    ensures { result ≡ current is_present state }
{
    !state.old() && state.present()
}

fn has_present_ksk(keytype: KeyType) -> bool
    ensures { result ≡ ksk_is (current is_present) keytype }
{
    match keytype {
        KeyType::Ksk(state) | KeyType::Csk(state, _) => is_current_and_present(state),
        KeyType::Zsk(_) | KeyType::Include(_) => false,
    }
}

fn has_signing_ksk(keytype: KeyType) -> bool
    ensures { result ≡ ksk_is (current signs) keytype }
{
    match keytype {
        KeyType::Ksk(state) | KeyType::Csk(state, _) => !state.old() && state.signer(),
        KeyType::Zsk(_) | KeyType::Include(_) => false,
    }
}

fn has_signing_zsk(keytype: KeyType) -> bool
    ensures { result ≡ zsk_is (current signs) keytype }
{
    match keytype {
        KeyType::Zsk(state) | KeyType::Csk(_, state) => !state.old() && state.signer(),
        KeyType::Ksk(_) | KeyType::Include(_) => false,
    }
}

fn has_leaving_ksk(keytype: KeyType) -> bool
    ensures { result ≡ ksk_is (outgoing is_present) keytype }
{
    match keytype {
        KeyType::Ksk(state) | KeyType::Csk(state, _) => state.old() && state.present(),
        KeyType::Zsk(_) | KeyType::Include(_) => false,
    }
}

fn has_idle_zsk(keytype: KeyType) -> bool
    ensures { result ≡ zsk_is (outgoing idle) keytype }
{
    match keytype {
        KeyType::Zsk(state) | KeyType::Csk(_, state) => state.old() && !state.signer(),
        KeyType::Ksk(_) | KeyType::Include(_) => false,
    }
}

impl RollType {
    /// Whether the roll touches keys of this kind.
    pub fn touches(self, keytype: KeyType) -> bool
        ensures { result ≡ touches self keytype }
    {
        match self {
            RollType::KskRoll | RollType::KskDoubleDsRoll => matches!(keytype, KeyType::Ksk(_)),
            RollType::ZskRoll | RollType::ZskDoubleSignatureRoll => {
                matches!(keytype, KeyType::Zsk(_))
            }
            RollType::CskRoll | RollType::AlgorithmRoll => !matches!(keytype, KeyType::Include(_)),
        }
    }

    /// What the roll requires of the keys that it touches, after its start.
    pub fn needs(self) -> &'static [Need]
        ensures { result.now ≡ needs self }
    {
        match self {
            RollType::KskRoll | RollType::ZskRoll | RollType::ZskDoubleSignatureRoll => {
                &[Need::Present]
            }
            RollType::KskDoubleDsRoll => &[Need::AtParent],
            RollType::CskRoll | RollType::AlgorithmRoll => &[Need::KskPresent, Need::ZskPresent],
        }
    }

    fn new_roles(self, keytype: KeyType) -> KeyType
        ensures { result ≡ new_roles self keytype }
    {
        match self {
            RollType::KskRoll => RoleChange::Serve.of_ksk(keytype),
            RollType::KskDoubleDsRoll => RoleChange::Delegate.of_ksk(keytype),
            RollType::ZskRoll => RoleChange::Show.of_zsk(keytype),
            RollType::ZskDoubleSignatureRoll => RoleChange::Serve.of_zsk(keytype),
            RollType::CskRoll => RoleChange::Show.of_zsk(RoleChange::Serve.of_ksk(keytype)),
            RollType::AlgorithmRoll => RoleChange::Serve.of_each(keytype),
        }
    }

    /// A key's roles after the start, as one of the roll's old keys, of its new keys or of neither.
    pub fn roles_after_start(self, keytype: KeyType, is_old: bool, is_new: bool) -> KeyType
        ensures { result ≡ started_roles self is_old is_new keytype }
    {
        if is_new {
            self.new_roles(keytype)
        } else if is_old {
            RoleChange::MarkOld.of_each(keytype)
        } else {
            keytype
        }
    }

    /// Changes a key as the start does, as one of the roll's old keys, of its new keys or of
    /// neither.
    pub fn start(self, key: &mut Key, is_old: bool, is_new: bool, now: &UnixTime)
        ensures { key.new ≡ started_key self now.now is_old is_new key.old }
    {
        key.set_keytype(self.roles_after_start(key.keytype(), is_old, is_new));
        let is_published = !matches!(self, RollType::KskDoubleDsRoll);
        if is_new && is_published {
            key.set_published(*now);
        }
    }

    /// Whether a wait looks at a key of these roles, of a kind that the roll touches.
    fn is_watched(self, turn: Turn, keytype: KeyType) -> bool
        ensures { result ≡ watched turn self keytype }
    {
        match turn {
            Turn::First => self.is_watched_first(keytype),
            Turn::Second => self.is_watched_second(keytype),
        }
    }

    fn is_watched_first(self, keytype: KeyType) -> bool
        ensures { result ≡ watched Turn.First self keytype }
    {
        let role = keytype.main_role();
        match self {
            RollType::KskDoubleDsRoll => !role.old() && role.at_parent(),
            RollType::KskRoll
            | RollType::ZskRoll
            | RollType::ZskDoubleSignatureRoll
            | RollType::CskRoll
            | RollType::AlgorithmRoll => is_current_and_present(role),
        }
    }

    fn is_watched_second(self, keytype: KeyType) -> bool
        ensures { result ≡ watched Turn.Second self keytype }
    {
        let role = keytype.main_role();
        match self {
            RollType::KskRoll => !role.old() && role.at_parent(),
            RollType::KskDoubleDsRoll => is_current_and_present(role),
            RollType::ZskRoll | RollType::ZskDoubleSignatureRoll => !role.old() && role.signer(),
            RollType::CskRoll => has_signing_zsk(keytype),
            RollType::AlgorithmRoll => has_signing_ksk(keytype),
        }
    }

    /// The stamp that a wait reads.
    fn stamp_read(self, turn: Turn, key: &Key) -> Option<UnixTime>
        ensures { result ≡ stamp_read turn self key.now.stamps }
    {
        let stamps = key.timestamps();
        match (turn, self) {
            (Turn::First, RollType::KskDoubleDsRoll) => stamps.ds_visible(),
            (Turn::First, _) => stamps.visible(),
            (Turn::Second, RollType::KskRoll | RollType::AlgorithmRoll) => stamps.ds_visible(),
            (Turn::Second, RollType::KskDoubleDsRoll) => stamps.visible(),
            (
                Turn::Second,
                RollType::ZskRoll | RollType::ZskDoubleSignatureRoll | RollType::CskRoll,
            ) => stamps.rrsig_visible(),
        }
    }

    /// The stamp that a wait reads of a key, where it looks at the key.
    fn awaited(self, turn: Turn, key: &Key) -> Option<Option<UnixTime>>
        ensures { result ≡ awaited turn self key.now }
    {
        if self.touches(key.keytype()) && self.is_watched(turn, key.keytype()) {
            Some(self.stamp_read(turn, key))
        } else {
            None
        }
    }

    /// Whether a key lacks the stamp that a wait reads of it.
    pub fn misses_stamp(self, turn: Turn, key: &Key) -> bool
        ensures { result ≡ is_missing (awaited turn self key.now) }
    {
        match self.awaited(turn, key) {
            Some(None) => true,
            None | Some(Some(_)) => false,
        }
    }

    /// How many nanoseconds a wait of `ttl` seconds still takes for a key.
    pub fn rest(self, turn: Turn, key: &Key, ttl: u32, now: &UnixTime) -> u128
        ensures exact { result ≡ rest_of ttl now.now (awaited turn self key.now) }
        ensures bound { result ≤ ttl * 1_000_000_000 }
    {
        match self.awaited(turn, key) {
            Some(Some(since)) => {
                let whole = u128::from(ttl) * 1_000_000_000;
                whole.saturating_sub(since.elapsed(now).as_nanos())
            }
            None | Some(None) => 0,
        }
    }

    /// Stamps a key that the roll touches as the first report does.
    pub fn report1(self, key: &mut Key, now: &UnixTime)
        ensures { key.new ≡ reported1 self now.now key.old }
    {
        if !self.is_watched(Turn::First, key.keytype()) {
            return;
        }
        match self {
            RollType::KskRoll | RollType::ZskRoll | RollType::CskRoll => key.set_visible(*now),
            RollType::KskDoubleDsRoll => key.set_ds_visible(*now),
            RollType::ZskDoubleSignatureRoll => {
                key.set_visible(*now);
                key.set_rrsig_visible(*now);
            }
            RollType::AlgorithmRoll => {
                key.set_visible(*now);
                if matches!(key.keytype(), KeyType::Zsk(_) | KeyType::Csk(..)) {
                    key.set_rrsig_visible(*now);
                }
            }
        }
    }

    /// Stamps a key that the roll touches as the second report does.
    pub fn report2(self, key: &mut Key, now: &UnixTime)
        ensures { key.new ≡ reported2 self now.now key.old }
    {
        let keytype = key.keytype();
        let sees_ds = match self {
            RollType::KskRoll => !keytype.main_role().old() && keytype.main_role().at_parent(),
            RollType::CskRoll | RollType::AlgorithmRoll => has_present_ksk(keytype),
            RollType::KskDoubleDsRoll | RollType::ZskRoll | RollType::ZskDoubleSignatureRoll => {
                false
            }
        };
        if sees_ds {
            key.set_ds_visible(*now);
        }
        if matches!(self, RollType::KskDoubleDsRoll)
            && is_current_and_present(keytype.main_role())
        {
            key.set_visible(*now);
        }
        let sees_rrsig = match self {
            RollType::ZskRoll | RollType::ZskDoubleSignatureRoll => {
                !keytype.main_role().old() && keytype.main_role().signer()
            }
            RollType::CskRoll => has_signing_zsk(keytype),
            RollType::KskRoll | RollType::KskDoubleDsRoll | RollType::AlgorithmRoll => false,
        };
        if sees_rrsig {
            key.set_rrsig_visible(*now);
        }
    }

    fn wait1_roles(self, keytype: KeyType) -> KeyType
        ensures { result ≡ wait1_roles self keytype }
    {
        match self {
            RollType::KskRoll | RollType::AlgorithmRoll => RoleChange::HandOver.of_ksk(keytype),
            RollType::KskDoubleDsRoll => RoleChange::Swap.of_ksk(keytype),
            RollType::ZskRoll => RoleChange::TakeOver.of_zsk(keytype),
            RollType::ZskDoubleSignatureRoll => RoleChange::RetireOld.of_zsk(keytype),
            RollType::CskRoll => RoleChange::TakeOver.of_zsk(RoleChange::HandOver.of_ksk(keytype)),
        }
    }

    /// Changes a key that the roll touches as the first wait does.
    pub fn wait1(self, key: &mut Key, now: &UnixTime)
        ensures { key.new ≡ waited1 self now.now key.old }
    {
        let keytype = key.keytype();
        key.set_keytype(self.wait1_roles(keytype));
        match (self, keytype) {
            (RollType::KskDoubleDsRoll, KeyType::Ksk(state) | KeyType::Csk(state, _)) => {
                if !state.old() && state.at_parent() {
                    key.set_published(*now);
                }
            }
            (RollType::ZskDoubleSignatureRoll, KeyType::Zsk(state) | KeyType::Csk(_, state)) => {
                if state.old() {
                    key.set_withdrawn(*now);
                }
            }
            _ => {}
        }
    }

    fn wait2_roles(self, keytype: KeyType) -> KeyType
        ensures { result ≡ wait2_roles self keytype }
    {
        match self {
            RollType::KskRoll => RoleChange::Leave.of_ksk(keytype),
            RollType::KskDoubleDsRoll => RoleChange::LeaveParent.of_ksk(keytype),
            RollType::ZskRoll => RoleChange::Fade.of_zsk(keytype),
            RollType::ZskDoubleSignatureRoll => keytype,
            RollType::CskRoll => RoleChange::Fade.of_zsk(RoleChange::Leave.of_ksk(keytype)),
            RollType::AlgorithmRoll => {
                let role = keytype.main_role();
                if role.old() && role.present() {
                    RoleChange::Retire.of_each(keytype)
                } else {
                    keytype
                }
            }
        }
    }

    /// Whether the second wait withdraws a key of these roles.
    fn withdraws(self, keytype: KeyType) -> bool
        ensures { result ≡ leaves self keytype }
    {
        match self {
            RollType::KskRoll => has_leaving_ksk(keytype),
            RollType::KskDoubleDsRoll => match keytype {
                KeyType::Ksk(state) | KeyType::Csk(state, _) => state.old() && state.at_parent(),
                KeyType::Zsk(_) | KeyType::Include(_) => false,
            },
            RollType::ZskRoll => has_idle_zsk(keytype),
            RollType::ZskDoubleSignatureRoll => false,
            RollType::CskRoll => has_leaving_ksk(keytype) || has_idle_zsk(keytype),
            RollType::AlgorithmRoll => keytype.main_role().old() && keytype.main_role().present(),
        }
    }

    /// Changes a key that the roll touches as the second wait does.
    pub fn wait2(self, key: &mut Key, now: &UnixTime)
        ensures { key.new ≡ waited2 self now.now key.old }
    {
        let keytype = key.keytype();
        key.set_keytype(self.wait2_roles(keytype));
        if self.withdraws(keytype) {
            key.set_withdrawn(*now);
        }
    }
}
