//! What is set by hand of a key, outside rolls.
ghost use Rattle.std.specs.Prelude.{◌≡◌};
ghost use Rattle.keyset.specs.KeyAnswers.{Sets};
ghost use Rattle.keyset.specs.KeyState.{set_stale, on_each, on_ksk, set_present, set_signer};
ghost use Rattle.keyset.specs.KeyState.{set_at_parent, may_sign, may_be_at_parent, published_once};
ghost use Rattle.keyset.specs.KeySteps.{set_to};

use keyset_keys::{Error, Key, KeyState, KeyType, UnixTime};

/// A value that is set by hand of a key.
#[derive(Clone, Copy, Debug)]
pub(crate) enum Setting {
    /// Whether the key is no longer managed by its references.
    Decoupled(bool),
    /// Whether the key is in the DNSKEY RRset, from this moment on.
    Present(bool, UnixTime),
    /// Whether the key signs.
    Signer(bool),
    /// Whether the key is in the parent's DS RRset.
    AtParent(bool),
    /// Since when all servers have the key in the DNSKEY RRset.
    Visible(UnixTime),
    /// Since when all servers of the parent have the key's DS record.
    DsVisible(UnixTime),
    /// Since when all servers have the key's signatures.
    RrsigVisible(UnixTime),
    /// The key is old and no longer used.
    Stale,
}

impl Setting {
    /// Sets the value, where the key has a role for it.
    pub(crate) fn apply(self, key: &mut Key) -> Result<(), Error>
        ensures { Sets key.old key.new result (set_to self key.old) }
    {
        match self {
            Setting::Decoupled(value) => key.set_decoupled(value),
            Setting::Present(value, now) => put(key, value, now),
            Setting::Signer(value) => {
                if !may_sign(key.keytype()) {
                    return Err(Error::WrongKeyType);
                }
                key.set_keytype(with_signer(key.keytype(), value));
            }
            Setting::AtParent(value) => {
                if !may_be_at_parent(key.keytype()) {
                    return Err(Error::WrongKeyType);
                }
                key.set_keytype(with_at_parent(key.keytype(), value));
            }
            Setting::Visible(time) => key.set_visible(time),
            Setting::DsVisible(time) => key.set_ds_visible(time),
            Setting::RrsigVisible(time) => key.set_rrsig_visible(time),
            Setting::Stale => key.set_keytype(stale(key.keytype())),
        }
        Ok(())
    }
}

/// Puts a key into the DNSKEY RRset or takes it out. The first moment at which it was put in is
/// kept.
fn put(key: &mut Key, present: bool, now: UnixTime)
    ensures { Ok key.new ≡ set_to (Setting.Present present now) key.old }
{
    key.set_keytype(with_present(key.keytype(), present));
    if present && key.timestamps().published().is_none() {
        key.set_published(now);
    }
}

fn may_sign(keytype: KeyType) -> bool
    ensures { result ≡ may_sign keytype }
{
    !matches!(keytype, KeyType::Include(_))
}

fn may_be_at_parent(keytype: KeyType) -> bool
    ensures { result ≡ may_be_at_parent keytype }
{
    matches!(keytype, KeyType::Ksk(_) | KeyType::Csk(..))
}

fn with_present(keytype: KeyType, present: bool) -> KeyType
    ensures { result ≡ on_each (set_present present) keytype }
{
    match keytype {
        KeyType::Ksk(state) => KeyType::Ksk(state.with_present(present)),
        KeyType::Zsk(state) => KeyType::Zsk(state.with_present(present)),
        KeyType::Csk(ksk, zsk) => {
            KeyType::Csk(ksk.with_present(present), zsk.with_present(present))
        }
        KeyType::Include(state) => KeyType::Include(state.with_present(present)),
    }
}

fn with_signer(keytype: KeyType, signer: bool) -> KeyType
    ensures { result ≡ on_each (set_signer signer) keytype }
{
    match keytype {
        KeyType::Ksk(state) => KeyType::Ksk(state.with_signer(signer)),
        KeyType::Zsk(state) => KeyType::Zsk(state.with_signer(signer)),
        KeyType::Csk(ksk, zsk) => KeyType::Csk(ksk.with_signer(signer), zsk.with_signer(signer)),
        KeyType::Include(state) => KeyType::Include(state.with_signer(signer)),
    }
}

fn with_at_parent(keytype: KeyType, at_parent: bool) -> KeyType
    ensures { result ≡ on_ksk (set_at_parent at_parent) keytype }
{
    match keytype {
        KeyType::Ksk(state) => KeyType::Ksk(state.with_at_parent(at_parent)),
        KeyType::Zsk(state) => KeyType::Zsk(state),
        KeyType::Csk(ksk, zsk) => KeyType::Csk(ksk.with_at_parent(at_parent), zsk),
        KeyType::Include(state) => KeyType::Include(state),
    }
}

fn stale_state(state: KeyState) -> KeyState
    ensures { result ≡ set_stale state }
{
    state
        .with_old(true)
        .with_signer(false)
        .with_present(false)
        .with_at_parent(false)
}

fn stale(keytype: KeyType) -> KeyType
    ensures { result ≡ on_each set_stale keytype }
{
    match keytype {
        KeyType::Ksk(state) => KeyType::Ksk(stale_state(state)),
        KeyType::Zsk(state) => KeyType::Zsk(stale_state(state)),
        KeyType::Csk(ksk, zsk) => KeyType::Csk(stale_state(ksk), stale_state(zsk)),
        KeyType::Include(state) => KeyType::Include(stale_state(state)),
    }
}
