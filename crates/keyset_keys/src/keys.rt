//! Keys, their flags and their stamps.
ghost use Rattle.keyset_keys.specs.KeyTexts.{stage};
ghost use Rattle.std.specs.Prelude.{[], if◌then◌else◌, ◌≡◌, option_copied, Some};

use denial_fields::unix_time::UnixTime;
use numbers::algorithm::SecurityAlgorithm;
use std::alloc::AllocError;
use std::fmt;
use std::marker::Model;

/// Whether a key that is added may be rolled to.
#[derive(Clone, Copy, Debug)]
pub enum Available {
    Available,
    NotAvailable,
}

/// The flags of one role of a key.
#[derive(Clone, Copy, Debug, Default, PartialEq)]
pub struct KeyState {
    available: bool,
    old: bool,
    signer: bool,
    present: bool,
    at_parent: bool,
}

impl KeyState {
    ghost use Rattle.keyset_keys.specs.Keys.{is_available, clear, set_old, set_signer, set_present};
    ghost use Rattle.keyset_keys.specs.Keys.{set_at_parent, is_fresh, is_stale};

    /// The flags of a key that is added.
    pub fn new(available: Available) -> Self
        ensures { result ≡ clear (is_available available) }
    {
        let available = match available {
            Available::Available => true,
            Available::NotAvailable => false,
        };
        KeyState {
            available,
            old: false,
            signer: false,
            present: false,
            at_parent: false,
        }
    }

    /// Whether the key is on its way out.
    pub fn old(&self) -> bool
        ensures { result ≡ self.now.old }
    {
        self.old
    }

    /// Whether the key signs in this role.
    pub fn signer(&self) -> bool
        ensures { result ≡ self.now.signer }
    {
        self.signer
    }

    /// Whether the key is in the DNSKEY RRset.
    pub fn present(&self) -> bool
        ensures { result ≡ self.now.present }
    {
        self.present
    }

    /// Whether the parent's DS RRset has the key.
    pub fn at_parent(&self) -> bool
        ensures { result ≡ self.now.at_parent }
    {
        self.at_parent
    }

    /// Whether the key is old and no longer used.
    pub fn stale(&self) -> bool
        ensures { result ≡ is_stale self.now }
    {
        self.old && !self.signer && !self.present && !self.at_parent
    }

    /// Whether a roll may bring the key into use.
    pub fn is_fresh(&self) -> bool
        ensures { result ≡ is_fresh self.now }
    {
        self.available && !self.old && !self.signer && !self.present && !self.at_parent
    }

    /// The flags with this value of whether the key is on its way out.
    pub fn with_old(self, old: bool) -> Self
        ensures { result ≡ set_old old self }
    {
        KeyState { old, ..self }
    }

    /// The flags with this value of whether the key signs.
    pub fn with_signer(self, signer: bool) -> Self
        ensures { result ≡ set_signer signer self }
    {
        KeyState { signer, ..self }
    }

    /// The flags with this value of whether the key is in the DNSKEY RRset.
    pub fn with_present(self, present: bool) -> Self
        ensures { result ≡ set_present present self }
    {
        KeyState { present, ..self }
    }

    /// The flags with this value of whether the parent's DS RRset has the key.
    pub fn with_at_parent(self, at_parent: bool) -> Self
        ensures { result ≡ set_at_parent at_parent self }
    {
        KeyState { at_parent, ..self }
    }
}

impl fmt::Display for KeyState {
    ghost use Rattle.std.specs.Prelude.{Some};
    ghost use Rattle.keyset_keys.specs.KeyTexts.{flags_text};

    ghost output = { λ f. Some (flags_text f) };

    fn fmt<W: fmt::Write>(&self, f: &mut fmt::Formatter<W>) -> fmt::Result {
        let old = if_set(self.old, "Old");
        let before_signer = if_set(self.old && self.signer, ", ");
        let signer = if_set(self.signer, "Signer");
        let before_present = if_set((self.old || self.signer) && self.present, ", ");
        let present = if_set(self.present, "Present");
        let is_first = !self.old && !self.signer && !self.present;
        let before_at_parent = if_set(!is_first && self.at_parent, ", ");
        let at_parent = if_set(self.at_parent, "At Parent");
        let stage = stage(self.old, self.signer, self.present);
        write!(
            f,
            "{old}{before_signer}{signer}{before_present}{present}{before_at_parent}{at_parent}{stage}"
        )
    }
}

fn if_set(is_set: bool, text: &str) -> &str
    ensures { result.now ≡ (if is_set then text.now else []) }
{
    if is_set { text } else { "" }
}

fn stage(old: bool, signer: bool, present: bool) -> &'static str
    ensures { result.now ≡ stage old signer present }
{
    match (old, signer, present) {
        (false, false, false) => "(Future)",
        (false, false, true) => " (Incoming)",
        (false, true, true) => " (Active)",
        (true, true, true) => " (Leaving)",
        (true, false, true) => " (Retired)",
        (true, false, false) => " (Stale)",
        (_, true, false) => "",
    }
}

/// A key's roles, each with its flags.
#[derive(Clone, Copy, Debug, PartialEq)]
pub enum KeyType {
    /// A key signing key, which signs the DNSKEY RRset.
    Ksk(KeyState),
    /// A zone signing key, which signs the other RRsets.
    Zsk(KeyState),
    /// A combined signing key, which does both. Its flags are those as a key signing key, then
    /// those as a zone signing key.
    Csk(KeyState, KeyState),
    /// A key of another owner, which is put into the DNSKEY RRset and signs nothing here.
    Include(KeyState),
}

impl KeyType {
    ghost use Rattle.keyset_keys.specs.Keys.{main_role, each_is, is_fresh, is_stale};

    /// The flags that represent the key. A combined key is represented by its role as a key signing
    /// key.
    pub fn main_role(&self) -> KeyState
        ensures { result ≡ main_role self.now }
    {
        match self {
            KeyType::Ksk(state) | KeyType::Zsk(state) => *state,
            KeyType::Csk(ksk, _) => *ksk,
            KeyType::Include(state) => *state,
        }
    }

    /// Whether a roll may bring the key into use, in all its roles.
    pub fn is_fresh(&self) -> bool
        ensures { result ≡ each_is is_fresh self.now }
    {
        match self {
            KeyType::Ksk(state) | KeyType::Zsk(state) => state.is_fresh(),
            KeyType::Csk(ksk, zsk) => ksk.is_fresh() && zsk.is_fresh(),
            KeyType::Include(state) => state.is_fresh(),
        }
    }

    /// Whether the key is old and no longer used, in all its roles.
    pub fn stale(&self) -> bool
        ensures { result ≡ each_is is_stale self.now }
    {
        match self {
            KeyType::Ksk(state) | KeyType::Zsk(state) => state.stale(),
            KeyType::Csk(ksk, zsk) => ksk.stale() && zsk.stale(),
            KeyType::Include(state) => state.stale(),
        }
    }
}

/// When things happened to a key.
#[derive(Clone, Debug, Default, Drop)]
pub struct KeyTimestamps {
    creation: Option<UnixTime>,
    published: Option<UnixTime>,
    visible: Option<UnixTime>,
    ds_visible: Option<UnixTime>,
    rrsig_visible: Option<UnixTime>,
    withdrawn: Option<UnixTime>,
}

impl KeyTimestamps {
    /// When the key was made.
    pub fn creation(&self) -> Option<UnixTime>
        ensures { result ≡ self.now.creation }
    {
        self.creation
    }

    /// When the key was first put into the DNSKEY RRset.
    pub fn published(&self) -> Option<UnixTime>
        ensures { result ≡ self.now.published }
    {
        self.published
    }

    /// When all servers had the key in the DNSKEY RRset.
    pub fn visible(&self) -> Option<UnixTime>
        ensures { result ≡ self.now.visible }
    {
        self.visible
    }

    /// When all servers of the parent had the key's DS record.
    pub fn ds_visible(&self) -> Option<UnixTime>
        ensures { result ≡ self.now.ds_visible }
    {
        self.ds_visible
    }

    /// When all servers had the key's signatures.
    pub fn rrsig_visible(&self) -> Option<UnixTime>
        ensures { result ≡ self.now.rrsig_visible }
    {
        self.rrsig_visible
    }

    /// When the key was taken out of the DNSKEY RRset.
    pub fn withdrawn(&self) -> Option<UnixTime>
        ensures { result ≡ self.now.withdrawn }
    {
        self.withdrawn
    }
}

/// A key of a zone.
#[derive(Debug, Drop)]
pub struct Key {
    privref: Option<String>,
    decoupled: bool,
    keytype: KeyType,
    algorithm: SecurityAlgorithm,
    key_tag: u16,
    timestamps: KeyTimestamps,
}

impl Model for Key {
    ghost use Rattle.keyset_keys.specs.Keys as specs;
    ghost use Rattle.keyset_keys.specs.Keys.{text_of};

    ghost Value = { specs.Key };

    ghost view = { λ k. record {
      private = text_of k.privref;
      decoupled = k.decoupled;
      roles = k.keytype;
      algorithm = k.algorithm;
      tag = k.key_tag;
      stamps = k.timestamps;
    } };
}

impl Key {
    ghost use Rattle.keyset_keys.specs.Keys.{new_key, text_of, publish, see, see_ds, see_rrsig};
    ghost use Rattle.keyset_keys.specs.Keys.{withdraw, with_stamps};

    /// A key that was made at `creation` and has no other stamp yet.
    pub fn new(
        privref: Option<String>,
        keytype: KeyType,
        algorithm: SecurityAlgorithm,
        key_tag: u16,
        creation: UnixTime,
    ) -> Self
        ensures { result ≡ new_key (text_of privref) keytype algorithm key_tag creation }
    {
        Key {
            privref,
            decoupled: false,
            keytype,
            algorithm,
            key_tag,
            timestamps: KeyTimestamps {
                creation: Some(creation),
                published: None,
                visible: None,
                ds_visible: None,
                rrsig_visible: None,
                withdrawn: None,
            },
        }
    }

    /// The reference of the private key, where one was given.
    pub fn privref(&self) -> Option<&str>
        ensures { option_copied result ≡ self.now.private }
    {
        match &self.privref {
            Some(reference) => Some(reference.as_str()),
            None => None,
        }
    }

    /// Whether the key is no longer managed by its references.
    pub fn decoupled(&self) -> bool
        ensures { result ≡ self.now.decoupled }
    {
        self.decoupled
    }

    /// The key's roles, with their flags.
    pub fn keytype(&self) -> KeyType
        ensures { result ≡ self.now.roles }
    {
        self.keytype
    }

    /// The algorithm that the key signs by.
    pub fn algorithm(&self) -> SecurityAlgorithm
        ensures { result ≡ self.now.algorithm }
    {
        self.algorithm
    }

    /// The key's tag (RFC 4034, appendix B).
    pub fn key_tag(&self) -> u16
        ensures { result ≡ self.now.tag }
    {
        self.key_tag
    }

    /// When things happened to the key.
    pub fn timestamps(&self) -> &KeyTimestamps
        ensures { result.now ≡ self.now.stamps }
    {
        &self.timestamps
    }

    /// Sets whether the key is no longer managed by its references.
    pub fn set_decoupled(&mut self, decoupled: bool)
        ensures { self.new ≡ record self.old { decoupled = decoupled } }
    {
        self.decoupled = decoupled;
    }

    /// Sets the flags of the key's roles.
    pub fn set_keytype(&mut self, keytype: KeyType)
        ensures { self.new ≡ record self.old { roles = keytype } }
    {
        self.keytype = keytype;
    }

    /// Stamps that the key was put into the DNSKEY RRset.
    pub fn set_published(&mut self, now: UnixTime)
        ensures { self.new ≡ with_stamps (publish now) self.old }
    {
        self.timestamps.published = Some(now);
    }

    /// Stamps that all servers have the key in the DNSKEY RRset.
    pub fn set_visible(&mut self, now: UnixTime)
        ensures { self.new ≡ with_stamps (see now) self.old }
    {
        self.timestamps.visible = Some(now);
    }

    /// Stamps that all servers of the parent have the key's DS record.
    pub fn set_ds_visible(&mut self, now: UnixTime)
        ensures { self.new ≡ with_stamps (see_ds now) self.old }
    {
        self.timestamps.ds_visible = Some(now);
    }

    /// Stamps that all servers have the key's signatures.
    pub fn set_rrsig_visible(&mut self, now: UnixTime)
        ensures { self.new ≡ with_stamps (see_rrsig now) self.old }
    {
        self.timestamps.rrsig_visible = Some(now);
    }

    /// Stamps that the key was taken out of the DNSKEY RRset.
    pub fn set_withdrawn(&mut self, now: UnixTime)
        ensures { self.new ≡ with_stamps (withdraw now) self.old }
    {
        self.timestamps.withdrawn = Some(now);
    }
}

/// A clone is refused where memory runs out.
impl Clone for Key {
    ghost use Rattle.std.specs.Prelude.{◌≡◌};

    ghost is_clone = { λ k copy. copy ≡ k };

    fn clone(&self) -> Result<Key, AllocError> {
        Ok(Key {
            privref: self.privref.as_ref().cloned()?,
            decoupled: self.decoupled,
            keytype: self.keytype,
            algorithm: self.algorithm,
            key_tag: self.key_tag,
            timestamps: KeyTimestamps { ..self.timestamps },
        })
    }
}
