//! The kinds of keys that a zone is given.
ghost use Rattle.std.specs.Prelude.{◌≡◌};
ghost use Rattle.answer_events.specs.Calls.{flags_of};
ghost use Rattle.keyset.specs.KeyState.{is_available};

use keyset::Available;

/// A kind of key.
#[derive(Clone, Copy, Debug, PartialEq, Eq)]
pub enum KeyKind {
    /// A key that signs keys: an entry point of the zone.
    Ksk,
    /// A key that signs the zone.
    Zsk,
    /// A key that signs both, keys and zone: an entry point too.
    Csk,
    /// A key of another owner, which signs nothing here: it is to stand among the zone's keys.
    Include,
}

impl KeyKind {
    /// The flags of such a key (RFC 4034, 2.1.1).
    pub fn flags(self) -> u16
        ensures { result ≡ flags_of self }
    {
        match self {
            KeyKind::Ksk | KeyKind::Csk => 257,
            KeyKind::Zsk | KeyKind::Include => 256,
        }
    }
}

/// Whether a key may be rolled to, as adds of keys that sign take it.
pub fn availability(available: bool) -> Available
    ensures { is_available result ≡ available }
{
    if available {
        Available::Available
    } else {
        Available::NotAvailable
    }
}
