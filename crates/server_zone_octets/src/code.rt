//! What calls on a zone answer, by numbers.
ghost use Rattle.std.specs.Prelude.{◌≡◌};
ghost use Rattle.server_zone_octets.specs.Codes.{number_of};

use std::alloc::AllocError;

/// What a call on a zone answers.
#[derive(Clone, Copy, Debug, PartialEq, Eq)]
pub enum ZoneCode {
    /// It is done.
    Done = 64,
    /// The line is accepted, and memory ran out for what it answers.
    Untold = 65,
    /// The line, the journal or the master file is refused.
    Refused = 66,
    /// These octets answer the request.
    Response = 67,
    /// Nothing answers the request.
    NoResponse = 68,
    /// These signatures are to be made: entries of the list.
    Sign = 69,
    OutOfMemory = 70,
    /// There are more octets than there is room for.
    BufferTooSmall = 71,
    /// The signatures are no list of entries.
    BadSignatures = 72,
    /// A size, a number or a flag is unknown.
    BadCall = 73,
    /// The zone is not open.
    NotOpen = 74,
    /// The zone is open already.
    IsOpen = 75,
    /// The moment of the answer is not behind the last replacement.
    TooSoon = 76,
    /// Signatures hold no longer than the answer is dated back.
    Expired = 77,
}

impl ZoneCode {
    /// The number of it.
    pub fn number(self) -> u32
        ensures { result ≡ number_of self }
    {
        self as u32
    }
}

impl From<AllocError> for ZoneCode {
    ghost use Rattle.std.specs.Prelude.{◌≡◌};
    ghost use Rattle.server_zone_octets.specs.declared.code.ZoneCode.TheVariants.{OutOfMemory};

    ghost from_gives = { λ _ code. code ≡ OutOfMemory };

    fn from(_error: AllocError) -> ZoneCode {
        ZoneCode::OutOfMemory
    }
}
