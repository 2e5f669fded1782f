//! Laws of times, salts and hashes. Each is a function without a parameter, whose contract is the
//! law.

ghost use Rattle.std.specs.Prelude.{◌≡◌, ◌<◌, ◌^◌, ◌⊎◌, ℕ, List, Result, Ok};
ghost use Rattle.std.specs.Fmt.{decimal};
ghost use Rattle.std.specs.Str.Parse.{ParsesUnsigned};
ghost use Rattle.denial_fields.specs.declared.error.IllegalSignatureTime.{IllegalSignatureTime};
ghost use Rattle.denial_fields.specs.Times.{IsTimeNear};
ghost use Rattle.denial_fields.specs.TextLaws.{SaltsAreReadBack};

/// A printed time is read as the same time.
pub fn times_are_read_back()
    ensures { (t : ℕ) (r : Result ℕ IllegalSignatureTime) → t < 2 ^ 32
        → ParsesUnsigned 32 10 (decimal t) r → r ≡ Ok t }
{}

/// Seconds modulo 2^32 stand for one time near a reference (RFC 4034, 3.1.5).
pub fn one_time_is_near()
    ensures { (seconds reference time other : ℕ) → IsTimeNear seconds reference time
        → IsTimeNear seconds reference other → time ≡ other }
{}

/// A printed salt is read as the same salt, memory aside (RFC 5155, 3.3).
pub fn salts_are_read_back()
    ensures { SaltsAreReadBack }
{}
