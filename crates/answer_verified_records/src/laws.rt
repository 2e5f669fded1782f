//! Laws of verified records.

ghost use Rattle.answer_verified_records.specs.Laws.{VerdictsAreVerified};

/// Where a judge says which data there are, the verified records of the question's type have
/// exactly these, in whatever order and however often each stands there.
pub fn verdicts_are_verified()
    ensures { VerdictsAreVerified }
{}
