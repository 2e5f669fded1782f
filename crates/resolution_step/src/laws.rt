//! Laws of what a message tells. Each is the contract of a function that does nothing.
ghost use Rattle.resolution_step.specs.Proved.{CutToldStaysProved, ToldStaysProved};

/// What a message tells of a question, or of a delegation at a name, the same octets prove at each
/// moment from there up to the last second that it lasts: the judgements that it rests on say the
/// same, whichever signatures pass beside those of the table.
///
/// That nothing else comes of the message then is not said. What is refused lasts no time: once
/// another signature begins to hold, a verdict may stand in the place of an alias or a referral.
pub fn what_is_told_stays_proved()
    ensures question { ToldStaysProved }
    ensures cut { CutToldStaysProved }
{}
