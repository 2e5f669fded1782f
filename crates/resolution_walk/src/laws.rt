//! Laws of walks. Each is the contract of a function that does nothing.
ghost use Rattle.resolution_walk.specs.Laws.{WalksAgree, WalksStayProved, WalksWantFew};

use evidence_laws::laws::{evidence_agrees, evidence_stays_proved};

/// What a walk says, secure or insecure, its evidence proves at each moment from there up to the
/// last second that this lasts: by the same steps down, through the names of the walk.
pub fn walks_stay_proved()
    ensures { WalksStayProved }
{
    evidence_stays_proved();
}

/// Two walks over evidence of one tree, at whatever moments, say no two things, where nothing is
/// forged in either: the same, through the same aliases, or both that the name is insecure.
pub fn walks_agree()
    ensures { WalksAgree }
{
    evidence_agrees();
}

/// The messages that a walk wants are such as no message of its evidence answers: so what was
/// wanted and is there is not wanted again. They are of one zone at or above the name at the end of
/// aliases, and of those that may be wanted of it: its keys, its answer to the question, its
/// answers for DS at the name and at the names above, two more than the name has labels. The
/// evidence has fewer messages than the limit says.
pub fn walks_want_few()
    ensures { WalksWantFew }
{}
