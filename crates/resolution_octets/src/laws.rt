//! Laws of evidence in octets.

ghost use Rattle.resolution_octets.specs.Laws.{OctetsSpellOneEvidence, RepliesStayProved};

use resolution_walk::laws::walks_stay_proved;

/// The octets of evidence spell one thing to walk over, and one question, if any.
pub fn octets_spell_one_evidence()
    ensures { OctetsSpellOneEvidence }
{}

/// What a reply says, secure or insecure, the evidence proves in each second from its moment up to
/// the last one that the report says: by the same steps down, through the names of the walk.
pub fn replies_stay_proved()
    ensures { RepliesStayProved }
{
    walks_stay_proved();
}
