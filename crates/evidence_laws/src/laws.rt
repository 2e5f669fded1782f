//! Laws of evidence.
ghost use Rattle.evidence_laws.specs.Staying.{EvidenceAgrees, EvidenceStaysProved};
ghost use Rattle.evidence_laws.specs.Truth.{EvidenceTellsTruly};

use tree_laws::laws::trees_resolve_to_one;

/// What evidence tells of a question is what the tree of zones says, where nothing is forged zone
/// by zone: secure with the verdict of the zone that has the name, insecure below a delegation that
/// the tree leaves unsigned or where opt-out leaves the name open, through the aliases that the
/// tree has.
///
/// The trust anchor is of a zone of the tree. The tree's zones are in order, have DS records at
/// delegations alone and do not change; a delegation with DS records of a known algorithm and
/// digest leads to one of them. Of a zone's messages nothing is asked but what a single judgement
/// of them asks, beside the DS set that the zone above has for it.
pub fn evidence_tells_truly()
    ensures { EvidenceTellsTruly }
{}

/// What evidence tells of a question it proves at each moment from there up to the last second that
/// this lasts: by the same steps down and through the same aliases, since the judgements that each
/// step rests on say the same then, whichever signatures pass beside those of the table.
///
/// That a walk at that moment comes to the same end is not said: another signature that begins to
/// hold may be one that is to be checked first, or bring a refusal.
pub fn evidence_stays_proved()
    ensures { EvidenceStaysProved }
{}

/// What evidence of a tree tells at one moment no evidence of the tree contradicts, at whatever
/// moment, where nothing is forged in either: both tell the same, through the same aliases, or both
/// that the name is insecure.
pub fn evidence_agrees()
    ensures { EvidenceAgrees }
{
    trees_resolve_to_one();
}
