//! Laws of cases in octets.

ghost use Rattle.answer_judge_octets.specs.Laws.{AsksStayFew, ListsGrow, OctetsSpellOneCase};
ghost use Rattle.answer_judge_octets.specs.Laws.{ToldAreInForm};

/// The octets of a case spell one thing to be judged, and one table of signatures, if any.
pub fn octets_spell_one_case()
    ensures { OctetsSpellOneCase }
{}

/// A list of checked signatures with an entry at its end that was asked for, the last octet set, is
/// the list that has that signature too.
pub fn lists_grow_by_entries()
    ensures { ListsGrow }
{}

/// What is asked for counts from then on, since each such signature stands in one of the messages:
/// over all calls of a case that hand in what was asked for, no more signatures of its messages are
/// checked than it allows (CVE-2023-50387).
pub fn asks_stay_few()
    ensures { AsksStayFew }
{}

/// Where the data of a zone's records are in form, as `are_records_in_form` says of the records
/// that it is made of, what its publisher gives is judged as it was received: no message of it is
/// put in canonical form.
pub fn told_are_in_form()
    ensures { ToldAreInForm }
{}
