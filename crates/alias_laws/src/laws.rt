//! Laws of accepted zones with aliases. Each is the contract of a function that does nothing.
ghost use Rattle.alias_laws.specs.Laws.{
  AcceptedIsAcceptedWithAliases,
  AcceptedWithAliasesIsServable,
  AliasesAreLed,
  AliasesHaveTargets,
  AnswersDecideUnlessAliased,
  FoundAnswersDecide,
  NoAliasLeadsNowhere,
  RedirectorsAreFound,
};

/// Records that are accepted without aliases are accepted where aliases may stand.
pub fn accepted_zones_are_accepted_with_aliases()
    ensures { AcceptedIsAcceptedWithAliases }
{}

/// Records that are accepted with aliases spell a zone that can be served, whose aliases are in
/// order (RFC 1034, 3.6.2; RFC 6672, 2.3 and 2.4). Of such a zone the rules of denial speak, and so
/// does the promise that a judge says nothing else of it.
pub fn zones_with_aliases_can_be_served()
    ensures { AcceptedWithAliasesIsServable }
{}

/// The facts of the own answer of a zone with aliases to an allowed question decide its verdict,
/// where the name is no alias for the type.
pub fn answers_decide_unless_aliased()
    ensures { AnswersDecideUnlessAliased }
{}

/// The data of each CNAME and DNAME record of a zone that is kept are the name that it leads to
/// (RFC 1035, 3.3.1; RFC 6672, 2.1).
pub fn aliases_have_targets()
    ensures { AliasesHaveTargets }
{}

/// A zone with aliases leads a question elsewhere exactly where the name is an alias for the type:
/// the zone does not have what is asked for, but has a CNAME that answers for the name, or a DNAME
/// above it (RFC 1034, 4.3.2; RFC 6672, 3.2).
pub fn aliases_are_led()
    ensures { AliasesAreLed }
{}

/// Where no record is an alias, no CNAME is found and no DNAME redirects.
pub fn no_alias_leads_nowhere()
    ensures { NoAliasLeadsNowhere }
{}

/// Where a DNAME redirects a name, the zone has the DNAME RRset that is asked for at its owner.
pub fn redirectors_are_found()
    ensures { RedirectorsAreFound }
{}

/// The facts of the own answer of a zone with aliases decide its verdict where it has the RRset
/// that is asked for, of CNAME and DNAME as of other types.
pub fn found_answers_decide()
    ensures { FoundAnswersDecide }
{}
