//! Laws of denial. Each is the contract of a function that does nothing.
ghost use Rattle.denial_laws.specs.Leading.{OnlyAliasesLead, AliasesLeadToOne};
ghost use Rattle.denial_laws.specs.Laws.{TrueFactsDecideTruly, ChainsSayTruly, OwnAnswersDecide};
ghost use Rattle.denial_laws.specs.Laws.{BothChainsSayTheSame, ConcernedAreNames, FewHashes};
ghost use Rattle.denial_laws.specs.Laws.{OneVerdict, BareIsOfTwoTypes};

/// Every question has exactly one verdict: the conditions under which a zone gives one or another
/// shut each other out, and leave no question over (RFC 1034, 4.3.2; RFC 4592).
pub fn each_question_has_one_verdict()
    ensures { OneVerdict }
{}

/// Whatever records are verified, in any order and number, what the rules make of them is the
/// zone's verdict on a name that is no alias, or nothing (RFC 4035, 5.4; RFC 5155, 8). The RRset is
/// the zone's; an NSEC or NSEC3 record says what is so, whether it is of a chain or was made for
/// the question (RFC 4470; RFC 7129, B). The zone's CNAME and DNAME records are in order (RFC 1034,
/// 3.6.2; RFC 6672, 2).
pub fn true_facts_decide_truly()
    ensures { TrueFactsDecideTruly }
{}

/// The records of a zone's chain say what is so. For NSEC3 the names of the chain have different
/// hashes, and no name of the chain shares its hash with another name that the question concerns.
pub fn chains_say_truly()
    ensures { ChainsSayTruly }
{}

/// A record's types are taken for those of an owner that may be made up exactly where they are RRSIG
/// and NSEC at most (RFC 4470, 3).
pub fn bare_is_of_two_types()
    ensures { BareIsOfTwoTypes }
{}

/// A zone's own answer to a question about a name that is no alias decides its verdict: no CNAME
/// answers in its place, and no DNAME redirects it.
pub fn own_answers_decide()
    ensures { OwnAnswersDecide }
{}

/// A zone says the same of a name that is no alias by NSEC records as by NSEC3 records without
/// opt-out.
pub fn both_chains_say_the_same()
    ensures { BothChainsSayTheSame }
{}

/// The names that a question concerns are names of at most 255 octets in wire form, as its own is
/// (RFC 1035, 2.3.4): what is asked of a hasher is asked of such names alone.
pub fn concerned_are_names()
    ensures { ConcernedAreNames }
{}

/// No more names are hashed for a question than its name has labels, the root's counted, and one:
/// the name and its ancestors each once, and behind them at most the wildcard under the last.
pub fn few_hashes()
    ensures { FewHashes }
{}

/// A name that a CNAME or a DNAME of a zone leads elsewhere is an alias.
pub fn only_aliases_lead()
    ensures { OnlyAliasesLead }
{}

/// Where a zone's CNAME and DNAME records are in order, an alias leads to one name at most: to the
/// CNAME's, or to what the DNAME above it makes of it, unless that would be too long (RFC 1034,
/// 3.6.2; RFC 6672, 2.2).
pub fn aliases_lead_to_one()
    ensures { AliasesLeadToOne }
{}
