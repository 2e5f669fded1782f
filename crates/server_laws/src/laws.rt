//! Laws of the responses of a name server.
ghost use Rattle.server_laws.specs.Aliased.{AliasesAreAnswered, AllowedAreAliased};
ghost use Rattle.server_laws.specs.Heard.{AliasedClientsAreShown, AliasesJudgedAlike};
ghost use Rattle.server_laws.specs.Heard.{ClientsAreShown, ClientsAreTold};
ghost use Rattle.server_laws.specs.Heard.{DenialsJudgedAlike};
ghost use Rattle.server_laws.specs.Heard.{ParametersJudgedAlike, ResponsesJudgedAlike};
ghost use Rattle.server_laws.specs.Heard.{SubsetsJudgedAlike};
ghost use Rattle.server_laws.specs.Redirected.{RedirectsAreMade, RedirectsJudgedAlike};
ghost use Rattle.server_laws.specs.Synthesized.{AbsentAnsweredAlike, SynthesizedAnsweredAlike};
ghost use Rattle.server_laws.specs.Synthesized.{SynthesizedAnsweredAlikeWithAliases};

/// A judge says of a whole response to a query that wants records of DNSSEC what it says of the
/// message of the zone's publisher that the response was made of, whether the response stands in
/// the place of the answer or in that of the DNSKEY answer.
///
/// The response has the query's id, RD and spelling of the question, an OPT record, and in a denial
/// the lesser TTL of the SOA record (RFC 2308, 3; RFC 6891, 6.1): a judge sees none of them. One
/// without TC holds all that the message holds. The message may be that for the NSEC3PARAM RRset of
/// a zone with a chain of hashes.
pub fn responses_are_judged_alike()
    ensures answers { ResponsesJudgedAlike }
    ensures parameters { ParametersJudgedAlike }
{}

/// A response to a question for a type that the zone does not hold at the name (CNAME, DNAME,
/// NSEC3; but at the apex DNSKEY; but at the apex of a chain of hashes NSEC3PARAM), or for NSEC, is
/// made of the message for a reserved type: of such a response, whole and with records of DNSSEC, a
/// judge that takes an answer to another question says what it says of that message. A response
/// that has the NSEC record which was asked for has no SOA record: of it the judge says the same
/// but where it is asked for the SOA record of the zone.
pub fn denials_are_judged_alike()
    ensures { DenialsJudgedAlike }
{}

/// A response to a question for all records of a name, or for all signatures there, is made of the
/// zone's message for one type: of such a response, whole and with records of DNSSEC, a judge that
/// takes an answer to another question says what it says of that message.
pub fn subsets_are_judged_alike()
    ensures { SubsetsJudgedAlike }
{}

/// A response to a question that the CNAME RRset of the name answers, or its DNAME RRset where that
/// is asked for, is made of the zone's message for that type: of such a response, whole and with
/// records of DNSSEC, a judge that takes an answer to another question says what it says of that
/// message.
pub fn aliases_are_judged_alike()
    ensures { AliasesJudgedAlike }
{}

/// A response to a question for a name below a DNAME is made of the zone's message for that DNAME:
/// it has the DNAME RRset with its signatures, and the CNAME that is made from it, which has none
/// (RFC 6672, 3.1 and 5.3.1); or YXDOMAIN, where the name would be too long. Of such a response,
/// whole and with records of DNSSEC, a judge that takes an answer to another question says what it
/// says of that message: it sees neither the CNAME nor the code. No such response is SERVFAIL for
/// want of a DNAME.
pub fn redirects_are_judged_alike()
    ensures made { RedirectsAreMade }
    ensures judged { RedirectsJudgedAlike }
{}

/// Whether an RRset of an alias answers: of an allowed question exactly where the name is an alias
/// for the type (RFC 1034, 4.3.2; RFC 6672, 3.2). The question that is answered then is one that a
/// publisher answers, so no such response is REFUSED.
pub fn aliases_answer_for_their_names()
    ensures exactly { AllowedAreAliased }
    ensures answered { AliasesAreAnswered }
{}

/// So the verdict reaches the clients of a name server: from the whole responses to two queries,
/// one for the keys, that are made of what a zone under keys that meet has given, a judge says the
/// zone's verdict. The responses show what the zone answers, so a walk over the responses of such
/// zones is stuck only for want of memory.
///
/// So do those of a zone with aliases, also where a CNAME answers, or a DNAME above the name: in the
/// response to a question for that name, beside the CNAME that is made, or with YXDOMAIN.
pub fn clients_are_told_the_verdict()
    ensures told { ClientsAreTold }
    ensures shown { ClientsAreShown }
    ensures aliased { AliasedClientsAreShown }
{}

/// A zone answers alike for all types of which it holds no record, but DS, which is the parent's at
/// a delegation: so what it answers for a reserved type is its answer for DNSKEY, NSEC3 and
/// NSEC3PARAM, of which no accepted zone holds any, and for CNAME and DNAME, where it holds none of
/// that type: so has each zone without aliases none of these five.
pub fn synthesized_types_are_answered_alike()
    ensures absent { AbsentAnsweredAlike }
    ensures synthesized { SynthesizedAnsweredAlike }
    ensures aliases { SynthesizedAnsweredAlikeWithAliases }
{}
