//! Laws of answers.

ghost use Rattle.answer_terms.specs.Alike.{AlikeTellsAlike};
ghost use Rattle.answer_terms.specs.FactsCase.{CaseMeansNothing};
ghost use Rattle.answer_terms.specs.Given.{GivenIsTold};
ghost use Rattle.answer_terms.specs.Servable.{AcceptedIsServable, AcceptedHasNoAlias};
ghost use Rattle.answer_terms.specs.Servable.{AllowedAnswersDecide};

/// What a publisher gives is told to a judge: bytes that spell each owner and each TTL as the zone
/// has them tell its RRsets and their signatures, of which a judge sees owners in lower case and no
/// TTLs (RFC 4034, 6.2; RFC 4035, 5.3).
pub fn given_is_told()
    ensures { GivenIsTold }
{}

/// Messages that read alike tell a judge alike: header flags, section counts of one sum, how names
/// are compressed, the case of owners and of names in data where it has no meaning, TTLs and octets
/// behind the last record may differ (RFC 1035, 4.1; RFC 4034, 6.2).
pub fn alike_tells_alike()
    ensures { AlikeTellsAlike }
{}

/// Records that are accepted spell a zone that can be served: records at the apex, none of a type
/// that signing adds, no NS at a wildcard (RFC 4035, 2; RFC 4592, 4.2), and aliases in order. Of
/// such a zone the rules of denial speak.
pub fn accepted_zones_can_be_served()
    ensures { AcceptedIsServable }
{}

/// They hold no CNAME and no DNAME, so no name of the zone is an alias.
pub fn accepted_zones_have_no_alias()
    ensures { AcceptedHasNoAlias }
{}

/// The facts of an accepted zone's own answer to an allowed question decide its verdict; of NSEC3
/// where the names of the chain have different hashes, and no name of the chain shares its hash
/// with another name that the question concerns.
pub fn allowed_questions_are_decided()
    ensures { AllowedAnswersDecide }
{}

/// What facts decide depends neither on the case of the names in NSEC records nor on that of the
/// name that is asked for (RFC 4343, 3).
pub fn case_means_nothing()
    ensures { CaseMeansNothing }
{}
