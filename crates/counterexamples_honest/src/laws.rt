//! Messages that meet the premises on honest messages, and what each premise is needed for. Each
//! law is the contract of a function that does nothing.
ghost use Rattle.std.specs.Prelude.{[], ◌∷◌};
ghost use Rattle.definitions.specs.Zone.{NoName, NoType, Records};
ghost use Rattle.answer_judge.specs.Judging.{Says, Refuses};
ghost use Rattle.answer_judge.specs.declared.verdict.Refusal.TheVariants.{MixedVersions};
ghost use Rattle.answer_judge.specs.declared.verdict.Refusal.TheVariants.{NoTrustedKey};
ghost use Rattle.answer_judge.specs.declared.verdict.Refusal.TheVariants.{NotProven};
ghost use Rattle.counterexamples_honest.specs.Premises.{AllAreHonest, IsHonestCase, IsMixture};
ghost use Rattle.counterexamples_honest.specs.Premises.{NoneIsFalse, RefusesFalsehood};
ghost use Rattle.counterexamples_honest.specs.Premises.{SaysFalsely, without_alone};
ghost use Rattle.counterexamples_honest.specs.Premises.{without_answer_unforged, without_childless};
ghost use Rattle.counterexamples_honest.specs.Premises.{without_denials_true};
ghost use Rattle.counterexamples_honest.specs.Premises.{without_ds, without_hashes_apart};
ghost use Rattle.counterexamples_honest.specs.Premises.{without_keys_known, without_keys_published};
ghost use Rattle.counterexamples_honest.specs.Premises.{without_keys_unforged, without_ordinary};
ghost use Rattle.counterexamples_honest.specs.Premises.{without_real, without_settled};
ghost use Rattle.counterexamples_honest.specs.Premises.{without_uncut};
ghost use Rattle.counterexamples_honest.specs.Quoted.{QuotesAreHonest};
ghost use Rattle.counterexamples_honest.specs.Rows.{aliased, at_alias, begun_at_once};
ghost use Rattle.counterexamples_honest.specs.Rows.{below_redirected, first_version, forged_late};
ghost use Rattle.counterexamples_honest.specs.Rows.{mixed, of_idle, of_other_signer, of_strangers};
ghost use Rattle.counterexamples_honest.specs.Rows.{own, redirected, second_version, small};
ghost use Rattle.counterexamples_honest.specs.Rows.{denying, making_up, of_denied, of_made_up};
ghost use Rattle.counterexamples_honest.specs.Rows.{spliced, starred};
ghost use Rattle.counterexamples_honest.specs.World.{address, false_address, plain};

/// Messages that meet all premises are honest, and no verdict on them is false.
pub fn all_premises_are_honesty()
    ensures same { AllAreHonest }
    ensures truly { NoneIsFalse }
{}

/// Messages are honest whose signatures that hold were quoted from RRsets which were signed,
/// however many, under whatever owners and beside whatever records, or pass under no published key;
/// where a signature passes over one string of octets alone.
pub fn quotes_are_honest()
    ensures { QuotesAreHonest }
{}

/// A zone's own two answers are honest, and say what it says.
pub fn own_answers_are_honest()
    ensures { IsHonestCase plain own (small ∷ []) (Says (Records (address ∷ []))) }
{}

/// A wildcard's address, moved to a name below one that exists, beside the record of the chain that
/// covers that name, is honest: both records were signed, in two answers. They prove nothing
/// (RFC 4035, 5.3.4).
pub fn splices_are_honest()
    ensures { IsHonestCase plain spliced (starred ∷ []) (Refuses NotProven) }
{}

/// A DNSKEY answer of a stranger's key that has the tag of the zone's key, and an answer that the
/// stranger's key signed, are honest. They are refused: no trusted key signed the keys (RFC 4035,
/// 5.2).
pub fn answers_of_strangers_are_honest()
    ensures { IsHonestCase plain of_strangers (small ∷ []) (Refuses NoTrustedKey) }
{}

/// An address that was forged under the zone's key, in a signature whose time is over, is honest.
/// It proves nothing (RFC 4035, 5.3.1).
pub fn what_is_forged_late_is_honest()
    ensures { IsHonestCase plain forged_late (small ∷ []) (Refuses NotProven) }
{}

/// So is an address that the zone's key signed for another zone: a judge that does not look at the
/// signer would say it, and break its promise (RFC 4035, 5.3.1).
pub fn what_is_signed_for_another_zone_is_honest()
    ensures { let said = Records (false_address ∷ []) in
        RefusesFalsehood plain of_other_signer (small ∷ []) (Refuses NotProven) said }
{}

/// So is an address that a published key signed which is no zone key: a judge that does not look at
/// the bit of zone keys would say it (RFC 4034, 2.1.1).
pub fn what_is_signed_by_no_zone_key_is_honest()
    ensures { let said = Records (false_address ∷ []) in
        RefusesFalsehood plain of_idle (small ∷ []) (Refuses NotProven) said }
{}

/// So is the record of the chain of an alias, which lacks the type: a judge that takes it as proof
/// says NODATA at an alias (RFC 6840, 4.3).
pub fn the_record_of_an_alias_is_honest()
    ensures { RefusesFalsehood plain at_alias (aliased ∷ []) (Refuses NotProven) NoType }
{}

/// So is the record of the chain of a DNAME, which covers the names below it: a judge that takes it
/// as proof denies what is redirected (RFC 6840, 4.1).
pub fn the_record_of_a_dname_is_honest()
    ensures { let versions = redirected ∷ [] in
        RefusesFalsehood plain below_redirected versions (Refuses NotProven) NoName }
{}

/// So are records of two versions that were signed in one second, the second for longer: a judge
/// that compares inceptions alone calls a name missing that both versions have.
pub fn versions_that_begin_at_once_are_honest()
    ensures { let versions = first_version ∷ second_version ∷ [] in
        RefusesFalsehood plain begun_at_once versions (Refuses MixedVersions) NoName }
{}

/// Beside an empty DS set nothing is verified, so each zone would be called unsigned (RFC 4035,
/// 5.2).
pub fn a_ds_record_is_needed()
    ensures { SaysFalsely without_ds }
{}

/// Whoever can sign a DNSKEY RRset under the zone's key adds a key, and signs any answer with it
/// (RFC 4035, 5.2).
pub fn no_keys_may_be_forged()
    ensures { SaysFalsely without_keys_unforged }
{}

/// Whoever has a key of the same tag, algorithm and digest as the DS record signs a DNSKEY RRset of
/// it (RFC 4034, 5.1.4).
pub fn digests_must_name_the_zones_keys()
    ensures { SaysFalsely without_keys_known }
{}

/// Whoever can sign an answer under the zone's key says what the zone does not say (RFC 4035,
/// 5.3.3).
pub fn no_answer_may_be_forged()
    ensures { SaysFalsely without_answer_unforged }
{}

/// A key that the zone signs into its DNSKEY RRset may sign whatever answer, so it is to be one of
/// those that are published.
pub fn keys_that_are_signed_must_be_published()
    ensures { SaysFalsely without_keys_published }
{}

/// A name that has the hash of another passes for it: a name that does not exist, for one that
/// lacks the type (RFC 5155, 12.1.2).
pub fn no_two_names_may_share_a_hash()
    ensures { SaysFalsely without_hashes_apart }
{}

/// Records of two versions, signed at two moments, are refused though nothing in them is forged. A
/// judge that does not ask for signatures of one moment calls a name missing that both versions
/// have.
pub fn versions_do_not_mix()
    ensures { IsMixture plain mixed (first_version ∷ second_version ∷ []) NoName }
{}

/// An address beside a CNAME is proved, though the name is an alias: nothing may stand beside a
/// CNAME (RFC 1034, 3.6.2).
pub fn nothing_may_stand_beside_a_cname()
    ensures { SaysFalsely without_alone }
{}

/// An address below a DNAME is proved, though the name is redirected: nothing may stand below a
/// DNAME (RFC 6672, 2.4).
pub fn nothing_may_stand_below_a_dname()
    ensures { SaysFalsely without_childless }
{}

/// A delegation's NSEC record does not show a DNAME beside its NS: so names below are called
/// delegated that are redirected (RFC 6672, 2.3).
pub fn no_dname_may_stand_at_a_delegation()
    ensures { SaysFalsely without_uncut }
{}

/// An NSEC record that is handed in as data is signed, and denies what the zone has (RFC 4035,
/// 2.3).
pub fn no_record_may_be_of_a_type_that_signing_adds()
    ensures { SaysFalsely without_ordinary }
{}

/// A record of denial that a signer makes for a question, and that says what is not so, denies what
/// the zone has (RFC 4470).
pub fn denials_that_are_made_must_be_true()
    ensures { SaysFalsely without_denials_true }
{}

/// A record of denial that a signer makes for a question about a name that does not exist is
/// honest, and denies the name (RFC 9824, 3).
pub fn a_denial_that_is_made_is_honest()
    ensures { IsHonestCase plain of_denied (denying ∷ []) (Says NoName) }
{}

/// So is one between two names that a signer makes up: it denies a name in between, and that a
/// wildcard stands for it (RFC 4470, 3).
pub fn a_record_between_names_that_are_made_up_is_honest()
    ensures { IsHonestCase plain of_made_up (making_up ∷ []) (Says NoName) }
{}

/// A record of type NXNAME is listed by its name's NSEC record, which so denies the name: no zone
/// is to hold one (RFC 9824, 2).
pub fn no_record_may_be_of_a_type_that_is_no_data()
    ensures { SaysFalsely without_real }
{}

/// Two versions at one moment are not told apart, so at one moment a zone is to have one version.
pub fn one_moment_has_one_version()
    ensures { SaysFalsely without_settled }
{}
