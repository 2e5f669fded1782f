//! The names of replies in C, and what each says in a sentence.
ghost use Rattle.std.specs.Prelude.{◌≡◌, ◌∷◌, ◌++◌, []};
ghost use Rattle.zermuita.specs.Texts.{code_text, IsTextOf};

use answer_judge_octets::ReplyCode;

/// The text of a reply by its number, and an octet 0 behind it.
pub(crate) fn text_of(number: u32) -> &'static [u8]
    ensures { IsTextOf number result.now }
{
    match ReplyCode::from_number(number) {
        Some(code) => text_of_code(code),
        None => b"not a reply of this library\0",
    }
}

fn text_of_code(code: ReplyCode) -> &'static [u8]
    ensures { result.now ≡ code_text code ++ (0 ∷ []) }
{
    match code {
        ReplyCode::Records => b"ZERMUITA_RECORDS: the name has records of the type\0",
        ReplyCode::NoType => b"ZERMUITA_NODATA: the name has no records of the type\0",
        ReplyCode::NoName => b"ZERMUITA_NXDOMAIN: there is no such name\0",
        ReplyCode::StarRecords =>
            b"ZERMUITA_WILDCARD: a wildcard stands for the name and has records of the type\0",
        ReplyCode::StarNoType =>
            b"ZERMUITA_WILDCARD_NODATA: a wildcard stands for the name and has no records of the type\0",
        ReplyCode::Delegated => b"ZERMUITA_DELEGATED: the name is at or below a delegation\0",
        ReplyCode::Open => b"ZERMUITA_OPTOUT: an opt-out chain leaves open what is there\0",
        ReplyCode::Unsigned =>
            b"ZERMUITA_INSECURE: no DS record can be checked, so nothing vouches for the zone's keys\0",
        ReplyCode::Alias => b"ZERMUITA_ALIAS: the name has a CNAME record\0",
        ReplyCode::WildcardAlias =>
            b"ZERMUITA_WILDCARD_ALIAS: a wildcard stands for the name and has a CNAME record\0",
        ReplyCode::Dname => b"ZERMUITA_DNAME: a name above has a DNAME record\0",
        ReplyCode::Referral =>
            b"ZERMUITA_REFERRAL: the name is at or below a delegation with DS records\0",
        ReplyCode::QuestionNotAllowed =>
            b"ZERMUITA_QUESTION_NOT_ALLOWED: the name is not in the zone, the class is not IN, or the type is not judged\0",
        ReplyCode::BadDnskeyMessage =>
            b"ZERMUITA_BAD_DNSKEY_MESSAGE: the DNSKEY answer is not a message\0",
        ReplyCode::BadAnswerMessage =>
            b"ZERMUITA_BAD_ANSWER_MESSAGE: the answer is not a message\0",
        ReplyCode::QuestionMismatch =>
            b"ZERMUITA_QUESTION_MISMATCH: a message answers another question\0",
        ReplyCode::EqualTags => b"ZERMUITA_EQUAL_TAGS: two different keys have one tag\0",
        ReplyCode::NoTrustedKey =>
            b"ZERMUITA_NO_TRUSTED_KEY: no key that a DS record names signs the DNSKEY set\0",
        ReplyCode::MixedNsec3Parameters =>
            b"ZERMUITA_MIXED_NSEC3_PARAMETERS: NSEC3 records have different parameters\0",
        ReplyCode::IterationsOverLimit =>
            b"ZERMUITA_ITERATIONS_OVER_LIMIT: the NSEC3 iterations are over the limit\0",
        ReplyCode::HashFailed => b"ZERMUITA_HASH_FAILED: a name was not hashed\0",
        ReplyCode::NotProven => b"ZERMUITA_NOT_PROVEN: the signed records prove no verdict\0",
        ReplyCode::OutOfMemory => b"ZERMUITA_OUT_OF_MEMORY: memory ran out\0",
        ReplyCode::MixedVersions =>
            b"ZERMUITA_MIXED_VERSIONS: signatures have different times, and one moment is demanded\0",
        ReplyCode::MessageTooLong =>
            b"ZERMUITA_MESSAGE_TOO_LONG: a message is too long in canonical form, or costs too much work\0",
        ReplyCode::TooManySignatures =>
            b"ZERMUITA_TOO_MANY_SIGNATURES: more signatures are to be checked than the case allows\0",
        ReplyCode::NothingTold =>
            b"ZERMUITA_NOTHING_TOLD: a zone's answer tells nothing of the way to the name\0",
        ReplyCode::Outside =>
            b"ZERMUITA_OUTSIDE: the name is not at or below the trust anchor, or the question is for DS at the anchor\0",
        ReplyCode::Ask => b"ZERMUITA_ASK: signatures are to be checked\0",
        ReplyCode::Want => b"ZERMUITA_WANT: messages are wanted\0",
        ReplyCode::BufferTooSmall =>
            b"ZERMUITA_BUFFER_TOO_SMALL: the reply has more octets than there is room for\0",
        ReplyCode::BadApex =>
            b"ZERMUITA_BAD_APEX: the name of the zone is not a name in wire form\0",
        ReplyCode::BadDsSet =>
            b"ZERMUITA_BAD_DS_SET: the DS set is not DS records behind their lengths\0",
        ReplyCode::BadName =>
            b"ZERMUITA_BAD_NAME: the name that was asked for is not a name in wire form\0",
        ReplyCode::BadSignatures =>
            b"ZERMUITA_BAD_SIGNATURES: the checked signatures are not entries\0",
        ReplyCode::BadCase =>
            b"ZERMUITA_BAD_CASE: a size or a flag is unknown, octets are null, or no_ds contradicts ds\0",
        ReplyCode::BadMessages =>
            b"ZERMUITA_BAD_MESSAGES: the messages are not messages behind the names that they are of\0",
        ReplyCode::TooManyCuts =>
            b"ZERMUITA_TOO_MANY_CUTS: more delegations are on the way to the name than are allowed\0",
        ReplyCode::TooManyAliases =>
            b"ZERMUITA_TOO_MANY_ALIASES: more aliases are on the way to the name than are allowed\0",
        ReplyCode::TooManyMessages =>
            b"ZERMUITA_TOO_MANY_MESSAGES: more messages are wanted than the evidence may have\0",
        ReplyCode::IncompleteDenial =>
            b"ZERMUITA_INCOMPLETE_DENIAL: records verify, but a denial record that the proof needs is missing\0",
        ReplyCode::TooMuchWork =>
            b"ZERMUITA_TOO_MUCH_WORK: the walk would go on, but may have used up the work that is allowed\0",
    }
}
