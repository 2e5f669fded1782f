//! Writing answers (RFC 1035, 4.1; RFC 4035, 3.1.1).
ghost use Rattle.std.specs.Prelude.{◌≡◌, ◌+◌, ◌++◌, [], ◌∷◌, true, map, length, Err, IfOk, IfErr};
ghost use Rattle.std.specs.Prelude.{OnOk, if◌then◌else◌};
ghost use Rattle.std.specs.List.{AllZip, flat_map};
ghost use Rattle.answer_terms.specs.GroupView.{FailsFor, IsRrsigData};
ghost use Rattle.answer_publisher.specs.Answering.{ahead_of_records};
ghost use Rattle.messages.specs.Questions.{asked_of};
ghost use Rattle.answer_scheme.specs.declared.error.SchemeError.TheVariants as error;
ghost use Rattle.messages.specs.Written.{record_octets};
ghost use Rattle.answer_publisher.specs.Composed.{HasRoom, IsAnswer, IsSection, RefusesGroups};
ghost use Rattle.answer_publisher.specs.Composed.{RefusesRecords, rrsig_of};
ghost use Rattle.answer_terms.specs.Served.{written_rr};

use crate::fault::AnswerFault;
use crate::signing::{SignatureTerms, sign_group};
use answer_scheme::error::SchemeError;
use answer_scheme::scheme::Scheme;
use answer_terms::dnskey::Dnskey;
use answer_zone::records::group::RrGroup;
use messages::names::{Name, Octets};
use messages::question::Question;
use messages::write::{push_header, push_question, push_record};
use numbers::class::Class;
use numbers::rtype::Rtype;
use numbers::ttl::Ttl;
use std::alloc::Global;

/// The octets of a longest message (RFC 1035, 4.2.2).
const LONGEST: usize = 65535;

/// Writes an answer: id 0, the flags given, the question as asked, and in the answer and the
/// authority section each RRset with its signatures behind it, one of each key in the order of the
/// keys.
pub fn compose_answer<S: Scheme, Octs: Octets>(
    alloc: Global,
    scheme: &S,
    terms: &SignatureTerms,
    keys: &[Dnskey<Octs>],
    flags: u16,
    question: &Question,
    answer: &[RrGroup],
    authority: &[RrGroup],
) -> Result<Vec<u8>, AnswerFault>
    ensures refused { let sign = S.signature_of scheme.now in
        let verifies = S.verifies scheme.now in let t = terms.now in
        let more = ahead_of_records (asked_of question.now) in
        let groups = answer.now ++ authority.now in
        IfErr result (RefusesGroups sign verifies t.apex.now t.at t.life keys.now more groups) }
    ensures written { let sign = S.signature_of scheme.now in
        let verifies = S.verifies scheme.now in let t = terms.now in
        let is = IsAnswer sign verifies t.apex.now t.at t.life keys.now flags in
        IfOk result (λ m. is (asked_of question.now) answer.now authority.now m.items) }
{
    let answers = write_section(alloc, scheme, terms, keys, answer)?;
    let authorities = write_section(alloc, scheme, terms, keys, authority)?;
    let mut out = Vec::new(alloc);
    push_header(&mut out, flags, answers.count, authorities.count)?;
    push_question(&mut out, &question.name, question.rtype, question.class)?;
    out.extend_from_slice(&answers.octets)?;
    out.extend_from_slice(&authorities.octets)?;
    if out.len() > LONGEST {
        return Err(AnswerFault::TooLong);
    }
    Ok(out)
}

/// Records one after another, and how many they are.
#[derive(Drop)]
struct Section {
    octets: Vec<u8>,
    count: u16,
}

/// A section of RRsets, each with its signatures behind it.
fn write_section<S: Scheme, Octs: Octets>(
    alloc: Global,
    scheme: &S,
    terms: &SignatureTerms,
    keys: &[Dnskey<Octs>],
    groups: &[RrGroup],
) -> Result<Section, AnswerFault>
    ensures refused { let sign = S.signature_of scheme.now in
        let verifies = S.verifies scheme.now in let t = terms.now in
        IfErr result (RefusesGroups sign verifies t.apex.now t.at t.life keys.now 0 groups.now) }
    ensures written { let sign = S.signature_of scheme.now in
        let verifies = S.verifies scheme.now in let t = terms.now in
        let is = IsSection sign verifies t.apex.now t.at t.life keys.now groups.now in
        IfOk result (λ s. is s.octets.items s.count) }
{
    let mut section = Section {
        octets: Vec::new(alloc),
        count: 0,
    };
    for group in groups {
        let signatures = signatures_of(alloc, scheme, terms, group, keys)?;
        section.push_records(group)?;
        section.push_signatures(group, &signatures)?;
    }
    Ok(section)
}

/// The data of an RRset's signatures; none where it isn't signed.
fn signatures_of<S: Scheme, Octs: Octets>(
    alloc: Global,
    scheme: &S,
    terms: &SignatureTerms,
    group: &RrGroup,
    keys: &[Dnskey<Octs>],
) -> Result<Vec<Vec<u8>>, SchemeError>
    ensures made { let sign = S.signature_of scheme.now in
        let verifies = S.verifies scheme.now in let t = terms.now in
        let is = IsRrsigData sign verifies t.apex.now t.at t.life group.now in
        let signers = (if group.now.signed then keys.now else []) in
        IfOk result (λ ds. AllZip is signers (map (λ d. d.items) ds.items)) }
    ensures failed { let sign = S.signature_of scheme.now in let t = terms.now in
        let fails = FailsFor sign t.apex.now t.at t.life group.now keys.now in
        result ≡ Err error.Failed → (group.now.signed ≡ true) × fails }
{
    if !group.is_signed() {
        return Ok(Vec::new(alloc));
    }
    sign_group(alloc, scheme, terms, group, keys)
}

impl Section {
    /// Writes the records of an RRset, each with its own owner and TTL.
    fn push_records(&mut self, group: &RrGroup) -> Result<(), AnswerFault>
        ensures refused { IfErr result
            (RefusesRecords self.old.octets.items self.old.count group.now.written) }
        ensures room { OnOk result (HasRoom self.old.octets.items self.old.count
            → HasRoom self.new.octets.items self.new.count) }
        ensures octets { OnOk result (self.new.octets.items ≡ self.old.octets.items
            ++ flat_map record_octets group.now.written) }
        ensures count { OnOk result (self.new.count ≡ self.old.count + length group.now.written) }
    {
        for record in group.records() {
            let owner = record.owner_in(group.owner());
            self.push(owner, group.rtype(), record.ttl, &record.octets)?;
        }
        Ok(())
    }

    /// Writes the signatures of an RRset.
    fn push_signatures(&mut self, group: &RrGroup, datas: &[Vec<u8>]) -> Result<(), AnswerFault>
        ensures refused { let rrsigs = map (rrsig_of group.now) (map (λ d. d.items) datas.now) in
            IfErr result (RefusesRecords self.old.octets.items self.old.count rrsigs) }
        ensures room { OnOk result (HasRoom self.old.octets.items self.old.count
            → HasRoom self.new.octets.items self.new.count) }
        ensures octets { let rrsigs = map (rrsig_of group.now) (map (λ d. d.items) datas.now) in
            let more = flat_map record_octets rrsigs in
            OnOk result (self.new.octets.items ≡ self.old.octets.items ++ more) }
        ensures count { OnOk result (self.new.count ≡ self.old.count + length datas.now) }
    {
        for data in datas {
            self.push(group.owner(), Rtype::RRSIG, group.ttl(), data)?;
        }
        Ok(())
    }

    /// Writes a record of class IN.
    fn push(
        &mut self,
        owner: &Name<Vec<u8>>,
        rtype: Rtype,
        ttl: Ttl,
        rdata: &[u8],
    ) -> Result<(), AnswerFault>
        ensures refused { IfErr result (RefusesRecords self.old.octets.items self.old.count
            (written_rr owner.now rtype ttl rdata.now ∷ [])) }
        ensures room { OnOk result (HasRoom self.old.octets.items self.old.count
            → HasRoom self.new.octets.items self.new.count) }
        ensures octets { OnOk result (self.new.octets.items ≡ self.old.octets.items
            ++ record_octets (written_rr owner.now rtype ttl rdata.now)) }
        ensures count { OnOk result (self.new.count ≡ self.old.count + 1) }
    {
        let Some(count) = self.count.checked_add(1) else {
            return Err(AnswerFault::TooLong);
        };
        if rdata.len() > LONGEST {
            return Err(AnswerFault::TooLong);
        }
        push_record(&mut self.octets, owner, rtype, Class::IN, ttl, rdata)?;
        self.count = count;
        Ok(())
    }
}
