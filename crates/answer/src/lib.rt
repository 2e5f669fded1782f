//! The publisher, the judge, and a simulation that joins them over a zone's key life.
//!
//! A caller finds here what these calls take and give; all of names, records, DNSSEC data and key
//! sets stands in the modules of the layers.
#![tactic(auto)]

pub mod simulation;

pub use crate::simulation::simulate;
pub use answer_events::event::{Act, AddKey, Event, KeyCall};
pub use answer_events::key_kind::KeyKind;
pub use answer_judge::judging::is_allowed;
pub use answer_judge::{
    Case, DataList, Judgement, Refusal, Refused, Validity, Verdict, judge, judge_with,
};
pub use answer_laws::laws;
pub use answer_outcomes::outcome::Outcome;
pub use answer_publisher::fault::{AnswerFault, KeyFault, ReplaceFault, ZoneFault};
pub use answer_publisher::publishing::Publisher;
pub use answer_scheme::counting::SchemeChecks;
pub use answer_scheme::{Checks, Scheme, SchemeError};
pub use answer_terms::mode::Mode;
pub use denial;
pub use denial::{Dnskey, Ds, HashError, Nsec3Hasher};
pub use keyset;
pub use keyset::{Action, Available, RollType, UnixTime};
pub use messages::question::Question;
pub use messages::record::{ZoneData, ZoneRecord};
pub use messages::{MessageError, MessageView, ViewRecord, read_message};
pub use names;
pub use names::{Name, Rtype, Serial, UnknownRecordData};
pub use numbers::algorithm::{DigestAlgorithm, SecurityAlgorithm};
pub use numbers::class::Class;
pub use numbers::ttl::Ttl;
pub use plain;
pub use plain::ns::Ns;
pub use plain::record::Record;
pub use plain::soa::Soa;
pub use plain::zone_data::ZoneRecordData;
