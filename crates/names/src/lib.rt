//! Domain names, and what stands around them in messages, under one name: names over flat octets
//! and in messages, labels, builders and text, parsers, numbers in wire form, serial numbers,
//! record types.
#![tactic(auto)]

pub mod laws;

pub use names_builder::push_error::{PushError, PushNameError};
pub use names_builder::text_error::{FromStrError, PresentationError, RelativeFromStrError};
pub use names_flat::builder::{BuiltOctets, Finish, NameBuilder};
pub use names_flat::name::Name;
pub use names_flat::relative::RelativeName;
pub use names_flat::strip::StripSuffixError;
pub use names_flat::suffixes::SuffixIter;
pub use names_labels::iter::NameIter;
pub use names_labels::name_error::NameError;
pub use names_labels::relative_error::RelativeNameError;
pub use names_labels::traits::{Absolute, LabelIter, Labels, Relative, ToLabelIter};
pub use names_parsed::iter::ParsedNameIter;
pub use names_parsed::parsed::ParsedName;
pub use names_parsed::suffixes::ParsedSuffixIter;
pub use names_parser::compose::Compose;
pub use names_parser::error::{FormError, ParseError};
pub use names_parser::parse::Parse;
pub use names_parser::parser::Parser;
pub use names_parser::serial::Serial;
pub use names_rdata::canonical::CanonicalOrd;
pub use names_rdata::composer::{Composer, compose_canonical_name, compose_name};
pub use names_rdata::data::{ComposeRecordData, ParseAnyRecordData, ParseRecordData, RecordData};
pub use names_rdata::long::LongRecordData;
pub use names_rdata::rtype::Rtype;
pub use names_rdata::unknown::UnknownRecordData;
pub use names_traits::chain::{Chain, ChainEnd, LongChainError};
pub use names_traits::display::DisplayWithDot;
pub use names_traits::flatten::FlattenInto;
pub use names_traits::to_name::ToName;
pub use names_traits::to_relative::ToRelativeName;
pub use names_wire::builder::{OctetsBuilder, ShortBuf};
pub use names_wire::label::{Label, LabelTypeError, LongLabelError, SplitLabelError};
pub use names_wire::label_mut::{LabelMut, OwnedLabelMut};
pub use names_wire::labels::SliceLabelsIter;
pub use names_wire::octets::Octets;
pub use names_wire::owned::{LabelFromStrError, OwnedLabel};
pub use names_wire::symbol::{Symbol, SymbolCharsError};
