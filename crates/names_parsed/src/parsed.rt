//! Names that stand in a message (RFC 1035, 4.1.4).

ghost use Rattle.std.specs.Prelude.{◌≡◌, ◌↔◌, ◌+◌, ◌++◌, ◌∷◌, ◌<◌, ◌≤◌, [], true, false, length};
ghost use Rattle.std.specs.Prelude.{drop, slice_index_or, IfOk, IfErr, IfSome, IsNone, IsTrue};
ghost use Rattle.std.specs.Prelude.{OnOk, OnErr, MatchOption};
ghost use Rattle.definitions.specs.Name.{IsName, at_or_above};
ghost use Rattle.names_wire.specs.Label.{octets_of};
ghost use Rattle.names_labels.specs.Compare.{begins_with};
ghost use Rattle.names_labels.specs.Suffixes.{suffixes};
ghost use Rattle.names_parsed.specs.Passing.{Skips, NothingToSkip, StopsPassing};
ghost use Rattle.names_parsed.specs.Standing.{stands_at, name_from, HasRow, KeepsRow};

use crate::head::walk;
use crate::iter::ParsedNameIter;
use crate::skip::skip_from;
use crate::suffixes::ParsedSuffixIter;
use crate::walk::{label_from, label_within, place_behind};
use names_labels::traits::{Absolute, Labels, ToLabelIter};
use names_parser::error::ParseError;
use names_parser::parser::Parser;
use names_wire::label::Label;
use names_wire::labels::label_at;

/// An absolute name that stands in a message, possibly through pointers. It borrows the message and
/// copies nothing.
#[derive(Clone, Copy)]
pub struct ParsedName<'a> {
    message: &'a [u8],
    start: usize,
    /// How many labels the name has, the root's included.
    labels: u8,
    /// How many octets of its wire form stand in a row there, without a pointer; 0 where that is
    /// not known.
    row: u8,
    ghost there: { stands_at message.now start ≡ true },
    ghost counted: { labels ≡ length (name_from message.now start) + 1 },
    ghost in_row: { HasRow message.now start row },
}

impl<'a> ParsedName<'a> {
    ghost use Rattle.names_parsed.specs.Parsed.{parsed_name, message_of, place_of, ReadsName};
    ghost use Rattle.names_parsed.specs.Parsed.{NoName, StopsAt, HasPointers, HasNoPointers};

    /// The suffix of this name that stands at a place of the message and has `labels` labels.
    fn suffix(&self, start: usize, labels: u8) -> Self
        requires stands { stands_at (message_of self.now) start ≡ true }
        requires all { labels ≡ length (name_from (message_of self.now) start) + 1 }
        requires row { KeepsRow (message_of self.now) (place_of self.now) start }
        ensures { parsed_name result ≡ name_from (message_of self.now) start }
    {
        let row = if self.row == 0 {
            0
        } else {
            (self.start + usize::from(self.row) - start) as u8
        };
        ParsedName {
            message: self.message,
            start,
            labels,
            row,
        }
    }

    /// The name without its first `count` labels.
    pub(crate) fn without(&self, count: u8) -> Self
        requires { count ≤ length (parsed_name self.now) }
        ensures { parsed_name result ≡ drop count (parsed_name self.now) }
    {
        let start = place_behind(self.message, self.start, usize::from(count));
        self.suffix(start, self.labels - count)
    }

    /// Reads the name that stands where the parser is, and goes behind it: behind its first pointer
    /// or its root octet.
    ///
    /// A name has at most 255 octets, its root's included. At most 255 pointers are followed, each
    /// to a place before its own. It ends by the parser's end. A refused call leaves the parser
    /// where it was.
    #[inline(always)]
    pub fn parse(parser: &mut Parser<'a>) -> Result<Self, ParseError>
        ensures ok { IfOk result (ReadsName parser.old parser.new) }
        ensures refused { OnErr result (NoName parser.old) }
        ensures fault { IfErr result (StopsAt parser.old) }
        ensures unchanged { OnErr result (parser.new ≡ parser.old) }
    {
        let (message, start) = (parser.as_slice(), parser.pos());
        let walked = walk(message, start)?;
        parser.seek(walked.behind)?;
        Ok(ParsedName {
            message,
            start,
            labels: walked.labels,
            row: walked.row,
        })
    }

    /// Reads a name as `parse` does.
    pub fn parse_ref(parser: &mut Parser<'a>) -> Result<Self, ParseError>
        ensures ok { IfOk result (ReadsName parser.old parser.new) }
        ensures refused { OnErr result (NoName parser.old) }
        ensures fault { IfErr result (StopsAt parser.old) }
        ensures unchanged { OnErr result (parser.new ≡ parser.old) }
    {
        ParsedName::parse(parser)
    }

    /// Passes over a name: up to its root octet or its first pointer, which is not followed, so
    /// what it leads to is not looked at. Labels past 255 octets are refused, and a refused call
    /// leaves the parser where it was.
    pub fn skip(parser: &mut Parser<'_>) -> Result<(), ParseError>
        ensures ok { OnOk result (Skips parser.old parser.new) }
        ensures refused { OnErr result (NothingToSkip parser.old) }
        ensures fault { IfErr result (StopsPassing parser.old) }
        ensures unchanged { OnErr result (parser.new ≡ parser.old) }
    {
        let behind = skip_from(parser.as_slice(), parser.pos())?;
        parser.seek(behind)
    }

    /// The number of labels, the root's included.
    pub fn label_count(&self) -> usize
        ensures { result ≡ length (parsed_name self.now) + 1 }
    {
        usize::from(self.labels)
    }

    pub fn is_root(&self) -> bool
        ensures { IsTrue result ↔ (parsed_name self.now ≡ []) }
    {
        self.labels == 1
    }

    /// The leftmost label, which is the root's for the root.
    pub fn first(&self) -> Label<'a>
        ensures { octets_of result ≡ slice_index_or (parsed_name self.now) 0 [] }
    {
        let (label, _) = label_from(self.message, self.start);
        label
    }

    /// The root's label.
    pub fn last(&self) -> Label<'static>
        ensures { octets_of result ≡ [] }
    {
        Label::root()
    }

    /// The first label and the name behind it; `None` for the root.
    pub fn split_first(&self) -> Option<(Label<'a>, ParsedName<'a>)>
        ensures { let n = parsed_name self.now in
            MatchOption result (n ≡ []) (λ p. n ≡ octets_of p.0 ∷ parsed_name p.1) }
    {
        if self.is_root() {
            return None;
        }
        let (label, start) = label_from(self.message, self.start);
        Some((label, self.suffix(start, self.labels - 1)))
    }

    /// The name without its first label; `None` for the root.
    pub fn parent(&self) -> Option<ParsedName<'a>>
        ensures value { IfSome result (λ p. parsed_name p ≡ drop 1 (parsed_name self.now)) }
        ensures root { IsNone result ↔ (parsed_name self.now ≡ []) }
    {
        let (_, parent) = self.split_first()?;
        Some(parent)
    }

    /// The labels, the root's last, from both ends.
    pub fn iter(&self) -> ParsedNameIter<'a>
        ensures { result ≡ parsed_name self.now ++ [] ∷ [] }
    {
        ParsedNameIter::new(self.message, self.start, self.labels)
    }

    /// The labels without the root's.
    pub(crate) fn relative_labels(&self) -> ParsedNameIter<'a>
        ensures { result ≡ parsed_name self.now }
    {
        ParsedNameIter::without_root(self.message, self.start, self.labels - 1)
    }

    /// The name, its parent and so on to the root, from both ends.
    pub fn iter_suffixes(&self) -> ParsedSuffixIter<'a>
        ensures { result ≡ suffixes (parsed_name self.now) }
    {
        ParsedSuffixIter::new(*self, self.labels)
    }

    /// Whether a pointer is followed at or behind the name's place.
    pub fn is_compressed(&self) -> bool
        ensures compressed { result ≡ true → HasPointers (message_of self.now) (place_of self.now) }
        ensures flat { result ≡ false → HasNoPointers (message_of self.now) (place_of self.now) }
    {
        if self.row > 0 {
            return false;
        }
        let mut place = self.start;
        loop {
            match label_at(self.message, place) {
                Ok((label, _)) if label.is_root() => return false,
                Ok((_, rest)) => place = self.message.len() - rest.len(),
                Err(_) => return true,
            }
        }
    }

    /// Whether the labels begin with those of another name, up to ASCII case.
    pub fn starts_with<N: Labels>(&self, base: &N) -> bool
        ensures { result ≡ begins_with (parsed_name self.now ++ [] ∷ []) (N.labels base.now) }
    {
        ToLabelIter::starts_with(self, base)
    }

    /// Whether the labels end with those of another name, up to ASCII case.
    pub fn ends_with<N: Labels>(&self, base: &N) -> bool
        ensures { result ≡ at_or_above (N.labels base.now) (parsed_name self.now ++ [] ∷ []) }
    {
        ToLabelIter::ends_with(self, base)
    }

    /// A copy of the name, which borrows the same message.
    pub fn ref_octets(&self) -> ParsedName<'a>
        ensures { parsed_name result ≡ parsed_name self.now }
    {
        *self
    }

    /// A copy of the name, which borrows the same message.
    pub fn deref_octets(&self) -> ParsedName<'a>
        ensures { parsed_name result ≡ parsed_name self.now }
    {
        *self
    }
}

impl<'a> Labels for ParsedName<'a> {
    ghost use Rattle.std.specs.Prelude.{◌++◌, ◌∷◌, []};
    ghost use Rattle.names_parsed.specs.Parsed.{parsed_name};
    ghost use Rattle.names_parsed.specs.Walking.{Reaches};

    ghost labels = { λ n. parsed_name n ++ [] ∷ [] };

    ghost name = { parsed_name };

    ghost reaches = { λ n. Reaches n.message.now n.start };

    fn label_count(&self) -> usize {
        usize::from(self.labels)
    }

    fn label_at(&self, index: usize) -> Option<Label<'_>> {
        if index >= usize::from(self.labels) {
            return None;
        }
        Some(label_within(self.message, self.start, index))
    }

    fn label_place(&self, index: usize) -> usize {
        let index = index.min(usize::from(self.labels) - 1);
        place_behind(self.message, self.start, index)
    }

    fn label_onward(&self, place: usize, index: usize) -> Option<(Label<'_>, usize)> {
        if index >= usize::from(self.labels) {
            return None;
        }
        Some(label_from(self.message, place))
    }

    fn label_row(&self) -> Option<&[u8]> {
        if self.row == 0 {
            return None;
        }
        Some(&self.message[self.start..self.start + usize::from(self.row)])
    }
}

impl<'a> ToLabelIter for ParsedName<'a> {}

impl<'a> Absolute for ParsedName<'a> {
    ghost use Rattle.std.specs.Prelude.{refl};

    ghost rooted = { λ n. refl };
}
