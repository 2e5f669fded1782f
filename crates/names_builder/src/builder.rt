//! Building names label by label or octet by octet.

ghost use Rattle.std.specs.Prelude.{List, true, Some, None, ◌≡◌, ◌≢◌, ◌↔◌, ◌+◌, ◌<◌, ◌≤◌, ◌++◌};
ghost use Rattle.std.specs.Prelude.{◌∷◌, ◌==◌, [], ℕ, length, slice_set, MatchOption, IfOk, IfErr};
ghost use Rattle.std.specs.Prelude.{IfSome, IsOk, IsTrue, IsErrOf, OnOk, OnErr};
ghost use Rattle.definitions.specs.Name.{IsName};
ghost use Rattle.names_labels.specs.Flat.{SpellsRelative, SpellsName, labels_in, spelled};
ghost use Rattle.names_labels.specs.RefusedRelative.{RefusedRelative};
ghost use Rattle.std.specs.Iterator.{IsFinite};
ghost use Rattle.definitions.specs.Text.{Symbol as TextSymbol};
ghost use Rattle.names_wire.specs.Symbols.{symbol_of, is_begun};
ghost use Rattle.names_wire.specs.Spelled.{CharsSpell, SpellsNothing};
ghost use Rattle.names_labels.specs.Open.{if_open_short};
ghost use Rattle.names_builder.specs.FromText.{is_text, continued, standing, text_behind, AddsChar};
ghost use Rattle.names_builder.specs.FromText.{ReadsSymbols, StopsAtSymbol, StopsInText};
ghost use Rattle.names_builder.specs.FromText.{FirstFault, FaultBehind};
ghost use Rattle.names_builder.specs.Fault.{CharFault, FaultAt, fault_of};
ghost use Rattle.names_builder.specs.Building.{Building, IsShort, IsFront, octets_of_building};
ghost use Rattle.names_builder.specs.Building.{IsLongLabel, IsLongName, IsOver, with_octets};
ghost use Rattle.names_builder.specs.Building.{closed, ended, labels_with, with_labels, all_labels};

use crate::push_error::{PushError, PushNameError};
use crate::text::octet_of;
use crate::text_error::FromStrError;
use names_labels::check::check_relative;
use names_labels::relative_error::RelativeNameError;
use names_labels::traits::{Absolute, Relative, ToLabelIter};
use names_wire::builder::{OctetsBuilder, ShortBuf};
use names_wire::symbol::{Symbol, SymbolReader};
use std::alloc::Global;
use std::marker::Model;

/// Writes one octet over another.
fn set_octet<B: OctetsBuilder>(builder: &mut B, place: usize, octet: u8)
    requires { place < length (B.bytes builder.old) }
    ensures { B.bytes builder.new ≡ slice_set (B.bytes builder.old) place octet }
{
    builder.as_mut_slice()[place] = octet;
}

/// Appends an octet and others behind it; where that is refused, appends nothing.
fn append_behind<B: OctetsBuilder>(builder: &mut B, head: u8, octets: &[u8]) -> Result<(), ShortBuf>
    ensures ok { OnOk result (B.bytes builder.new ≡ B.bytes builder.old ++ head ∷ octets.now) }
    ensures err { OnErr result (B.bytes builder.new ≡ B.bytes builder.old) }
{
    let len = builder.as_slice().len();
    builder.append_slice(&[head])?;
    if let Err(error) = builder.append_slice(octets) {
        builder.truncate(len);
        return Err(error);
    }
    Ok(())
}

/// Writes the length of a label that is open at a place.
fn close<B: OctetsBuilder>(builder: &mut B, head: Option<usize>, len: usize)
    requires open { MatchOption head (Unit {0}) (λ place. place < length (B.bytes builder.old)) }
    requires short { len ≤ 63 }
    ensures { B.bytes builder.new ≡ closed (B.bytes builder.old) head len }
{
    if let Some(place) = head {
        set_octet(builder, place, len as u8);
    }
}

/// Appends all labels of a name, each behind its length; where that is refused, appends nothing.
fn append_labels<B: OctetsBuilder, N: ToLabelIter>(
    builder: &mut B,
    name: &N,
) -> Result<(), ShortBuf>
    ensures ok { let more = spelled (N.labels name.now) in
        OnOk result (B.bytes builder.new ≡ B.bytes builder.old ++ more) }
    ensures name { IsName (N.name name.now) }
    ensures err { OnErr result (B.bytes builder.new ≡ B.bytes builder.old) }
{
    let _count = name.label_count();
    let (len, mut labels) = (builder.as_slice().len(), name.iter_labels());
    while let Some(label) = labels.next() {
        if let Err(error) = append_behind(builder, label.len() as u8, label.as_slice()) {
            builder.truncate(len);
            return Err(error);
        }
    }
    Ok(())
}

/// A relative name under construction: finished labels, and one that may be open.
///
/// A refused call changes nothing. Contracts see the finished labels and the octets of the open
/// one.
#[derive(Drop)]
pub struct NameBuilder<B: OctetsBuilder> {
    builder: B,
    head: Option<usize>,
}

impl<B: OctetsBuilder> Model for NameBuilder<B> {
    ghost use Rattle.names_builder.specs.Building.{Building, building, Holds};

    ghost Value = { Building };

    ghost view = { λ b. building (B.bytes b.builder) b.head };

    ghost invariant = { λ b.
        Holds (B.bytes b.builder) b.head (building (B.bytes b.builder) b.head) };
}

impl<B: OctetsBuilder> NameBuilder<B> {
    /// Continues behind the labels that a buffer holds. A buffer that holds anything else is
    /// dropped.
    pub fn from_builder(builder: B) -> Result<Self, RelativeNameError>
    where
        B: Drop,
        ensures ok { IfOk result (λ b.
            (b.open_label ≡ []) × SpellsRelative (B.bytes builder) b.done) }
        ensures refused { IfErr result (RefusedRelative (B.bytes builder)) }
    {
        match check_relative(builder.as_slice()) {
            Ok(()) => Ok(NameBuilder {
                builder,
                head: None,
            }),
            Err(error) => Err(error),
        }
    }

    /// Continues behind the labels that a buffer is known to hold.
    pub fn behind(builder: B) -> Self
        requires { SpellsRelative (B.bytes builder) (labels_in (B.bytes builder)) }
        ensures { result ≡ record { done = labels_in (B.bytes builder); open_label = [] } }
    {
        NameBuilder {
            builder,
            head: None,
        }
    }

    /// The finished labels, each behind its length, and the open one behind a zero octet.
    pub fn as_slice(&self) -> &[u8]
        ensures value { result.now ≡ octets_of_building self.now }
        ensures short { length result.now ≤ 254 }
    {
        self.builder.as_slice()
    }

    pub fn len(&self) -> usize
        ensures value { result ≡ length (octets_of_building self.now) }
        ensures short { result ≤ 254 }
    {
        self.as_slice().len()
    }

    pub fn is_empty(&self) -> bool
        ensures { result ≡ (length (octets_of_building self.now) == 0) }
    {
        self.len() == 0
    }

    /// Whether a label is open.
    pub fn in_label(&self) -> bool
        ensures { IsTrue result ↔ (self.now.open_label ≢ []) }
    {
        self.head.is_some()
    }

    /// How many octets the open label has.
    fn open_len(&self) -> usize
        ensures value { result ≡ length self.now.open_label }
        ensures short { result ≤ 63 }
    {
        match self.head {
            Some(head) => self.builder.as_slice().len() - head - 1,
            None => 0,
        }
    }

    /// Adds octets to the open label; where no label is open, they open one. An empty slice opens
    /// none.
    pub fn append_slice(&mut self, octets: &[u8]) -> Result<(), PushError>
        ensures ok { OnOk result (self.new ≡ with_octets self.old octets.now) }
        ensures long_label { IsErrOf result PushError.LongLabel ↔ IsLongLabel self.old octets.now }
        ensures long_name { IsErrOf result PushError.LongName ↔ IsLongName self.old octets.now }
        ensures err { OnErr result (self.new ≡ self.old) }
    {
        let (open, len) = (self.open_len(), self.len());
        if octets.is_empty() {
            return Ok(());
        }
        if octets.len() > 63 - open {
            return Err(PushError::LongLabel);
        }
        let heads = if open == 0 { 1 } else { 0 };
        if len + heads + octets.len() > 254 {
            return Err(PushError::LongName);
        }
        if open > 0 {
            self.builder.append_slice(octets)?;
        } else {
            append_behind(&mut self.builder, 0, octets)?;
            self.head = Some(len);
        }
        Ok(())
    }

    /// Adds an octet to the open label, or opens one with it.
    pub fn push(&mut self, octet: u8) -> Result<(), PushError>
        ensures ok { OnOk result (self.new ≡ with_octets self.old (octet ∷ [])) }
        ensures long_label { let is = IsLongLabel self.old (octet ∷ []) in
            IsErrOf result PushError.LongLabel ↔ is }
        ensures long_name { IsErrOf result PushError.LongName ↔ IsLongName self.old (octet ∷ []) }
        ensures err { OnErr result (self.new ≡ self.old) }
    {
        self.append_slice(&[octet])
    }

    /// Ends the open label, if there is one.
    pub fn end_label(&mut self)
        ensures { self.new ≡ ended self.old }
    {
        if let Some(head) = self.head {
            let len = self.builder.as_slice().len() - head - 1;
            set_octet(&mut self.builder, head, len as u8);
            self.head = None;
        }
    }

    /// Ends the open label, and adds a label behind it. An empty slice adds none.
    pub fn append_label(&mut self, label: &[u8]) -> Result<(), PushError>
        ensures ok { OnOk result (self.new ≡ with_labels self.old (labels_with [] label.now)) }
        ensures long_label { IsErrOf result PushError.LongLabel ↔ (63 < length label.now) }
        ensures long_name { let after = with_labels self.old (labels_with [] label.now) in
            IsErrOf result PushError.LongName ↔ ((length label.now ≤ 63) × IsOver after) }
        ensures err { OnErr result (self.new ≡ self.old) }
    {
        let (open, len) = (self.open_len(), self.len());
        if label.is_empty() {
            self.end_label();
            return Ok(());
        }
        if label.len() > 63 {
            return Err(PushError::LongLabel);
        }
        if len + 1 + label.len() > 254 {
            return Err(PushError::LongName);
        }
        append_behind(&mut self.builder, label.len() as u8, label)?;
        close(&mut self.builder, self.head, open);
        self.head = None;
        Ok(())
    }

    /// Ends the open label, and adds the labels of a name behind it.
    pub fn append_name<N: Relative>(&mut self, name: &N) -> Result<(), PushNameError>
        ensures ok { OnOk result (self.new ≡ with_labels self.old (N.name name.now)) }
        ensures long_name { let after = with_labels self.old (N.name name.now) in
            IsErrOf result PushNameError.LongName ↔ IsOver after }
        ensures err { OnErr result (self.new ≡ self.old) }
    {
        let (open, len) = (self.open_len(), self.len());
        if len + usize::from(name.compose_len()) > 254 {
            return Err(PushNameError::LongName);
        }
        append_labels(&mut self.builder, name)?;
        close(&mut self.builder, self.head, open);
        self.head = None;
        Ok(())
    }
}

/// Reading text (RFC 1035, 5.1). A dot ends the open label; an empty text changes nothing.
impl<B: OctetsBuilder> NameBuilder<B> {
    /// Adds a symbol: its octet to the open label, or a label's end.
    pub(crate) fn push_symbol(&mut self, symbol: Symbol) -> Result<(), FromStrError>
        ensures ok { let s = symbol_of symbol in OnOk result ((ss : List TextSymbol)
            → continued self.old (s ∷ ss) ≡ continued self.new ss) }
        ensures refused { let s = symbol_of symbol in
            let read = λ (ss : List TextSymbol). if_open_short (continued self.old (s ∷ ss)) in
            IfErr result (λ e. is_text e ≡ true → (ss : List TextSymbol) → read ss ≡ None) }
        ensures err { OnErr result (self.new ≡ self.old) }
        ensures fault { let is = FaultAt self.old (symbol_of symbol) in
            IfErr result (λ e. IfSome (fault_of e) is) }
        ensures limits { IsShort self.new }
    {
        let _ = &self.builder;
        match octet_of(symbol, self.in_label())? {
            Some(octet) => self.push(octet)?,
            None => self.end_label(),
        }
        let _ = &self.builder;
        Ok(())
    }

    /// Adds symbols: octets to the open label, and at each dot a label's end. Where a symbol is
    /// refused, the call returns its fault and adds nothing.
    pub fn append_symbols<S: Iterator<Item = Symbol> + Drop>(
        &mut self,
        symbols: S,
    ) -> Result<(), FromStrError>
        requires can { S.can_next symbols }
        requires ends { IsFinite (S.remaining symbols) }
        ensures ok { OnOk result (ReadsSymbols S.next_gives symbols self.old self.new) }
        ensures refused { let stops = StopsAtSymbol S.next_gives symbols self.old in
            IfErr result (λ e. (at : Building) × stops at e) }
        ensures err { OnErr result (self.new ≡ self.old) }
    {
        let (len, head) = (self.len(), self.head);
        let done = self.add_symbols(symbols);
        if done.is_err() {
            self.put_back(len, head);
        }
        done
    }

    /// Adds symbols: octets to the open label, and at each dot a label's end. The call stops at a
    /// symbol that is refused, and keeps what the symbols before it added.
    pub(crate) fn add_symbols<S: Iterator<Item = Symbol> + Drop>(
        &mut self,
        symbols: S,
    ) -> Result<(), FromStrError>
        requires can { S.can_next symbols }
        requires ends { IsFinite (S.remaining symbols) }
        ensures ok { OnOk result (ReadsSymbols S.next_gives symbols self.old self.new) }
        ensures refused { IfErr result (StopsAtSymbol S.next_gives symbols self.old self.new) }
    {
        let _ = &self.builder;
        for symbol in symbols {
            self.push_symbol(symbol)?;
        }
        Ok(())
    }

    /// Removes all but the first `len` octets. A label that was open at that length is open again.
    fn put_back(&mut self, len: usize, head: Option<usize>)
        requires { (before : Building) × IsFront before len head self.old }
        ensures { (before : Building) → IsFront before len head self.old → self.new ≡ before }
    {
        self.builder.truncate(len);
        close(&mut self.builder, head, 0);
        self.head = head;
    }

    /// Adds a character behind those that a reader holds of an unfinished symbol.
    pub(crate) fn push_char(
        &mut self,
        reader: &mut SymbolReader,
        ch: char,
    ) -> Result<(), FromStrError>
        ensures ok { let read = λ (rest : List ℕ). text_behind self.old (reader.old ++ ch ∷ rest) in
            let left = λ (rest : List ℕ). text_behind self.new (reader.new ++ rest) in
            OnOk result ((rest : List ℕ) → read rest ≡ left rest) }
        ensures refused { let read = λ (rest : List ℕ).
            text_behind self.old (reader.old ++ ch ∷ rest) in
            IfErr result (λ e. is_text e ≡ true → (rest : List ℕ) → read rest ≡ None) }
        ensures err { OnErr result (self.new ≡ self.old) }
        ensures fault { let is = CharFault self.old reader.old ch in
            IfErr result (λ e. IfSome (fault_of e) is) }
        ensures limits { IsShort self.new }
        ensures begun { is_begun reader.new ≡ true }
        ensures adds { OnOk result (AddsChar self.old reader.old ch self.new reader.new) }
    {
        let _ = &self.builder;
        if let Some(symbol) = reader.push(ch)? {
            self.push_symbol(symbol)?;
        }
        Ok(())
    }

    /// Adds the symbols that characters spell: octets to the open label, and at each dot a label's
    /// end. The call returns the fault of the first character behind which no name can come.
    pub fn append_chars<C: Iterator<Item = char> + Drop>(
        &mut self,
        chars: C,
    ) -> Result<(), FromStrError>
        requires can { C.can_next chars }
        requires ends { IsFinite (C.remaining chars) }
        ensures ok { let spell = CharsSpell C.next_gives chars (text_behind self.old) in
            OnOk result (spell (standing self.new)) }
        ensures refused { IfErr result (λ e. is_text e ≡ true
            → SpellsNothing C.next_gives chars (text_behind self.old)) }
        ensures err { OnErr result (self.new ≡ self.old) }
        ensures fault { let is = FaultBehind C.next_gives chars self.old in
            IfErr result (λ e. IfSome (fault_of e) is) }
    {
        let (len, head) = (self.len(), self.head);
        let done = self.append_text(SymbolReader::new(), chars);
        if done.is_err() {
            self.put_back(len, head);
        }
        done
    }

    /// Adds the symbols that characters spell, behind those that a reader holds of an unfinished
    /// symbol. The call stops at a character behind which no name can come, and keeps what the
    /// whole symbols before it added.
    pub(crate) fn append_text<C: Iterator<Item = char> + Drop>(
        &mut self,
        reader: SymbolReader,
        chars: C,
    ) -> Result<(), FromStrError>
        requires can { C.can_next chars }
        requires ends { IsFinite (C.remaining chars) }
        requires begins { is_begun reader ≡ true }
        ensures ok { let read = λ (text : List ℕ). text_behind self.old (reader ++ text) in
            OnOk result (CharsSpell C.next_gives chars read (standing self.new)) }
        ensures refused { let read = λ (text : List ℕ). text_behind self.old (reader ++ text) in
            IfErr result (λ e. is_text e ≡ true → SpellsNothing C.next_gives chars read) }
        ensures stands { OnErr result (StopsInText C.next_gives chars reader self.old self.new) }
        ensures fault { let is = FirstFault C.next_gives chars reader self.old self.new in
            IfErr result (λ e. IfSome (fault_of e) is) }
    {
        let mut reader = reader;
        let _ = &self.builder;
        for ch in chars {
            self.push_char(&mut reader, ch)?;
        }
        reader.finish()?;
        Ok(())
    }
}

/// The octets that a builder made.
impl<B: OctetsBuilder> NameBuilder<B> {
    /// Ends the open label, and returns the labels, each behind its length.
    pub fn into_octets(self) -> B
        ensures { SpellsRelative (B.bytes result) (all_labels self) }
    {
        let open = self.open_len();
        let NameBuilder { builder, head } = self;
        let mut octets = builder;
        close(&mut octets, head, open);
        octets
    }

    /// Ends the open label, and returns the wire form of the name under the root. The call is
    /// refused only for lack of room.
    pub fn into_name_octets(self) -> Result<B, ShortBuf>
    where
        B: Drop,
        ensures { IfOk result (λ octets. SpellsName (B.bytes octets) (all_labels self)) }
    {
        let mut octets = self.into_octets();
        match octets.append_slice(&[0]) {
            Ok(()) => Ok(octets),
            Err(error) => Err(error),
        }
    }

    /// Ends the open label, and returns the wire form of the name under an origin.
    pub fn append_origin_octets<N: Absolute>(self, origin: &N) -> Result<B, PushNameError>
    where
        B: Drop,
        ensures ok { let n = all_labels self ++ N.name origin.now in
            IfOk result (λ octets. SpellsName (B.bytes octets) n) }
        ensures long_name { let after = with_labels self (N.name origin.now) in
            IsErrOf result PushNameError.LongName ↔ IsOver after }
    {
        let (open, len) = (self.open_len(), self.len());
        if len + usize::from(origin.compose_len()) > 255 {
            return Err(PushNameError::LongName);
        }
        let NameBuilder { mut builder, head } = self;
        match append_labels(&mut builder, origin) {
            Ok(()) => {
                close(&mut builder, head, open);
                Ok(builder)
            }
            Err(_) => Err(PushNameError::ShortBuf),
        }
    }
}

impl NameBuilder<Vec<u8>> {
    /// An empty builder, which allocates as it grows.
    pub fn new(alloc: Global) -> Self
        ensures { result ≡ record { done = []; open_label = [] } }
    {
        NameBuilder {
            builder: Vec::new(alloc),
            head: None,
        }
    }

    /// An empty builder, which allocates as it grows.
    pub fn new_vec(alloc: Global) -> Self
        ensures { result ≡ record { done = []; open_label = [] } }
    {
        NameBuilder::new(alloc)
    }

    /// An empty builder with room for `capacity` octets.
    pub fn with_capacity(alloc: Global, capacity: usize) -> Result<Self, ShortBuf>
        ensures { IfOk result (λ b. b ≡ record { done = []; open_label = [] }) }
    {
        match Vec::with_capacity(alloc, capacity) {
            Ok(builder) => Ok(NameBuilder {
                builder,
                head: None,
            }),
            Err(_) => Err(ShortBuf),
        }
    }

    /// An empty builder with room for `capacity` octets.
    pub fn vec_with_capacity(alloc: Global, capacity: usize) -> Result<Self, ShortBuf>
        ensures { IfOk result (λ b. b ≡ record { done = []; open_label = [] }) }
    {
        NameBuilder::with_capacity(alloc, capacity)
    }
}
