//! A line, and what is answered to it.

use crate::answering::{order_word, yes_or_no};
use std::alloc::Global;
use std::cmp::Ordering;
use std::fmt::Display;

/// A line whose words are taken by their places, and its answer: words, something between two.
/// Once a word cannot be read, memory is lacking or something doesn't hold that has to, there is no
/// answer, whatever is added: so what reads and answers has no other way out.
#[derive(Drop)]
pub struct Line<'l> {
    alloc: Global,
    text: &'l str,
    between: &'l str,
    answer: String,
    is_lost: bool,
}

impl<'l> Line<'l> {
    /// A line, in whose answer words are one blank apart.
    pub fn new(alloc: Global, text: &'l str) -> Line<'l> {
        Line {
            alloc,
            text,
            between: " ",
            answer: String::new(alloc),
            is_lost: false,
        }
    }

    /// Another answer to the same line, this between two words.
    pub fn aside(&self, between: &'l str) -> Line<'l> {
        Line {
            alloc: self.alloc,
            text: self.text,
            between,
            answer: String::new(self.alloc),
            is_lost: false,
        }
    }

    pub fn alloc(&self) -> Global {
        self.alloc
    }

    /// Whether the line is empty or a comment.
    pub fn is_comment(&self) -> bool {
        self.text.is_empty() || self.text.starts_with('#')
    }

    /// Whether the line begins a section, whose name is its second word: nothing is answered to it.
    pub fn is_section(&self) -> bool {
        self.text.starts_with("section ")
    }

    /// The word at a place; an empty one behind the last.
    pub fn word(&self, place: usize) -> &'l str {
        let mut count = 0usize;
        for word in self.text.split(' ') {
            if count == place {
                return word;
            }
            count = count.saturating_add(1);
        }
        ""
    }

    /// All that stands from the word at a place on.
    pub fn rest(&self, place: usize) -> &'l str {
        let mut rest = self.text;
        for _ in 0..place {
            rest = match rest.split_once(' ') {
                Some((_, behind)) => behind,
                None => "",
            };
        }
        rest
    }

    /// The words of the list at a place, between commas; of `-` none.
    pub fn list(&mut self, place: usize) -> Vec<&'l str> {
        let mut words = Vec::new(self.alloc);
        let list = self.word(place);
        if list != "-" {
            for word in list.split(',') {
                self.must(words.push(word));
            }
        }
        words
    }

    /// The numbers of the list at a place.
    pub fn numbers(&mut self, place: usize) -> Vec<u16> {
        let mut numbers = Vec::new(self.alloc);
        for word in &self.list(place) {
            let number = self.read_u16(word);
            self.must(numbers.push(number));
        }
        numbers
    }

    /// The octets of the word at a place.
    pub fn octets(&mut self, place: usize) -> Vec<u8> {
        self.read_octets(self.word(place))
    }

    /// The octets of hexadecimal digits; of `-` none.
    pub fn read_octets(&mut self, digits: &str) -> Vec<u8> {
        let digits = if digits == "-" { "" } else { digits };
        match hex::decode(self.alloc, digits) {
            Ok(octets) => octets,
            Err(_) => {
                self.is_lost = true;
                Vec::new(self.alloc)
            }
        }
    }

    /// The number at a place.
    pub fn number(&mut self, place: usize) -> u64 {
        self.read_number(self.word(place))
    }

    pub fn read_number(&mut self, digits: &str) -> u64 {
        match digits.parse::<u64>() {
            Ok(number) => number,
            Err(_) => {
                self.is_lost = true;
                0
            }
        }
    }

    pub fn u32_at(&mut self, place: usize) -> u32 {
        self.read_u32(self.word(place))
    }

    pub fn read_u32(&mut self, digits: &str) -> u32 {
        let number = self.read_number(digits);
        self.check(number <= 0xffff_ffff);
        (number & 0xffff_ffff) as u32
    }

    pub fn u16_at(&mut self, place: usize) -> u16 {
        self.read_u16(self.word(place))
    }

    pub fn read_u16(&mut self, digits: &str) -> u16 {
        let number = self.read_number(digits);
        self.check(number <= 0xffff);
        (number & 0xffff) as u16
    }

    pub fn u8_at(&mut self, place: usize) -> u8 {
        self.read_u8(self.word(place))
    }

    pub fn read_u8(&mut self, digits: &str) -> u8 {
        let number = self.read_number(digits);
        self.check(number <= 0xff);
        (number & 0xff) as u8
    }

    pub fn usize_at(&mut self, place: usize) -> usize {
        self.number(place) as usize
    }

    /// Whether the word at a place is `yes`, not `no`.
    pub fn is_yes(&mut self, place: usize) -> bool {
        let word = self.word(place);
        self.check(word == "yes" || word == "no");
        word == "yes"
    }

    /// Leaves no answer.
    pub fn lose(&mut self) {
        self.is_lost = true;
    }

    /// Leaves no answer where something doesn't hold.
    pub fn check(&mut self, holds: bool) {
        self.is_lost = self.is_lost || !holds;
    }

    /// Leaves no answer where something was refused.
    pub fn must<T: Drop, E: Drop>(&mut self, made: Result<T, E>) {
        self.check(made.is_ok());
    }

    /// A text of the program's own.
    pub fn text(&mut self, text: &str) -> String {
        match String::from_str(self.alloc, text) {
            Ok(text) => text,
            Err(_) => {
                self.is_lost = true;
                String::new(self.alloc)
            }
        }
    }

    /// Says a word.
    pub fn say(&mut self, word: &str) {
        if !self.answer.is_empty() {
            self.mark(self.between);
        }
        self.mark(word)
    }

    /// Says a word where none is said yet.
    pub fn say_if_empty(&mut self, word: &str) {
        if self.answer.is_empty() {
            self.mark(word)
        }
    }

    /// Puts a text right behind the last word.
    pub fn mark(&mut self, mark: &str) {
        let put = self.answer.push_str(mark);
        self.must(put);
    }

    /// What is printed of a value.
    pub fn text_of<D: Display>(&mut self, value: &D) -> String {
        match value.to_string(self.alloc) {
            Ok(text) => text,
            Err(_) => {
                self.is_lost = true;
                String::new(self.alloc)
            }
        }
    }

    /// Says what is printed of a value.
    pub fn value<D: Display>(&mut self, value: &D) {
        let text = self.text_of(value);
        self.say(&text)
    }

    /// Says hexadecimal digits; `-` for no octets.
    pub fn hex(&mut self, octets: &[u8]) {
        if octets.is_empty() {
            self.say("-");
            return;
        }
        match hex::encode(self.alloc, octets) {
            Ok(text) => self.say(&text),
            Err(_) => self.is_lost = true,
        }
    }

    /// Says why something was refused.
    pub fn refused<D: Display>(&mut self, fault: &D) {
        self.say("refused:");
        self.value(fault)
    }

    pub fn order(&mut self, order: Ordering) {
        self.say(order_word(order))
    }

    pub fn yes(&mut self, holds: bool) {
        self.say(yes_or_no(holds))
    }

    /// Adds the words of another answer, if it has any.
    pub fn append(&mut self, other: Line<'l>) {
        self.check(!other.is_lost);
        if !other.answer.is_empty() {
            self.say(&other.answer);
        }
    }

    /// Leaves no answer where another is not the same, or is none.
    pub fn check_same(&mut self, other: Line<'l>) {
        let is_same = self.answer == other.answer && !other.is_lost;
        self.check(is_same);
    }

    /// The text of another answer, which has to be one.
    pub fn text_from(&mut self, other: Line<'_>) -> String {
        let Line {
            alloc: _,
            text: _,
            between: _,
            answer,
            is_lost,
        } = other;
        self.check(!is_lost);
        answer
    }

    pub fn is_lost(&self) -> bool {
        self.is_lost
    }

    /// The answer so far.
    pub fn answer(&self) -> &str {
        &self.answer
    }

    /// What is printed behind the line: what stands between it and the answer, the answer, and what
    /// ends it.
    pub fn printed(&self, form: Form) -> (&str, &str, &str) {
        if self.is_comment() || self.is_section() && !self.is_lost {
            return ("", "", "\n");
        }
        let before = match form {
            Form::Aside => " ",
            Form::Below | Form::Lines => "\n",
        };
        if self.is_lost {
            return (before, "cannot be read", "\n");
        }
        let behind = match form {
            Form::Aside | Form::Below => "\n",
            Form::Lines => "",
        };
        (before, &self.answer, behind)
    }
}

/// Where an answer stands: on the line, on one of its own, or on lines that it ends itself.
#[derive(Clone, Copy)]
pub enum Form {
    Aside,
    Below,
    Lines,
}
