//! Ranges of numbers, joined by commas: both ends of each, or the one number that it has.

use test_lines::Line;

/// Ranges of numbers that are told one by one, in ascending order, whether they are among them.
#[derive(Drop)]
pub struct Ranges<'l> {
    text: Line<'l>,
    first: Option<usize>,
}

impl<'l> Ranges<'l> {
    pub fn new(line: &Line<'l>) -> Ranges<'l> {
        Ranges {
            text: line.aside(","),
            first: None,
        }
    }

    /// Takes the next number.
    pub fn push(&mut self, number: usize, is_among: bool) {
        if !is_among {
            self.end(number.saturating_sub(1));
        } else if self.first.is_none() {
            self.first = Some(number);
        }
    }

    /// Ends an open range.
    fn end(&mut self, last: usize) {
        if let Some(first) = self.first {
            self.first = None;
            self.text.value(&first);
            if first != last {
                let text = self.text.text_of(&last);
                self.text.mark("-");
                self.text.mark(&text);
            }
        }
    }

    /// The ranges, where a number is the last.
    pub fn ended(self, last: usize) -> Line<'l> {
        let mut ranges = self;
        ranges.end(last);
        let Ranges { text, first: _ } = ranges;
        text
    }
}
