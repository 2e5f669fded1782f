//! The lines of an input.
ghost use Rattle.std.specs.Prelude.{◌≡◌, ◌+◌, ◌<◌, ◌^◌, length, [], ◌∷◌, OnSome, MatchOption};
ghost use Rattle.std.specs.Prelude.{is_some, if◌then◌else◌, ◌==◌};
ghost use Rattle.std.specs.List.{position};
ghost use Rattle.session_grammar.specs.Lines.{is_passed_over, lines_of};

/// Octets cut into lines at each line feed, which may be missing at the last.
#[derive(Debug, Drop)]
pub struct Lines<'a> {
    rest: &'a [u8],
    number: usize,
    ghost counted: { number + length rest.now < 2 ^ 63 },
}

/// Where the first line feed stands.
fn line_end(octets: &[u8]) -> Option<usize>
    ensures { result ≡ position (λ c. c == 10) octets.now }
{
    octets.iter().position(|octet| *octet == b'\n')
}

/// The first line without its line feed, and what stands behind.
fn split_line(octets: &[u8]) -> (&[u8], &[u8])
    requires { 0 < length octets.now }
    ensures next { lines_of octets.now ≡ result.0.now ∷ lines_of result.1.now }
    ensures shorter { length result.1.now < length octets.now }
{
    match line_end(octets) {
        Some(end) => (&octets[..end], &octets[end + 1..]),
        None => octets.split_at(octets.len()),
    }
}

impl<'a> Lines<'a> {
    pub fn new(input: &'a [u8]) -> Self
        ensures rest { result.rest.now ≡ input.now }
        ensures number { result.number ≡ 0 }
    {
        Lines {
            rest: input,
            number: 0,
        }
    }

    /// How many lines were given.
    pub fn number(&self) -> usize
        ensures value { result ≡ self.now.number }
        ensures small { result < 2 ^ 63 }
    {
        self.number
    }

    /// The next line, without its line feed.
    pub fn next_line(&mut self) -> Option<&'a [u8]>
        ensures next { MatchOption result (self.old.rest.now ≡ [])
            (λ l. lines_of self.old.rest.now ≡ l.now ∷ lines_of self.new.rest.now) }
        ensures counted { self.new.number ≡ self.old.number + (if is_some result then 1 else 0) }
        ensures shorter { OnSome result (length self.new.rest.now < length self.old.rest.now) }
    {
        if self.rest.is_empty() {
            return None;
        }
        let (line, rest) = split_line(self.rest);
        *self = Lines {
            rest,
            number: self.number + 1,
        };
        Some(line)
    }
}

/// Whether a line says nothing: it is empty, or a comment.
pub fn is_passed_over(line: &[u8]) -> bool
    ensures { result ≡ is_passed_over line.now }
{
    match line.first() {
        None => true,
        Some(octet) => *octet == b'#',
    }
}
