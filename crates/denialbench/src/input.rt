//! Reading a whole input.
ghost use Rattle.std.specs.Prelude.{◌≡◌, ◌≢◌, ◌≤◌, ◌<◌, ◌+◌, ℕ, ◌++◌, List, Option, length, Err};
ghost use Rattle.std.specs.Prelude.{IfErr, IfOk, IfSome};
ghost use Rattle.std.specs.Io.{ReadsAtMost};
ghost use Rattle.std.specs.Io.KnownBytes.{Consumes, IsAtEnd, ReadConsumes};
ghost use Rattle.denialbench.specs.Input.{ReadsOn};

use std::alloc::{AllocError, Global};
use std::io;
use std::io::Read;
use thiserror::Error;

/// How often a reader is asked at most.
const MAX_READS: u32 = 1_048_576;

/// How many octets are asked for at once.
const CHUNK: usize = 65_536;

/// A reader that tells how often it may still be read.
pub trait LimitedRead {
    /// The octets that reads will give from here on, where they are known.
    ghost remaining: { Self → Option (List ℕ) };

    /// How many reads are left.
    ghost left: { Self → ℕ };

    /// Reads once, as `Read::read` does.
    fn read(&mut self, buf: &mut [u8]) -> io::Result<usize>
        requires { 0 < left self.old }
        ensures bound { ReadsAtMost result buf.new }
        ensures bytes { ReadConsumes (remaining self.old) (remaining self.new) result buf.new }
        ensures counted { left self.new + 1 ≡ left self.old };
}

/// A reader that may be read 1,048,576 times.
#[derive(Drop)]
pub struct Limited<'r, R: Read> {
    reader: &'r mut R,
    left: u32,
}

impl<'r, R: Read> Limited<'r, R> {
    /// A reader of which no read was made yet.
    pub fn new(reader: &'r mut R) -> Self
        ensures { result.left ≡ 1048576 }
    {
        Limited {
            reader,
            left: MAX_READS,
        }
    }
}

impl<'r, R: Read> LimitedRead for Limited<'r, R> {
    ghost remaining = { λ r. R.remaining r.reader.now };

    ghost left = { λ r. r.left };

    fn read(&mut self, buf: &mut [u8]) -> io::Result<usize> {
        self.left -= 1;
        self.reader.read(buf)
    }
}

/// Why an input was not read.
#[derive(Clone, Copy, Debug, PartialEq, Eq, Drop, Error)]
pub enum InputError {
    #[error("reader failed")]
    Reader,
    /// The last read that is made was not yet the end.
    #[error("input has no end")]
    Endless,
    #[error("out of memory")]
    Memory,
}

impl From<AllocError> for InputError {
    ghost use Rattle.std.specs.Prelude.{◌≡◌};
    ghost use Rattle.denialbench.specs.declared.input.InputError.TheVariants.{Memory};

    ghost from_gives = { λ _ e. e ≡ Memory };

    fn from(_error: AllocError) -> InputError {
        InputError::Memory
    }
}

/// Reads to the end, by at most 1,048,576 calls of `read`, each of which but the last gives some
/// octets. A read that fails is not made again.
pub fn read_all<R: LimitedRead>(alloc: Global, reader: &mut R) -> Result<Vec<u8>, InputError>
    requires { 1048576 ≤ R.left reader.old }
    ensures whole { IfOk result (λ v. IfSome (R.remaining reader.old) (λ xs. v.items ≡ xs)) }
    ensures end { IfOk result (λ _. IsAtEnd (R.remaining reader.new)) }
    ensures endless { result ≡ Err InputError.Endless
        → IfSome (R.remaining reader.old) (λ xs. 1048576 ≤ length xs) }
    ensures reads { R.left reader.old ≤ R.left reader.new + 1048576 }
{
    let mut chunk = [0; CHUNK];
    let mut input = Vec::new(alloc);
    for _reads in 0..MAX_READS {
        if read_some(reader, &mut chunk, &mut input)? == 0 {
            return Ok(input);
        }
    }
    Err(InputError::Endless)
}

/// Reads once, and adds what was read to the input.
fn read_some<R: LimitedRead>(
    reader: &mut R,
    chunk: &mut [u8; CHUNK],
    input: &mut Vec<u8>,
) -> Result<usize, InputError>
    requires { 0 < R.left reader.old }
    ensures reads { IfOk result (ReadsOn (R.remaining reader.old)
        (R.remaining reader.new) input.old.items input.new.items) }
    ensures fault { IfErr result (λ e. e ≢ InputError.Endless) }
    ensures counted { R.left reader.new + 1 ≡ R.left reader.old }
{
    let Ok(count) = reader.read(chunk) else {
        return Err(InputError::Reader);
    };
    input.extend_from_slice(&chunk[..count])?;
    Ok(count)
}
