//! Reads lines from a reader of the standard library.
ghost use Rattle.std.specs.Prelude.{◌≡◌, ◌++◌, List, ℕ, IfOk, IfSome};
ghost use Rattle.orc_cli_write.specs.Pieces.{TakesPiece};
ghost use Rattle.orc_cli_write.specs.Reads.{HasRead};

use crate::line_end::line_length;
use crate::line_fault::LineFault;
use crate::line_reader::LineReader;
use orc_io::Failures;
use std::io::{BufRead, ErrorKind};

/// The lines of a reader. The bytes that remain are known if the reader's are. Reading lines fails only if the reader
/// fails or memory runs out. An interrupted read is repeated, as the standard library does; a read that failed
/// otherwise isn't.
#[derive(Drop)]
pub struct StdLines<I: BufRead> {
    input: I,
    failures: Failures,
}

impl<I: BufRead> StdLines<I> {
    /// Makes a reader of the lines that `input` still has.
    pub fn new(input: I) -> StdLines<I>
        // The new lines have `input` as it is, and no failure is counted yet.
        ensures input { result.input ≡ input }
        ensures fresh { result.failures ≡ 0 }
    {
        StdLines {
            input,
            failures: Failures::new(),
        }
    }
}

impl<I: BufRead> LineReader for StdLines<I> {
    ghost remaining = { λ lines. I.remaining lines.input };

    ghost failures = { λ lines. lines.failures };

    fn next_line(&mut self, line: &mut Vec<u8>) -> Result<bool, LineFault> {
        let answer = read_line(&mut self.input, line);
        if let Err(LineFault::Failed) = answer {
            self.failures.note();
        }
        answer
    }
}

/// Replaces the vector's contents by the next line, without its line end. Returns whether there was one.
fn read_line<I: BufRead>(input: &mut I, line: &mut Vec<u8>) -> Result<bool, LineFault>
    ensures found { IfOk result (λ found. IfSome (I.remaining input.old)
        (λ bytes. HasRead found bytes line.new.items (I.remaining input.new))) }
{
    line.clear();
    for _ in 0..u64::MAX {
        match take_piece(input, line)? {
            Piece::Ended => return Ok(true),
            Piece::Open => {}
            Piece::Nothing => return Ok(!line.is_empty()),
        }
    }
    // no program reads as many pieces as this
    Err(LineFault::OutOfMemory)
}

/// The part of a line that was taken.
enum Piece {
    /// The bytes before the line end, and the line end.
    Ended,
    /// Bytes that the line end may follow, or none if the read was interrupted.
    Open,
    /// Nothing, because no byte is left.
    Nothing,
}

/// Takes the bytes of a line that the reader has in its buffer, and appends them, without the line end, to the
/// vector.
fn take_piece<I: BufRead>(input: &mut I, line: &mut Vec<u8>) -> Result<Piece, LineFault>
    ensures taken { IfOk result (λ taken. (piece : List ℕ) × (line.new.items ≡ line.old.items ++ piece)
        × IfSome (I.remaining input.old) (λ bytes. TakesPiece taken bytes piece (I.remaining input.new))) }
{
    let held = match input.fill_buf() {
        Ok(held) => held,
        Err(error) if error.kind() == ErrorKind::Interrupted => return Ok(Piece::Open),
        Err(error) if error.kind() == ErrorKind::OutOfMemory => return Err(LineFault::OutOfMemory),
        Err(_) => return Err(LineFault::Failed),
    };
    if held.is_empty() {
        return Ok(Piece::Nothing);
    }
    let len = line_length(held);
    let ended = len < held.len();
    if line.extend_from_slice(&held[..len]).is_err() {
        return Err(LineFault::OutOfMemory);
    }
    if ended {
        input.consume(len + 1);
        Ok(Piece::Ended)
    } else {
        input.consume(len);
        Ok(Piece::Open)
    }
}
