//! The streams of a stripe as they are written, one after the other, and the directory that lists them.
ghost use Rattle.std.specs.Prelude.{◌≡◌, [], ◌++◌, ◌≤◌, length, drop, OnOk};
ghost use Rattle.orc_rle.specs.Values.{AllInRange};
ghost use Rattle.orc_rle.specs.Cut.{IsWritten};
ghost use Rattle.orc_rle.specs.ByteRun.{byte_rule};
ghost use Rattle.orc_rle.specs.BitStream.{IsBitText};
ghost use Rattle.orc_column_reader.specs.Spellings.{concatenated};
ghost use Rattle.orc_stripe_writer.specs.Dictionary.{byte_strings};
ghost use Rattle.orc_stripe_writer.specs.WrittenStreams.{AreWrittenInts};
ghost use Rattle.orc_stripe_writer.specs.WrittenStripe.{line};
ghost use Rattle.orc_stripe_writer.specs.Adding.{AddsStream, AppendsText};

use crate::byte_string::ByteString;
use crate::cell_values::append_byte_strings;
use orc_rle::{BitRuns, ByteRuns, Rle, RunCodec, Sign, V1, V2};
use orc_wire::StreamMsg;
use std::alloc::{AllocError, Global};

/// Appends the numbers in a version of integer run lengths.
fn append_ints(rle: Rle, sign: Sign, numbers: &[i64], out: &mut Vec<u8>) -> Result<(), AllocError>
    requires { AllInRange sign numbers.now }
    ensures { OnOk result (AppendsText (AreWrittenInts rle sign numbers.now) out.old.items out.new.items) }
{
    let put = match rle {
        Rle::One => V1::put_runs(numbers, sign, out),
        Rle::Two => V2::put_runs(numbers, sign, out),
    };
    match put {
        Ok(()) => Ok(()),
        Err(_) => Err(AllocError),
    }
}

/// Appends the booleans in runs.
fn append_bits(bits: &[bool], out: &mut Vec<u8>) -> Result<(), AllocError>
    ensures { OnOk result (AppendsText (IsBitText bits.now) out.old.items out.new.items) }
{
    match BitRuns::put_runs(bits, out) {
        Ok(()) => Ok(()),
        Err(_) => Err(AllocError),
    }
}

/// Appends the bytes in runs.
fn append_bytes(bytes: &[u8], out: &mut Vec<u8>) -> Result<(), AllocError>
    ensures { OnOk result (AppendsText (IsWritten byte_rule bytes.now) out.old.items out.new.items) }
{
    match ByteRuns::put_runs(bytes, out) {
        Ok(()) => Ok(()),
        Err(_) => Err(AllocError),
    }
}

/// The streams of a stripe that are written so far, and their directory.
#[derive(Drop)]
pub(crate) struct Body {
    pub(crate) bytes: Vec<u8>,
    pub(crate) directory: Vec<StreamMsg>,
}

impl Body {
    /// Makes a body without streams.
    pub(crate) fn new(alloc: Global) -> Body
        ensures bytes { result.bytes.items ≡ [] }
        ensures directory { result.directory.items ≡ [] }
    {
        Body {
            bytes: Vec::new(alloc),
            directory: Vec::new(alloc),
        }
    }

    /// Lists the bytes from `start` on as a stream, if there are any.
    fn list(&mut self, column: u32, kind: u32, start: usize) -> Result<(), AllocError>
        requires { start ≤ length self.old.bytes.items }
        ensures bytes { OnOk result (self.new.bytes.items ≡ self.old.bytes.items) }
        ensures directory { OnOk result (self.new.directory.items
            ≡ self.old.directory.items ++ line column kind (drop start self.old.bytes.items)) }
    {
        let length = self.bytes.len() - start;
        if length == 0 {
            return Ok(());
        }
        self.directory.push(StreamMsg {
            kind,
            column,
            length: length as u64,
        })?;
        Ok(())
    }

    /// Adds a stream of integers.
    pub(crate) fn put_ints(
        &mut self,
        rle: Rle,
        column: u32,
        kind: u32,
        sign: Sign,
        numbers: &[i64],
    ) -> Result<(), AllocError>
        requires { AllInRange sign numbers.now }
        ensures { OnOk result (AddsStream (AreWrittenInts rle sign numbers.now) column kind self.old self.new) }
    {
        let start = self.bytes.len();
        append_ints(rle, sign, numbers, &mut self.bytes)?;
        self.list(column, kind, start)
    }

    /// Adds a stream of booleans.
    pub(crate) fn put_bits(
        &mut self,
        column: u32,
        kind: u32,
        bits: &[bool],
    ) -> Result<(), AllocError>
        ensures { OnOk result (AddsStream (IsBitText bits.now) column kind self.old self.new) }
    {
        let start = self.bytes.len();
        append_bits(bits, &mut self.bytes)?;
        self.list(column, kind, start)
    }

    /// Adds a stream of bytes in runs.
    pub(crate) fn put_bytes(
        &mut self,
        column: u32,
        kind: u32,
        bytes: &[u8],
    ) -> Result<(), AllocError>
        ensures { OnOk result (AddsStream (IsWritten byte_rule bytes.now) column kind self.old self.new) }
    {
        let start = self.bytes.len();
        append_bytes(bytes, &mut self.bytes)?;
        self.list(column, kind, start)
    }

    /// Adds a stream of the strings' bytes, one after the other.
    pub(crate) fn put_byte_strings(
        &mut self,
        column: u32,
        kind: u32,
        strings: &[ByteString<'_>],
    ) -> Result<(), AllocError>
        ensures { OnOk result
            (AddsStream (λ text. text ≡ concatenated (byte_strings strings.now)) column kind self.old self.new) }
    {
        let start = self.bytes.len();
        append_byte_strings(strings, &mut self.bytes)?;
        self.list(column, kind, start)
    }
}
