//! Streams of booleans, which are the digits of bytes in runs.

ghost use Rattle.std.specs.Prelude.{◌≡◌, ◌≢◌, ◌/◌, ◌%◌, ◌^◌, ◌∷◌, [], ℕ, suc, IfOk, IfErr, OnOk, OnErr, MatchBool};
ghost use Rattle.orc_column_reader.specs.Fronts.{Leaves, Precedes, Lacks};
ghost use Rattle.orc_column_reader.specs.Bits.{BitsLeft, BitsFirst};
ghost use Rattle.orc_column_reader.specs.RunsMet.{BitsMeet};
ghost use Rattle.orc_column_reader.specs.Starting.{BitsStart};
ghost use Rattle.orc_rle.specs.BitStream.{digit};
ghost use Rattle.orc_rle.specs.declared.fault.RunFault.TheVariants.{OutOfMemory};
ghost use Rattle.orc_rle.specs.declared.fault.RunFault.{RunFault as Fault};

use crate::bytes::{RunLengthBytes, bytes_end, bytes_left, bytes_of};
use orc_rle::RunFault;

/// What is left of a stream of booleans: the lowest `left` digits of the byte that was read last, and the bytes after
/// it. It takes no memory.
#[derive(Drop)]
pub struct Bits<'a> {
    pub bytes: RunLengthBytes<'a>,
    pub held: u8,
    pub left: u32,
}

/// Returns a reader at the start of a stream of booleans.
pub(crate) fn bits_of(bytes: &[u8]) -> Bits<'_>
    ensures { BitsStart bytes.now result }
{
    Bits::behind(bytes_of(bytes), 0, 0)
}

/// Returns whether the digit of a byte that has `lower` digits below it is 1. A byte has eight digits.
fn digit_at(byte: u8, lower: u32) -> bool
    ensures { digit result ≡ byte / 2 ^ lower % 2 }
{
    lower < 8 && (byte >> lower) % 2 == 1
}

impl<'a> Bits<'a> {
    /// Returns the reader of a stream of booleans whose byte `held` was read last. Its lowest `left` digits come
    /// next, and then those of `bytes`.
    #[inline(always)]
    pub fn behind(bytes: RunLengthBytes<'a>, held: u8, left: u32) -> Bits<'a>
        // The returned reader has the given parts.
        ensures { result ≡ record { bytes = bytes.entry; held = held; left = left } }
    {
        Bits { bytes, held, left }
    }

    /// Returns the next boolean.
    ///
    /// # Errors
    ///
    /// - `TooFew`, if no boolean is left.
    /// - The error of the next run, if it is invalid, with its offset.
    pub fn next(&mut self) -> Result<bool, RunFault>
        // If the call succeeds, then the booleans that were left before it are the returned one, followed by those
        // left after it.
        ensures found { IfOk result (λ b. Leaves (BitsLeft self.old) (BitsLeft self.new) (b ∷ [])) }
        // If the call succeeds, and booleans come first in what is left after it, whatever follows them, then these
        // came first before it with the returned one in front.
        ensures first { IfOk result (λ b. Precedes (BitsFirst self.old) (BitsFirst self.new) (b ∷ [])) }
        // If the call fails, then the stream has no further boolean.
        ensures none { OnErr result (Lacks (BitsLeft self.old) 1) }
        // If the call succeeds, then each error that the reader meets after it with n booleans to give is one that it
        // met before with n + 1.
        ensures before { OnOk result ((n : ℕ) (f : Fault) → BitsMeet self.new n f → BitsMeet self.old (suc n) f) }
        // If the call fails, then the error is one that the reader meets from its place before the call, whatever
        // number of booleans above 0 it has to give.
        ensures fault { IfErr result (λ fault. (n : ℕ) → BitsMeet self.old (suc n) fault) }
    {
        if self.left == 0 {
            let byte = self.bytes.next()?;
            self.held = byte;
            self.left = 7;
            Ok(digit_at(byte, 7))
        } else {
            self.left -= 1;
            Ok(digit_at(self.held, self.left))
        }
    }
}

/// Returns whether no boolean is left. Fewer than eight spare digits may be left.
pub(crate) fn bits_end(bits: &Bits<'_>) -> bool
    ensures { MatchBool result (BitsLeft bits.now []) (BitsLeft bits.now [] → ⊥) }
{
    if bits.left >= 8 {
        return false;
    }
    if !bytes_end(&bits.bytes) {
        return false;
    }
    true
}

/// Returns the error of booleans that are left over. If all digits of the held byte are left, they are of the last
/// run.
pub(crate) fn bits_left(bits: &Bits<'_>) -> RunFault
    requires more { BitsLeft bits.now [] → ⊥ }
    ensures met { BitsMeet bits.now 0 result }
    ensures no_memory { result ≢ OutOfMemory }
{
    if bits.left >= 8 {
        return RunFault::TooMany(bits.bytes.start);
    }
    bytes_left(&bits.bytes)
}
