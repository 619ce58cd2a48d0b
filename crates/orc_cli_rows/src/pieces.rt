//! Text that goes out in pieces.
ghost use Rattle.std.specs.Prelude.{◌≡◌, List, ℕ, [], false};
ghost use Rattle.orc_json_printer.specs.Outputs.{Puts};
ghost use Rattle.orc_cli_rows.specs.Pieces.{spelled_start, IsGiven};

use arrayvec::ArrayVec;
use orc_cli_output::write_out;
use orc_json_printer::TextOutput;
use std::alloc::AllocError;
use std::io::Write;

/// How many bytes go out at once.
const PIECE: usize = 1 << 14;

/// A device that gets text in pieces, for which no memory is wanted. Once it has failed it gets nothing more, and what is
/// put is dropped.
#[derive(Drop)]
pub(crate) struct Pieces<'a, W: Write> {
    out: &'a mut W,
    waiting: ArrayVec<u8, PIECE>,
    failed: bool,
}

impl<'a, W: Write> Pieces<'a, W> {
    /// A device that is to get text.
    pub(crate) fn new(out: &'a mut W) -> Pieces<'a, W>
        ensures { ⟦<Pieces<'a, W> as TextOutput>⟧.holds result (spelled_start out.entry.ghost_name (W.contents out.old)) }
    {
        Pieces {
            out,
            waiting: ArrayVec::new(),
            failed: false,
        }
    }

    /// Sends what waits.
    fn send_waiting(&mut self)
        ensures sent { (bytes : List ℕ) → ⟦<Pieces<'a, W> as TextOutput>⟧.holds self.old bytes
            → ⟦<Pieces<'a, W> as TextOutput>⟧.holds self.new bytes }
        ensures none { self.new.waiting.items ≡ [] }
    {
        if !self.failed {
            self.failed = write_out(self.out, self.waiting.as_slice()).is_err();
        }
        self.waiting.clear();
    }

    /// Sends bytes, before which nothing waits.
    fn send(&mut self, bytes: &[u8])
        requires none { self.old.waiting.items ≡ [] }
        ensures { Puts ⟦<Pieces<'a, W> as TextOutput>⟧.holds self.old self.new bytes.now }
    {
        if !self.failed {
            self.failed = write_out(self.out, bytes).is_err();
        }
    }

    /// Sends the last piece. The device is handed back, with whether it failed, now or before.
    pub(crate) fn finish(mut self) -> (&'a mut W, bool)
        ensures { (bytes : List ℕ) → ⟦<Pieces<'a, W> as TextOutput>⟧.holds self.entry bytes
            → IsGiven result.0.ghost_name (W.contents result.0.now) [] result.1 bytes }
    {
        self.send_waiting();
        (self.out, self.failed)
    }
}

impl<'a, W: Write> TextOutput for Pieces<'a, W> {
    ghost holds = { λ pieces bytes. IsGiven pieces.out.ghost_name (W.contents pieces.out.now) pieces.waiting.items
        pieces.failed bytes };

    ghost grows = { false };

    #[inline(always)]
    fn put(&mut self, bytes: &[u8]) -> Result<(), AllocError> {
        if self.waiting.try_extend_from_slice(bytes).is_ok() {
            return Ok(());
        }
        self.send_waiting();
        if self.waiting.try_extend_from_slice(bytes).is_ok() {
            return Ok(());
        }
        self.send(bytes);
        Ok(())
    }

    #[inline(always)]
    fn put_byte(&mut self, byte: u8) -> Result<(), AllocError> {
        if self.waiting.try_push(byte).is_ok() {
            return Ok(());
        }
        self.send_waiting();
        self.waiting.push(byte);
        Ok(())
    }

    fn has_failed(&self) -> bool {
        self.failed
    }
}
