//! Lines that are held, up to a bound.
ghost use Rattle.std.specs.Prelude.{◌≡◌, [], true};
ghost use Rattle.orc_cli_rows.specs.Pieces.{IsHeld};

use orc_json_printer::TextOutput;
use std::alloc::{AllocError, Global};

/// How many bytes of a stripe's lines are held at most.
const MOST_HELD: usize = 1 << 23;

/// How many are enough for no further row to be begun. Behind them a row as long as the rest may still end.
const ENOUGH_HELD: usize = MOST_HELD - (1 << 20);

/// Text in memory, up to the bound: what would pass it is refused, as memory that there isn't.
#[derive(Drop)]
pub(crate) struct Held {
    text: Vec<u8>,
}

impl Held {
    /// No text yet.
    pub(crate) fn new(alloc: Global) -> Held
        ensures { result.text.items ≡ [] }
    {
        Held {
            text: Vec::new(alloc),
        }
    }

    /// Whether enough is held. Either answer is a right one: lines that aren't held are printed as they are read.
    pub(crate) fn is_full(&self) -> bool {
        self.text.len() >= ENOUGH_HELD
    }

    /// The text that was put.
    pub(crate) fn into_text(self) -> Vec<u8>
        ensures { result ≡ self.text }
    {
        self.text
    }
}

impl TextOutput for Held {
    ghost holds = { IsHeld };

    ghost grows = { true };

    #[inline(always)]
    fn put(&mut self, bytes: &[u8]) -> Result<(), AllocError> {
        if bytes.len() > MOST_HELD.saturating_sub(self.text.len()) {
            return Err(AllocError);
        }
        self.text.extend_from_slice(bytes)
    }

    #[inline(always)]
    fn put_byte(&mut self, byte: u8) -> Result<(), AllocError> {
        if self.text.len() >= MOST_HELD {
            return Err(AllocError);
        }
        self.text.push(byte)?;
        Ok(())
    }

    #[inline(always)]
    fn has_failed(&self) -> bool {
        false
    }
}
