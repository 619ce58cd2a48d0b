//! An output that keeps nothing.
ghost use Rattle.std.specs.Prelude.{true};

use orc_json_printer::TextOutput;
use std::alloc::AllocError;

/// What is put here is gone: rows are read, and no text of them is kept.
#[derive(Drop)]
pub(crate) struct Nowhere;

impl TextOutput for Nowhere {
    ghost holds = { λ nowhere bytes. Unit {0} };

    // No memory is wanted, but nothing is ever dropped for a device that failed either.
    ghost grows = { true };

    #[inline(always)]
    fn put(&mut self, _bytes: &[u8]) -> Result<(), AllocError> {
        Ok(())
    }

    #[inline(always)]
    fn put_byte(&mut self, _byte: u8) -> Result<(), AllocError> {
        Ok(())
    }

    #[inline(always)]
    fn has_failed(&self) -> bool {
        false
    }
}
