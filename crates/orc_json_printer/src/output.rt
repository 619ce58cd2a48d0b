//! Where text is put.
ghost use Rattle.std.specs.Prelude.{◌≡◌, ◌∷◌, ◌++◌, [], ℕ, List, Bool, true, false, OnOk, OnErr};
ghost use Rattle.std.specs.Bool.{OnTrue};
ghost use Rattle.orc_json_printer.specs.Outputs.{Puts, PutsSome};

use std::alloc::AllocError;

/// What text is put into: a vector, or a device behind a buffer of its own.
pub trait TextOutput {
    // Whether these bytes may be all that was put here.
    ghost holds: { Self → List ℕ → Type 0 };

    // Whether memory may be wanted for what is put.
    ghost grows: { Bool };

    /// Puts bytes behind what was put before.
    fn put(&mut self, bytes: &[u8]) -> Result<(), AllocError>
        // Unless memory is refused, the bytes are put behind what was put before.
        ensures found { OnOk result (Puts holds self.old self.new bytes.now) }
        // What was put before stays in front, after a refusal too.
        ensures front { PutsSome holds self.old self.new }
        // Only an output that grows is refused memory.
        ensures memory { OnErr result (grows ≡ true) };

    /// Puts a byte behind what was put before.
    fn put_byte(&mut self, byte: u8) -> Result<(), AllocError>
        // Unless memory is refused, the byte is put behind what was put before.
        ensures found { OnOk result (Puts holds self.old self.new (byte ∷ [])) }
        // What was put before stays in front, after a refusal too.
        ensures front { PutsSome holds self.old self.new }
        // Only an output that grows is refused memory.
        ensures memory { OnErr result (grows ≡ true) };

    /// Whether a device has failed, which gets nothing more: what is put from then on is dropped.
    fn has_failed(&self) -> bool
        // An output that grows has no device.
        ensures device { OnTrue result (grows ≡ false) }
        // Of a failed one whatever is said to be put behind what was put.
        ensures dropped { OnTrue result ((before more : List ℕ) → holds self.now before
            → holds self.now (before ++ more)) };
}

impl TextOutput for Vec<u8> {
    ghost holds = { λ out bytes. out.items ≡ bytes };

    ghost grows = { true };

    #[inline(always)]
    fn put(&mut self, bytes: &[u8]) -> Result<(), AllocError> {
        self.extend_from_slice(bytes)
    }

    #[inline(always)]
    fn put_byte(&mut self, byte: u8) -> Result<(), AllocError> {
        self.push(byte)?;
        Ok(())
    }

    #[inline(always)]
    fn has_failed(&self) -> bool {
        false
    }
}
