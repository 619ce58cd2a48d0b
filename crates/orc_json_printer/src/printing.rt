//! The comma between two texts.
ghost use Rattle.std.specs.Prelude.{◌≡◌, true, OnOk, OnErr};
ghost use Rattle.serde_json.specs.Written.{comma_if};
ghost use Rattle.orc_json_printer.specs.Outputs.{Puts, PutsSome};

use crate::output::TextOutput;
use std::alloc::AllocError;

/// Puts a comma, where something stands before.
pub fn push_comma_if<T: TextOutput>(later: bool, out: &mut T) -> Result<(), AllocError>
    // Unless memory is refused, a comma is put where something stands before, else nothing.
    ensures found { OnOk result (Puts T.holds out.old out.new (comma_if later)) }
    // What was put before stays in front, after a refusal too.
    ensures front { PutsSome T.holds out.old out.new }
    // Only an output that grows is refused memory.
    ensures memory { OnErr result (T.grows ≡ true) }
{
    if later {
        out.put_byte(b',')?;
    }
    Ok(())
}
