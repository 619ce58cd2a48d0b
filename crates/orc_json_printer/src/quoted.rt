//! Texts in quotes.
ghost use Rattle.std.specs.Prelude.{◌≡◌, ◌<◌, ◌∷◌, [], true, OnOk, OnErr};
ghost use Rattle.std.specs.Bool.{OnTrue};
ghost use Rattle.std.specs.Char.{digit_char};
ghost use Rattle.json.specs.Print.{quoted, escape, escape_byte};
ghost use Rattle.orc_json_printer.specs.Outputs.{Puts, PutsSome};

use crate::output::TextOutput;
use std::alloc::AllocError;

/// Whether a byte of a text stands for itself: it is no control character, no quote and no backslash.
#[tactic(auto, using(json::proofs::Printed::Strings::escape_byte_plain))]
fn is_plain_byte(byte: u8) -> bool
    ensures { OnTrue result (escape_byte byte ≡ byte ∷ []) }
{
    byte >= 0x20 && byte != b'"' && byte != b'\\'
}

/// Whether no byte of a text needs an escape. Each byte is looked at: a loop that stops nowhere goes over many at once.
/// A text of which this isn't known is escaped all the same.
fn is_plain(bytes: &[u8]) -> bool
    ensures { OnTrue result (escape bytes.now ≡ bytes.now) }
{
    let mut plain = true;
    for byte in bytes {
        plain &= is_plain_byte(*byte);
    }
    plain
}

/// A hexadecimal digit, in lower case.
fn digit(value: u8) -> u8
    requires { value < 16 }
    ensures { result ≡ digit_char value }
{
    match value {
        0..=9 => b'0' + value,
        _ => b'a' + (value - 10),
    }
}

/// Puts what stands in a text for a byte: the shortest escape, where it needs one (RFC 8259, section 7).
fn push_byte<T: TextOutput>(byte: u8, out: &mut T) -> Result<(), AllocError>
    ensures found { OnOk result (Puts T.holds out.old out.new (escape_byte byte)) }
    ensures front { PutsSome T.holds out.old out.new }
    ensures memory { OnErr result (T.grows ≡ true) }
{
    match byte {
        b'"' => out.put(b"\\\""),
        b'\\' => out.put(b"\\\\"),
        0x08 => out.put(b"\\b"),
        b'\t' => out.put(b"\\t"),
        b'\n' => out.put(b"\\n"),
        0x0c => out.put(b"\\f"),
        b'\r' => out.put(b"\\r"),
        0..=0x1f => out.put(&[b'\\', b'u', b'0', b'0', digit(byte / 16), digit(byte % 16)]),
        _ => out.put_byte(byte),
    }
}

/// Puts each byte of a text, or what stands for it.
fn push_bytes<T: TextOutput>(bytes: &[u8], out: &mut T) -> Result<(), AllocError>
    ensures found { OnOk result (Puts T.holds out.old out.new (escape bytes.now)) }
    ensures front { PutsSome T.holds out.old out.new }
    ensures memory { OnErr result (T.grows ≡ true) }
{
    for byte in bytes {
        push_byte(*byte, out)?;
    }
    Ok(())
}

/// Puts a text without quotes, escaped as `serde_json` does it.
pub(crate) fn push_escaped<T: TextOutput>(bytes: &[u8], out: &mut T) -> Result<(), AllocError>
    ensures found { OnOk result (Puts T.holds out.old out.new (escape bytes.now)) }
    ensures front { PutsSome T.holds out.old out.new }
    ensures memory { OnErr result (T.grows ≡ true) }
{
    if is_plain(bytes) {
        out.put(bytes)
    } else {
        push_bytes(bytes, out)
    }
}

/// Puts a text in quotes, escaped as `serde_json` does it.
pub(crate) fn push_quoted<T: TextOutput>(text: &str, out: &mut T) -> Result<(), AllocError>
    ensures found { OnOk result (Puts T.holds out.old out.new (quoted text.now)) }
    ensures front { PutsSome T.holds out.old out.new }
    ensures memory { OnErr result (T.grows ≡ true) }
{
    out.put_byte(b'"')?;
    push_escaped(text.as_bytes(), out)?;
    out.put_byte(b'"')
}
