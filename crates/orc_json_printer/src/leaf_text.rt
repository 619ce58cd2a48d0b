//! The text of a value that contains no other.
ghost use Rattle.std.specs.Prelude.{◌≡◌, ◌≤◌, true, length, OnOk, OnErr};
ghost use Rattle.json.specs.Print.{quoted, escape};
ghost use Rattle.hex.specs.Hex.{encode_lower};
ghost use Rattle.serde_json.specs.Written.{compact_text};
ghost use Rattle.std.specs.Fmt.{signed_decimal};
ghost use Rattle.orc_json_rows.specs.Days.{has_text as spec_has_text};
ghost use Rattle.orc_json_rows.specs.JsonLeaves.{date_json};
ghost use Rattle.orc_values.specs.Own.{own_cell};
ghost use Rattle.orc_json_printer.specs.Layouts.{leaf_text};
ghost use Rattle.orc_json_printer.specs.Outputs.{Puts, PutsSome};

use crate::output::TextOutput;
use crate::quoted::{push_escaped, push_quoted};
use jiff_core::civil;
use jiff_fmt::temporal::DateTimePrinter;
use orc_values::Own;
use std::alloc::AllocError;

/// The first day that has a text: 0001-01-01.
const FIRST_DAY: i32 = -719_162;

/// The last day that has a text: 9999-12-31.
const LAST_DAY: i32 = 2_932_896;

/// Whether the day is one of the years 0001 to 9999, whose dates have texts. Day 0 is 1970-01-01.
fn has_text(day: i32) -> bool
    ensures { result ≡ spec_has_text day }
{
    FIRST_DAY <= day && day <= LAST_DAY
}

/// How many bytes are put as hexadecimal digits at once.
const CHUNK: usize = 32;

/// Puts a number in decimal.
fn push_number<T: TextOutput>(number: i64, out: &mut T) -> Result<(), AllocError>
    ensures found { OnOk result (Puts T.holds out.old out.new (signed_decimal number)) }
    ensures front { PutsSome T.holds out.old out.new }
    ensures memory { OnErr result (T.grows ≡ true) }
{
    let mut buffer = itoa::Buffer::new();
    out.put(buffer.format(number).as_bytes())
}

/// Puts a date: `"YYYY-MM-DD"` in the years 0001 to 9999, and its number of days in others.
fn push_date<T: TextOutput>(day: i32, out: &mut T) -> Result<(), AllocError>
    ensures found { OnOk result (Puts T.holds out.old out.new (compact_text (date_json day))) }
    ensures front { PutsSome T.holds out.old out.new }
    ensures memory { OnErr result (T.grows ≡ true) }
{
    if !has_text(day) {
        return push_number(i64::from(day), out);
    }
    match civil::Date::from_unix_epoch_day(i64::from(day)) {
        Ok(date) => {
            let text = DateTimePrinter::new().date_text(date);
            push_quoted(text.as_str(), out)
        }
        Err(_) => unreachable!(),
    }
}

/// Puts so few bytes as hexadecimal digits, in lower case.
fn push_digits<T: TextOutput>(octets: &[u8], out: &mut T) -> Result<(), AllocError>
    requires { length octets.now ≤ CHUNK }
    ensures found { OnOk result (Puts T.holds out.old out.new (escape (encode_lower octets.now))) }
    ensures front { PutsSome T.holds out.old out.new }
    ensures memory { OnErr result (T.grows ≡ true) }
{
    let mut digits = [0; 2 * CHUNK];
    let digits = &mut digits[..2 * octets.len()];
    match hex::encode_to_slice(octets, digits) {
        Ok(()) => push_escaped(digits, out),
        Err(_) => unreachable!(),
    }
}

/// Puts bytes as hexadecimal digits in quotes.
fn push_hex<T: TextOutput>(octets: &[u8], out: &mut T) -> Result<(), AllocError>
    ensures found { OnOk result (Puts T.holds out.old out.new (quoted (encode_lower octets.now))) }
    ensures front { PutsSome T.holds out.old out.new }
    ensures memory { OnErr result (T.grows ≡ true) }
{
    out.put_byte(b'"')?;
    let mut rest = octets;
    while !rest.is_empty() {
        let (chunk, behind) = rest.split_at(rest.len().min(CHUNK));
        push_digits(chunk, out)?;
        rest = behind;
    }
    out.put_byte(b'"')
}

/// Puts a value that contains no other, and null for one that does. It needs no memory but the output's.
pub fn push_own<T: TextOutput>(own: Own<'_>, out: &mut T) -> Result<(), AllocError>
    // Unless memory is refused, a value that contains no other is put as its JSON text, and null
    // for one that contains others.
    ensures found { OnOk result (Puts T.holds out.old out.new (leaf_text (own_cell own.entry))) }
    // What was put before stays in front, after a refusal too.
    ensures front { PutsSome T.holds out.old out.new }
    // Only an output that grows is refused memory.
    ensures memory { OnErr result (T.grows ≡ true) }
{
    match own {
        Own::Bool(true) => out.put(b"true"),
        Own::Bool(false) => out.put(b"false"),
        Own::Int(number) => push_number(number, out),
        Own::Date(day) => push_date(day, out),
        Own::Text(text) => push_quoted(text, out),
        Own::Bytes(octets) => push_hex(octets, out),
        Own::Null | Own::List(_) | Own::Map(_) | Own::Struct => out.put(b"null"),
    }
}
