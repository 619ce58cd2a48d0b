//! The text of a field's name, such as `` `a``b` `` for ``a`b``, written and read.
ghost use Rattle.std.specs.Prelude.{◌≡◌, ◌≢◌, ◌<◌, ◌++◌, ◌∷◌, ℕ, List, IfOk, IfSome, IfNone, OnOk, IfErr, codes, true, string_bytes, []};
ghost use Rattle.std.specs.Str.{chars as spec_chars};
ghost use Rattle.std.specs.Char.{digit_char};
ghost use Rattle.orc_trees.specs.SchemaText as spec;
ghost use Rattle.orc_trees.specs.TextFronts.{NameFrontFault};

use crate::fault::TypeFault;
use crate::words::{add, text_behind};
use std::alloc::{AllocError, Global};

/// Whether a byte is an ASCII letter or digit, or an underscore.
#[tactic(auto, unfolding(crate::specs::SchemaText::is_word))]
fn is_word(byte: u8) -> bool
    ensures { result ≡ spec.is_word byte }
{
    byte.is_ascii_alphanumeric() || byte == b'_'
}

/// Whether a name stands as it is.
fn is_plain(name: &str) -> bool
    ensures { result ≡ spec.is_plain_name name.now }
{
    for byte in name.as_bytes() {
        if !is_word(*byte) {
            return false;
        }
    }
    !name.is_empty()
}

/// Adds a digit of base 16.
fn put_digit(text: &mut String, digit: u8) -> Result<(), AllocError>
    requires { digit < 16 }
    ensures { OnOk result (string_bytes text.new ≡ string_bytes text.old ++ (digit_char digit ∷ [])) }
{
    let first = if digit < 10 { b'0' } else { b'a' - 10 };
    text.push(char::from(first + digit))
}

/// Adds a control character by its number.
fn put_control(text: &mut String, control: u8) -> Result<(), AllocError>
    ensures { OnOk result (string_bytes text.new
        ≡ string_bytes text.old ++ (codes "\\u00" ++ spec.two_digits control)) }
{
    add(text, "\\u00")?;
    put_digit(text, control / 16)?;
    put_digit(text, control % 16)
}

/// Adds a character of a name in backticks.
#[tactic(auto, unfolding(crate::specs::SchemaText::char_text))]
fn put_char(text: &mut String, c: char) -> Result<(), AllocError>
    ensures { OnOk result (string_bytes text.new ≡ string_bytes text.old ++ spec.char_text c) }
{
    if c == '`' {
        return add(text, "``");
    }
    if c == '\\' {
        return add(text, "\\\\");
    }
    if c.is_control() {
        return put_control(text, c as u8);
    }
    text.push(c)
}

/// Adds the text of a name.
pub(crate) fn put_name(text: &mut String, name: &str) -> Result<(), AllocError>
    ensures { OnOk result (string_bytes text.new ≡ string_bytes text.old ++ spec.name_text name.now) }
{
    if is_plain(name) {
        return add(text, name);
    }
    add(text, "`")?;
    for c in name.chars() {
        put_char(text, c)?;
    }
    add(text, "`")
}

/// The name that stands in front without backticks, and what stands behind its colon.
fn plain_name_from(text: &str) -> Option<(&str, &str)>
    ensures plain { IfSome result (λ found. spec.is_plain_name found.0.now ≡ true) }
    ensures found { IfSome result (λ found. text.now ≡ found.0.now ++ (spec.colon ++ found.1.now)) }
    ensures none { IfNone result ((name rest : List ℕ)
        → spec.is_plain_name name ≡ true
        → text.now ≢ name ++ (spec.colon ++ rest)) }
{
    let (name, rest) = text.split_once(':')?;
    if is_plain(name) {
        Some((name, rest))
    } else {
        None
    }
}

/// The digit of base 16 that stands in front, and the rest.
fn digit_from(text: &str) -> Option<(u8, &str)>
    ensures below { IfSome result (λ found. found.0 < 16) }
    ensures found { IfSome result (λ found. text.now ≡ digit_char found.0 ∷ found.1.now) }
    ensures none { IfNone result ((digit : ℕ) (rest : List ℕ) → digit < 16 → text.now ≢ digit_char digit ∷ rest) }
{
    let mut chars = text.chars();
    let c = chars.next()?;
    let digit = c.to_digit(16)?;
    if c.is_ascii_uppercase() {
        None
    } else {
        Some((digit as u8, chars.as_str()))
    }
}

/// The character whose text in backticks is a backslash and what stands in front here, and the rest.
fn escaped_from(text: &str) -> Option<(char, &str)>
    ensures found { IfSome result (λ found. codes "\\" ++ text.now ≡ spec.char_text found.0 ++ found.1.now) }
    ensures none { IfNone result ((c : ℕ) (rest : List ℕ) → codes "\\" ++ text.now ≢ spec.char_text c ++ rest) }
{
    if let Some(rest) = text_behind(text, "\\") {
        return Some(('\\', rest));
    }
    let digits = text_behind(text, "u00")?;
    let (high, last) = digit_from(digits)?;
    let (low, rest) = digit_from(last)?;
    let c = char::from(high * 16 + low);
    if c.is_control() {
        Some((c, rest))
    } else {
        None
    }
}

/// The character whose text in backticks stands in front, and the rest.
fn char_from(text: &str) -> Option<(char, &str)>
    ensures found { IfSome result (λ found. text.now ≡ spec.char_text found.0 ++ found.1.now) }
    ensures none { IfNone result ((c : ℕ) (rest : List ℕ) → text.now ≢ spec.char_text c ++ rest) }
{
    if let Some(rest) = text_behind(text, "``") {
        return Some(('`', rest));
    }
    if let Some(escaped) = text_behind(text, "\\") {
        return escaped_from(escaped);
    }
    let mut chars = text.chars();
    let c = chars.next()?;
    if c == '`' || c.is_control() {
        None
    } else {
        Some((c, chars.as_str()))
    }
}

/// The name whose characters stand in front, up to the backtick and the colon behind it, and the rest.
fn quoted_name_from<'t>(
    alloc: Global,
    text: &'t str,
) -> Result<Option<(String, &'t str)>, AllocError>
    ensures found { IfOk result (λ named. IfSome named (λ found.
        text.now ≡ spec.chars_text (spec_chars (string_bytes found.0)) ++ (codes "`:" ++ found.1.now))) }
    ensures none { IfOk result (λ named. IfNone named ((cs rest : List ℕ)
        → text.now ≢ spec.chars_text cs ++ (codes "`:" ++ rest))) }
{
    let mut name = String::new(alloc);
    let mut left = text;
    loop {
        if let Some(rest) = text_behind(left, "`:") {
            return Ok(Some((name, rest)));
        }
        let Some((c, rest)) = char_from(left) else {
            return Ok(None);
        };
        name.push(c)?;
        left = rest;
    }
}

/// The name whose text stands in front, and what stands behind its colon. `BadText` has the number of bytes that are
/// left where the name begins.
pub(crate) fn name_from<'t>(alloc: Global, text: &'t str) -> Result<(String, &'t str), TypeFault>
    ensures found { IfOk result (λ found.
        text.now ≡ spec.name_text (string_bytes found.0) ++ (spec.colon ++ found.1.now)) }
    ensures fault { IfErr result (NameFrontFault text.now) }
{
    if let Some((name, rest)) = plain_name_from(text) {
        return Ok((String::from_str(alloc, name)?, rest));
    }
    let Some(inner) = text_behind(text, "`") else {
        return Err(TypeFault::BadText(text.len()));
    };
    let Some((name, rest)) = quoted_name_from(alloc, inner)? else {
        return Err(TypeFault::BadText(text.len()));
    };
    if is_plain(name.as_str()) {
        return Err(TypeFault::BadText(text.len()));
    }
    Ok((name, rest))
}
