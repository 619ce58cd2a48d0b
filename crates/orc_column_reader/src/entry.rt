//! An entry of a dictionary: its bytes, and their text if they are UTF-8.

ghost use Rattle.std.specs.Prelude.{◌≡◌, option_map};
ghost use Rattle.std.proofs.Props.{props};
ghost use Rattle.orc_column_reader.specs.Texts.{utf8_text};

/// An entry of a dictionary.
#[derive(Clone, Copy)]
pub struct Entry<'a> {
    pub bytes: &'a [u8],
    // the text that the bytes are, if they are UTF-8; it is tested once, however many cells name the entry
    pub(crate) text: Option<&'a str>,
    ghost text_is: { option_map (λ t. t.now) text ≡ utf8_text bytes.now } by { Prim.hlevel props },
}

/// Returns the text that bytes are, if they are UTF-8.
fn text_of<'a>(bytes: &'a [u8]) -> Option<&'a str>
    ensures { option_map (λ t. t.now) result ≡ utf8_text bytes.now }
{
    std::str::from_utf8(bytes).ok()
}

impl<'a> Entry<'a> {
    /// Returns the entry with these bytes.
    pub(crate) fn of(bytes: &'a [u8]) -> Entry<'a>
        ensures { result.bytes.now ≡ bytes.now }
    {
        Entry {
            bytes,
            text: text_of(bytes),
        }
    }
}
