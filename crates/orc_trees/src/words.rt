//! Texts that are put together and taken apart by their words.
ghost use Rattle.std.specs.Prelude.{◌≡◌, ◌≢◌, ◌++◌, ℕ, List, OnOk, MatchOption, string_bytes};

use std::alloc::AllocError;

/// Adds a text at the end.
pub(crate) fn add(text: &mut String, more: &str) -> Result<(), AllocError>
    ensures { OnOk result (string_bytes text.new ≡ string_bytes text.old ++ more.now) }
{
    text.push_str(more)
}

/// What stands behind a word, if the text begins with the word.
pub(crate) fn text_behind<'t>(text: &'t str, word: &str) -> Option<&'t str>
    ensures { MatchOption result ((rest : List ℕ) → text.now ≢ word.now ++ rest)
        (λ rest. text.now ≡ word.now ++ rest.now) }
{
    text.strip_prefix(word)
}
