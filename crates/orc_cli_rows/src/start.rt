//! Where reading starts in a file.
ghost use Rattle.std.specs.Prelude.{ℕ, IfSome, IsSome};
ghost use Rattle.orc_cli_rows.specs.FromGroup.{IsStartText};

use orc_cli_output::number_of;

/// A stripe of a file and a group of its rows, both counted from 0.
#[derive(Clone, Copy, Debug, PartialEq, Eq)]
pub(crate) struct Start {
    pub(crate) stripe: u32,
    pub(crate) group: u32,
}

/// The stripe and the group that a text names: their numbers, with a colon between them.
pub(crate) fn start_of(text: &str) -> Option<Start>
    ensures found { IfSome result (λ start. IsStartText text.now start.stripe start.group) }
    ensures only { (stripe group : ℕ) → IsStartText text.now stripe group → IsSome result }
{
    let (stripe, group) = text.split_once(':')?;
    Some(Start {
        stripe: number_of(stripe)?,
        group: number_of(group)?,
    })
}
