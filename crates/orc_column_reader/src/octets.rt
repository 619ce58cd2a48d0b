//! Streams of plain bytes, which are not in runs.

ghost use Rattle.std.specs.Prelude.{◌≡◌, ◌<◌, [], length, IfSome, IfNone, MatchBool};
ghost use Rattle.orc_column_reader.specs.Fronts.{Leaves, Lacks};
ghost use Rattle.orc_column_reader.specs.Octets.{OctetsLeft};

/// What is left of a stream of plain bytes.
#[derive(Drop)]
pub struct Octets<'a> {
    pub rest: &'a [u8],
}

impl<'a> Octets<'a> {
    /// Returns a reader of plain bytes, of which all are left.
    #[inline(always)]
    pub(crate) fn of(rest: &'a [u8]) -> Octets<'a>
        ensures { result ≡ record { rest = rest.entry } }
    {
        Octets { rest }
    }

    /// Returns the next `count` bytes, or none if fewer are left.
    pub fn take(&mut self, count: u64) -> Option<&'a [u8]>
        // If the call returns bytes, then there are `count` of them, and the bytes that were left before the call are
        // these, followed by those left after it.
        ensures found { IfSome result (λ bytes. (length bytes.now ≡ count)
            × Leaves (OctetsLeft self.old) (OctetsLeft self.new) bytes.now) }
        // If the call returns none, then fewer than `count` bytes are left.
        ensures none { IfNone result (Lacks (OctetsLeft self.old) count) }
        ensures short { IfNone result (length self.old.rest.now < count) }
    {
        if (self.rest.len() as u64) < count {
            return None;
        }
        let (front, rest) = self.rest.split_at(count as usize);
        self.rest = rest;
        Some(front)
    }
}

/// Returns whether no byte is left.
pub fn octets_end(octets: &Octets<'_>) -> bool
    // The call returns true if and only if no byte is left.
    ensures { MatchBool result (OctetsLeft octets.now []) (OctetsLeft octets.now [] → ⊥) }
{
    octets.rest.len() == 0
}
