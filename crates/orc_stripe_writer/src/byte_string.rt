//! The bytes of texts and of byte strings, as they are ordered and hashed.
ghost use Rattle.std.specs.Prelude.{◌∷◌, []};
ghost use Rattle.std.specs.Cmp.Rules.{hashing};
ghost use Rattle.std.proofs.Common.{rules};

use std::hash::{Hash, Hasher};

/// The borrowed bytes of a text or of a byte string. They compare in the order of unsigned bytes.
#[derive(Clone, Copy, PartialEq, Eq, PartialOrd, Ord)]
pub(crate) struct ByteString<'r>(pub(crate) &'r [u8]);

// derived, this would hash byte by byte; here the hasher gets all bytes in one call
impl Hash for ByteString<'_> {
    ghost hash_input = { λ s. s.0.now ∷ [] };

    ghost respects_eq = { Prim.search (hashing, rules) };

    fn hash<H: Hasher>(&self, state: &mut H) {
        state.write(self.0);
    }
}
