//! How a column is encoded in a stripe.
ghost use Rattle.std.specs.Prelude.{◌≡◌};
ghost use Rattle.orc_wire.specs.EncodingKinds.{is_dictionary as has_dictionary};

use crate::canonical::put_number;
use crate::fault::WireFault;
use crate::field::Field;
use crate::members::{take_u32, test_small};
use crate::message::Message;
use std::alloc::Global;

/// The encoding of values as they are, with integers in runs of version 1.
pub const DIRECT: u32 = 0;

/// The encoding of strings as their indexes in a dictionary, with integers in runs of version 1.
pub const DICTIONARY: u32 = 1;

/// The encoding of values as they are, with integers in runs of version 2.
pub const DIRECT_V2: u32 = 2;

/// The encoding of strings as their indexes in a dictionary, with integers in runs of version 2.
pub const DICTIONARY_V2: u32 = 3;

/// How a column is encoded in a stripe (ORC specification, "Stripe Footer", ColumnEncoding). Its kind
/// must be there; the size of its dictionary is written for dictionary kinds alone.
#[derive(Clone, Copy, Debug, PartialEq, Eq)]
pub struct Encoding {
    /// `DIRECT`, `DICTIONARY`, `DIRECT_V2` or `DICTIONARY_V2`, where the ORC specification has it.
    pub kind: u32,
    /// How many entries the dictionary has.
    pub dictionary_size: u32,
}

impl Encoding {
    /// Whether the column has a dictionary.
    pub fn is_dictionary(&self) -> bool
        // The kinds with a dictionary are DICTIONARY and DICTIONARY_V2.
        ensures { result ≡ has_dictionary self.now.kind }
    {
        self.kind == DICTIONARY || self.kind == DICTIONARY_V2
    }
}

impl Message for Encoding {
    ghost use Rattle.orc_wire.specs.Messages.{encoding};
    ghost use Rattle.orc_wire.specs.CanonicalMessages.{encoding_text, encoding_complete};

    ghost members = { encoding };

    ghost canonical = { encoding_text };

    ghost REQUIRED = { 1 };

    const REQUIRED: u32 = 1;

    type Seen = ();

    fn empty(_alloc: Global) -> Encoding {
        Encoding {
            kind: DIRECT,
            dictionary_size: 0,
        }
    }

    fn take(&mut self, _alloc: Global, field: &Field) -> Result<(), WireFault> {
        take_u32(&mut self.kind, 1, field)?;
        take_u32(&mut self.dictionary_size, 2, field)
    }

    fn nothing_seen() -> () {
        ()
    }

    fn test(_seen: &mut (), field: &Field) -> Result<(), WireFault> {
        test_small(1, field)?;
        test_small(2, field)
    }

    fn put_members(&self, out: &mut Vec<u8>) -> Result<(), WireFault> {
        let dictionary_size = u64::from(self.dictionary_size);
        put_number(1, u64::from(self.kind), out)?;
        if self.is_dictionary() {
            put_number(2, dictionary_size, out)
        } else {
            Ok(())
        }
    }

    ghost complete = { encoding_complete };
}
