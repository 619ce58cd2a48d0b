//! A type of a file's schema.
use crate::canonical::{put_kept, put_number, put_packed_u32, put_texts};
use crate::fault::WireFault;
use crate::field::Field;
use crate::items::{Bytes, Items};
use crate::lists::{take_kept, take_packed, take_texts, test_packed};
use crate::members::{take_u32, test_small};
use crate::message::Message;
use std::alloc::Global;

/// A type of a schema (ORC specification, "Type Information").
#[derive(Debug, Drop)]
pub struct TypeMsg {
    /// What values of the type are: 0 for BOOLEAN to 17 for CHAR.
    pub kind: u32,
    /// The numbers of the types below it.
    pub subtypes: Items<u32>,
    /// The names of a STRUCT's fields, in UTF-8 if the file is valid.
    pub field_names: Items<Bytes>,
    /// The fields above 3 as they stood, each with its key, one after the other.
    pub kept: Bytes,
}

impl Message for TypeMsg {
    ghost use Rattle.orc_wire.specs.Messages.{type_msg};
    ghost use Rattle.orc_wire.specs.CanonicalMessages.{type_text, type_complete};

    ghost members = { type_msg };

    ghost canonical = { type_text };

    ghost REQUIRED = { 1 };

    const REQUIRED: u32 = 1;

    type Seen = ();

    fn empty(alloc: Global) -> TypeMsg {
        TypeMsg {
            kind: 0,
            subtypes: Items::empty(alloc),
            field_names: Items::empty(alloc),
            kept: Items::empty(alloc),
        }
    }

    fn take(&mut self, alloc: Global, field: &Field) -> Result<(), WireFault> {
        take_u32(&mut self.kind, 1, field)?;
        take_packed(&mut self.subtypes, 2, field)?;
        take_texts(alloc, &mut self.field_names, 3, field)?;
        take_kept(&mut self.kept, 4, field)
    }

    fn nothing_seen() -> () {
        ()
    }

    fn test(_seen: &mut (), field: &Field) -> Result<(), WireFault> {
        test_small(1, field)?;
        test_packed(2, u64::from(u32::MAX), field)
    }

    fn put_members(&self, out: &mut Vec<u8>) -> Result<(), WireFault> {
        put_number(1, u64::from(self.kind), out)?;
        put_packed_u32(2, self.subtypes.as_slice(), out)?;
        put_texts(3, self.field_names.as_slice(), out)?;
        put_kept(&self.kept, out)
    }

    ghost complete = { type_complete };
}
