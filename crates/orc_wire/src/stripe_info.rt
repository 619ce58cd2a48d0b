//! Where a stripe stands in its file.
use crate::canonical::put_number;
use crate::fault::WireFault;
use crate::field::Field;
use crate::members::take_u64;
use crate::message::Message;
use std::alloc::Global;

/// Where a stripe stands in its file (ORC specification, "File Tail", StripeInformation).
#[derive(Clone, Copy, Debug, PartialEq, Eq)]
pub struct StripeInfo {
    /// The place of its first byte.
    pub offset: u64,
    /// How many bytes its index streams have.
    pub index_length: u64,
    /// How many bytes its data streams have.
    pub data_length: u64,
    /// How many bytes its footer has.
    pub footer_length: u64,
    /// How many rows it holds.
    pub number_of_rows: u64,
}

impl Message for StripeInfo {
    ghost use Rattle.orc_wire.specs.Messages.{stripe_info};
    ghost use Rattle.orc_wire.specs.CanonicalMessages.{stripe_info_text, stripe_info_complete};

    ghost members = { stripe_info };

    ghost canonical = { stripe_info_text };

    ghost REQUIRED = { 0 };

    const REQUIRED: u32 = 0;

    type Seen = ();

    fn empty(_alloc: Global) -> StripeInfo {
        StripeInfo {
            offset: 0,
            index_length: 0,
            data_length: 0,
            footer_length: 0,
            number_of_rows: 0,
        }
    }

    fn take(&mut self, _alloc: Global, field: &Field) -> Result<(), WireFault> {
        take_u64(&mut self.offset, 1, field);
        take_u64(&mut self.index_length, 2, field);
        take_u64(&mut self.data_length, 3, field);
        take_u64(&mut self.footer_length, 4, field);
        take_u64(&mut self.number_of_rows, 5, field);
        Ok(())
    }

    fn nothing_seen() -> () {
        ()
    }

    fn test(_seen: &mut (), _field: &Field) -> Result<(), WireFault> {
        Ok(())
    }

    fn put_members(&self, out: &mut Vec<u8>) -> Result<(), WireFault> {
        put_number(1, self.offset, out)?;
        put_number(2, self.index_length, out)?;
        put_number(3, self.data_length, out)?;
        put_number(4, self.footer_length, out)?;
        put_number(5, self.number_of_rows, out)
    }

    ghost complete = { stripe_info_complete };
}
