//! The postscript, with which a file ends.
use crate::canonical::{put_known_u32, put_number, put_packed_u32, put_text};
use crate::fault::WireFault;
use crate::field::Field;
use crate::items::{Bytes, Items};
use crate::lists::{take_packed, take_text, test_packed};
use crate::members::{take_known_u32, take_u32, take_u64, test_small};
use crate::message::Message;
use std::alloc::Global;

/// The end of a file (ORC specification, "Postscript").
#[derive(Debug, Drop)]
pub struct PostScript {
    /// How many bytes the footer has.
    pub footer_length: u64,
    /// 0 if nothing is compressed.
    pub compression: u32,
    /// The version of the format, as 0 and 11.
    pub version: Items<u32>,
    /// How many bytes the metadata has.
    pub metadata_length: u64,
    /// The version of the writer.
    pub writer_version: Option<u32>,
    /// `ORC` in a file that is right.
    pub magic: Bytes,
}

impl Message for PostScript {
    ghost use Rattle.orc_wire.specs.Messages.{post_script};
    ghost use Rattle.orc_wire.specs.CanonicalMessages.{post_script_text, post_script_complete};

    ghost members = { post_script };

    ghost canonical = { post_script_text };

    ghost REQUIRED = { 0 };

    const REQUIRED: u32 = 0;

    type Seen = ();

    fn empty(alloc: Global) -> PostScript {
        PostScript {
            footer_length: 0,
            compression: 0,
            version: Items::empty(alloc),
            metadata_length: 0,
            writer_version: None,
            magic: Items::empty(alloc),
        }
    }

    fn take(&mut self, _alloc: Global, field: &Field) -> Result<(), WireFault> {
        take_u64(&mut self.footer_length, 1, field);
        take_u32(&mut self.compression, 2, field)?;
        take_packed(&mut self.version, 4, field)?;
        take_u64(&mut self.metadata_length, 5, field);
        take_known_u32(&mut self.writer_version, 6, field)?;
        take_text(&mut self.magic, 8000, field)
    }

    fn nothing_seen() -> () {
        ()
    }

    fn test(_seen: &mut (), field: &Field) -> Result<(), WireFault> {
        test_small(2, field)?;
        test_packed(4, u64::from(u32::MAX), field)?;
        test_small(6, field)
    }

    fn put_members(&self, out: &mut Vec<u8>) -> Result<(), WireFault> {
        put_number(1, self.footer_length, out)?;
        put_number(2, u64::from(self.compression), out)?;
        put_packed_u32(4, self.version.as_slice(), out)?;
        put_number(5, self.metadata_length, out)?;
        put_known_u32(6, self.writer_version, out)?;
        put_text(8000, &self.magic, out)
    }

    ghost complete = { post_script_complete };
}
