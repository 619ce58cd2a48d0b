//! A place that has files in memory.
ghost use Rattle.std.specs.Prelude.{◌≡◌, ℕ, List, Some, option_map};
ghost use Rattle.std.specs.Borrow.{Bor};
ghost use Rattle.orc_cli_commands.specs.Places.{held_at};

use crate::place::Place;
use orc_cli_output::CliFault;
use orc_cli_write::StdLines;
use orc_io::{SliceSource, VecSink};
use orc_tail::FileFault;
use std::alloc::Global;

/// Files in memory: those that are there first, each with its path, and room for one that is made. The bytes of all
/// of them are known. A second file can't be made.
#[derive(Drop)]
pub struct MemoryPlace<'a> {
    files: &'a [(&'a str, &'a [u8])],
    made: Option<(&'a str, Vec<u8>)>,
}

impl<'a> MemoryPlace<'a> {
    /// Makes a place with these files, each with its path. If two have the same path, then the second one can't be
    /// read.
    pub fn new(files: &'a [(&'a str, &'a [u8])]) -> MemoryPlace<'a> {
        MemoryPlace { files, made: None }
    }

    /// Returns the bytes of the file that was made at this path.
    pub fn made_at(&self, path: &str) -> Option<&[u8]> {
        match &self.made {
            Some((known, bytes)) if *known == path => Some(bytes.as_slice()),
            _ => None,
        }
    }

    /// Returns the bytes of the file that was there first at this path.
    fn held_at(&self, path: &str) -> Option<&'a [u8]>
        ensures { option_map (λ (bytes : Bor (List ℕ)). bytes.now) result ≡ held_at self.now.files.now path.now }
    {
        match self.files.iter().find(|file| file.0 == path) {
            Some(file) => Some(file.1),
            None => None,
        }
    }
}

impl<'a> Place<'a> for MemoryPlace<'a> {
    ghost use Rattle.std.specs.Prelude.{◌≡◌, None, IsSome};
    ghost use Rattle.orc_cli_commands.specs.Places.{held_at, made_at};

    type Input = SliceSource<'a>;

    type Lines = StdLines<&'a [u8]>;

    type Output = VecSink;

    ghost told = { λ place path. held_at place.files.now path };

    ghost lacks = { λ place path. (held_at place.files.now path ≡ None) × (place.made ≡ None) };

    ghost made = { λ place path. made_at place.made path };

    ghost durable = { λ place path. IsSome (made_at place.made path) };

    fn open(&self, path: &'a str) -> Result<SliceSource<'a>, CliFault> {
        match self.held_at(path) {
            Some(bytes) => Ok(SliceSource::new(bytes)),
            None => Err(CliFault::File(FileFault::SourceFailed)),
        }
    }

    fn lines(&self, _alloc: Global, path: &'a str) -> Result<StdLines<&'a [u8]>, CliFault> {
        match self.held_at(path) {
            Some(bytes) => Ok(StdLines::new(bytes)),
            None => Err(CliFault::File(FileFault::SourceFailed)),
        }
    }

    fn make(&mut self, alloc: Global, path: &'a str) -> Result<VecSink, CliFault> {
        if self.made.is_some() || self.held_at(path).is_some() {
            return Err(CliFault::File(FileFault::WriteFailed));
        }
        self.made = Some((path, Vec::new(alloc)));
        Ok(VecSink::new(alloc))
    }

    fn close(&mut self, path: &'a str, output: VecSink) -> Result<(), CliFault> {
        match &self.made {
            Some((known, _)) if *known == path => {}
            _ => return Err(CliFault::File(FileFault::WriteFailed)),
        }
        self.made = Some((path, output.into_vec()));
        Ok(())
    }
}
