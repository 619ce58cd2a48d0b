//! A place that has the files of the system.
ghost use Rattle.std.specs.Prelude.{◌≡◌, ◌⊎◌, None, IsSomeAnd, IfOk, IfErr, true};
ghost use Rattle.orc_tail.specs.declared.fault.FileFault.TheVariants as file;
ghost use Rattle.orc_cli_output.specs.declared.fault.CliFault.TheVariants.{File as FileFaulted};

use crate::buffer::{BUFFER, with_buffer};
use crate::durable::SystemFile;
use crate::new_file::NewFile;
use crate::place::Place;
use crate::progress::Progress;
use crate::watched::Watched;
use orc_cli_args::{new_file, source_of};
use orc_cli_output::CliFault;
use orc_cli_write::StdLines;
use orc_io::{FileSource, Source};
use orc_tail::FileFault;
use std::alloc::Global;
use std::fs::File;
use std::io::{self, BufRead, BufReader};
use std::rt::Files;

/// The files of the system. A meter is told of their reads. Of the files that were made, the place has the one that
/// was closed last, with its path. The files' bytes are unknown.
#[derive(Drop)]
pub struct SystemPlace<'a, R: Files<File = File>, M: Progress> {
    files: &'a R,
    meter: &'a M,
    closed: Option<(&'a str, SystemFile)>,
}

impl<'a, R: Files<File = File>, M: Progress> SystemPlace<'a, R, M> {
    /// Makes a place with the files that this runtime opens, and with the meter that is told of their reads.
    pub fn new(files: &'a R, meter: &'a M) -> SystemPlace<'a, R, M> {
        SystemPlace {
            files,
            meter,
            closed: None,
        }
    }
}

/// Returns the fault that stands for an error of opening or reading a file.
fn fault_of(error: &io::Error) -> FileFault
    ensures { (result ≡ file.SourceFailed) ⊎ (result ≡ file.OutOfMemory) }
{
    match error.kind() {
        io::ErrorKind::OutOfMemory => FileFault::OutOfMemory,
        _ => FileFault::SourceFailed,
    }
}

/// Tells the meter the length of a regular file. The length of a pipe is unknown.
fn tell_length<M: Progress>(file: &File, meter: &M) {
    match file.metadata() {
        Ok(metadata) if metadata.is_file() => meter.ahead(metadata.len()),
        _ => {}
    }
}

/// Opens a file for reading from its start. Its first bytes are read here, so that a file that can't be read is
/// noticed before a file is made.
fn reader_of<'m, R: Files<File = File>, M: Progress>(
    files: &R,
    meter: &'m M,
    alloc: Global,
    path: &str,
) -> Result<BufReader<Watched<'m, File, M>>, CliFault>
    ensures { IfErr result (λ fault.
        (fault ≡ FileFaulted file.SourceFailed) ⊎ (fault ≡ FileFaulted file.OutOfMemory)) }
{
    let file = match File::open(files, path) {
        Ok(file) => file,
        Err(error) => return Err(CliFault::File(fault_of(&error))),
    };
    tell_length(&file, meter);
    let mut reader = match BufReader::with_capacity(alloc, BUFFER, Watched::new(file, meter)) {
        Ok(reader) => reader,
        Err(_) => return Err(CliFault::File(FileFault::OutOfMemory)),
    };
    if let Err(error) = reader.fill_buf() {
        return Err(CliFault::File(fault_of(&error)));
    }
    Ok(reader)
}

impl<'a, R: Files<File = File>, M: Progress> Place<'a> for SystemPlace<'a, R, M> {
    type Input = Watched<'a, FileSource<'a, R>, M>;

    type Lines = StdLines<BufReader<Watched<'a, File, M>>>;

    type Output = NewFile<SystemFile>;

    ghost told = { λ _ _. None };

    ghost lacks = { λ _ _. ⊥ };

    ghost made = { λ _ _. None };

    ghost durable = { λ place path. IsSomeAnd place.closed
        (λ closed. (closed.0.now ≡ path) × (closed.1.synced ≡ true)) };

    fn open(&self, path: &'a str) -> Result<Watched<'a, FileSource<'a, R>, M>, CliFault> {
        let source = source_of(self.files, path)?;
        self.meter.ahead(source.len());
        Ok(Watched::new(source, self.meter))
    }

    fn lines(
        &self,
        alloc: Global,
        path: &'a str,
    ) -> Result<StdLines<BufReader<Watched<'a, File, M>>>, CliFault> {
        Ok(StdLines::new(reader_of(self.files, self.meter, alloc, path)?))
    }

    fn make(&mut self, alloc: Global, path: &'a str) -> Result<NewFile<SystemFile>, CliFault> {
        let file = SystemFile::new(new_file(self.files, path)?);
        Ok(NewFile::new(with_buffer(alloc, file)?))
    }

    fn close(&mut self, path: &'a str, output: NewFile<SystemFile>) -> Result<(), CliFault> {
        match output.finish() {
            Ok(file) => {
                self.closed = Some((path, file));
                Ok(())
            }
            Err((fault, _)) => Err(fault),
        }
    }
}
