//! Opens the files that a command names.
ghost use Rattle.std.specs.Prelude.{◌≡◌, IfOk, IfErr, true};
ghost use Rattle.std.specs.Fs.{new_options, with_write, with_create_new};
ghost use Rattle.orc_tail.specs.declared.fault.FileFault.TheVariants.{SourceFailed, WriteFailed};
ghost use Rattle.orc_cli_output.specs.declared.fault.CliFault.TheVariants.{File as FileFaulted};

use orc_cli_output::CliFault;
use orc_io::FileSource;
use orc_tail::FileFault;
use std::fs::{self, File, OpenOptions};
use std::rt::Files;

/// Returns whether the path names a regular file, or a link to one. It isn't opened for that, because opening a pipe
/// waits until somebody writes to it.
fn is_regular<R: Files<File = File>>(rt: &R, path: &str) -> bool {
    match fs::metadata(rt, path) {
        Ok(found) => found.is_file(),
        Err(_) => false,
    }
}

/// Finds the file at this path. A folder, a pipe and a device can't be read at a place, so each of them is an error.
pub fn source_of<'a, R: Files<File = File>>(
    rt: &'a R,
    path: &'a str,
) -> Result<FileSource<'a, R>, CliFault>
    // A returned source has the path that was given.
    ensures path { IfOk result (λ source. source.path.now ≡ path.now) }
    // An error is `SourceFailed`.
    ensures fault { IfErr result (λ fault. fault ≡ FileFaulted SourceFailed) }
{
    if !is_regular(rt, path) {
        return Err(CliFault::File(FileFault::SourceFailed));
    }
    match FileSource::open(rt, path) {
        Ok(source) => Ok(source),
        Err(_) => Err(CliFault::File(FileFault::SourceFailed)),
    }
}

/// Returns the options with which a command's output file is opened: it must not exist.
fn as_new_file() -> OpenOptions
    ensures { result ≡ with_create_new (with_write new_options true) true }
{
    let mut options = OpenOptions::new();
    options.write(true).create_new(true);
    options
}

/// Makes a new file at this path. A file that exists isn't opened and stays as it is.
pub fn new_file<R: Files<File = File>>(rt: &R, path: &str) -> Result<File, CliFault>
    // An error is `WriteFailed`.
    ensures { IfErr result (λ fault. fault ≡ FileFaulted WriteFailed) }
{
    match as_new_file().open(rt, path) {
        Ok(file) => Ok(file),
        Err(_) => Err(CliFault::File(FileFault::WriteFailed)),
    }
}
