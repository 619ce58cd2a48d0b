//! A file of the system as a source.
ghost use Rattle.std.specs.Prelude.{◌≡◌, ◌↔◌, None, IfOk, IsTrue};

use crate::failures::Failures;
use crate::source::{Source, SourceFault};
use std::fs::{File, Metadata};
use std::io;
use std::os::unix::fs::FileExt;
use std::rt::Files;
use std::time::SystemTime;

/// A file of the system. Once its length or the time of its last change differs from what it was when the file was
/// found, each read fails. A file counts as the one that was found if and only if it has the same length and the same
/// time of last change, as far as the system gives these; neither `read_at` nor `rest` changes what was found. The
/// source's bytes are unknown to contracts. The file is kept open only from a read to the next `rest`, so that there
/// may be more sources than files that a process may have open.
#[derive(Drop)]
pub struct FileSource<'a, R: Files<File = File>> {
    files: &'a R,
    path: &'a str,
    len: u64,
    modified: Option<SystemTime>,
    kept: Option<File>,
    failures: Failures,
}

/// Returns what the system says now about the file with this path.
fn metadata_of<R: Files<File = File>>(files: &R, path: &str) -> io::Result<Metadata> {
    File::open(files, path)?.metadata()
}

impl<'a, R: Files<File = File>> FileSource<'a, R> {
    /// Finds the file with this path, and notes its length and the time of its last change.
    ///
    /// # Errors
    ///
    /// `SourceFault` if the file can't be opened now.
    pub fn open(files: &'a R, path: &'a str) -> Result<FileSource<'a, R>, SourceFault>
        // A returned source has the path `path`, and its count of failures is 0.
        ensures path { IfOk result (λ source. source.path.now ≡ path.now) }
        ensures fresh { IfOk result (λ source. source.failures ≡ 0) }
    {
        match metadata_of(files, path) {
            Ok(metadata) => Ok(FileSource {
                files,
                path,
                len: metadata.len(),
                modified: metadata.modified().ok(),
                kept: None,
                failures: Failures::new(),
            }),
            Err(_) => Err(SourceFault),
        }
    }

    /// Returns the file that an earlier read kept open, or opens the file with the path again.
    fn take_file(&mut self) -> io::Result<File>
        ensures len { self.new.len ≡ self.old.len }
        ensures modified { self.new.modified ≡ self.old.modified }
        ensures failures { self.new.failures ≡ self.old.failures }
    {
        match self.kept.take() {
            Some(file) => Ok(file),
            None => File::open(self.files, self.path),
        }
    }

    /// Returns whether a file of this length, last changed at this time, may be the one that was found.
    fn is_unchanged(&self, len: u64, modified: Option<SystemTime>) -> bool
        ensures same { IsTrue result ↔ ((len ≡ self.now.len) × (modified ≡ self.now.modified)) }
    {
        len == self.len && modified == self.modified
    }

    /// Fills the slice, and keeps the file open for the next read. Fails if the file has changed, even if the range
    /// still lies within it.
    fn read_and_keep(&mut self, at: u64, into: &mut [u8]) -> io::Result<()>
        ensures len { self.new.len ≡ self.old.len }
        ensures modified { self.new.modified ≡ self.old.modified }
        ensures failures { self.new.failures ≡ self.old.failures }
    {
        let file = self.take_file()?;
        let metadata = file.metadata()?;
        if !self.is_unchanged(metadata.len(), metadata.modified().ok()) {
            return Err(io::Error::from(io::ErrorKind::InvalidData));
        }
        file.read_exact_at(into, at)?;
        self.kept = Some(file);
        Ok(())
    }
}

impl<R: Files<File = File>> Source for FileSource<'_, R> {
    ghost size = { λ source. source.len };

    ghost told = { λ _. None };

    ghost failures = { λ source. source.failures };

    fn len(&self) -> u64 {
        self.len
    }

    fn read_at(&mut self, at: u64, into: &mut [u8]) -> Result<(), SourceFault> {
        match self.read_and_keep(at, into) {
            Ok(()) => Ok(()),
            Err(_) => {
                self.failures.note();
                Err(SourceFault)
            }
        }
    }

    fn rest(&mut self)
        // `rest` changes neither the length nor the time of last change with which the file was found.
        ensures len { self.new.len ≡ self.old.len }
        ensures modified { self.new.modified ≡ self.old.modified }
        // `rest` doesn't change the source's count of failures.
        ensures failures { self.new.failures ≡ self.old.failures }
    {
        self.kept = None;
    }

    ghost told_size = { λ _. tt };

    ghost told_bytes = { λ _. tt };
}
