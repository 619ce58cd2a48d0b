//! Places that have the files of a command.
ghost use Rattle.std.specs.Prelude.{◌≡◌, ◌≢◌, ◌⊎◌, ℕ, List, [], Option, Some, Err, IsSome, IsOk, IsErr, IfOk, IfErr, OnOk, OnErr, IsOkAnd};
ghost use Rattle.orc_tail.specs.declared.fault.FileFault.TheVariants as file;
ghost use Rattle.orc_cli_output.specs.Output.{write_failed};
ghost use Rattle.orc_cli_output.specs.declared.fault.CliFault.TheVariants.{File};

use orc_cli_output::CliFault;
use orc_cli_write::LineReader;
use orc_io::{Sink, Source};
use std::alloc::Global;

/// A place that has files, which are named by paths: they are opened, read as lines, or made. What a place knows of a
/// path binds it: if it knows the bytes of the file at a path, then it doesn't refuse to read them, and if it says
/// that it lacks a file, then it doesn't refuse to make it. Nothing is known of the files of the system.
pub trait Place<'a> {
    /// A file that is read by ranges.
    type Input: Source + Drop;

    /// A file that is read as lines.
    type Lines: LineReader + Drop;

    /// A new file.
    type Output: Sink + Drop;

    /// The bytes of the file that was at a path first, if they are known.
    ghost told: { Self → List ℕ → Option (List ℕ) };

    /// The place has no file at a path and can make one there.
    ghost lacks: { Self → List ℕ → Type 0 };

    /// The bytes of the file that was made at a path, if they are known.
    ghost made: { Self → List ℕ → Option (List ℕ) };

    /// The place keeps the file that was made at a path, even if the power fails. Files in memory are kept as long as
    /// their place.
    ghost durable: { Self → List ℕ → Type 0 };

    /// Finds the file at a path, for reading by ranges. Fails with `SourceFailed` if it isn't found.
    fn open(&self, path: &'a str) -> Result<Self::Input, CliFault>
        // If the file is opened, then what is known of its bytes is what the place knows of the file at `path`.
        ensures told { IfOk result (λ input. Self.Input.told input ≡ told self.now path.now) }
        // An error is `SourceFailed`.
        ensures fault { IfErr result (λ fault. fault ≡ File file.SourceFailed) }
        // If the place knows the file at `path`, then the file is opened.
        ensures only { IsSome (told self.now path.now) → IsOk result }
        // If the place lacks a file at `path`, then the call fails.
        ensures lacking { lacks self.now path.now → IsErr result };

    /// Finds the file at a path, for reading lines. Fails with `SourceFailed` if it isn't found or can't be read, or
    /// with `OutOfMemory`.
    fn lines(&self, alloc: Global, path: &'a str) -> Result<Self::Lines, CliFault>
        // If lines are returned, then what is known of their remaining bytes is what the place knows of the
        // file at `path`.
        ensures told { IfOk result (λ lines. Self.Lines.remaining lines ≡ told self.now path.now) }
        // An error is `SourceFailed` or `OutOfMemory`.
        ensures fault { IfErr result (λ fault. (fault ≡ File file.SourceFailed) ⊎ (fault ≡ File file.OutOfMemory)) }
        // If the place knows the file at `path`, then lines are returned.
        ensures only { IsSome (told self.now path.now) → IsOk result }
        // If the place lacks a file at `path`, then the call fails.
        ensures lacking { lacks self.now path.now → IsErr result };

    /// Makes an empty file at a path, where no file may exist. Fails with `WriteFailed` if it can't be made, or with
    /// `OutOfMemory`.
    fn make(&mut self, alloc: Global, path: &'a str) -> Result<Self::Output, CliFault>
        // If the place lacks a file at `path`, then an empty file is made, its bytes are known, and the place
        // knows the file made at `path`.
        ensures made { lacks self.old path.now → IsOkAnd result (λ output. (Self.Output.told output ≡ Some [])
            × IsSome (made self.new path.now)) }
        // If the place knows the file at `path`, then the call fails with `WriteFailed`.
        ensures there { IsSome (told self.old path.now) → result ≡ Err write_failed }
        // An error is `WriteFailed` or `OutOfMemory`.
        ensures fault { IfErr result (λ fault. (fault ≡ write_failed) ⊎ (fault ≡ File file.OutOfMemory)) }
        // If the call fails, then the place is unchanged.
        ensures unmade { OnErr result (self.new ≡ self.old) }
        // What the place knows of the files that were there first, and of the files made at other paths than `path`,
        // is unchanged.
        ensures stays { told self.new ≡ told self.old }
        ensures others { (other : List ℕ) → other ≢ path.now → made self.new other ≡ made self.old other };

    /// Closes a new file, once what was written to it is at its path and is kept. Fails with `WriteFailed` if it
    /// isn't.
    fn close(&mut self, path: &'a str, output: Self::Output) -> Result<(), CliFault>
        // If the call succeeds, then what the place knows of the file made at `path` is what was known of the
        // bytes of `output`.
        ensures made { OnOk result (made self.new path.now ≡ Self.Output.told output) }
        // If the call succeeds, then the place keeps the file made at `path`, even if the power fails.
        ensures durable { OnOk result (durable self.new path.now) }
        // An error is `WriteFailed`.
        ensures fault { IfErr result (λ fault. fault ≡ write_failed) }
        // If the place knows the file made at `path`, then the call succeeds.
        ensures only { IsSome (made self.old path.now) → IsOk result }
        // What the place knows of the files that were there first, and of the files made at other paths than `path`,
        // is unchanged.
        ensures stays { told self.new ≡ told self.old }
        ensures others { (other : List ℕ) → other ≢ path.now → made self.new other ≡ made self.old other };
}
