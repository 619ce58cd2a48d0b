//! The trait of readers of lines.
ghost use Rattle.std.specs.Prelude.{◌≡◌, ℕ, List, Option, IfOk, IfSome};
ghost use Rattle.orc_cli_write.specs.Reads.{HasRead, line_failures};

use crate::line_fault::LineFault;

/// Lines that are read one after another. If the bytes that remain are known, then the clauses say which lines are
/// read. If they are not, then only the count of failures is known, which the clauses tie to the results. No clause
/// can say that a counted failure really happened, so each `impl` has to be read for that.
pub trait LineReader {
    /// The bytes that remain, if they are known.
    ghost remaining: { Self → Option (List ℕ) };

    /// The number of times that reading has failed.
    ghost failures: { Self → ℕ };

    /// Replaces the vector's contents by the next line, without its line end. Returns whether there was one. A line
    /// may be as long as memory allows. Each `Failed` counts as one failure, and nothing else counts. After an error
    /// the vector may hold anything.
    fn next_line(&mut self, line: &mut Vec<u8>) -> Result<bool, LineFault>
        // If the call succeeds and the reader's remaining bytes are known, then `false` is returned if and only if
        // none remained. If `true` is returned, then `line` is the next line, without its end, and the known bytes
        // after this line and its end remain.
        ensures found { IfOk result (λ found. IfSome (remaining self.old)
            (λ bytes. HasRead found bytes line.new.items (remaining self.new))) }
        // Each `Failed` adds one to the reader's count of failures, and no other result changes it.
        ensures failures { failures self.new ≡ line_failures result (failures self.old) };
}
