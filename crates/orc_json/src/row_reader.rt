//! Reads rows from texts of JSON.
ghost use Rattle.std.specs.Prelude.{◌≡◌, ◌≢◌, true, IfOk, IfErr, OnOk, MatchResult};
ghost use Rattle.orc_values.specs.Cells.{Cell};
ghost use Rattle.orc_json_rows.specs.FieldNames.{is_distinct};
ghost use Rattle.orc_values.specs.Fits.{fits};
ghost use Rattle.orc_values.specs.Views.{view};
ghost use Rattle.orc_json_rows.specs.declared.json_fault.JsonFault.TheVariants as fault;
ghost use Rattle.orc_json.specs.RowTexts.{TextSpells, RowTextFault};

use json::{Reader, Scratch};
use orc_json_reader::{Unread, read_value};
use orc_types::{JsonFault, Schema, row_from_json};
use orc_values::Row;
use serde_json::Value as Json;
use serde_json::error::Category;
use std::alloc::Global;

/// The depth to which arrays and objects nest at most in a text that `serde_json` reads (RFC 8259, "Parsers", lets a parser set
/// a limit).
const MAX_DEPTH: usize = 127;

/// Reads rows from texts of JSON, one after another and under any schema. It keeps room for strings with escapes. Each text is
/// read as if it were the first.
#[derive(Drop)]
pub struct RowReader {
    scratch: Scratch,
}

/// Reads the row that a text spells by way of the text's value, or returns the reason why the text spells none.
// (out of line: few texts come here, and otherwise the room of its locals would be cleared for each text)
#[inline(never)]
fn row_by_value(alloc: Global, schema: &Schema, text: &[u8]) -> Result<Row<'static>, JsonFault>
    ensures found { IfOk result (λ row. TextSpells schema.now text.now (view row)) }
    ensures fault { IfErr result (λ why. why ≢ fault.OutOfMemory → RowTextFault schema.now text.now why) }
{
    let json = match Json::from_slice(alloc, text) {
        Ok(json) => json,
        Err(error) if error.classify() == Category::Memory => return Err(JsonFault::OutOfMemory),
        Err(_) => return Err(JsonFault::Syntax),
    };
    row_from_json(alloc, schema, &json)
}

impl RowReader {
    /// Makes a reader, without room yet. Contracts see nothing of a reader, because no answer depends on it.
    pub fn new(alloc: Global) -> RowReader {
        RowReader {
            scratch: Scratch::new(alloc),
        }
    }

    /// Reads the row that a text spells, if it can be read straight.
    fn read_straight(
        &mut self,
        alloc: Global,
        schema: &Schema,
        text: &[u8],
        row: &mut Row<'static>,
    ) -> Result<(), Unread>
        ensures { OnOk result (TextSpells schema.now text.now (view row.new)) }
    {
        if !schema.has_distinct_names() {
            return Err(Unread::Declined);
        }
        let Ok(text) = simdutf8::compat::from_utf8(text) else {
            return Err(Unread::Declined);
        };
        let mut reader = Reader::new(text, &mut self.scratch)?;
        read_value(alloc, schema.tree(), MAX_DEPTH, &mut reader, row)?;
        if reader.next().is_some() {
            return Err(Unread::Declined);
        }
        Ok(())
    }

    /// Reads the row that a text of JSON spells under a schema: the row that `row_from_json` returns for the value that
    /// `serde_json` reads in the text.
    ///
    /// # Errors
    ///
    /// - `Syntax`: the text isn't UTF-8 (RFC 8259, "Character Encoding"), or `serde_json` reads no value in it.
    /// - Any error of `row_from_json` for the value that `serde_json` reads.
    /// - `OutOfMemory`: memory ran out.
    ///
    /// The reader can be used after an error.
    pub fn read_row(
        &mut self,
        alloc: Global,
        schema: &Schema,
        text: &[u8],
    ) -> Result<Row<'static>, JsonFault>
        // If the call succeeds, then the text spells the row that is returned.
        ensures found { IfOk result (λ row. TextSpells schema.now text.now (view row)) }
        // If the text spells a row, then the call returns this row, or fails with `OutOfMemory`.
        ensures only { (row : Cell) → TextSpells schema.now text.now row
            → MatchResult result (λ found. view found ≡ row) (λ e. e ≡ fault.OutOfMemory) }
        // If the call succeeds, then the returned row fits the schema.
        ensures fits { IfOk result (λ row. fits (view row) schema.now ≡ true) }

        // If the call fails with an error other than `OutOfMemory`, then the error is `Syntax`, and the text isn't UTF-8 or
        // isn't JSON; or it is `DuplicateField`, and a struct of the schema names a field twice; or the text's value has this
        // fault.
        ensures fault { IfErr result (λ why. why ≢ fault.OutOfMemory → RowTextFault schema.now text.now why) }
    {
        self.read_row_over(alloc, schema, text, None)
    }

    /// Reads a row as `read_row` does, over a spare row that is no longer needed. The spare row may be any row, of any schema. Its
    /// room is used again if it suits, so that a caller who reads row by row allocates little. After an error the spare row is
    /// gone.
    ///
    /// # Errors
    ///
    /// The same as `read_row`'s.
    pub fn read_row_over(
        &mut self,
        alloc: Global,
        schema: &Schema,
        text: &[u8],
        spare: Row<'static>,
    ) -> Result<Row<'static>, JsonFault>
        // If the call succeeds, then the text spells the row that is returned, whatever the spare row was.
        ensures found { IfOk result (λ row. TextSpells schema.now text.now (view row)) }
        // If the text spells a row, then the call returns this row, or fails with `OutOfMemory`.
        ensures only { (row : Cell) → TextSpells schema.now text.now row
            → MatchResult result (λ found. view found ≡ row) (λ e. e ≡ fault.OutOfMemory) }
        // If the call succeeds, then the returned row fits the schema.
        ensures fits { IfOk result (λ row. fits (view row) schema.now ≡ true) }

        // If the call fails with an error other than `OutOfMemory`, then the error is `Syntax`, and the text isn't UTF-8 or
        // isn't JSON; or it is `DuplicateField`, and a struct of the schema names a field twice; or the text's value has this
        // fault.
        ensures fault { IfErr result (λ why. why ≢ fault.OutOfMemory → RowTextFault schema.now text.now why) }
    {
        let mut row = spare;
        match self.read_straight(alloc, schema, text, &mut row) {
            Ok(()) => Ok(row),
            Err(Unread::OutOfMemory) => Err(JsonFault::OutOfMemory),
            Err(Unread::Declined) => row_by_value(alloc, schema, text),
        }
    }
}
