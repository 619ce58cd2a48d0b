//! Compares an input with the first one.
ghost use Rattle.std.specs.Prelude.{◌≡◌, IfErr, OnOk};
ghost use Rattle.std.specs.Bool.{OnTrue, OnFalse};
ghost use Rattle.orc_merger.specs.Merging.{SameVersion};
ghost use Rattle.orc_merger.specs.Gathering.{IsOfKind, KindFault};

use crate::fault::MergeFault;
use orc_tail::Tail;
use orc_types::Schema;

/// Returns whether two schemas are equal.
fn is_same_schema(first: &Schema, schema: &Schema) -> bool
    ensures yes { OnTrue result (schema.now ≡ first.now) }
    ensures no { OnFalse result (schema.now ≡ first.now → ⊥) }
{
    schema == first
}

/// Returns whether two lists of bytes are equal.
pub(crate) fn is_same(first: &[u8], bytes: &[u8]) -> bool
    ensures yes { OnTrue result (bytes.now ≡ first.now) }
    ensures no { OnFalse result (bytes.now ≡ first.now → ⊥) }
{
    bytes == first
}

/// Returns whether both tails have the same file version, writer and writer version.
fn is_same_version(first: &Tail, tail: &Tail) -> bool
    ensures yes { OnTrue result (SameVersion first.now tail.now) }
    ensures no { OnFalse result (SameVersion first.now tail.now → ⊥) }
{
    tail.version.as_slice() == first.version.as_slice()
        && tail.writer == first.writer
        && tail.writer_version == first.writer_version
}

/// Compares the tail of the input with this number with that of the first input. Fails with the first of these that
/// differs: `SchemaDiffers`, `VersionDiffers`, `StrideDiffers`, `OtherFooterFields`.
pub(crate) fn compare(first: &Tail, number: usize, tail: &Tail) -> Result<(), MergeFault>
    ensures alike { OnOk result (IsOfKind first.now tail.now) }
    ensures fault { IfErr result (λ fault. KindFault number first.now tail.now fault) }
{
    if !is_same_schema(&first.schema, &tail.schema) {
        return Err(MergeFault::SchemaDiffers(number));
    }
    if !is_same_version(first, tail) {
        return Err(MergeFault::VersionDiffers(number));
    }
    if tail.stride != first.stride {
        return Err(MergeFault::StrideDiffers(number));
    }
    if !is_same(first.other.as_slice(), tail.other.as_slice()) {
        return Err(MergeFault::OtherFooterFields(number));
    }
    Ok(())
}
