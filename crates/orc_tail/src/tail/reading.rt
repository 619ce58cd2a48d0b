//! Reads the tail of a file. At most five ranges are read, in this order: the first 3 bytes, the last byte, the
//! postscript, the footer, the metadata. Empty ranges are skipped, and a test that fails ends the reading.
ghost use Rattle.std.specs.Prelude.{◌≡◌, ◌+◌, ◌<◌, ◌≤◌, ◌⊎◌, length, OnOk, IfOk, IfErr, IfSome};
ghost use Rattle.orc_io.specs.Devices.{bytes_at};
ghost use Rattle.orc_io.specs.Leaves.{LeavesSource};
ghost use Rattle.std.specs.Bool.{OnTrue, OnFalse};
ghost use Rattle.orc_tail.specs.Layout.{magic, postscript_length, postscript_place};
ghost use Rattle.orc_tail.specs.Stripes.{AllBefore};
ghost use Rattle.orc_tail.specs.Tails.{most_versions, end_tests, IsTail, TailOpenFault, ReadFault, IsOfTail};
ghost use Rattle.orc_tail.specs.Caps.{no_cap, IsCappedTail, CappedFault};
ghost use Rattle.orc_tail.specs.Images.{IsWithinLimits};
ghost use Rattle.orc_tail.specs.declared.fault.FileFault.TheVariants.{SourceFailed, OutOfMemory};

use crate::fault::FileFault;
use crate::tail::Tail;
use crate::tail::footer::footer_in;
use crate::tail::limits::limits_of;
use crate::tail::metadata::metadata_in;
use crate::tail::postscript::postscript_in;
use orc_io::{RangeFault, Source, read_range};
use orc_wire::PostScript;
use std::alloc::Global;

/// The postscript, the place where it begins, and its length in bytes.
#[derive(Drop)]
struct End {
    postscript: PostScript,
    place: u64,
    length: u64,
}

/// Fills the slice with the source's bytes from `at` on.
fn read_into<S: Source>(source: &mut S, at: u64, into: &mut [u8]) -> Result<(), FileFault>
    requires { at + length into.old ≤ S.size source.old }
    ensures bytes { OnOk result (IfSome (S.told source.old) (λ bytes. into.new ≡ bytes_at at (length into.old) bytes)) }
    ensures length { length into.new ≡ length into.old }

    ensures fault { IfErr result (λ fault. fault ≡ SourceFailed) }
    ensures source { LeavesSource S.told S.size S.failures SourceFailed source.old source.new result }
{
    match source.read_at(at, into) {
        Ok(()) => Ok(()),
        Err(_) => Err(FileFault::SourceFailed),
    }
}

/// Returns the bytes of a range. Nothing is read if the range is empty.
fn range_of<S: Source>(
    alloc: Global,
    source: &mut S,
    at: u64,
    len: u64,
) -> Result<Vec<u8>, FileFault>
    requires { at + len ≤ S.size source.old }
    ensures bytes { IfOk result (λ read. IfSome (S.told source.old) (λ bytes. read.items ≡ bytes_at at len bytes)) }

    ensures fault { IfErr result (λ fault. (fault ≡ OutOfMemory) ⊎ (fault ≡ SourceFailed)) }
    ensures source { LeavesSource S.told S.size S.failures SourceFailed source.old source.new result }
{
    match read_range(alloc, source, at, len) {
        Ok(read) => Ok(read),
        Err(RangeFault::SourceFailed) => Err(FileFault::SourceFailed),
        Err(RangeFault::OutOfMemory) => Err(FileFault::OutOfMemory),
    }
}

/// Returns whether the bytes are `ORC`.
fn is_orc(front: &[u8]) -> bool
    ensures yes { OnTrue result (front.now ≡ magic) }
    ensures no { OnFalse result (front.now ≡ magic → ⊥) }
{
    front == b"ORC".as_slice()
}

/// Tests both ends of a file, and reads its postscript.
fn read_end<S: Source>(alloc: Global, source: &mut S) -> Result<End, FileFault>
    ensures sized { S.size source.old ≤ no_cap }
    ensures found { IfOk result (λ end. IfSome (S.told source.old)
        (λ bytes. (end_tests bytes).finds end.postscript × (end.place ≡ postscript_place bytes))) }
    ensures length { IfOk result (λ end. IfSome (S.told source.old) (λ bytes. end.length ≡ postscript_length bytes)) }
    ensures few { IfOk result (λ end. length end.postscript.version ≤ most_versions) }
    ensures room { IfOk result (λ end. (3 + end.postscript.metadata_length + end.postscript.footer_length ≤ end.place)
        × (end.place ≤ S.size source.old)) }

    ensures fault { IfErr result (λ fault. ReadFault (S.told source.old) fault
        (λ bytes. (end_tests bytes).fails fault)) }
    ensures named { IfErr result (λ fault. (fault ≡ SourceFailed) ⊎ IsOfTail fault) }
    ensures source { LeavesSource S.told S.size S.failures SourceFailed source.old source.new result }
{
    let len = source.len();
    if len < 4 {
        return Err(FileFault::NotOrc);
    }
    let mut front = [0u8; 3];
    read_into(source, 0, &mut front)?;
    if !is_orc(&front) {
        return Err(FileFault::NotOrc);
    }
    let mut last = [0u8; 1];
    read_into(source, len - 1, &mut last)?;
    let length = u64::from(last[0]);
    if length + 4 > len {
        return Err(FileFault::BadLengths);
    }
    let place = len - 1 - length;
    let text = range_of(alloc, source, place, length)?;
    let postscript = postscript_in(alloc, &text, place)?;
    Ok(End {
        postscript,
        place,
        length,
    })
}

/// Returns whether a postscript, a footer and metadata of these lengths are together longer than the cap.
fn is_above(cap: u64, postscript: u64, footer: u64, metadata: u64) -> bool
    ensures yes { OnTrue result (cap < postscript + footer + metadata) }
    ensures no { OnFalse result (postscript + footer + metadata ≤ cap) }
{
    // the sum of three lengths of 64 bits needs two bits more
    let parts = u128::from(postscript) + (u128::from(footer) + u128::from(metadata));
    parts > u128::from(cap)
}

/// Reads the tail of a file if its parts have at most `cap` bytes together: for programs that read files of strangers.
/// The source stays the caller's.
///
/// # Errors
///
/// Those of `read_tail`, and `Limit` if metadata, footer and postscript have more than `cap` bytes together. This is
/// tested after both ends and the postscript, before footer and metadata are read.
pub fn read_capped_tail<S: Source>(
    alloc: Global,
    source: &mut S,
    cap: u64,
) -> Result<Tail, FileFault>
    // The source has at most 2^64 - 1 bytes.
    ensures sized { S.size source.old ≤ no_cap }
    // If the source's bytes are known, then a returned tail is the tail of these bytes, and their metadata, footer and
    // postscript have at most `cap` bytes together.
    ensures found { IfOk result (λ tail. IfSome (S.told source.old) (λ bytes. IsCappedTail cap bytes tail)) }
    // A returned tail is within the limits and its stripes end within the source, whether or not the source's bytes are
    // known.
    ensures limits { IfOk result (λ tail. IsWithinLimits tail) }
    ensures within { IfOk result (λ tail. AllBefore (S.size source.old) tail.stripes) }

    // If the source's bytes are known, then an error is `OutOfMemory`, `SourceFailed`, or the fault of the first test
    // that the bytes fail: of the tests of both ends and of the postscript, then the one of the cap, whose fault is
    // `Limit`, then the other tests of a tail.
    ensures fault { IfErr result (λ fault. ReadFault (S.told source.old) fault (λ bytes. CappedFault cap bytes fault)) }
    // An error is `SourceFailed`, `NotOrc`, `BadPostscript`, `Compressed` with a kind other than 0, `Encrypted`,
    // `BadLengths`, `BadFooter`, `BadMetadata`, `BadTypes` with a fault other than `OutOfMemory`, `BadStripe` with a
    // number below 65,536, `RowCount`, `Limit` or `OutOfMemory`.
    ensures named { IfErr result (λ fault. (fault ≡ SourceFailed) ⊎ IsOfTail fault) }
    // The call changes neither the source's length nor what is known of its bytes. The source's count of failures rises
    // by one if the error is `SourceFailed`, and is unchanged if a tail is returned or with any other error.
    ensures source { LeavesSource S.told S.size S.failures SourceFailed source.old source.new result }
{
    let End {
        postscript,
        place,
        length,
    } = read_end(alloc, source)?;
    if is_above(
        cap,
        length,
        postscript.footer_length,
        postscript.metadata_length,
    ) {
        return Err(FileFault::Limit);
    }
    let footer_at = place - postscript.footer_length;
    let text = range_of(alloc, source, footer_at, postscript.footer_length)?;
    let (footer, schema) = footer_in(alloc, &text)?;
    let metadata_at = footer_at - postscript.metadata_length;
    let text = range_of(alloc, source, metadata_at, postscript.metadata_length)?;
    let metadata = metadata_in(alloc, &text, &footer, &schema)?;
    let (file_stats, stripe_stats) = limits_of(alloc, metadata_at, &footer, &schema, &metadata)?;
    Ok(Tail {
        version: postscript.version,
        writer: footer.writer,
        writer_version: postscript.writer_version,
        schema,
        stripes: footer.stripes,
        stripe_stats,
        file_stats,
        user: footer.metadata,
        stride: footer.row_index_stride,
        rows: footer.number_of_rows,
        other: footer.kept,
    })
}

/// Reads the tail of a file (ORC specification, "File Tail"). The source stays the caller's.
///
/// # Errors
///
/// The fault of the first test that the file fails, in this order: the tests of both ends and of the postscript, of the
/// footer, of the metadata, of the limits and of the stripes' places. Or `SourceFailed` if a read fails, and
/// `OutOfMemory` if there is no memory.
pub fn read_tail<S: Source>(alloc: Global, source: &mut S) -> Result<Tail, FileFault>
    // If the source's bytes are known, then a returned tail is the tail of these bytes: they pass each test of a tail,
    // and the tests find this tail.
    ensures found { IfOk result (λ tail. IfSome (S.told source.old) (λ bytes. IsTail bytes tail)) }
    // A returned tail is within the limits and its stripes end within the source, whether or not the source's bytes are
    // known.
    ensures limits { IfOk result (λ tail. IsWithinLimits tail) }
    ensures within { IfOk result (λ tail. AllBefore (S.size source.old) tail.stripes) }

    // If the source's bytes are known, then an error is `OutOfMemory`, `SourceFailed`, or the fault of the first test
    // of a tail that the bytes fail.
    ensures fault { IfErr result (λ fault. ReadFault (S.told source.old) fault (λ bytes. TailOpenFault bytes fault)) }
    // An error is `SourceFailed`, `NotOrc`, `BadPostscript`, `Compressed` with a kind other than 0, `Encrypted`,
    // `BadLengths`, `BadFooter`, `BadMetadata`, `BadTypes` with a fault other than `OutOfMemory`, `BadStripe` with a
    // number below 65,536, `RowCount`, `Limit` or `OutOfMemory`.
    ensures named { IfErr result (λ fault. (fault ≡ SourceFailed) ⊎ IsOfTail fault) }
    // The call changes neither the source's length nor what is known of its bytes. The source's count of failures rises
    // by one if the error is `SourceFailed`, and is unchanged if a tail is returned or with any other error.
    ensures source { LeavesSource S.told S.size S.failures SourceFailed source.old source.new result }
{
    read_capped_tail(alloc, source, u64::MAX)
}
