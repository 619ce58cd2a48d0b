//! Reads ranges of a source.
ghost use Rattle.std.specs.Prelude.{◌≡◌, ◌+◌, ◌≤◌, IfOk, IfSome, IsErrOf};
ghost use Rattle.orc_io.specs.Devices.{bytes_at};
ghost use Rattle.orc_io.specs.Ranges.{range_failures};
ghost use Rattle.orc_io.specs.declared.range_fault.RangeFault.TheVariants.{OutOfMemory};

use crate::range_fault::RangeFault;
use crate::source::Source;
use std::alloc::Global;

/// Reads the `len` bytes from `at` on, in one call of the source; in none if `len` is 0. The range must lie within the
/// source, so no memory is taken for a length that wasn't compared with the source's.
///
/// # Errors
///
/// - `SourceFailed` if the read of the source failed;
/// - `OutOfMemory` if there is no memory for the bytes. The source wasn't read then.
pub fn read_range<S: Source>(
    alloc: Global,
    source: &mut S,
    at: u64,
    len: u64,
) -> Result<Vec<u8>, RangeFault>
    requires { at + len ≤ S.size source.old }
    // If the range lies within the source and the source's bytes are known, then the returned bytes are the `len` bytes
    // of the source from `at` on.
    ensures bytes { IfOk result (λ read. IfSome (S.told source.old) (λ bytes. read.items ≡ bytes_at at len bytes)) }
    // If the range lies within the source, then the call changes neither the source's length nor what is known of its
    // bytes.
    ensures size { S.size source.new ≡ S.size source.old }
    ensures told { S.told source.new ≡ S.told source.old }
    // If the range lies within the source, then the source's count of failures rises by one if the error is
    // `SourceFailed`, and is unchanged otherwise.
    ensures failures { S.failures source.new ≡ range_failures result (S.failures source.old) }
    // If the range lies within the source and `len` is 0, then the call doesn't change the source.
    ensures unasked { len ≡ 0 → source.new ≡ source.old }
    // If the range lies within the source and the error is `OutOfMemory`, then the call doesn't change the source.
    ensures memory { IsErrOf result OutOfMemory → source.new ≡ source.old }
{
    let mut read = vec![in alloc; 0u8; len as usize]?;
    if len > 0 {
        source.read_at(at, &mut read)?;
    }
    Ok(read)
}
