//! Writes the canonical text of a file's tail. If a function fails, which it does with `OutOfMemory` only, the bytes
//! that were in `out` before are still in front.
ghost use Rattle.std.specs.Prelude.{◌≡◌, ◌++◌, ◌+◌, ◌≤◌, ◌<◌, ◌^◌, map, OnOk, OnErr, IfOk, IfErr, IfSome, length};
ghost use Rattle.std.specs.List.{AllByRecursion};
ghost use Rattle.orc_wire.specs.Fields.{varint, sized};
ghost use Rattle.orc_wire.specs.CanonicalText.{number_text, sized_text, known_text, list_text, KeepsFront};
ghost use Rattle.orc_wire.specs.CanonicalMessages.{metadata_text, footer_text, post_script_text, stripe_stats_text, column_stats_text};
ghost use Rattle.orc_stats.specs.Messages.{message_of};
ghost use Rattle.orc_tail.specs.Stripes.{stripes_length, most_bytes, IsLaid};
ghost use Rattle.orc_tail.specs.Statistics.{stripe_message};
ghost use Rattle.orc_tail.specs.Images.{metadata_of, footer_of, postscript_of, tail_text, IsWithinLimits, HasBits};
ghost use Rattle.orc_tail.specs.declared.fault.FileFault.TheVariants.{OutOfMemory};

use crate::fault::FileFault;
use crate::tail::{Tail, stripe_length};
use orc_stats::Stat;
use orc_wire::{
    ColumnStats, FieldWriter, Items, Message, PostScript, StripeInfo, StripeStatistics, Value,
};
use std::alloc::Global;

fn put_number(n: u32, value: u64, out: &mut Vec<u8>) -> Result<(), FileFault>
    ensures text { OnOk result (out.new.items ≡ out.old.items ++ number_text n value) }
    ensures fits { value < 2 ^ 64 }
    ensures refused { IfErr result (λ fault. fault ≡ OutOfMemory) }
    ensures front { KeepsFront out.old.items out.new.items }
{
    match FieldWriter::new(out).put(n, Value::Varint(value)) {
        Ok(()) => Ok(()),
        Err(_) => Err(FileFault::OutOfMemory),
    }
}

fn put_small(n: u32, value: u32, out: &mut Vec<u8>) -> Result<(), FileFault>
    ensures text { OnOk result (out.new.items ≡ out.old.items ++ number_text n value) }
    ensures fits { value < 2 ^ 32 }
    ensures refused { IfErr result (λ fault. fault ≡ OutOfMemory) }
    ensures front { KeepsFront out.old.items out.new.items }
{
    put_number(n, u64::from(value), out)
}

fn put_known(n: u32, value: Option<u32>, out: &mut Vec<u8>) -> Result<(), FileFault>
    ensures text { OnOk result (out.new.items ≡ out.old.items ++ known_text (λ v. varint v) n value) }
    ensures bounded { IfSome value (λ v. v < 2 ^ 32) }
    ensures refused { IfErr result (λ fault. fault ≡ OutOfMemory) }
    ensures front { KeepsFront out.old.items out.new.items }
{
    match value {
        None => Ok(()),
        Some(value) => put_small(n, value, out),
    }
}

fn put_bytes(n: u32, bytes: &[u8], out: &mut Vec<u8>) -> Result<(), FileFault>
    ensures text { OnOk result (out.new.items ≡ out.old.items ++ sized_text n bytes.now) }
    ensures refused { IfErr result (λ fault. fault ≡ OutOfMemory) }
    ensures front { KeepsFront out.old.items out.new.items }
{
    match FieldWriter::new(out).put(n, Value::Bytes(bytes)) {
        Ok(()) => Ok(()),
        Err(_) => Err(FileFault::OutOfMemory),
    }
}

fn put_raw(bytes: &[u8], out: &mut Vec<u8>) -> Result<(), FileFault>
    ensures text { OnOk result (out.new.items ≡ out.old.items ++ bytes.now) }
    ensures refused { IfErr result (λ fault. fault ≡ OutOfMemory) }
    ensures front { KeepsFront out.old.items out.new.items }
{
    out.extend_from_slice(bytes)?;
    Ok(())
}

/// Appends a field with a message.
fn put_message<M: Message>(n: u32, message: &M, out: &mut Vec<u8>) -> Result<(), FileFault>
    ensures text { OnOk result (out.new.items ≡ out.old.items ++ sized_text n (M.canonical.text message.now)) }
    ensures bounded { OnOk result (M.canonical.bounded message.now) }
    ensures refused { IfErr result (λ fault. fault ≡ OutOfMemory) }
    ensures front { KeepsFront out.old.items out.new.items }
{
    let mut text = Vec::new(*out.allocator());
    match message.put_members(&mut text) {
        Ok(()) => put_bytes(n, &text, out),
        Err(_) => Err(FileFault::OutOfMemory),
    }
}

/// Appends a field for each message.
fn put_each<M: Message>(n: u32, messages: &[M], out: &mut Vec<u8>) -> Result<(), FileFault>
    ensures text { OnOk result (out.new.items ≡ out.old.items ++ list_text
        (λ m. sized (M.canonical.text m)) n messages.now) }
    ensures bounded { OnOk result (AllByRecursion M.canonical.bounded messages.now) }
    ensures refused { IfErr result (λ fault. fault ≡ OutOfMemory) }
    ensures front { KeepsFront out.old.items out.new.items }
{
    for message in messages {
        put_message(n, message, out)?;
    }
    Ok(())
}

/// Returns the messages of columns' statistics.
fn messages_of(alloc: Global, stats: &[Stat]) -> Result<Items<ColumnStats>, FileFault>
    ensures found { IfOk result (λ messages. messages ≡ map message_of stats.now) }
    ensures refused { IfErr result (λ fault. fault ≡ OutOfMemory) }
{
    let mut messages = Vec::with_capacity(alloc, stats.len())?;
    for stat in stats {
        match stat.put(alloc) {
            Ok(message) => messages.push(message)?,
            Err(_) => return Err(FileFault::OutOfMemory),
        }
    }
    Ok(Items::from_vec(messages))
}

/// Appends the metadata: a field for the statistics of each stripe.
fn put_metadata(stats: &[Items<Stat>], out: &mut Vec<u8>) -> Result<(), FileFault>
    ensures text { OnOk result (out.new.items ≡ out.old.items ++ list_text
        (λ xs. sized (stripe_stats_text.text (stripe_message xs))) 1 stats.now) }
    ensures bounded { OnOk result (AllByRecursion (λ xs. stripe_stats_text.bounded (stripe_message xs)) stats.now) }
    ensures refused { IfErr result (λ fault. fault ≡ OutOfMemory) }
    ensures front { KeepsFront out.old.items out.new.items }
{
    for one in stats {
        let message = StripeStatistics {
            col_stats: messages_of(*out.allocator(), one.as_slice())?,
        };
        put_message(1, &message, out)?;
    }
    Ok(())
}

/// Returns where stripes end that lie one after the other, the first one after `ORC`.
fn content_end(stripes: &[StripeInfo]) -> u64
    requires { stripes_length stripes.now ≤ most_bytes }
    ensures { result ≡ 3 + stripes_length stripes.now }
{
    let mut end = 3;
    for stripe in stripes {
        end += stripe_length(*stripe);
    }
    end
}

fn put_footer(tail: &Tail, out: &mut Vec<u8>) -> Result<(), FileFault>
    requires { stripes_length tail.now.stripes ≤ most_bytes }
    ensures text { OnOk result (out.new.items ≡ out.old.items ++ footer_text.text (footer_of tail.now)) }
    ensures bounded { OnOk result (footer_text.bounded (footer_of tail.now)) }
    ensures refused { IfErr result (λ fault. fault ≡ OutOfMemory) }
    ensures front { KeepsFront out.old.items out.new.items }
{
    let stats = messages_of(*out.allocator(), tail.file_stats.as_slice())?;
    put_number(1, 3, out)?;
    put_number(2, content_end(tail.stripes.as_slice()), out)?;
    put_each(3, tail.stripes.as_slice(), out)?;
    put_each(4, tail.schema.types(), out)?;
    put_each(5, tail.user.as_slice(), out)?;
    put_number(6, tail.rows, out)?;
    put_each(7, stats.as_slice(), out)?;
    put_small(8, tail.stride, out)?;
    put_known(9, tail.writer, out)?;
    put_raw(tail.other.as_slice(), out)
}

/// Appends the postscript that follows metadata and a footer of these lengths.
fn put_postscript(
    tail: &Tail,
    metadata: u64,
    footer: u64,
    out: &mut Vec<u8>,
) -> Result<(), FileFault>
    requires metadata { metadata ≡ length (metadata_text.text (metadata_of tail.now)) }
    requires footer { footer ≡ length (footer_text.text (footer_of tail.now)) }
    ensures text { OnOk result (out.new.items ≡ out.old.items ++ post_script_text.text (postscript_of tail.now)) }
    ensures bounded { OnOk result (post_script_text.bounded (postscript_of tail.now)) }
    ensures refused { IfErr result (λ fault. fault ≡ OutOfMemory) }
    ensures front { KeepsFront out.old.items out.new.items }
{
    let alloc = *out.allocator();
    let postscript = PostScript {
        footer_length: footer,
        compression: 0,
        version: Items::from_vec(tail.version.as_slice().to_vec(alloc)?),
        metadata_length: metadata,
        writer_version: tail.writer_version,
        magic: Items::from_vec(b"ORC".to_vec(alloc)?),
    };
    match postscript.put_members(out) {
        Ok(()) => Ok(()),
        Err(_) => Err(FileFault::OutOfMemory),
    }
}

fn put_parts(tail: &Tail, out: &mut Vec<u8>) -> Result<(), FileFault>
    requires limits { IsWithinLimits tail.now }
    ensures text { OnOk result (out.new.items ≡ out.old.items ++ tail_text tail.now) }
    ensures bits { OnOk result (HasBits tail.now) }
    ensures refused { IfErr result (λ fault. fault ≡ OutOfMemory) }
    ensures front { KeepsFront out.old.items out.new.items }
{
    let metadata_at = out.len();
    put_metadata(tail.stripe_stats.as_slice(), out)?;
    let footer_at = out.len();
    put_footer(tail, out)?;
    let postscript_at = out.len();
    put_postscript(
        tail,
        (footer_at - metadata_at) as u64,
        (postscript_at - footer_at) as u64,
        out,
    )?;
    out.push((out.len() - postscript_at) as u8)?;
    Ok(())
}

impl Tail {
    /// Appends the canonical text of all that follows the stripes of a file: the metadata, the footer, the postscript
    /// and its length (ORC specification, "File Tail"). The tail must be within the limits, and its stripes must lie
    /// one after the other without gaps, the first one after `ORC`.
    ///
    /// # Errors
    ///
    /// `OutOfMemory` if there is no memory. `out` then has the bytes that it had before.
    pub fn put(&self, out: &mut Vec<u8>) -> Result<(), FileFault>
        requires limits { IsWithinLimits self.now }
        requires laid { IsLaid 3 self.now.stripes }
        // If the tail is within the limits and its stripes lie from byte 3 on, one after the other without gaps, then a
        // call that succeeds appends the tail's canonical text to `out`.
        ensures text { OnOk result (out.new.items ≡ out.old.items ++ tail_text self.now) }
        // If the tail is within the limits and its stripes lie from byte 3 on, one after the other without gaps, then a
        // call succeeds only if each number of the tail fits the bits of its field.
        ensures bits { OnOk result (HasBits self.now) }

        // If the tail is within the limits and its stripes lie from byte 3 on, one after the other without gaps, then
        // the only error is `OutOfMemory`, which leaves the bytes of `out` as they were.
        ensures refused { IfErr result (λ fault. fault ≡ OutOfMemory) }
        ensures unchanged { OnErr result (out.new.items ≡ out.old.items) }
    {
        let start = out.len();
        match put_parts(self, out) {
            Ok(()) => Ok(()),
            Err(fault) => {
                out.truncate(start);
                Err(fault)
            }
        }
    }
}
