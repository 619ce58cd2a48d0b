//! Makes the dictionary of a column of texts.
ghost use Rattle.std.specs.Prelude.{◌≡◌, length, IfOk};
ghost use Rattle.std.specs.HashMap.{get};
ghost use Rattle.std.specs.Option.{MatchOption};
ghost use Rattle.orc_rle.specs.declared.sign.Sign.TheVariants.{Unsigned};
ghost use Rattle.orc_rle.specs.Values.{AllInRange};
ghost use Rattle.orc_stripe_writer.specs.Dictionary as spec;
ghost use Rattle.orc_stripe_writer.specs.DictionaryChoice.{AreEachOnce, AreWorthy, HasTooMany, HaveManyEntries};
ghost use Rattle.orc_stripe_writer.specs.EntryIndexes.{same_bytes, AreEntryPlaces};
ghost use Rattle.orc_stripe_writer.specs.Dictionary.{byte_strings, AreDistinct, AreNamed};

use crate::byte_string::ByteString;
use crate::cell_values::number_of;
use std::alloc::{AllocError, Global};
use std::collections::{HashMap, HashSet};
use std::hash::Hash;

/// The distinct texts of a column, and for each text of the column its place among them.
#[derive(Drop)]
pub(crate) struct Dictionary<'r> {
    /// The distinct texts, in the order of unsigned bytes.
    pub(crate) entries: Vec<ByteString<'r>>,
    pub(crate) places: Vec<i64>,
}

/// Returns whether texts get a dictionary: whether there is a text, and there are at least twice as many texts as
/// distinct ones.
fn is_worth(entries: usize, texts: usize) -> bool
    ensures { result ≡ spec.is_worth entries texts }
{
    0 < texts && entries <= texts / 2
}

/// Returns the distinct items, in the order in which they first come. Stops with `None` at an item before which there
/// are too many distinct ones for a dictionary.
fn each_once<K: Eq + Hash + Copy>(alloc: Global, items: &[K]) -> Result<Option<Vec<K>>, AllocError>
    ensures { IfOk result (λ found. MatchOption found
        (HasTooMany K.eq items.now) (λ few. AreEachOnce K.eq items.now few.items)) }
{
    let mut seen = HashSet::new(alloc);
    let mut few = Vec::new(alloc);
    for item in items {
        if !is_worth(few.len(), items.len()) {
            return Ok(None);
        }
        if seen.insert(*item)? {
            few.push(*item)?;
        }
    }
    Ok(Some(few))
}

/// Returns the distinct texts, in the order of unsigned bytes. Allocates nothing.
fn distinct<'r>(mut texts: Vec<ByteString<'r>>) -> Vec<ByteString<'r>>
    ensures { AreDistinct (byte_strings texts.entry.items) (byte_strings result.items) }
{
    texts.sort_unstable();
    texts.dedup();
    texts
}

/// Returns the place of each entry.
fn entry_places<'r>(
    alloc: Global,
    entries: &Vec<ByteString<'r>>,
) -> Result<HashMap<ByteString<'r>, usize>, AllocError>
    ensures { IfOk result (λ places. AreEntryPlaces (get same_bytes places) (byte_strings entries.now.items)) }
{
    let mut places = HashMap::with_capacity(alloc, entries.len())?;
    for place in 0..entries.len() {
        places.insert(entries[place], place)?;
    }
    Ok(places)
}

/// Returns for each text its place among the entries.
fn places_of<'r>(
    alloc: Global,
    entries: &Vec<ByteString<'r>>,
    strings: &[ByteString<'r>],
) -> Result<Vec<i64>, AllocError>
    requires { AreDistinct (byte_strings strings.now) (byte_strings entries.now.items) }
    ensures named { IfOk result
        (λ places. AreNamed (byte_strings entries.now.items) places.items (byte_strings strings.now)) }
    ensures in_range { IfOk result (λ places. AllInRange Unsigned places.items) }
{
    let known = entry_places(alloc, entries)?;
    let mut places = Vec::with_capacity(alloc, strings.len())?;
    for string in strings {
        match known.get(string) {
            Some(place) => places.push(number_of(*place)?)?,
            None => unreachable!(),
        }
    }
    Ok(places)
}

/// Returns the distinct texts, in the order of unsigned bytes; `None` if the texts get no dictionary. Only distinct
/// texts are sorted, at most one more than half of the texts.
pub(crate) fn entries_of<'r>(
    alloc: Global,
    strings: &[ByteString<'r>],
) -> Result<Option<Vec<ByteString<'r>>>, AllocError>
    ensures { IfOk result (λ found. MatchOption found (HaveManyEntries (byte_strings strings.now))
        (λ entries. AreWorthy (byte_strings strings.now) (byte_strings entries.items))) }
{
    let Some(texts) = each_once(alloc, strings)? else {
        return Ok(None);
    };
    let entries = distinct(texts);
    if is_worth(entries.len(), strings.len()) {
        Ok(Some(entries))
    } else {
        Ok(None)
    }
}

/// Makes a dictionary of the entries, with the place of each text among them.
pub(crate) fn dictionary_of<'r>(
    alloc: Global,
    entries: Vec<ByteString<'r>>,
    strings: &[ByteString<'r>],
) -> Result<Dictionary<'r>, AllocError>
    requires { AreDistinct (byte_strings strings.now) (byte_strings entries.items) }
    ensures entries { IfOk result (λ found. byte_strings found.entries.items ≡ byte_strings entries.entry.items) }
    ensures named { IfOk result
        (λ found. AreNamed (byte_strings found.entries.items) found.places.items (byte_strings strings.now)) }
    ensures in_range { IfOk result (λ found. AllInRange Unsigned found.places.items) }
{
    let places = places_of(alloc, &entries, strings)?;
    Ok(Dictionary { entries, places })
}
