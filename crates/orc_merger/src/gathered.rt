//! Gathers what the merged file has of all inputs.
ghost use Rattle.std.specs.Prelude.{◌≡◌, ◌≤◌, ◌<◌, ◌+◌, ◌⊎◌, ◌++◌, ◌∷◌, [], ℕ, List, length, true, All, OnOk, IfOk, IfErr};
ghost use Rattle.std.specs.Bool.{OnTrue, OnFalse};
ghost use Rattle.std.specs.List.{AllByRecursion};
ghost use Rattle.orc_values.specs.Shapes.{width};
ghost use Rattle.orc_stats.specs.declared.stat.Stat.{Stat};
ghost use Rattle.orc_stats.specs.Kinds.{body_is_of};
ghost use Rattle.orc_tail.specs.Stripes.{stripes_length, most_rows, most_bytes};
ghost use Rattle.orc_merger.specs.declared.fault.MergeFault.TheVariants as fault;
ghost use Rattle.orc_tail.specs.Statistics.{kind_at, column_stats};
ghost use Rattle.orc_tail.specs.declared.tail.Tail.{Tail};
ghost use Rattle.orc_merger.specs.Merging.{placed, merged, CanMerge};
ghost use Rattle.orc_merger.specs.Counts.{AreCounts};
ghost use Rattle.orc_merger.specs.Limits.{AreFewTogether};
ghost use Rattle.orc_merger.specs.Gathering.{without_joined, pieces_in, pieces_of, NextJoinFault};
ghost use Rattle.orc_merger.specs.JoinedLists.{AreListsOf};
ghost use Rattle.orc_merger.specs.SoFar.{HasGathered, IsNext};

use crate::copying::Piece;
use crate::fault::MergeFault;
use crate::stripe_places::{add_pieces, place_stripes};
use crate::user_pairs::UserPairs;
use crate::value_counts::{add_counts, are_few};
use orc_stats::Stat;
use orc_tail::{MOST_BYTES, MOST_ROWS, MOST_STRIPES, Tail, file_statistics};
use orc_wire::{Items, StripeInfo, UserMetadataItem};
use std::alloc::{AllocError, Global};
use std::mem;

/// The greatest offset at which a file's stripes may end.
const LAST_PLACE: u64 = 3 + MOST_BYTES;

/// The parts of an input's tail that are joined with those of other inputs.
#[derive(Drop)]
pub(crate) struct Lists {
    stripes: Vec<StripeInfo>,
    stripe_stats: Vec<Items<Stat>>,
    user: Vec<UserMetadataItem>,
    rows: u64,
}

/// Takes all items out of a list, which is empty then.
fn taken<T: Drop>(alloc: Global, items: &mut Items<T>) -> Vec<T>
    ensures taken { result.items ≡ items.old }
    ensures left { items.new ≡ [] }
{
    mem::replace(items, Items::from_vec(Vec::new(alloc))).into_vec()
}

/// Takes the parts that are joined out of a tail. The tail has no stripes, no stripe statistics and no user metadata
/// then.
pub(crate) fn take_lists(alloc: Global, tail: &mut Tail) -> Lists
    ensures lists { AreListsOf tail.old result }
    ensures left { tail.new ≡ without_joined tail.old }
{
    Lists {
        stripes: taken(alloc, &mut tail.stripes),
        stripe_stats: taken(alloc, &mut tail.stripe_stats),
        user: taken(alloc, &mut tail.user),
        rows: tail.rows,
    }
}

/// Returns whether there are statistics of `stripes` stripes, each of `columns` columns.
fn has_statistics(stripes: usize, columns: usize, stats: &[Items<Stat>]) -> bool
    ensures yes { OnTrue result ((length stats.now ≡ stripes)
        × AllByRecursion (λ (xs : List Stat). length xs ≡ columns) stats.now) }
    ensures no { OnFalse result ((length stats.now ≡ stripes)
        × AllByRecursion (λ (xs : List Stat). length xs ≡ columns) stats.now → ⊥) }
{
    if stats.len() != stripes {
        return false;
    }
    for stripe in stats {
        if stripe.as_slice().len() != columns {
            return false;
        }
    }
    true
}

/// Appends items to a vector.
fn append<T: Drop>(items: &mut Vec<T>, more: Vec<T>) -> Result<(), AllocError>
    ensures { OnOk result (items.new.items ≡ items.old.items ++ more.items) }
{
    for item in more {
        items.push(item)?;
    }
    Ok(())
}

/// What the inputs that were added so far have together.
#[derive(Drop)]
pub(crate) struct Gathered {
    /// The first input's tail, without the parts that are joined.
    pub first: Tail,
    /// Where the stripes are in the inputs.
    pieces: Vec<Piece>,
    stripes: Vec<StripeInfo>,
    stripe_stats: Vec<Items<Stat>>,
    user: UserPairs,
    rows: u64,
    /// The offset after the last stripe in the merged file.
    end: u64,
    /// The number of values of each column.
    counts: Vec<u64>,
}

impl Gathered {
    /// Makes an empty `Gathered` with what the merged file has of the first input alone.
    pub fn new(alloc: Global, first: Tail) -> Gathered
        ensures { (tail : Tail) → first ≡ without_joined tail → HasGathered tail [] result }
    {
        Gathered {
            first,
            pieces: Vec::new(alloc),
            stripes: Vec::new(alloc),
            stripe_stats: Vec::new(alloc),
            user: UserPairs::new(alloc),
            rows: 0,
            end: 3,
            counts: Vec::new(alloc),
        }
    }

    /// Adds stripes, rows and values. Fails with `Limit(number)` if a limit is exceeded, and with `OutOfMemory`.
    fn add_stripes(
        &mut self,
        number: usize,
        stripes: &[StripeInfo],
        rows: u64,
        stats: &[Items<Stat>],
    ) -> Result<(), MergeFault>
        requires end { self.old.end ≤ 3 + most_bytes }
        requires rows { self.old.rows ≤ most_rows }
        requires more_bytes { stripes_length stripes.now ≤ most_bytes }
        requires more_rows { rows ≤ most_rows }
        ensures stripes { OnOk result
            (self.new.stripes.items ≡ self.old.stripes.items ++ placed self.old.end stripes.now) }
        ensures end { OnOk result (self.new.end ≡ self.old.end + stripes_length stripes.now) }
        ensures rows { OnOk result (self.new.rows ≡ self.old.rows + rows) }
        ensures pieces { OnOk result (self.new.pieces.items ≡ self.old.pieces.items ++ pieces_in number stripes.now) }
        ensures counts { OnOk result ((before : List (List Stat)) → AreCounts self.old.counts.items before
            → AreCounts self.new.counts.items (before ++ stats.now)) }
        ensures limits { OnOk result ((before : List (List Stat)) → AreCounts self.old.counts.items before
            → AreFewTogether (length self.new.stripes.items) self.new.end self.new.rows (before ++ stats.now)) }
        ensures others { (self.new.first ≡ self.old.first)
            × (self.new.user ≡ self.old.user)
            × (self.new.stripe_stats ≡ self.old.stripe_stats) }
        ensures fault { IfErr result (λ e. (e ≡ fault.OutOfMemory)
            ⊎ ((e ≡ fault.Limit number) × ((before : List (List Stat)) → AreCounts self.old.counts.items before
            → AreFewTogether (length self.old.stripes.items + length stripes.now)
            (self.old.end + stripes_length stripes.now)
            (self.old.rows + rows) (before ++ stats.now) → ⊥))) }
    {
        let end = place_stripes(&mut self.stripes, self.end, stripes)?;
        let rows = self.rows + rows;
        add_counts(&mut self.counts, stats)?;
        if self.stripes.len() > MOST_STRIPES || end > LAST_PLACE || rows > MOST_ROWS {
            return Err(MergeFault::Limit(number));
        }
        if !are_few(&self.counts) {
            return Err(MergeFault::Limit(number));
        }
        add_pieces(&mut self.pieces, number, stripes)?;
        self.end = end;
        self.rows = rows;
        Ok(())
    }

    /// Adds the input with this number. After an error, what was gathered must not be used.
    ///
    /// # Errors
    ///
    /// `UserMetadataConflict`, `NoStripeStatistics` or `Limit`, the first of these tests that fails, with `number`;
    /// or `OutOfMemory`.
    pub fn add(&mut self, alloc: Global, number: usize, lists: Lists) -> Result<(), MergeFault>
        requires end { self.old.end ≤ 3 + most_bytes }
        requires rows { self.old.rows ≤ most_rows }
        requires more_bytes { stripes_length lists.stripes.items ≤ most_bytes }
        requires more_rows { lists.rows ≤ most_rows }
        ensures gathered { OnOk result ((first tail : Tail) (tails : List Tail)
            → IsNext first tails tail number lists self.old
            → HasGathered first (tails ++ tail ∷ []) self.new) }
        ensures merges { OnOk result ((first tail : Tail) (tails : List Tail)
            → IsNext first tails tail number lists self.old
            → CanMerge first (tails ++ tail ∷ [])) }
        ensures fault { IfErr result (λ e. (e ≡ fault.OutOfMemory)
            ⊎ ((first tail : Tail) (tails : List Tail) → IsNext first tails tail number lists self.old
            → NextJoinFault number first tail (tails ++ tail ∷ []) e)) }
    {
        let Lists {
            stripes,
            stripe_stats,
            user,
            rows,
        } = lists;
        self.user.add_pairs(alloc, number, user)?;
        if !has_statistics(stripes.len(), self.first.schema.width(), &stripe_stats) {
            return Err(MergeFault::NoStripeStatistics(number));
        }
        self.add_stripes(number, &stripes, rows, &stripe_stats)?;
        append(&mut self.stripe_stats, stripe_stats)?;
        Ok(())
    }

    /// Returns the merged file's tail, and where its stripes are in the inputs. Fails only with `OutOfMemory`.
    pub fn finish(self, alloc: Global) -> Result<(Tail, Vec<Piece>), MergeFault>
        requires { (c : ℕ) → c < width self.first.schema
            → All (λ (s : Stat). body_is_of (kind_at self.first.schema c) s.body ≡ true)
            (column_stats c self.stripe_stats.items) }
        ensures tail { IfOk result (λ found. (first : Tail) (tails : List Tail)
            → HasGathered first tails self
            → found.0 ≡ merged first tails) }
        ensures pieces { IfOk result (λ found. (first : Tail) (tails : List Tail)
            → HasGathered first tails self
            → found.1.items ≡ pieces_of 0 tails) }
        ensures fault { IfErr result (λ e. e ≡ fault.OutOfMemory) }
    {
        let Gathered {
            first,
            pieces,
            stripes,
            stripe_stats,
            user,
            rows,
            end: _,
            counts: _,
        } = self;
        let file_stats = match file_statistics(alloc, &first.schema, &stripe_stats) {
            Ok(file_stats) => file_stats,
            // `add` tested each input for too many values
            Err(_) => return Err(MergeFault::OutOfMemory),
        };
        let tail = Tail {
            version: first.version,
            writer: first.writer,
            writer_version: first.writer_version,
            schema: first.schema,
            stripes: Items::from_vec(stripes),
            stripe_stats: Items::from_vec(stripe_stats),
            file_stats: Items::from_vec(file_stats),
            user: Items::from_vec(user.into_pairs()),
            stride: first.stride,
            rows,
            other: first.other,
        };
        Ok((tail, pieces))
    }
}
