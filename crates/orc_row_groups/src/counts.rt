//! What is counted of the cells of a column before a group.
ghost use Rattle.std.specs.Prelude.{◌≡◌};

/// The number of cells, of those that are not null, and of the bytes of the texts and byte strings among them, which
/// are counted up to 2^64 - 1.
#[derive(Clone, Copy)]
pub struct Counts {
    /// How many cells there are.
    pub cells: usize,
    /// How many of the cells are not null.
    pub values: usize,
    /// How many bytes their texts and byte strings have, or 2^64 - 1 if there are more.
    pub octets: usize,
}

impl Counts {
    /// Returns the counts of no cells.
    pub fn none() -> Counts
        // All three returned counts are 0.
        ensures { (result.cells ≡ 0) × (result.values ≡ 0) × (result.octets ≡ 0) }
    {
        Counts {
            cells: 0,
            values: 0,
            octets: 0,
        }
    }
}
