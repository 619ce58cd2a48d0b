//! The user metadata of the merged file: one pair for each name.
ghost use Rattle.std.specs.Prelude.{◌≡◌, ◌≢◌, ◌⊎◌, ◌++◌, ◌∷◌, [], List, IfErr, OnOk, IfSome, IfNone, Contains, All};
ghost use Rattle.orc_wire.specs.declared.footer.UserMetadataItem.{UserMetadataItem};
ghost use Rattle.orc_merger.specs.declared.fault.MergeFault.TheVariants as fault;
ghost use Rattle.orc_merger.specs.Merging.{Agree};
ghost use Rattle.orc_merger.specs.PairPlaces.{ArePairPlaces};
ghost use Rattle.orc_merger.specs.Gathering.{HasPairs};

use crate::differing::is_same;
use crate::fault::MergeFault;
use orc_wire::UserMetadataItem;
use std::alloc::{AllocError, Global};
use std::collections::BTreeMap;

/// Pairs of distinct names, in the order in which they were added, and for each name the index of its pair. The map
/// is ordered by names: with a hash map, somebody could choose names with the same hash and make it slow.
#[derive(Drop)]
pub(crate) struct UserPairs {
    pairs: Vec<UserMetadataItem>,
    places: BTreeMap<Vec<u8>, usize>,
}

impl UserPairs {
    /// Makes an empty list of pairs.
    pub fn new(alloc: Global) -> UserPairs
        ensures { HasPairs [] result }
    {
        UserPairs {
            pairs: Vec::new(alloc),
            places: BTreeMap::new(alloc),
        }
    }

    /// Returns the pair with this name, if there is one.
    fn find(&self, name: &[u8]) -> Option<&UserMetadataItem>
        ensures found { ArePairPlaces self.now.pairs.items self.now.places → IfSome result
            (λ pair. Contains self.now.pairs.items pair.now × (pair.now.name ≡ name.now)) }
        ensures none { ArePairPlaces self.now.pairs.items self.now.places → IfNone result
            (All (λ (pair : UserMetadataItem). pair.name ≢ name.now) self.now.pairs.items) }
    {
        match self.places.get(name) {
            Some(place) => self.pairs.as_slice().get(*place),
            None => None,
        }
    }

    /// Appends a pair, whose name must be new.
    fn push(&mut self, alloc: Global, pair: UserMetadataItem) -> Result<(), AllocError>
        ensures pairs { OnOk result (self.new.pairs.items ≡ self.old.pairs.items ++ pair ∷ []) }
        ensures places { OnOk result (ArePairPlaces self.old.pairs.items self.old.places
            → ArePairPlaces self.new.pairs.items self.new.places) }
    {
        let name = Vec::from_slice(alloc, pair.name.as_slice())?;
        let place = self.pairs.len();
        self.places.insert(name, place)?;
        self.pairs.push(pair)?;
        Ok(())
    }

    /// Adds a pair if its name is new. Fails with `UserMetadataConflict(number)` if a pair with the same name has
    /// another value.
    fn add_pair(
        &mut self,
        alloc: Global,
        number: usize,
        pair: UserMetadataItem,
    ) -> Result<(), MergeFault>
        ensures added { OnOk result ((before : List UserMetadataItem) → HasPairs before self.old
            → HasPairs (before ++ pair ∷ []) self.new) }
        ensures fault { IfErr result (λ e. (e ≡ fault.OutOfMemory)
            ⊎ ((e ≡ fault.UserMetadataConflict number)
            × ((before more : List UserMetadataItem) → HasPairs before self.old
            → Agree (before ++ pair ∷ more) → ⊥))) }
    {
        match self.find(pair.name.as_slice()) {
            None => {
                self.push(alloc, pair)?;
                Ok(())
            }
            Some(same) => {
                if is_same(pair.value.as_slice(), same.value.as_slice()) {
                    Ok(())
                } else {
                    Err(MergeFault::UserMetadataConflict(number))
                }
            }
        }
    }

    /// Adds those pairs of the input with this number whose names are new. Fails with `UserMetadataConflict(number)`
    /// if a pair with the same name as another has another value.
    pub fn add_pairs(
        &mut self,
        alloc: Global,
        number: usize,
        more: Vec<UserMetadataItem>,
    ) -> Result<(), MergeFault>
        ensures added { OnOk result ((before : List UserMetadataItem) → HasPairs before self.old
            → HasPairs (before ++ more.items) self.new) }
        ensures fault { IfErr result (λ e. (e ≡ fault.OutOfMemory)
            ⊎ ((e ≡ fault.UserMetadataConflict number)
            × ((before : List UserMetadataItem) → HasPairs before self.old → Agree (before ++ more.items) → ⊥))) }
    {
        for pair in more {
            match self.add_pair(alloc, number, pair) {
                Ok(()) => {}
                Err(fault) => return Err(fault),
            }
        }
        Ok(())
    }

    /// Returns the pairs, in the order in which they were added.
    pub fn into_pairs(self) -> Vec<UserMetadataItem>
        ensures { result ≡ self.pairs }
    {
        let UserPairs { pairs, places: _ } = self;
        pairs
    }
}
