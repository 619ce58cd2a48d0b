//! Lists of items and of bytes, as messages hold them.
ghost use Rattle.std.specs.Prelude.{◌≡◌, [], ◌∷◌, ◌++◌, OnOk, OnErr, IfErr};
ghost use Rattle.orc_wire.specs.declared.fault.WireFault.TheVariants.{OutOfMemory};

use crate::fault::WireFault;
use std::alloc::Global;
use std::marker::Model;

/// The items of a field that may hold several, in order. Contracts see them as a list.
#[derive(Debug, Drop)]
pub struct Items<T> {
    items: Vec<T>,
}

impl<T> Model for Items<T> {
    ghost use Rattle.std.specs.Prelude.{List};

    ghost Value = { List T };

    ghost view = { λ i. i.items.items };
}

/// Bytes, as a text or as fields that are kept as they stood.
pub type Bytes = Items<u8>;

impl<T: Drop> Items<T> {
    /// The items of a vector. It takes no memory.
    pub fn from_vec(items: Vec<T>) -> Items<T>
        // The items are those of the vector, in order.
        ensures { result ≡ items.items }
    {
        Items { items }
    }

    /// A vector of the items. It takes no memory.
    pub fn into_vec(self) -> Vec<T>
        // The vector holds the items, in order.
        ensures { result.items ≡ self }
    {
        self.items
    }

    /// The items, lent. It takes no memory.
    pub fn as_slice(&self) -> &[T]
        // The slice holds the items, in order.
        ensures { result.now ≡ self.now }
    {
        &self.items
    }

    /// No items yet. It takes no memory.
    pub(crate) fn empty(alloc: Global) -> Items<T>
        ensures { result ≡ [] }
    {
        Items {
            items: Vec::new(alloc),
        }
    }

    /// Puts an item at the end. A refusal leaves the items as they were.
    pub(crate) fn push(&mut self, item: T) -> Result<(), WireFault>
        ensures ok { OnOk result (self.new ≡ self.old ++ item ∷ []) }
        ensures refused { IfErr result (λ fault. fault ≡ OutOfMemory) }
        ensures err { OnErr result (self.new ≡ self.old) }
    {
        self.items.push(item)?;
        Ok(())
    }
}

impl Bytes {
    /// Puts the bytes at the end. A refusal leaves the items as they were.
    pub(crate) fn append(&mut self, bytes: &[u8]) -> Result<(), WireFault>
        ensures ok { OnOk result (self.new ≡ self.old ++ bytes.now) }
        ensures refused { IfErr result (λ fault. fault ≡ OutOfMemory) }
        ensures err { OnErr result (self.new ≡ self.old) }
    {
        self.items.extend_from_slice(bytes)?;
        Ok(())
    }

    /// Has these bytes alone from now on.
    pub(crate) fn replace(&mut self, bytes: &[u8]) -> Result<(), WireFault>
        ensures ok { OnOk result (self.new ≡ bytes.now) }
        ensures refused { IfErr result (λ fault. fault ≡ OutOfMemory) }
    {
        self.items.clear();
        self.items.extend_from_slice(bytes)?;
        Ok(())
    }
}
