//! A table of bounded size that remembers a value for a whole position and a tag.
//!
//! Where it is full, what was used longest ago goes. So a value may be gone, and nothing may rest on finding it; but what
//! is found is what was kept last under this key and this tag.
#![tactic(auto)]

ghost use Rattle.std.specs.Prelude.{◌≡◌, ◌<◌, [], IsSome, IsOk, OnOk, OnErr, IfOk};
ghost use Rattle.position_table.specs.Remembering.{value_under, looked_up, kept};

use crate::PackedPosition;
use lru::LruCache;
use std::alloc::{AllocError, Global};
use std::marker::Model;
use std::num::NonZeroUsize;

/// A table of bounded size, seen by contracts as the list of its entries, the latest used first.
#[derive(Drop)]
pub struct WholeTable<V: Copy> {
    cache: LruCache<(PackedPosition, u32), V>,
}

impl<V: Copy> Model for WholeTable<V> {
    ghost use Rattle.position_table.specs.Remembering.{Remembered};

    ghost Value = { Remembered V };

    ghost view = { λ t. record { entries = t.cache.entries; capacity = t.cache.cap } };
}

impl<V: Copy> WholeTable<V> {
    /// An empty table of this capacity, which is at least 1. It takes memory as entries come, since a small search keeps few of them.
    /// `Err` says that memory ran out.
    pub fn new(alloc: Global, capacity: u32) -> Result<WholeTable<V>, AllocError>
        requires capacity { 0 < capacity }
        ensures empty { IfOk result (λ t. t ≡ record { entries = []; capacity = capacity }) }
    {
        let cap = NonZeroUsize::new(capacity as usize).unwrap();
        Ok(WholeTable {
            cache: LruCache::sparse(alloc, cap)?,
        })
    }

    /// The value under this key and tag, if it is remembered. Its entry becomes the latest used.
    pub fn find(&mut self, key: &PackedPosition, tag: u32) -> Option<V>
        ensures value { result ≡ value_under (key.now, tag) self.old }
        ensures entries { self.new ≡ looked_up (key.now, tag) self.old }
    {
        self.cache.get(&(*key, tag)).copied()
    }

    /// Keeps the value under this key and tag, in the place of a value that was kept under them. Where the capacity would
    /// be passed, the entry goes that was used longest ago. `Err` says that memory ran out, which is not so where an entry
    /// of this key and tag is held; the entries are then as they were.
    pub fn keep(&mut self, key: PackedPosition, tag: u32, value: V) -> Result<(), AllocError>
        ensures kept { OnOk result (self.new ≡ kept (key, tag) value self.old) }
        ensures refused { OnErr result (self.new ≡ self.old) }
        ensures held { IsSome (value_under (key, tag) self.old) → IsOk result }
    {
        prove!(self.cache.len() <= self.cache.cap().get());
        self.cache.put((key, tag), value)?;
        Ok(())
    }
}
