//! The list of the entries of a book. Contracts see it as that list.
#![tactic(auto)]

ghost use Rattle.std.specs.Prelude.{◌≡◌, ◌↔◌, ◌<◌, [], ◌∷◌, ◌++◌, length, slice_get, Some, OnOk, OnErr, IsTrue};

use crate::Entry;
use std::alloc::{AllocError, Global};
use std::marker::Model;

/// Entries in the order in which they were added.
#[derive(Drop)]
pub struct Entries {
    items: Vec<Entry>,
}

impl Model for Entries {
    ghost use Rattle.std.specs.Prelude.{List};
    ghost use Rattle.table_book.specs.declared.Entry.{Entry};

    ghost Value = { List Entry };

    ghost view = { λ e. e.items.items };
}

impl Entries {
    /// No entries. It takes no memory.
    pub fn new(alloc: Global) -> Self
        ensures empty { result ≡ [] }
    {
        Entries {
            items: Vec::new(alloc),
        }
    }

    /// How many entries there are.
    pub fn len(&self) -> usize
        ensures count { result ≡ length self.now }
    {
        self.items.len()
    }

    /// Whether there are none.
    pub fn is_empty(&self) -> bool
        ensures empty { IsTrue result ↔ (self.now ≡ []) }
    {
        self.items.is_empty()
    }

    /// Entry `i`, counted from 0.
    pub fn at(&self, i: usize) -> &Entry
        requires in_list { i < length self.now }
        ensures item { slice_get self.now i ≡ Some result.now }
    {
        &self.items[i]
    }

    /// The entries as a slice.
    pub fn as_slice(&self) -> &[Entry]
        ensures items { result.now ≡ self.now }
    {
        self.items.as_slice()
    }

    /// The entries as a vector, in their order.
    pub(crate) fn into_items(self) -> Vec<Entry>
        ensures items { result.items ≡ self }
    {
        let Entries { items } = self;
        items
    }

    /// Adds the entry at the end. After an `Err` the list is as it was, and the entry is gone.
    pub fn push(&mut self, item: Entry) -> Result<(), AllocError>
        ensures pushed { OnOk result (self.new ≡ self.old ++ item ∷ []) }
        ensures unchanged { OnErr result (self.new ≡ self.old) }
    {
        self.items.push(item)?;
        Ok(())
    }
}
