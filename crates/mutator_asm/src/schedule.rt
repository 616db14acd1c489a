//! The order in which workers make their steps.

ghost use Rattle.std.specs.Prelude.{◌≡◌, ◌==◌, length};

use crate::item::Item;
use std::marker::Model;

/// The items of a schedule in order. Contracts see their list.
#[derive(Debug, Drop)]
pub struct Schedule {
    items: Vec<Item>,
}

impl Model for Schedule {
    ghost use Rattle.std.specs.Prelude.{List};
    ghost use Rattle.mutator_asm.specs.declared.item.Item.{Item};

    ghost Value = { List Item };

    ghost view = { λ s. s.items.items };
}

impl Schedule {
    /// The schedule of these items.
    pub fn new(items: Vec<Item>) -> Schedule
        ensures { result ≡ items.items }
    {
        Schedule { items }
    }

    /// Gives the items back.
    pub fn into_items(self) -> Vec<Item>
        ensures { result.items ≡ self }
    {
        self.items
    }

    /// The items in order.
    pub fn as_slice(&self) -> &[Item]
        ensures { result.now ≡ self.now }
    {
        self.items.as_slice()
    }

    /// How many items there are.
    pub fn len(&self) -> usize
        ensures { result ≡ length self.now }
    {
        self.items.len()
    }

    /// Whether there is none.
    pub fn is_empty(&self) -> bool
        ensures { result ≡ (length self.now == 0) }
    {
        self.items.is_empty()
    }
}
