//! A record of the plain heap.

ghost use Rattle.std.specs.Prelude.{◌≡◌, IfOk};

use plain_state::{End, Kind, NoMemory, Value};
use std::alloc::Global;
use std::marker::Model;

/// A record: its kind, and its words in order. Contracts see it so.
#[derive(Debug, Drop)]
pub struct PlainRecord {
    kind: Kind,
    values: Vec<Value>,
}

impl Model for PlainRecord {
    ghost use Rattle.plain_state.specs.State.{Record};

    ghost Value = { Record };

    ghost view = { λ r. record { kind = r.kind; values = r.values.items } };
}

impl PlainRecord {
    ghost use Rattle.std.specs.Prelude.{length, slice_get};
    ghost use Rattle.plain_state.specs.Cells.{is_cell, value_of_cell};
    ghost use Rattle.plain_state.specs.Layout.{is_field, word_of_value};
    ghost use Rattle.plain_state.specs.Writing.{with_value};
    ghost use Rattle.plain_heap.specs.Call.{may_hold, filled};

    /// A record of so many words, each of them this value.
    pub fn new(alloc: Global, kind: Kind, len: usize, value: Value) -> Result<PlainRecord, NoMemory>
        ensures { IfOk result (λ r. r ≡ filled kind len value) }
    {
        let values = vec![in alloc; value; len]?;
        Ok(PlainRecord { kind, values })
    }

    /// The same record once more.
    pub fn copy(&self, alloc: Global) -> Result<PlainRecord, NoMemory>
        ensures { IfOk result (λ r. r ≡ self.now) }
    {
        let values = self.values.to_vec(alloc)?;
        Ok(PlainRecord {
            kind: self.kind,
            values,
        })
    }

    pub fn kind(&self) -> Kind
        ensures { result ≡ self.now.kind }
    {
        self.kind
    }

    pub fn len(&self) -> usize
        ensures { result ≡ length self.now.values }
    {
        self.values.len()
    }

    /// The values in order.
    pub fn values(&self) -> &[Value]
        ensures { result.now ≡ self.now.values }
    {
        self.values.as_slice()
    }

    /// The value, if the record is a cell.
    pub fn target(&self) -> Option<Value>
        ensures { result ≡ value_of_cell self.now }
    {
        if !self.is_cell() {
            return None;
        }
        self.values.first().copied()
    }

    /// Whether the word of a number is a field.
    pub fn is_field(&self, x: usize) -> bool
        ensures { result ≡ is_field self.now.kind (word_of_value self.now.kind x) }
    {
        match self.kind {
            Kind::Fields => true,
            Kind::Mixed(count) => x < usize::from(count),
            Kind::Raw | Kind::Weak => false,
        }
    }

    /// The word of a number, counted from 0.
    pub fn word(&self, x: u64) -> Option<Value>
        ensures { result ≡ slice_get self.now.values x }
    {
        self.values.get(x as usize).copied()
    }

    /// Whether it is a cell, of which no word is loaded or stored.
    pub fn is_cell(&self) -> bool
        ensures { result ≡ is_cell self.now.kind }
    {
        matches!(self.kind, Kind::Weak)
    }

    /// The value, where a record of this kind may hold it in word `x`.
    pub fn admit(&self, x: u64, value: Value) -> Result<Value, End>
        ensures { result ≡ may_hold self.now.kind x value }
    {
        match (self.kind, value) {
            (Kind::Weak, _) => Err(End::WeakCell),
            (Kind::Raw, Value::Reference(_)) => Err(End::IntoRaw),
            (Kind::Mixed(count), Value::Reference(_)) if x >= u64::from(count) => Err(End::IntoRaw),
            _ => Ok(value),
        }
    }

    /// Puts a value into a word. Where there is no such word, nothing changes.
    pub fn set_word(&mut self, x: u64, value: Value)
        ensures { self.new ≡ with_value self.old x value }
    {
        if let Some(word) = self.values.get_mut(x as usize) {
            *word = value;
        }
    }
}
