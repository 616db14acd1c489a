//! A record of the checkpoint.

ghost use Rattle.std.specs.Prelude.{◌≡◌};
ghost use Rattle.checkpoint_text.specs.Records.{denoted_count, field_count, first_value, words_after, words_before};

use heap_words::Kind;
use plain_state::Identity;

/// A record, where it stands.
#[derive(Clone, Copy, Debug, PartialEq, Eq)]
pub struct SavedRecord {
    /// The address of its header.
    pub address: u32,
    pub identity: Identity,
    pub kind: Kind,
    /// How many of its values, from the first, are fields. In a mixed record it is what word 1 says.
    pub fields: u64,
    /// How many values it has.
    pub len: u16,
}

impl SavedRecord {
    /// The address of its first value.
    pub fn first_value(self) -> u64
        ensures { result ≡ first_value self }
    {
        u64::from(self.address) + u64::from(words_before(self.kind))
    }

    /// How many of its words are fields.
    pub fn field_count(self) -> u64
        ensures { result ≡ field_count self }
    {
        self.fields.min(u64::from(self.len))
    }

    /// How many of its values, from the first, are denoted by their words as in fields. The target of a cell
    /// is one of these, though it isn't a field.
    pub fn denoted_count(self) -> u64
        ensures { result ≡ denoted_count self }
    {
        match self.kind {
            Kind::Fields | Kind::Raw | Kind::Mixed => self.fields,
            Kind::Weak => 1,
        }
    }
}

/// How many words stand before the first value of a record.
pub fn words_before(kind: Kind) -> u16
    ensures { result ≡ words_before kind }
{
    match kind {
        Kind::Fields | Kind::Raw | Kind::Weak => 1,
        Kind::Mixed => 2,
    }
}

/// And how many behind the last one.
pub fn words_after(kind: Kind) -> u16
    ensures { result ≡ words_after kind }
{
    match kind {
        Kind::Fields | Kind::Raw | Kind::Mixed => 0,
        Kind::Weak => 1,
    }
}
