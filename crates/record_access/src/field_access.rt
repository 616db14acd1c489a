/// What stands at a word of a record.
#[derive(Clone, Copy)]
pub enum Role {
    /// A number or a pointer, with its tag.
    Field,
    /// A plain number.
    Number,
    /// The target of a cell, which is loaded once the epoch is traced.
    Target,
}

impl Role {
    ghost use Rattle.std.specs.Prelude.{◌≡◌};
    ghost use Rattle.record_access.specs.Access.{is_target};

    pub fn is_target(self) -> bool
        ensures { result ≡ is_target self }
    {
        matches!(self, Role::Target)
    }
}

/// A word of a record whose header was read.
#[derive(Clone, Copy)]
pub struct FieldAccess {
    /// The record's address.
    pub at: u32,
    /// The word at which its values begin, counted from the header.
    pub first: u32,
    /// The word that is accessed.
    pub word: u32,
    pub role: Role,
}

/// The exchange of what stands there for another, if it is what is expected.
#[derive(Clone, Copy)]
pub struct FieldExchange {
    /// The register that gets 1 if it was, else 0.
    pub into: u8,
    /// The word that a register has of what is expected.
    pub expected: u64,
    /// What takes its place.
    pub new: u64,
}

/// What is done with it.
#[derive(Clone, Copy)]
pub enum FieldUse {
    /// This register gets what stands there.
    Loads(u8),
    /// This will stand there.
    Stores(u64),
    Compares(FieldExchange),
}

impl FieldUse {
    ghost use Rattle.std.specs.Prelude.{◌≡◌};
    ghost use Rattle.record_access.specs.Access.{with_new};

    /// The same use with this as the word that a store or an exchange writes.
    #[inline(always)]
    pub fn with_new(self, new: u64) -> FieldUse
        ensures { result ≡ with_new self new }
    {
        match self {
            FieldUse::Loads(into) => FieldUse::Loads(into),
            FieldUse::Stores(_) => FieldUse::Stores(new),
            FieldUse::Compares(e) => FieldUse::Compares(FieldExchange { new, ..e }),
        }
    }
}
