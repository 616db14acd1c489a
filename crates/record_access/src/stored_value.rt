//! What stands at a value of a record, by its header's word alone.

ghost use Rattle.std.specs.Prelude.{◌≡◌, IfSome};
ghost use Rattle.record_access.specs.StoredValue.{HasStored, role_in};

use crate::field_access::Role;
use heap_words::Kind;
use record_layout::read;

/// What stands at each value of a record of this kind, if it is of fields or of plain numbers alone.
fn role_in(kind: Kind) -> Option<Role>
    ensures { result ≡ role_in kind }
{
    match kind {
        Kind::Fields => Some(Role::Field),
        Kind::Raw => Some(Role::Number),
        Kind::Mixed | Kind::Weak => None,
    }
}

/// What stands at a value of the record whose header's word this is, if it has that value, behind its header, and it is no target of a
/// cell. A word that is no header has none.
#[tactic(auto, using(crate::proofs::StoredValues::has_stored))]
#[inline(always)]
pub fn role_stored(word: u64, value: u64) -> Option<Role>
    ensures { IfSome result (HasStored word value) }
{
    let header = read(word)?;
    let role = role_in(header.kind)?;
    if value < u64::from(header.len) {
        Some(role)
    } else {
        None
    }
}
