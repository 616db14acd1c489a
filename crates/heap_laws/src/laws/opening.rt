//! The heap before its first step.

ghost use Rattle.heap_laws.specs.Opening.{OpeningStands};

/// The opening table with its workers keeps the invariant, and shows the plain state in which nothing was made yet. What a
/// cycle keeps that begins there is kept, too.
pub fn opening_stands()
    ensures { OpeningStands }
{}
