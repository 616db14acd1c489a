//! What holds of walks. Each function here does nothing: its contract is what is proved.

ghost use Rattle.crossing_map.specs.Theorems.{BreaksAtWords, EndsWithWalk, FirstIsNext, WalksFromStart};
ghost use Rattle.crossing_map.specs.Worked.{IsWorkedOut};

/// What [`walk_next`](crate::walk_next) comes to is the next item of the walk that the heap's state defines.
pub fn walk_next_is_next_in_walk()
    ensures whole { WalksFromStart }
    ensures first { FirstIsNext }
    ensures ended { EndsWithWalk }
    ensures broken { BreaksAtWords }
{}

/// A small heap, worked out by hand: walks over new and old records, a reserved place, a page that isn't open, and what breaks a
/// walk.
pub fn worked_spaces_are_walked()
    ensures { IsWorkedOut }
{}
