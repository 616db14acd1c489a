//! What holds of the machine by its table. Each function here does nothing: its contract is what is proved.

ghost use Rattle.cell_walk.specs.Theorems.{ChainsAreWalked, EndsInTime, GoesAlongLinks, GoesOn, IsWorkedOut, LooksWhereTargetsLead, OthersShowIt, ReplacesByFirstWords, StaysSound, StoresOnlyTargets, TargetsArePassed, TurnsAreWon};

/// A small heap, worked out by hand: a chain of two cells and the words after it, cells whose targets stay, no cells, and a turn
/// that another worker has or takes first.
pub fn worked_chain_is_walked()
    ensures { IsWorkedOut }
{}

/// A worker walks only if it has won the turn, from the word of an earlier epoch. Else the turn's word shows why not.
pub fn turns_are_taken_by_exchange()
    ensures won { TurnsAreWon }
    ensures others { OthersShowIt }
{}

/// Whatever others do meanwhile, a target is replaced only if it was read to lead into the old space, by what was read there, and
/// the walk goes on along the cell's link.
pub fn targets_are_replaced_once()
    ensures stores_only_targets { StoresOnlyTargets }
    ensures looks_where_targets_lead { LooksWhereTargetsLead }
    ensures replaces_by_first_words { ReplacesByFirstWords }
    ensures goes_along_links { GoesAlongLinks }
{}

/// Nothing holds a walk up, whatever words its steps meet.
pub fn walks_go_on()
    ensures goes_on { GoesOn }
    ensures ends_in_time { EndsInTime }
{}

/// What a walk knows of itself it knows after each reply, if links lead to cells of the heap.
pub fn walks_stay_sound()
    ensures { StaysSound }
{}

/// Where nobody else changes words, and the links lead once through cells that lie apart, a walk passes all of them: each target
/// is as it should be, and no other word has changed but the turn.
pub fn chains_are_walked()
    ensures walked { ChainsAreWalked }
    ensures targets { TargetsArePassed }
{}
