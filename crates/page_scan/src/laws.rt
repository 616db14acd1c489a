//! What holds of the machine by its table. Each function here does nothing: its contract is what is proved.

ghost use Rattle.page_scan.specs.Theorems.{AsksAtWords, AsksOfPointers, CursorRises, EndsInPlace, GoesOn, IsWorkedOut, ScansBoards, ScansPages, StoresOnlyAnswers, WorkedArePacked};

/// A small heap, worked out by hand: scans of the board, of the filling page, and of a full page over whose first word a
/// record lies that begins on the page before.
pub fn worked_pages_are_scanned()
    ensures { IsWorkedOut }
{}

/// The scan stores nothing but the pointers to what it was answered, asks exactly of the pointers into the old space among the
/// words that it looks at, and looks at none twice.
pub fn each_word_is_looked_at_once()
    ensures stores_only_answers { StoresOnlyAnswers }
    ensures asks_of_pointers { AsksOfPointers }
    ensures asks_at_words { AsksAtWords }
    ensures cursor_rises { CursorRises }
    ensures ends_in_place { EndsInPlace }
{}

/// Where nobody else changes words, and records lie packed on the page, a scan that has ended has replaced each pointer into the
/// old space on it, and changed no other word.
pub fn pages_are_scanned()
    ensures pages { ScansPages }
    ensures boards { ScansBoards }
    ensures some_pages { WorkedArePacked }
{}

/// Nothing holds a scan up but a word that can't be there, whatever words its steps meet.
pub fn scans_go_on()
    ensures { GoesOn }
{}
