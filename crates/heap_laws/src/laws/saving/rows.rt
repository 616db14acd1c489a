//! The laws of rows that a checkpoint in progress doesn't own, and of what is read of it. Each function here does nothing: its
//! contract is what is proved.

ghost use Rattle.heap_state.specs.Theorems.Saves.{SavesStay, NumbersAreStored, SavesAreStored};
ghost use Rattle.heap_laws.specs.Saving.Rows.{
  RowsAreSpared,
  SaverChanges,
  StepsAreSpared,
  SettledMayFlip,
  FlipsAreSpared,
  PassedRoundsHaveSaved,
  SavesOpen,
};
ghost use Rattle.heap_laws.specs.Saving.Stores.{SavesAreRead, BlankWordsSaveNothing, SavesFollow};

/// A store that spares the checkpoints leaves what is kept of them.
pub fn rows_are_spared()
    ensures { RowsAreSpared }
{}

/// A worker becomes another that knows what is so of checkpoints, also by a step that stores in a row that spares them.
pub fn savers_change()
    ensures alone { SaverChanges }
    ensures steps { StepsAreSpared }
{}

/// Who has found that no checkpoint is in progress, and is alone, may flip; and a flip leaves what is kept of checkpoints.
pub fn flips_are_spared()
    ensures ready { SettledMayFlip }
    ensures spared { FlipsAreSpared }
{}

/// Where a round has passed all pages, all of its checkpoint are saved.
pub fn passed_rounds_have_saved()
    ensures { PassedRoundsHaveSaved }
{}

/// Before the first checkpoint what is kept of checkpoints holds.
pub fn saves_open()
    ensures { SavesOpen }
{}

/// A store in a row of the table leaves what is said of checkpoints, and one in a row of theirs the table.
pub fn saves_change_alone()
    ensures stay { SavesStay }
    ensures numbers { NumbersAreStored }
    ensures saves { SavesAreStored }
    ensures entries { SavesFollow }
{}

/// What a load in a row of checkpoints reads, and that words which are 0 there say of none.
pub fn saves_are_read()
    ensures read { SavesAreRead }
    ensures blank { BlankWordsSaveNothing }
{}
