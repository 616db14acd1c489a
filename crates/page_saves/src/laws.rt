//! What holds of the machines. Each function here does nothing: its contract is what is proved.

ghost use Rattle.page_saves.specs.Rows.{PageIsSaved, LostSaveEnds, LaterSaveEnds, AnotherSavesFirst, NewPageIsWritten, PageIsSavedFirst, LostSaveIsLookedAt, NoSuchWordIsLookedAt, NoneIsLeft, FirstPageIsSaved, CheckpointIsMarked, LostMarkEnds, BusyPageForbidsMark, BusyLastPageForbidsMark, LaterCheckpointEnds, NoNumberIsReadAgain, ScannerLooksTwice, SecondLookEnds, LastScannerEnds, OtherSpaceIsSaved};
ghost use Rattle.atom_store.specs.declared.reply.Reply.{Reply};
ghost use Rattle.page_saves.specs.Guard.{Guarding};
ghost use Rattle.page_saves.specs.Guard as guard;
ghost use Rattle.page_saves.specs.Save.{PageSaving};
ghost use Rattle.page_saves.specs.Save as save;
ghost use Rattle.page_saves.specs.SaveRound.{SavingRound};
ghost use Rattle.page_saves.specs.SaveRound as round;
ghost use Rattle.page_saves.specs.SoundGuard.{IsSoundGuard};
ghost use Rattle.page_saves.specs.SoundRound.{IsSoundSaveRound};
ghost use Rattle.page_saves.specs.SoundSave.{IsSoundSave};
ghost use Rattle.page_saves.specs.HeldUp.{SavesGoOn, GuardsGoOn, SaveRoundsGoOn};
ghost use Rattle.page_saves.specs.Theorems.{WonExchangesBegin, TakenSavesShowIt, SavedPagesSaySo, WonSavesCopy, EndedSavesCopied, GuardsEndOnKept};
ghost use Rattle.page_saves.specs.RoundTheorems.{NoneRunsIsShown, SavedPagesAreOwn, MarkedCheckpointsAreDone, NothingToSaveIsShown, HindrancesAreFound, RoundsReadFirst, RoundsMarkWhatIsKept};

/// A save exchanges what is said of its page, which was of no checkpoint or an earlier one. If it loses that, the word shows
/// it. Else it copies each word of the page, and says then that the page is saved. One that ends so has won the exchange.
pub fn saves_copy_pages()
    ensures begins { WonExchangesBegin }
    ensures taken { TakenSavesShowIt }
    ensures says { SavedPagesSaySo }
    ensures copies { WonSavesCopy }
    ensures copied { EndedSavesCopied }
{}

/// A look before a write ends only if the page was read to be saved for the checkpoint or new, or by a save of its own.
pub fn looks_end_on_kept_pages()
    ensures { GuardsEndOnKept }
{}

/// What a save round tells is so by the word that it has read or exchanged. If it looks at a page, and finds that there is nothing to do
/// now, it tells what it has read to be said of a page: that a worker saves it, or that it is of a later checkpoint.
pub fn save_rounds_show_why()
    ensures none_runs { NoneRunsIsShown }
    ensures saved { SavedPagesAreOwn }
    ensures marked { MarkedCheckpointsAreDone }
    ensures nothing { NothingToSaveIsShown }
    ensures hindrances { HindrancesAreFound }
{}

/// A save round comes to its pages only after it has read that a checkpoint runs; a scanner's, between two looks at the gate
/// that show one epoch. It marks the checkpoint only after it has found each page saved for it, new, or not open in the epoch.
pub fn save_rounds_mark_what_is_kept()
    ensures reads_first { RoundsReadFirst }
    ensures all_kept { RoundsMarkWhatIsKept }
{}

/// What the machines keep of themselves they keep at each reply.
pub fn machines_stay_sound()
    ensures saves { (s : PageSaving) (answer : Reply) → IsSoundSave s → IsSoundSave (save.taken s answer) }
    ensures looks { (g : Guarding) (answer : Reply) → IsSoundGuard g → IsSoundGuard (guard.taken g answer) }
    ensures rounds { (r : SavingRound) (answer : Reply) → IsSoundSaveRound r → IsSoundSaveRound (round.taken r answer) }
{}

/// Nothing holds a save up.
pub fn saves_go_on()
    ensures { SavesGoOn }
{}

/// Nothing holds a look before a write up, but another worker that saves the page, or a word that can't be there.
pub fn looks_go_on()
    ensures { GuardsGoOn }
{}

/// Nothing holds a save round up, but a word that can't be there.
pub fn save_rounds_go_on()
    ensures { SaveRoundsGoOn }
{}

/// Saves, looks and rounds, worked out step by step with all words as numbers.
#[tactic(auto, unfolding(space_map::specs::GateWord::decode_gate, space_map::specs::GateWord::gate_in, space_map::specs::PageWord::encode_page, space_map::specs::SaveWord::decode_save, space_map::specs::SaveWord::encode_save, space_map::specs::Table::place_of, space_map::specs::Table::save_place_of))]
pub fn rows_are_worked_out()
    ensures page_is_saved { PageIsSaved }
    ensures lost_save_ends { LostSaveEnds }
    ensures later_save_ends { LaterSaveEnds }
    ensures another_saves_first { AnotherSavesFirst }
    ensures new_page_is_written { NewPageIsWritten }
    ensures page_is_saved_first { PageIsSavedFirst }
    ensures lost_save_is_looked_at { LostSaveIsLookedAt }
    ensures no_such_word_is_looked_at { NoSuchWordIsLookedAt }
    ensures none_is_left { NoneIsLeft }
    ensures first_page_is_saved { FirstPageIsSaved }
    ensures checkpoint_is_marked { CheckpointIsMarked }
    ensures lost_mark_ends { LostMarkEnds }
    ensures busy_page_forbids_mark { BusyPageForbidsMark }
    ensures busy_last_page_forbids_mark { BusyLastPageForbidsMark }
    ensures later_checkpoint_ends { LaterCheckpointEnds }
    ensures no_number_is_read_again { NoNumberIsReadAgain }
    ensures scanner_looks_twice { ScannerLooksTwice }
    ensures second_look_ends { SecondLookEnds }
    ensures last_scanner_ends { LastScannerEnds }
    ensures other_space_is_saved { OtherSpaceIsSaved }
{}
