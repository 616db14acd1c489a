//! What holds of the machines. Each function here does nothing: its contract is what is proved.

ghost use Rattle.fault_duty.specs.Rows.{BoardIsClaimed, FillingPageIsClaimed, EpochIsMarked, CellIsEmptied, TracedEpochIsFound, ScannerEndsWithMutators, TurnIsAnothers, LostTurnEnds, LostMarkEnds, LostBoardEnds, LostFillingPageEnds, MovedFrontEnds, BehindForbidsEnd, ScannedBoardForbidsEnd, FullPageIsWanted, NextFullPageIsChosen, OpenPageIsLeft, FillingPageIsNotWanted, NoFillingPage, LaterWantedPageEnds, LaterFillingPageEnds, ScannedBoardIsPassed};
ghost use Rattle.fault_duty.specs.HeldUp.{GoesOn};
ghost use Rattle.fault_duty.specs.Theorems.{NothingIsShown, TracedIsSeen, TracedIsTold, ClaimsHaveCause, AllLeftIsSeen, AllLeftIsTold, MarkedEpochsAreTraced, CellsArePassedBeforeTheMark, ScannedPagesAreClaimed, PagesInPlaceAreClaimed, WalksStaySound};

/// A round does nothing only if a word shows why, and tells that the epoch is traced exactly if TRACED says so.
pub fn rounds_without_work_show_why()
    ensures nothing_now { NothingIsShown }
    ensures traced_seen { TracedIsSeen }
    ensures traced_told { TracedIsTold }
{}

/// A scanner ends exactly where the gate counts all mutators as left.
pub fn scanners_end_with_the_mutators()
    ensures seen { AllLeftIsSeen }
    ensures told { AllLeftIsTold }
{}

/// A round claims the page that is to be scanned, or walks over the chain of cells, if it wins the turn, and then marks the epoch
/// traced.
pub fn rounds_claim_or_mark()
    ensures marked { MarkedEpochsAreTraced }
    ensures cells_first { CellsArePassedBeforeTheMark }
    ensures claimed_for { ClaimsHaveCause }
    ensures scan_page { ScannedPagesAreClaimed }
    ensures scan_in_place { PagesInPlaceAreClaimed }
{}

/// Nothing holds a round up, whatever words its steps meet, but a word that can't be there.
pub fn rounds_go_on()
    ensures { GoesOn }
{}

/// What a round at its walk knows of itself it knows after each reply, if links lead to cells of the heap.
pub fn walks_stay_sound()
    ensures { WalksStaySound }
{}

/// Rounds of the duty, worked out step by step with all words as numbers.
#[tactic(auto, unfolding(space_map::specs::AreaWord::decode_area, space_map::specs::AreaWord::area_in, space_map::specs::GateWord::decode_gate, space_map::specs::GateWord::gate_in, space_map::specs::PageWord::encode_page, space_map::specs::PageWord::decode_page, space_map::specs::Table::place_of, heap_words::specs::Decoded::decode, heap_words::specs::Word::tag_of, heap_words::specs::Word::number_word, heap_words::specs::Word::pointer_word))]
pub fn rows_are_worked_out()
    ensures board_is_claimed { BoardIsClaimed }
    ensures filling_page_is_claimed { FillingPageIsClaimed }
    ensures epoch_is_marked { EpochIsMarked }
    ensures cell_is_emptied { CellIsEmptied }
    ensures traced_epoch_is_found { TracedEpochIsFound }
    ensures scanner_ends_with_mutators { ScannerEndsWithMutators }
    ensures turn_is_anothers { TurnIsAnothers }
    ensures lost_turn_ends { LostTurnEnds }
    ensures lost_mark_ends { LostMarkEnds }
    ensures lost_board_ends { LostBoardEnds }
    ensures lost_filling_page_ends { LostFillingPageEnds }
    ensures moved_front_ends { MovedFrontEnds }
    ensures behind_forbids_end { BehindForbidsEnd }
    ensures scanned_board_forbids_end { ScannedBoardForbidsEnd }
    ensures full_page_is_wanted { FullPageIsWanted }
    ensures next_full_page_is_chosen { NextFullPageIsChosen }
    ensures open_page_is_left { OpenPageIsLeft }
    ensures filling_page_is_not_wanted { FillingPageIsNotWanted }
    ensures no_filling_page { NoFillingPage }
    ensures later_wanted_page { LaterWantedPageEnds }
    ensures later_filling_page { LaterFillingPageEnds }
    ensures scanned_board_passed { ScannedBoardIsPassed }
{}
