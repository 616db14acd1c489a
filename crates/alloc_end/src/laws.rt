//! What holds of the machines. Each function here does nothing: its contract is what is proved.

ghost use Rattle.alloc_end.specs.Rows.{FirstPairIsPlaced, NextRecordIsPlaced, CountIsStoredFirst, MixedRecordIsPlaced, TargetIsStoredFirst, CellIsPlaced, PagesAreMarkedAndOpened, ReserveIsKept, ReserveIsFreeOnceTraced, FullTellsItsNumbers, LongestIsFull, LostClaimIsTriedAgain};
ghost use Rattle.alloc_end.specs.HeldUp.{GoesOn};
ghost use Rattle.alloc_end.specs.Theorems.{TracedIsRead, SizeIsRead, PagesAreClaimed, PagesAreLost, PagesAreMadeReady, RecordsArePlaced, NoneIsMarkedYet, PagesAreMarked, OpenedPagesAreNew, FullHeapsAreShort, ShortHeapsAreFull};

/// Pages are claimed only where the room that has to be kept is left, by an exchange of the area that was read.
pub fn claims_keep_the_reserve()
    ensures traced { TracedIsRead }
    ensures size { SizeIsRead }
    ensures claimed { PagesAreClaimed }
    ensures lost { PagesAreLost }
{}

/// A record is placed on open pages, in words that are 0, but for the count of a mixed one's fields and a cell's target, which
/// stand there before it.
pub fn records_are_placed_in_cleared_pages()
    ensures ready { PagesAreMadeReady }
    ensures placed { RecordsArePlaced }
{}

/// Once a checkpoint was begun, no page is opened before it is said in the page's SAVE that it is new since then.
pub fn new_pages_are_marked()
    ensures begins { NoneIsMarkedYet }
    ensures marked { PagesAreMarked }
    ensures opened { OpenedPagesAreNew }
{}

/// A heap is told to be full exactly where the claim of the pages doesn't fit, with the numbers read.
pub fn full_heaps_are_short_of_room()
    ensures short { FullHeapsAreShort }
    ensures full { ShortHeapsAreFull }
{}

/// Nothing but a lost exchange holds an allocation up, whatever words its steps meet, or a word that can't be there.
pub fn allocations_go_on()
    ensures { GoesOn }
{}

/// Allocations, worked out step by step with all words as numbers.
#[tactic(auto, unfolding(heap_words::specs::Word::header_word, space_map::specs::AreaWord::decode_area, space_map::specs::AreaWord::area_in, space_map::specs::AreaWord::encode_area, space_map::specs::PageWord::encode_page, space_map::specs::Table::place_of, heap_words::specs::Word::number_word, space_map::specs::SaveWord::encode_save, space_map::specs::Table::save_place_of))]
pub fn rows_are_worked_out()
    ensures first_pair_is_placed { FirstPairIsPlaced }
    ensures next_record_is_placed { NextRecordIsPlaced }
    ensures count_is_stored_first { CountIsStoredFirst }
    ensures mixed_record_is_placed { MixedRecordIsPlaced }
    ensures target_is_stored_first { TargetIsStoredFirst }
    ensures cell_is_placed { CellIsPlaced }
    ensures pages_are_marked_and_opened { PagesAreMarkedAndOpened }
    ensures reserve_is_kept { ReserveIsKept }
    ensures reserve_is_free_once_traced { ReserveIsFreeOnceTraced }
    ensures full_tells_its_numbers { FullTellsItsNumbers }
    ensures longest_is_full { LongestIsFull }
    ensures lost_claim_is_tried_again { LostClaimIsTriedAgain }
{}
