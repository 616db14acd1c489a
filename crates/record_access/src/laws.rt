//! What holds of an access by its table. Each function here does nothing: its contract is what is proved.

ghost use Rattle.record_access.specs.HeldUp.{AccessesGoOn, LostSwapsLoadAgain, LostExchangesCompareAgain};
ghost use Rattle.record_access.specs.Rows.{LostSwapIsTriedAgain, CountIsNoValue, CountsPageIsLookedAt, NextPageIsLookedAt, NoPointerIsStoredBehindFields, SamePageIsNotLookedAt, ClosedPageIsAFault, NoSuchValueFails, LostExchangeIsComparedAgain, TargetIsAwaited, CellIsNotStoredIn, LinkIsNoValue};

/// Nothing but a lost exchange holds an access up, whatever words its steps meet, or a word that can't be there. A lost exchange loads
/// the word again, and the next one is from what stands there then; if that is no longer what is expected, there is none.
pub fn accesses_go_on()
    ensures held_up { AccessesGoOn }
    ensures lost { LostSwapsLoadAgain }
    ensures compares_again { LostExchangesCompareAgain }
{}

/// Accesses, worked out step by step with all words as numbers.
#[tactic(auto, unfolding(heap_words::specs::Decoded::decode, heap_words::specs::Word::tag_of, heap_words::specs::Word::number_word, heap_words::specs::Word::pointer_word, space_map::specs::PageWord::decode_page, space_map::specs::Table::place_of))]
pub fn accesses_are_worked_out()
    ensures lost_swap_is_tried_again { LostSwapIsTriedAgain }
    ensures lost_exchange_is_compared_again { LostExchangeIsComparedAgain }
    ensures next_page_is_looked_at { NextPageIsLookedAt }
    ensures counts_page_is_looked_at { CountsPageIsLookedAt }
    ensures count_is_no_value { CountIsNoValue }
    ensures no_pointer_is_stored_behind_fields { NoPointerIsStoredBehindFields }
    ensures same_page_is_not_looked_at { SamePageIsNotLookedAt }
    ensures closed_page_is_a_fault { ClosedPageIsAFault }
    ensures target_is_awaited { TargetIsAwaited }
    ensures cell_is_not_stored_in { CellIsNotStoredIn }
    ensures link_is_no_value { LinkIsNoValue }
    ensures no_such_value_fails { NoSuchValueFails }
{}
