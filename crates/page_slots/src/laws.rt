//! What holds of the machines. Each function here does nothing: its contract is what is proved.

ghost use Rattle.page_slots.specs.Rows.{FullPageIsClaimed, AnnouncedPlaceHinders, LaterGateHinders, LostClaimEnds, PageIsOpened, BoardIsClaimed, FillingPageIsClaimed, LaterEpochWins};
ghost use Rattle.page_slots.specs.HeldUp.{ClaimsGoOn, OpeningsGoOn};
ghost use Rattle.page_slots.specs.Theorems.{WonPagesAreClaimed, TakenPagesShowIt, OpenedPagesAreOpen};

/// A claim wins a page that nobody has opened or scanned in its epoch or a later one, and makes it this worker's. Where it
/// doesn't, a word shows why.
pub fn claims_win_pages_of_earlier_epochs()
    ensures won { WonPagesAreClaimed }
    ensures taken { TakenPagesShowIt }
{}

/// An opened page is open in its epoch.
pub fn openings_open_pages()
    ensures opened { OpenedPagesAreOpen }
{}

/// Nothing holds a claim up, whatever words its steps meet, but a gate's word that can't be there.
pub fn claims_go_on()
    ensures { ClaimsGoOn }
{}

/// Nothing holds an opening up.
pub fn openings_go_on()
    ensures { OpeningsGoOn }
{}

/// A claim and an opening, worked out step by step with all words as numbers.
#[tactic(auto, unfolding(space_map::specs::GateWord::decode_gate, space_map::specs::GateWord::gate_in, space_map::specs::PageWord::encode_page, space_map::specs::Table::place_of))]
pub fn rows_are_worked_out()
    ensures full_page { FullPageIsClaimed }
    ensures announced { AnnouncedPlaceHinders }
    ensures later_gate { LaterGateHinders }
    ensures lost { LostClaimEnds }
    ensures board { BoardIsClaimed }
    ensures filling_page { FillingPageIsClaimed }
    ensures later_epoch { LaterEpochWins }
    ensures opened { PageIsOpened }
{}
