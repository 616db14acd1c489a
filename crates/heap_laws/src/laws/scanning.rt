//! Pages that are claimed, scanned and opened.

ghost use Rattle.heap_laws.specs.Scanning.Claims.{BeginningClaimKeeps, LookingAtPlaceKeeps, LookingAtGateKeeps, ClaimingKeeps, SleeperLosesPage, OpeningKeeps};
ghost use Rattle.heap_laws.specs.Scanning.Words.{ReadingCrossingKeeps, ReadingFirstHeaderKeeps, ReadingFirstMixedKeeps, ReadingFrontKeeps, ReadingNextHeaderKeeps, ReadingNextMixedKeeps, ReadingCountKeeps, PassingFieldKeeps, AskingKeeps, StoringCopyKeeps};

/// The loads before a claim: of the page's word, of each announced place, of the gate again.
pub fn claims_are_made_ready()
    ensures begun { BeginningClaimKeeps }
    ensures places { LookingAtPlaceKeeps }
    ensures gate { LookingAtGateKeeps }
{}

/// The exchange that claims a page: who wins it is of the current epoch, and keeps all.
pub fn pages_are_claimed()
    ensures claimed { ClaimingKeeps }
    ensures asleep { SleeperLosesPage }
{}

/// The store that opens a page whose scan has ended.
pub fn pages_are_opened()
    ensures { OpeningKeeps }
{}

/// The records on a page: its crossing is read, then each header, the count behind that of a mixed record, and FRONT where the
/// page is being filled.
pub fn records_are_scanned()
    ensures crossing { ReadingCrossingKeeps }
    ensures first { ReadingFirstHeaderKeeps }
    ensures first_mixed { ReadingFirstMixedKeeps }
    ensures front { ReadingFrontKeeps }
    ensures next { ReadingNextHeaderKeeps }
    ensures next_mixed { ReadingNextMixedKeeps }
    ensures count { ReadingCountKeeps }
{}

/// The fields of a page: a clean one is passed, one that leads into the old space asks for the copy, whose address then takes its place.
pub fn fields_are_scanned()
    ensures passed { PassingFieldKeeps }
    ensures asked { AskingKeeps }
    ensures stored { StoringCopyKeeps }
{}
