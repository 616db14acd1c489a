//! The laws of saves, page by page: a page is saved, or marked as new. Each function here does nothing: its contract is what is
//! proved.

ghost use Rattle.heap_laws.specs.Saving.Pages.{PagesAreSaved, SaveNumbersRise, SaysAreFound, NoneIsOfLater, WrittenPagesAreOpen, StockPagesAreMarked};

/// A page is saved, stage by stage, or marked as new, and what is kept of checkpoints stays; and in no page's SAVE the number falls.
pub fn pages_are_saved()
    ensures stands { PagesAreSaved }
    ensures numbers { SaveNumbersRise }
{}

/// What is found in a page's SAVE, and that a running mutator finds none of a later checkpoint than its own.
pub fn says_are_found()
    ensures words { SaysAreFound }
    ensures later { NoneIsOfLater }
{}

/// The pages that a mutator writes are open, and of the epoch's space or the board's.
pub fn written_pages_are_open()
    ensures { WrittenPagesAreOpen }
{}

/// The next page of a stock is marked as new.
pub fn stock_pages_are_marked()
    ensures { StockPagesAreMarked }
{}
