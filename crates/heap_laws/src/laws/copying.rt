//! Copying a record: each step of the worker that copies it. Each function here does nothing: its contract is what is proved.

ghost use Rattle.heap_laws.specs.Copying.{HeadersAreTaken, WordsAreCopied, ForwardsAreFound, PlacesAreAimed, PlacesAreAnnounced, AnnouncesAreCleared, OldWordsAreLoaded, CrossingsAreStored, CopiesArePublished, CopiesHaveRoom, PlacesAreReserved, WeakIsLoaded, WeakIsForgotten, LinksAreStored, CellsAreLinked};
ghost use Rattle.heap_laws.specs.Steps.{KnowledgeChangesAlone, NothingChanges};

/// A word of the old record, or its header, is stored in its place in the copy.
pub fn words_are_copied()
    ensures { WordsAreCopied }
{}

/// The header of an old record is exchanged for the word of the worker that is to copy it.
pub fn headers_are_taken()
    ensures { HeadersAreTaken }
{}

/// A step of a worker that writes nothing changes what that worker knows, and nothing else.
pub fn knowledge_changes_alone()
    ensures { KnowledgeChangesAlone }
{}

/// A forward in place of the header of an old record says where the copy is.
pub fn forwards_are_found()
    ensures { ForwardsAreFound }
{}

/// FRONT is loaded, as the place of the copy.
pub fn places_are_aimed()
    ensures { PlacesAreAimed }
{}

/// The place of the copy is announced.
pub fn places_are_announced()
    ensures { PlacesAreAnnounced }
{}

/// A worker that copies nothing clears what it announces.
pub fn announces_are_cleared()
    ensures { AnnouncesAreCleared }
{}

/// The next word of the old record is loaded.
pub fn old_words_are_loaded()
    ensures { OldWordsAreLoaded }
{}

/// The crossing of a page that begins in the copy is stored.
pub fn crossings_are_stored()
    ensures { CrossingsAreStored }
{}

/// The forward to a whole copy is stored in place of the old record's header.
pub fn copies_are_published()
    ensures { CopiesArePublished }
{}

/// A worker that has copied a cell loads WEAK, or forgets what it has loaded.
pub fn weak_is_read()
    ensures loaded { WeakIsLoaded }
    ensures forgotten { WeakIsForgotten }
{}

/// The link of a cell that was copied is stored.
pub fn links_are_stored()
    ensures { LinksAreStored }
{}

/// A cell that was copied is linked, as the first of the chain.
pub fn cells_are_linked()
    ensures { CellsAreLinked }
{}

/// FRONT moves by the size of a copy from the place that was announced for it.
pub fn places_are_reserved()
    ensures { PlacesAreReserved }
{}

/// A record whose header is kept has room for its copy.
pub fn copies_have_room()
    ensures { CopiesHaveRoom }
{}

/// An exchange that is lost changes nothing.
pub fn nothing_changes()
    ensures { NothingChanges }
{}
