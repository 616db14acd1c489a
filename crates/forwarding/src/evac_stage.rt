use crate::kept_header::KeptHeader;
use crate::loaded_word::LoadedWord;
use crate::reserved::Reserved;
use space_map::AreaWord;

/// What the machine does next.
#[derive(Clone, Copy)]
pub enum EvacStage {
    /// Loads the old record's first word.
    LoadsHeader,
    /// Exchanges the header that it read for the word that names this worker.
    TakesHeader(KeptHeader),
    /// Loads the area, whose FRONT is where the copy is to be.
    LoadsArea(KeptHeader),
    /// Announces FRONT of the area that it read.
    Announces(KeptHeader, AreaWord),
    /// Moves FRONT past the copy, by exchange of the area that it read.
    Reserves(KeptHeader, AreaWord),
    /// Stores the header in the copy.
    StoresHeader(Reserved),
    /// Loads the old record's word of this number.
    LoadsWord(Reserved, u32),
    /// Stores it in the copy.
    StoresWord(Reserved, LoadedWord),
    /// Says of this page that the copy lies over its first word.
    StoresCross(Reserved, u32),
    /// Stores the forward in the old header's place.
    StoresForward(Reserved),
    /// Loads WEAK, which leads to the cell that was linked last. The copy at this address is the cell to be linked.
    LoadsWeak(u32),
    /// Stores what it read of WEAK in the copy's link.
    StoresLink(u32, u64),
    /// Makes WEAK lead to the copy, by exchange of what it read.
    TakesWeak(u32, u64),
    /// Takes back what it announced. The copy is at this address.
    Clears(u32),
    /// Has no next step. The copy is at this address.
    Ended(u32),
}
