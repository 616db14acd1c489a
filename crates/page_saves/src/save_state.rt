ghost use Rattle.std.specs.Prelude.{◌≡◌, ◌<◌};
ghost use Rattle.space_map.specs.SaveWord.{number_of};
ghost use Rattle.page_saves.specs.SaveState.{state_of};

use space_map::SaveWord;

/// What is said of a page, as one checkpoint sees it.
#[derive(Clone, Copy)]
pub enum SaveState {
    /// Nothing, or of an earlier checkpoint: the page isn't saved yet.
    Waits,
    /// A worker is saving it.
    Copying,
    /// It is saved, or new since the checkpoint began.
    Kept,
    /// It is of a later checkpoint, so this one is long done.
    Past,
}

impl SaveState {
    /// What this says to the checkpoint of this number.
    pub fn of(says: SaveWord, number: u32) -> SaveState
        ensures state { result ≡ state_of says number }
        ensures waits { result ≡ SaveState.Waits → number_of says < number }
    {
        let same = match says {
            SaveWord::Saving(..) => SaveState::Copying,
            SaveWord::Unsaved | SaveWord::Saved(_) | SaveWord::New(_) => SaveState::Kept,
        };
        let found = says.number();
        if found < number {
            SaveState::Waits
        } else if found == number {
            same
        } else {
            SaveState::Past
        }
    }
}
