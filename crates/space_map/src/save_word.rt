ghost use Rattle.std.specs.Prelude.{◌≡◌, ◌≢◌, IfSome, IfNone, Some};

const STATE_MASK: u64 = 0b11;

const SAVING: u64 = 1;

const SAVED: u64 = 2;

const NEW: u64 = 3;

const WORKER_SHIFT: u32 = 2;

/// The bits between the state and the number. Only the lowest 8 may be set.
const WORKER_MASK: u64 = 0x3fff;

const NUMBER_SHIFT: u32 = 16;

/// What the table says of a page for checkpoints, each by its number.
#[derive(Clone, Copy, Debug, PartialEq, Eq)]
pub enum SaveWord {
    /// The page was neither saved nor new for any checkpoint.
    Unsaved,
    /// For this checkpoint, this worker is copying the page's words.
    Saving(u32, u8),
    /// The page's words were copied for this checkpoint.
    Saved(u32),
    /// The page was opened after this checkpoint had begun, so it is no part of it.
    New(u32),
}

impl SaveWord {
    ghost use Rattle.space_map.specs.SaveWord.{SaveFits, decode_save, encode_save, number_of, save_said};

    pub fn pack(self) -> u64
        ensures word { result ≡ encode_save self }
        ensures reads_back { decode_save result ≡ Some self }
    {
        match self {
            SaveWord::Unsaved => 0,
            SaveWord::Saving(number, worker) => {
                SAVING | u64::from(worker) << WORKER_SHIFT | u64::from(number) << NUMBER_SHIFT
            }
            SaveWord::Saved(number) => SAVED | u64::from(number) << NUMBER_SHIFT,
            SaveWord::New(number) => NEW | u64::from(number) << NUMBER_SHIFT,
        }
    }

    /// What the word says of its page, if it is such a word at all.
    pub fn read(word: u64) -> Option<SaveWord>
        ensures decoded { result ≡ decode_save word }
        ensures one_spelling { IfSome result (λ save. encode_save save ≡ word) }
        ensures fits { IfSome result SaveFits }
        ensures none_packs_to_it { IfNone result ((save : SaveWord) → SaveFits save → encode_save save ≢ word) }
    {
        let number = u32::try_from(word >> NUMBER_SHIFT).ok()?;
        let worker = u8::try_from(word >> WORKER_SHIFT & WORKER_MASK).ok()?;
        SaveWord::said(word & STATE_MASK, worker, number)
    }

    /// The number of the checkpoint of which it speaks, or 0 if of none.
    pub fn number(self) -> u32
        ensures { result ≡ number_of self }
    {
        match self {
            SaveWord::Unsaved => 0,
            SaveWord::Saving(number, _) | SaveWord::Saved(number) | SaveWord::New(number) => number,
        }
    }

    /// What the parts say together: only a page that is being saved has a worker.
    fn said(state: u64, worker: u8, number: u32) -> Option<SaveWord>
        ensures { result ≡ save_said state worker number }
    {
        match (state, worker, number) {
            (0, 0, 0) => Some(SaveWord::Unsaved),
            (SAVING, _, _) => Some(SaveWord::Saving(number, worker)),
            (SAVED, 0, _) => Some(SaveWord::Saved(number)),
            (NEW, 0, _) => Some(SaveWord::New(number)),
            _ => None,
        }
    }
}
