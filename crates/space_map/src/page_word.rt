ghost use Rattle.std.specs.Prelude.{◌≡◌, ◌≢◌, IfSome, IfNone, Some};

const STATE_MASK: u64 = 0b11;

const OPEN: u64 = 1;

const SCANNING: u64 = 2;

const WORKER_SHIFT: u32 = 2;

/// The bits between the state and the epoch. Only the lowest 8 may be set.
const WORKER_MASK: u64 = 0x3fff;

const EPOCH_SHIFT: u32 = 16;

/// What the table says of a page of to-space or of the board.
#[derive(Clone, Copy, Debug, PartialEq, Eq)]
pub enum PageWord {
    /// The page was neither opened nor scanned in any epoch.
    Unset,
    /// Mutators may access the page in this epoch.
    Open(u32),
    /// In this epoch, this worker has claimed the page to scan it.
    Scanning(u32, u8),
}

impl PageWord {
    ghost use Rattle.space_map.specs.PageWord.{PageFits, decode_page, encode_page, page_said};

    pub fn pack(self) -> u64
        ensures word { result ≡ encode_page self }
        ensures reads_back { decode_page result ≡ Some self }
    {
        match self {
            PageWord::Unset => 0,
            PageWord::Open(epoch) => OPEN | u64::from(epoch) << EPOCH_SHIFT,
            PageWord::Scanning(epoch, worker) => {
                SCANNING | u64::from(worker) << WORKER_SHIFT | u64::from(epoch) << EPOCH_SHIFT
            }
        }
    }

    /// What the word says of its page, where it is the word of a page at all.
    pub fn read(word: u64) -> Option<PageWord>
        ensures decoded { result ≡ decode_page word }
        ensures one_spelling { IfSome result (λ page. encode_page page ≡ word) }
        ensures fits { IfSome result PageFits }
        ensures none_packs_to_it { IfNone result ((page : PageWord) → PageFits page → encode_page page ≢ word) }
    {
        let epoch = u32::try_from(word >> EPOCH_SHIFT).ok()?;
        let worker = u8::try_from(word >> WORKER_SHIFT & WORKER_MASK).ok()?;
        PageWord::said(word & STATE_MASK, worker, epoch)
    }

    /// What the parts say together: only a page that is scanned has a worker.
    fn said(state: u64, worker: u8, epoch: u32) -> Option<PageWord>
        ensures { result ≡ page_said state worker epoch }
    {
        match (state, worker, epoch) {
            (0, 0, 0) => Some(PageWord::Unset),
            (OPEN, 0, _) => Some(PageWord::Open(epoch)),
            (SCANNING, _, _) => Some(PageWord::Scanning(epoch, worker)),
            _ => None,
        }
    }
}
