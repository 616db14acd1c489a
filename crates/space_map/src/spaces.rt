ghost use Rattle.std.specs.Prelude.{◌≡◌, ◌<◌, ◌≤◌, ◌+◌, ◌*◌, ◌↔◌, IsTrue, IsOk, IfOk, true, false};
ghost use Rattle.space_map.specs.Spaces.{IsPageCount, IsInSpace, board_page, first_word, page_of, space_start, to_space};
ghost use Rattle.space_map.specs.Table.{Gate, Traced, Area, WeakHead, WeakTurn, Size, SnapNumber, LastSaved, Page, Cross, HeapWord, Announce, SaveOf, ImageOf, IsRow, place_of, save_place_of, table_length, whole_length};

use crate::bad_pages::BadPages;
use std::marker::Model;

/// The number of words in a page.
pub const PAGE_WORDS: u32 = 64;

/// The fewest pages of a space.
pub const FEWEST_PAGES: u32 = 4;

/// The most pages of a space.
pub const MOST_PAGES: u32 = 2048;

/// The most mutators of a heap.
pub const MOST_MUTATORS: u32 = 16;

/// The most scanners of a heap.
pub const MOST_SCANNERS: u32 = 8;

/// The last of the workers for which the table has room: they are numbered from 0, the mutators first.
pub const LAST_WORKER: u8 = (MOST_MUTATORS + MOST_SCANNERS - 1) as u8;

const GATE_PLACE: usize = 0;

const TRACED_PLACE: usize = 2;

const AREA_START: usize = 4;

const WEAK_PLACE: usize = 6;

const WEAK_TURN_PLACE: usize = 7;

const SIZE_START: usize = 12;

const SNAP_PLACE: usize = 14;

const LAST_SAVED_PLACE: usize = 15;

const PAGE_START: usize = 16;

/// The layout of a heap, which follows from the number of pages in a space: two spaces of so many pages each, then the
/// board, and a table of all words that workers share. If checkpoints can be made, the table has room for what they save.
///
/// An address is a word's number, counted over both spaces and the board. Each machine holds a layout, so it is kept small.
#[derive(Clone, Copy, Debug, PartialEq, Eq)]
pub struct Spaces {
    pages: u16,
    checkpoints: bool,
}

impl Model for Spaces {
    ghost use Rattle.space_map.specs.Spaces.{Layout, IsPageCount};

    ghost Value = { Layout };

    ghost view = { λ spaces. record { pages = spaces.pages; checkpoints = spaces.checkpoints } };

    ghost invariant = { λ spaces. IsPageCount spaces.pages };

    ghost inverse = { λ layout. record { pages = layout.pages; checkpoints = layout.checkpoints } };
}

impl Spaces {
    /// The layout with so many pages in a space, and no room for checkpoints.
    pub fn new(n: u32) -> Result<Spaces, BadPages>
        ensures pages { IfOk result (λ spaces. spaces.pages ≡ n) }
        ensures without { IfOk result (λ spaces. spaces.checkpoints ≡ false) }
        ensures refused_exactly_outside { IsOk result ↔ IsPageCount n }
    {
        if n < FEWEST_PAGES || n > MOST_PAGES {
            return Err(BadPages);
        }
        Ok(Spaces {
            pages: n as u16,
            checkpoints: false,
        })
    }

    /// The same with room for checkpoints.
    pub fn with_checkpoints(self) -> Spaces
        ensures { result ≡ record self { checkpoints = true } }
    {
        self.known();
        Spaces {
            pages: self.pages,
            checkpoints: true,
        }
    }

    /// Whether there is room for checkpoints.
    pub fn has_checkpoints(self) -> bool
        ensures { result ≡ self.checkpoints }
    {
        self.checkpoints
    }

    /// The number of pages in a space.
    pub fn pages(self) -> u32
        ensures pages { result ≡ self.pages }
        ensures in_range { IsPageCount result }
    {
        u32::from(self.pages)
    }

    /// Tells a proof that the number of pages is one that a space can have. It does nothing when the program runs.
    #[inline(always)]
    pub fn known(self)
        ensures { IsPageCount self.pages }
    {
        prove!(FEWEST_PAGES <= self.pages() && self.pages() <= MOST_PAGES);
    }

    pub fn page_of(self, addr: u32) -> u32
        ensures { result ≡ page_of addr }
    {
        addr / PAGE_WORDS
    }

    pub fn first_word(self, page: u32) -> u32
        requires { page ≤ board_page self.pages }
        ensures { result ≡ first_word page }
    {
        PAGE_WORDS * page
    }

    /// The space into which records are copied in an epoch.
    pub fn to_space(self, epoch: u32) -> u8
        ensures space { result ≡ to_space epoch }
        ensures one_of_two { result < 2 }
    {
        (epoch % 2) as u8
    }

    /// The first word of a space.
    pub fn space_start(self, space: u8) -> u32
        requires { space < 2 }
        ensures { result ≡ space_start self.pages space }
    {
        PAGE_WORDS * (self.pages() * u32::from(space))
    }

    /// Whether the word is one of the space's own. The board is in neither space.
    pub fn in_space(self, addr: u32, space: u8) -> bool
        ensures { IsTrue result ↔ IsInSpace self.pages addr space }
    {
        if space >= 2 {
            return false;
        }
        let start = self.space_start(space);
        start <= addr && addr < start + PAGE_WORDS * self.pages()
    }

    /// The page after both spaces, of which 16 words are used.
    pub fn board_page(self) -> u32
        ensures { result ≡ board_page self.pages }
    {
        2 * self.pages()
    }
}

/// The length of the table, and the place of each row.
#[tactic(auto, unfolding(crate::specs::Table::place_of, crate::specs::Table::save_place_of))]
impl Spaces {
    /// The number of words in the table, without room for checkpoints.
    pub fn table_len(self) -> usize
        ensures { result ≡ table_length self.pages }
    {
        self.announce_start() + usize::from(LAST_WORKER) + 1
    }

    /// The number of words in the table, with the room for checkpoints if there is any.
    pub fn whole_len(self) -> usize
        ensures { result ≡ whole_length self }
    {
        if self.checkpoints {
            self.image_start() + (PAGE_WORDS * (self.board_page() + 1)) as usize
        } else {
            self.table_len()
        }
    }

    /// The place of the gate word.
    pub fn gate_place(self) -> usize
        ensures place { result ≡ place_of self.pages Gate }
        ensures in_table { result < table_length self.pages }
    {
        GATE_PLACE
    }

    /// The place of the word that says which epoch was traced last.
    pub fn traced_place(self) -> usize
        ensures place { result ≡ place_of self.pages Traced }
        ensures in_table { result < table_length self.pages }
    {
        TRACED_PLACE
    }

    /// The place of a space's area word.
    pub fn area_place(self, space: u8) -> usize
        requires { space < 2 }
        ensures place { result ≡ place_of self.pages (Area space) }
        ensures in_table { result < table_length self.pages }
    {
        AREA_START + usize::from(space)
    }

    /// The place of the word that says where the cell is that was linked last.
    pub fn weak_place(self) -> usize
        ensures place { result ≡ place_of self.pages WeakHead }
        ensures in_table { result < table_length self.pages }
    {
        WEAK_PLACE
    }

    /// The place of the word that says in which epoch a worker took the turn to walk over the linked cells.
    pub fn weak_turn_place(self) -> usize
        ensures place { result ≡ place_of self.pages WeakTurn }
        ensures in_table { result < table_length self.pages }
    {
        WEAK_TURN_PLACE
    }

    /// The place of the word that says how many pages of a space are in use.
    pub fn size_place(self, space: u8) -> usize
        requires { space < 2 }
        ensures place { result ≡ place_of self.pages (Size space) }
        ensures in_table { result < table_length self.pages }
    {
        SIZE_START + usize::from(space)
    }

    /// The place of the number of the last checkpoint that was begun.
    pub fn snap_place(self) -> usize
        ensures place { result ≡ place_of self.pages SnapNumber }
        ensures in_table { result < table_length self.pages }
    {
        SNAP_PLACE
    }

    /// The place of the number of the last checkpoint that was finished.
    pub fn last_saved_place(self) -> usize
        ensures place { result ≡ place_of self.pages LastSaved }
        ensures in_table { result < table_length self.pages }
    {
        LAST_SAVED_PLACE
    }

    /// The place of a page's word. The board has one too.
    pub fn page_place(self, page: u32) -> usize
        requires { page ≤ board_page self.pages }
        ensures place { result ≡ place_of self.pages (Page page) }
        ensures in_table { result < table_length self.pages }
    {
        PAGE_START + page as usize
    }

    /// The place of a page's crossing word: the address of the copied record that covers the page's first word.
    pub fn cross_place(self, page: u32) -> usize
        requires { page < board_page self.pages }
        ensures place { result ≡ place_of self.pages (Cross page) }
        ensures in_table { result < table_length self.pages }
    {
        self.cross_start() + page as usize
    }

    /// The place of a heap word, or of a word of the board's page.
    pub fn word_place(self, addr: u32) -> usize
        requires { IsRow self.pages (HeapWord addr) }
        ensures place { result ≡ place_of self.pages (HeapWord addr) }
        ensures in_table { result < table_length self.pages }
    {
        self.word_start() + addr as usize
    }

    /// The place of the word in which a worker announces where it is about to reserve room for a copy.
    pub fn announce_place(self, k: u8) -> usize
        requires { IsRow self.pages (Announce k) }
        ensures place { result ≡ place_of self.pages (Announce k) }
        ensures in_table { result < table_length self.pages }
    {
        self.announce_start() + usize::from(k)
    }

    /// The place of the word that says whether a page is saved. The board has one too.
    pub fn save_place(self, page: u32) -> usize
        requires room { self.checkpoints ≡ true }
        requires page { page ≤ board_page self.pages }
        ensures place { result ≡ save_place_of self.pages (SaveOf page) }
        ensures in_table { result < whole_length self }
    {
        self.table_len() + page as usize
    }

    /// The place in which a heap word, or a word of the board's page, is saved.
    pub fn image_place(self, addr: u32) -> usize
        requires room { self.checkpoints ≡ true }
        requires row { IsRow self.pages (HeapWord addr) }
        ensures place { result ≡ save_place_of self.pages (ImageOf addr) }
        ensures in_table { result < whole_length self }
    {
        self.image_start() + addr as usize
    }

    // Each family of rows begins where the one before it ends.

    fn cross_start(self) -> usize
        ensures { result ≡ 17 + 2 * self.pages }
    {
        PAGE_START + self.board_page() as usize + 1
    }

    fn word_start(self) -> usize
        ensures { result ≡ 17 + 4 * self.pages }
    {
        self.cross_start() + self.board_page() as usize
    }

    fn announce_start(self) -> usize
        ensures { result ≡ 81 + 132 * self.pages }
    {
        self.word_start() + (PAGE_WORDS * (self.board_page() + 1)) as usize
    }

    fn image_start(self) -> usize
        ensures { result ≡ 83 + LAST_WORKER + 134 * self.pages }
    {
        self.table_len() + self.board_page() as usize + 1
    }
}
