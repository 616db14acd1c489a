//! The words of the last checkpoint, as they are read from a table.

ghost use Rattle.std.specs.Prelude.{◌≡◌, ◌+◌, ◌*◌, ◌≤◌, ◌<◌, ◌^◌, ◌==◌, ℕ, IfSome, IsSome, length, slice_index, true};
ghost use Rattle.heap_words.specs.Decoded.{decode};
ghost use Rattle.record_layout.specs.Layout.{header_in};
ghost use Rattle.space_map.specs.Spaces.{IsPageCount, board_page, first_word};
ghost use Rattle.space_map.specs.Table.{saving_length};
ghost use Rattle.heap_state.specs.Saving.Words.{is_saved_for, reads_saved, saves_of};
ghost use Rattle.checkpoint_text.specs.Heap.{AreWholeTable, field_value, identity_there, saved_word};
ghost use Rattle.checkpoint_text.specs.Records.{fields_by, record_there, record_with, value_read};

use crate::saved_record::{SavedRecord, words_after, words_before};
use heap_words::{Kind, Word};
use plain_state::{Identity, Value};
use record_layout::Header;
use space_map::{LAST_WORKER, PAGE_WORDS, SaveWord, Spaces};

/// The words of such a table that are there whatever its number of pages.
const WORDS_BESIDE: usize = 147 + LAST_WORKER as usize;

/// The words of such a table for each page of a space.
const WORDS_A_PAGE: usize = 262;

/// A table with room for checkpoints, whose words are read as they were when the last one was begun.
#[derive(Drop)]
pub struct SavedWords<'t> {
    words: &'t [u64],
    spaces: Spaces,
    ghost room: { spaces.checkpoints ≡ true },
    ghost counted: { IsPageCount spaces.pages },
    ghost whole: { length words.now ≡ saving_length spaces.pages },
    ghost fit: { (place : ℕ) → slice_index words.now place < 2 ^ 64 },
}

impl<'t> SavedWords<'t> {
    ghost use Rattle.checkpoint_text.specs.Words.{saved_heap, snap_of};

    /// The table with these words, if it has as many as such a table.
    pub fn of(words: &'t [u64]) -> Option<SavedWords<'t>>
        ensures found { (n : ℕ) → AreWholeTable n words.now → IsSome result }
        ensures words { IfSome result (λ saved. saved.words.now ≡ words.now) }
    {
        let pages = u32::try_from(words.len().checked_sub(WORDS_BESIDE)? / WORDS_A_PAGE).ok()?;
        let spaces = Spaces::new(pages).ok()?.with_checkpoints();
        if spaces.whole_len() != words.len() {
            return None;
        }
        Some(SavedWords { words, spaces })
    }

    /// How many words the heap has, with the board's page.
    pub fn heap_len(&self) -> usize
        ensures { result ≡ 128 * self.now.spaces.pages + 64 }
    {
        self.spaces.known();
        (PAGE_WORDS * (self.spaces.board_page() + 1)) as usize
    }

    /// The address of the board.
    pub fn board(&self) -> u64
        ensures { result ≡ first_word (board_page self.now.spaces.pages) }
    {
        u64::from(self.spaces.first_word(self.spaces.board_page()))
    }

    /// The number of the last checkpoint, or 0 if none was begun.
    pub fn number(&self) -> u64
        ensures { result ≡ snap_of self.now }
    {
        self.words[self.spaces.snap_place()]
    }

    /// The number of the last checkpoint that was finished.
    fn finished(&self) -> u64
        ensures { result ≡ (saves_of self.now.spaces.pages self.now.words.now).done }
    {
        self.words[self.spaces.last_saved_place()]
    }

    /// Whether a page's words are read where they are saved.
    fn reads_saved(&self, page: u32) -> bool
        requires { page ≤ board_page self.now.spaces.pages }
        ensures { result ≡ reads_saved (saves_of self.now.spaces.pages self.now.words.now) page }
    {
        let number = self.number();
        self.finished() == number || is_saved_for(number, self.save(page))
    }

    /// What is said of a page for checkpoints.
    fn save(&self, page: u32) -> SaveWord
        requires { page ≤ board_page self.now.spaces.pages }
        ensures { result ≡ (saves_of self.now.spaces.pages self.now.words.now).save page }
    {
        let word = self.words[self.spaces.save_place(page)];
        SaveWord::read(word).unwrap_or(SaveWord::Unsaved)
    }

    /// The word of an address, or 0 if the heap has none there.
    pub fn word(&self, address: u64) -> u64
        ensures { result ≡ saved_heap self.now address }
    {
        if address >= self.heap_len() as u64 {
            return 0;
        }
        self.spaces.known();
        let address = address as u32;
        if self.reads_saved(self.spaces.page_of(address)) {
            return self.words[self.spaces.image_place(address)];
        }
        self.words[self.spaces.word_place(address)]
    }

    /// The header at an address, if one is there.
    fn header(&self, address: u32) -> Option<Header>
        ensures { result ≡ header_in (decode (saved_heap self.now address)) }
    {
        record_layout::read(self.word(u64::from(address)))
    }

    /// The identity of the record at an address.
    fn identity(&self, address: u32) -> Identity
        ensures { result ≡ identity_there (saved_heap self.now) address }
    {
        match self.header(address) {
            Some(header) => identity_of(&header),
            None => Identity {
                mutator: 0,
                serial: 0,
            },
        }
    }

    /// The record at an address, if one is there.
    pub fn record(&self, address: u32) -> Option<SavedRecord>
        ensures { result ≡ record_there (saved_heap self.now) address }
    {
        let header = self.header(address)?;
        let len = (header.len + 1).saturating_sub(
            words_before(header.kind) + words_after(header.kind),
        );
        Some(SavedRecord {
            address,
            identity: identity_of(&header),
            kind: header.kind,
            fields: fields(header.kind, len, self.word(u64::from(address) + 1)),
            len,
        })
    }

    /// The value that stands at an address, in a field.
    fn field(&self, address: u64) -> Value
        ensures { result ≡ field_value (saved_heap self.now) address }
    {
        let word = Word(self.word(address));
        match word.as_pointer() {
            Some(to) => Value::Reference(self.identity(to)),
            None => Value::Number(word.as_number().unwrap_or(0)),
        }
    }

    /// The value at an address, which is value `x` of those of which so many are fields.
    pub fn value(&self, address: u64, x: u64, fields: u64) -> Value
        ensures { result ≡ value_read (saved_heap self.now) address x fields }
    {
        if x < fields {
            self.field(address)
        } else {
            Value::Number(self.word(address))
        }
    }
}

/// Whether a page is saved for the checkpoint with this number.
fn is_saved_for(number: u64, save: SaveWord) -> bool
    ensures { result ≡ is_saved_for number save }
{
    match save {
        SaveWord::Saved(saved) => u64::from(saved) == number,
        SaveWord::Unsaved | SaveWord::Saving(_, _) | SaveWord::New(_) => false,
    }
}

/// The identity of the record with this header.
fn identity_of(header: &Header) -> Identity
    ensures { result ≡ record { mutator = header.now.mutator; serial = header.now.serial } }
{
    Identity {
        mutator: header.mutator,
        serial: header.serial,
    }
}

/// How many of a record's values are fields, by how many it has and its word 1.
fn fields(kind: Kind, len: u16, next: u64) -> u64
    ensures { result ≡ fields_by kind len next }
{
    match kind {
        Kind::Fields => u64::from(len),
        Kind::Raw | Kind::Weak => 0,
        Kind::Mixed => Word(next).as_number().unwrap_or(0),
    }
}
