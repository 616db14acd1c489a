ghost use Rattle.std.specs.Prelude.{◌≡◌, ◌≢◌, ℕ, ◌+◌, ◌*◌, ◌<◌, ◌≤◌, ◌↔◌, Some};
ghost use Rattle.space_map.specs.declared.page_word.PageWord.{PageWord};
ghost use Rattle.space_map.specs.PageWord.{IsEarlier, decode_page, encode_page};
ghost use Rattle.space_map.specs.Table.{HeapWord, IsRow, place_of, table_length};
ghost use Rattle.mmu_model.specs.Protection.{protection_of};

use crate::protection::Protection;
use space_map::{PageWord, Spaces};

/// Whether a mutator may access the page in this epoch, by the page's word.
pub fn check(page: u32, word: u64, epoch: u32) -> Protection
    ensures answer { result ≡ protection_of page (decode_page word) epoch }
    ensures allowed_exactly_where_open { (result ≡ Protection.Allowed) ↔ (decode_page word ≡ Some (PageWord.Open epoch)) }
    ensures else_fault { decode_page word ≢ Some (PageWord.Open epoch) → result ≡ Protection.Fault page }
{
    match PageWord::read(word) {
        Some(PageWord::Open(opened)) if opened == epoch => Protection::Allowed,
        _ => Protection::Fault(page),
    }
}

/// The next epoch, in which all pages are protected until they are opened anew.
pub fn protect_all(epoch: u32) -> u32
    requires { epoch < u32.MAX }
    ensures next { result ≡ epoch + 1 }
    ensures protects { (page : ℕ) (says : PageWord) →
        IsEarlier says result → protection_of page (Some says) result ≡ Protection.Fault page }
{
    epoch + 1
}

/// The page word that opens a page to mutators in this epoch.
pub fn unprotect(epoch: u32) -> u64
    ensures word { result ≡ encode_page (PageWord.Open epoch) }
    ensures opens { decode_page result ≡ Some (PageWord.Open epoch) }
{
    PageWord::Open(epoch).pack()
}

/// Where the collector reaches a heap word, whatever the protection of its page.
pub fn second_map(spaces: Spaces, addr: u32) -> usize
    requires { IsRow spaces.pages (HeapWord addr) }
    ensures place { result ≡ place_of spaces.pages (HeapWord addr) }
    ensures in_table { result < table_length spaces.pages }
{
    spaces.word_place(addr)
}
