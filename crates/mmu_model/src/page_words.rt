//! Page words, by the names of this crate. `space_map` makes and reads them.

ghost use Rattle.std.specs.Prelude.{◌≡◌, ◌≢◌, IfSome, IfNone, Some};
ghost use Rattle.space_map.specs.declared.page_word.PageWord.{PageWord};
ghost use Rattle.space_map.specs.PageWord.{PageFits, decode_page, encode_page};

use space_map::PageWord;

/// The word of a page.
pub fn pack(p: PageWord) -> u64
    ensures word { result ≡ encode_page p }
    ensures reads_back { decode_page result ≡ Some p }
{
    p.pack()
}

/// What the word says of its page, where it is the word of a page at all.
pub fn read(w: u64) -> Option<PageWord>
    ensures decoded { result ≡ decode_page w }
    ensures one_spelling { IfSome result (λ p. encode_page p ≡ w) }
    ensures fits { IfSome result PageFits }
    ensures none_packs_to_it { IfNone result ((p : PageWord) → PageFits p → encode_page p ≢ w) }
{
    PageWord::read(w)
}
