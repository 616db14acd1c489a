ghost use Rattle.std.specs.Prelude.{◌≡◌, ℕ, ◌+◌, ◌*◌, ◌^◌, ◌<◌, ◌≤◌, ◌↔◌};
ghost use Rattle.space_map.specs.Spaces.{HoldsFirstWord, first_page_from};

use crate::spaces::PAGE_WORDS;

/// The first page whose first word a record holds that begins at this address and has so many words, and the first page behind
/// those.
pub fn crossed(f: u32, size: u32) -> (u32, u32)
    requires size { (1 ≤ size) × (size ≤ 4096) }
    requires address { f < 2 ^ 31 }
    ensures first { result.0 ≡ first_page_from f }
    ensures behind { result.1 ≡ first_page_from (f + size) }
    ensures between { (page : ℕ) → HoldsFirstWord f size page ↔ ((result.0 ≤ page) × (page < result.1)) }
{
    (first_page_from(f), first_page_from(f + size))
}

fn first_page_from(address: u32) -> u32
    requires { address < 2 ^ 31 + 4097 }
    ensures { result ≡ first_page_from address }
{
    (address + (PAGE_WORDS - 1)) / PAGE_WORDS
}
