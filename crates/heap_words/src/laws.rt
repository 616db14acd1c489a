ghost use Rattle.std.specs.Prelude.{◌≡◌, ◌≢◌, ℕ, ◌^◌, ◌<◌};
ghost use Rattle.heap_words.specs.Decoded.{Decoded, Malformed, decode, encode, IsInRange};

/// Each word says one thing at most, and each thing is said by one word.
pub fn words_are_unambiguous()
    ensures reads_back { (d : Decoded) → IsInRange d → decode (encode d) ≡ d }
    ensures one_spelling { (w : ℕ) → decode w ≢ Malformed → encode (decode w) ≡ w }
    ensures parts_fit { (w : ℕ) → w < 2 ^ 64 → IsInRange (decode w) }
    ensures is_word { (d : Decoded) → IsInRange d → encode d < 2 ^ 64 }
{}
