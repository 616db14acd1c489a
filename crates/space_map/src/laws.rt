ghost use Rattle.std.specs.Prelude.{◌≡◌, ℕ, ◌^◌, ◌<◌, ◌≤◌, Some, true};
ghost use Rattle.space_map.specs.declared.area_word.AreaWord.{AreaWord};
ghost use Rattle.space_map.specs.declared.gate_word.GateWord.{GateWord};
ghost use Rattle.space_map.specs.declared.page_word.PageWord.{PageWord};
ghost use Rattle.space_map.specs.AreaWord.{AreaFits, decode_area, encode_area};
ghost use Rattle.space_map.specs.GateWord.{GateFits, decode_gate, encode_gate};
ghost use Rattle.space_map.specs.PageWord.{PageFits, decode_page, encode_page};
ghost use Rattle.space_map.specs.declared.save_word.SaveWord.{SaveWord};
ghost use Rattle.space_map.specs.SaveWord.{SaveFits, decode_save, encode_save};
ghost use Rattle.space_map.specs.Spaces.{Layout};
ghost use Rattle.space_map.specs.Table.{Row, SaveRow, IsRow, IsSaveRow, place_of, save_place_of, table_length, whole_length};
ghost use Rattle.space_map.specs.WholeTable.{WholeRow, IsWholeRow, whole_place_of};

/// No two rows of the table have one place.
pub fn rows_lie_apart()
    ensures apart { (n : ℕ) (a b : Row) → IsRow n a → IsRow n b → place_of n a ≡ place_of n b → a ≡ b }
    ensures in_table { (n : ℕ) (row : Row) → IsRow n row → place_of n row < table_length n }
    ensures saves_apart { (n : ℕ) (a b : SaveRow) → IsSaveRow n a → IsSaveRow n b → save_place_of n a ≡ save_place_of n b → a ≡ b }
    ensures saves_behind { (n : ℕ) (row : SaveRow) → table_length n ≤ save_place_of n row }
    ensures saves_in_table { (l : Layout) (row : SaveRow) → l.checkpoints ≡ true → IsSaveRow l.pages row → save_place_of l.pages row < whole_length l }
{}

/// No two rows of the whole table have one place.
pub fn whole_rows_lie_apart()
    ensures apart { (n : ℕ) (a b : WholeRow) → IsWholeRow n a → IsWholeRow n b → whole_place_of n a ≡ whole_place_of n b → a ≡ b }
    ensures in_table { (l : Layout) (row : WholeRow) → l.checkpoints ≡ true → IsWholeRow l.pages row → whole_place_of l.pages row < whole_length l }
{}

/// Each area word says one thing, and each thing is said by one word.
pub fn area_words_are_unambiguous()
    ensures reads_back { (area : AreaWord) → AreaFits area → decode_area (encode_area area) ≡ Some area }
    ensures one_spelling { (w : ℕ) (area : AreaWord) → decode_area w ≡ Some area → encode_area area ≡ w }
    ensures parts_fit { (w : ℕ) (area : AreaWord) → decode_area w ≡ Some area → AreaFits area }
    ensures is_word { (area : AreaWord) → AreaFits area → encode_area area < 2 ^ 64 }
{}

/// Each gate word says one thing, and each thing is said by one word.
pub fn gate_words_are_unambiguous()
    ensures reads_back { (gate : GateWord) → GateFits gate → decode_gate (encode_gate gate) ≡ Some gate }
    ensures one_spelling { (w : ℕ) (gate : GateWord) → decode_gate w ≡ Some gate → encode_gate gate ≡ w }
    ensures parts_fit { (w : ℕ) (gate : GateWord) → decode_gate w ≡ Some gate → GateFits gate }
    ensures is_word { (gate : GateWord) → GateFits gate → encode_gate gate < 2 ^ 64 }
{}

/// Each page word says one thing, and each thing is said by one word.
pub fn page_words_are_unambiguous()
    ensures reads_back { (page : PageWord) → PageFits page → decode_page (encode_page page) ≡ Some page }
    ensures one_spelling { (w : ℕ) (page : PageWord) → decode_page w ≡ Some page → encode_page page ≡ w }
    ensures parts_fit { (w : ℕ) (page : PageWord) → decode_page w ≡ Some page → PageFits page }
    ensures is_word { (page : PageWord) → PageFits page → encode_page page < 2 ^ 64 }
{}

/// Each save word says one thing, and each thing is said by one word.
pub fn save_words_are_unambiguous()
    ensures reads_back { (save : SaveWord) → SaveFits save → decode_save (encode_save save) ≡ Some save }
    ensures one_spelling { (w : ℕ) (save : SaveWord) → decode_save w ≡ Some save → encode_save save ≡ w }
    ensures parts_fit { (w : ℕ) (save : SaveWord) → decode_save w ≡ Some save → SaveFits save }
    ensures is_word { (save : SaveWord) → SaveFits save → encode_save save < 2 ^ 64 }
{}
