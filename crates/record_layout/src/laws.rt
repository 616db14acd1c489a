ghost use Rattle.std.specs.Prelude.{IsSome, IsNone};
ghost use Rattle.heap_words.specs.Decoded.{Decoded};
ghost use Rattle.record_layout.specs.Layout.{header_in, forward_in, busy_in, IsNoValue};

/// No word reads as two of a header, a forward and a busy word, and none of these is a number or a pointer.
pub fn first_words_are_distinct()
    ensures headers { (d : Decoded) → IsSome (header_in d)
        → IsNone (forward_in d) × IsNone (busy_in d) × IsNoValue d }
    ensures forwards { (d : Decoded) → IsSome (forward_in d)
        → IsNone (header_in d) × IsNone (busy_in d) × IsNoValue d }
    ensures busy { (d : Decoded) → IsSome (busy_in d)
        → IsNone (header_in d) × IsNone (forward_in d) × IsNoValue d }
{}
