ghost use Rattle.std.specs.Prelude.{◌≡◌, ◌^◌, ◌≤◌, ◌<◌, ◌↔◌, IsSome, IfSome, Some};

const PART_WIDTH: u32 = 18;

const PART_MASK: u64 = 0x3_ffff;

/// The room that a space has left, in one word so that it changes in one step.
///
/// Records are copied from the space's low end up, and new ones are made from its high end down. All parts are numbers of
/// words, of 18 bits each.
#[derive(Clone, Copy, Debug, PartialEq, Eq)]
pub struct AreaWord {
    /// The first word past the copied records, less the space's first word.
    pub front: u32,
    /// The first word of the new records' pages, less the space's first word.
    pub low: u32,
    /// The words used at the flip less those copied since, which the space must keep free while the epoch is not traced.
    pub owed: u32,
}

impl AreaWord {
    ghost use Rattle.space_map.specs.AreaWord.{AreaFits, decode_area, encode_area};

    pub fn pack(self) -> u64
        requires { AreaFits self }
        ensures word { result ≡ encode_area self }
        ensures reads_back { decode_area result ≡ Some self }
    {
        u64::from(self.front)
            | u64::from(self.low) << PART_WIDTH
            | u64::from(self.owed) << (2 * PART_WIDTH)
    }

    /// What the word says, where no bit above its parts is set.
    pub fn read(word: u64) -> Option<AreaWord>
        ensures decoded { result ≡ decode_area word }
        ensures only_area_words { IsSome result ↔ (word < 2 ^ 54) }
        ensures one_spelling { IfSome result (λ area. word ≡ encode_area area) }
        ensures fits { IfSome result AreaFits }
    {
        if word >> (3 * PART_WIDTH) != 0 {
            return None;
        }
        Some(AreaWord {
            front: (word & PART_MASK) as u32,
            low: (word >> PART_WIDTH & PART_MASK) as u32,
            owed: (word >> (2 * PART_WIDTH)) as u32,
        })
    }
}
