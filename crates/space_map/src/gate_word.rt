ghost use Rattle.std.specs.Prelude.{◌≡◌, ◌^◌, ◌≤◌, ◌<◌, ◌↔◌, IsSome, IfSome, Some};

const LIVE_SHIFT: u32 = 32;

const RUNNING_SHIFT: u32 = 40;

const BEHIND_SHIFT: u32 = 48;

const REQUEST_SHIFT: u32 = 56;

const LEFT_SHIFT: u32 = 57;

const USED_BITS: u32 = 62;

/// The safepoint of all mutators: which of them stand where, in one word so that it changes in one step.
#[derive(Clone, Copy, Debug, PartialEq, Eq)]
pub struct GateWord {
    /// The number of flips made.
    pub epoch: u32,
    /// The mutators that have attached and not left.
    pub live: u8,
    /// Those of them that are not stopped.
    pub running: u8,
    /// Those that have not forwarded their registers since the last flip.
    pub behind: u8,
    /// Whether a flip is requested, so that mutators stop.
    pub request: bool,
    /// The mutators that have left, below 32.
    pub left: u8,
}

impl GateWord {
    ghost use Rattle.space_map.specs.GateWord.{GateFits, decode_gate, encode_gate};

    pub fn pack(self) -> u64
        requires { self.left < 2 ^ 5 }
        ensures word { result ≡ encode_gate self }
        ensures reads_back { decode_gate result ≡ Some self }
    {
        u64::from(self.epoch)
            | u64::from(self.live) << LIVE_SHIFT
            | u64::from(self.running) << RUNNING_SHIFT
            | u64::from(self.behind) << BEHIND_SHIFT
            | u64::from(self.request) << REQUEST_SHIFT
            | u64::from(self.left) << LEFT_SHIFT
    }

    /// What the word says, where neither of its highest two bits is set.
    pub fn read(word: u64) -> Option<GateWord>
        ensures decoded { result ≡ decode_gate word }
        ensures only_gate_words { IsSome result ↔ (word < 2 ^ 62) }
        ensures one_spelling { IfSome result (λ gate. word ≡ encode_gate gate) }
        ensures fits { IfSome result GateFits }
    {
        if word >> USED_BITS != 0 {
            return None;
        }
        Some(GateWord {
            epoch: (word & 0xffff_ffff) as u32,
            live: (word >> LIVE_SHIFT & 0xff) as u8,
            running: (word >> RUNNING_SHIFT & 0xff) as u8,
            behind: (word >> BEHIND_SHIFT & 0xff) as u8,
            request: word >> REQUEST_SHIFT & 1 == 1,
            left: (word >> LEFT_SHIFT) as u8,
        })
    }
}
