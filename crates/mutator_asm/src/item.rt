//! An item of a schedule.

use std::fmt;

/// The most steps of an item.
pub const TIMES_MAX: u64 = 1_000_000;

/// So many steps, one after another, of one worker.
#[derive(Clone, Copy, Debug, PartialEq, Eq)]
pub struct Item {
    /// The worker, at most `LAST_WORKER` of `plain_state`.
    pub worker: u8,
    /// How many steps it makes, 1 to 1,000,000.
    pub times: u32,
}

/// An item as a listing has it: `w`, or `w*k`.
impl fmt::Display for Item {
    ghost use Rattle.std.specs.Prelude.{Some};
    ghost use Rattle.mutator_asm.specs.Listing.{item_token};

    ghost output = { λ item. Some (item_token item) };

    fn fmt<W: fmt::Write>(&self, f: &mut fmt::Formatter<W>) -> fmt::Result {
        if self.times == 1 {
            write!(f, "{}", self.worker)
        } else {
            write!(f, "{}*{}", self.worker, self.times)
        }
    }
}
