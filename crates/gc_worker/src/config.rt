ghost use Rattle.std.specs.Prelude.{◌≡◌, ◌≤◌, ◌↔◌, IfOk, IsOk, IsTrue};
ghost use Rattle.space_map.specs.declared.spaces.TheConstants.{FEWEST_PAGES};
ghost use Rattle.gc_worker.specs.Config.{has_sizes, layout_by};

use space_map::{BadPages, FEWEST_PAGES, Spaces};

/// The most instructions that a mutator may execute in a run of a program.
pub const MOST_TURNS: u32 = 10_000_000;

/// The size of a heap, and who works on it.
#[derive(Clone, Copy, Debug, PartialEq, Eq)]
pub struct Config {
    /// Pages of a space that are in use at first, `FEWEST_PAGES` to `MOST_PAGES`.
    pub pages: u32,
    /// Pages of a space that may come into use, as many as at first to `MOST_PAGES`.
    pub limit: u32,
    /// Scanners, at most `MOST_SCANNERS`.
    pub scanners: u8,
    /// Whether checkpoints can be begun. The table is then about twice as long; without, `snap` changes none of its words.
    pub snap: bool,
}

impl Config {
    /// The layout of its spaces, for as many pages as may come into use, with room for checkpoints if they can be begun. `BadPages` comes
    /// exactly if fewer than `FEWEST_PAGES` are in use at first, or more than may come into use, or more than `MOST_PAGES` may.
    pub fn spaces(self) -> Result<Spaces, BadPages>
        ensures layout { IfOk result (λ spaces. spaces ≡ layout_by self) }
        ensures at_first { IfOk result (λ spaces. (FEWEST_PAGES ≤ self.pages) × (self.pages ≤ spaces.pages)) }
        ensures refused_exactly_outside { IsOk result ↔ IsTrue (has_sizes self) }
    {
        if self.pages < FEWEST_PAGES || self.pages > self.limit {
            return Err(BadPages);
        }
        let spaces = Spaces::new(self.limit)?;
        Ok(if self.snap {
            spaces.with_checkpoints()
        } else {
            spaces
        })
    }
}
