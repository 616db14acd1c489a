ghost use Rattle.std.specs.Prelude.{◌<◌, ◌≤◌, length};
ghost use Rattle.space_map.specs.Spaces.{board_page};
ghost use Rattle.space_map.specs.Table.{table_length};
ghost use Rattle.heap_state.specs.Memory.Table.{table_of};
ghost use Rattle.heap_state.specs.Memory.Walk.{CrossingsHold};
ghost use Rattle.crossing_map.specs.Crossing.{IsCovered, IsCrossed, pairs_kept};

use space_map::Spaces;

/// The address of the record that lies over the first word of a page below FRONT. What the workers keep is not looked at: it says
/// which places are reserved, where no record lies yet.
pub fn covers(spaces: Spaces, words: &[u64], page: u32, _kept: &[(u64, u64)]) -> u32
    requires whole { table_length spaces.pages ≤ length words.now }
    requires page { page < board_page spaces.pages }
    requires crossings { CrossingsHold (table_of spaces.pages words.now) (pairs_kept _kept.now) }
    requires crossed { IsCrossed (table_of spaces.pages words.now) (pairs_kept _kept.now) page }
    ensures { IsCovered (table_of spaces.pages words.now) (pairs_kept _kept.now) page result }
{
    words[spaces.cross_place(page)] as u32
}
