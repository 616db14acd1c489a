ghost use Rattle.std.specs.Prelude.{◌≡◌, ◌≤◌, IfOk};
ghost use Rattle.gc_worker.specs.Laws.Between.{opening_words};

use atom_store::{NoMemory, PlainAtoms};
use mmu_model::unprotect;
use space_map::{AreaWord, PAGE_WORDS, Spaces};
use std::alloc::Global;

/// The words before the first step: both spaces are empty with so many pages in use, the epoch is traced and its turn was taken, the board is
/// open, no cell is linked, and nothing is said of checkpoints.
pub fn opening_words(alloc: Global, spaces: Spaces, pages: u32) -> Result<PlainAtoms, NoMemory>
    requires { pages ≤ spaces.pages }
    ensures { IfOk result (λ atoms. atoms ≡ opening_words spaces pages) }
{
    let area = AreaWord {
        front: 0,
        low: PAGE_WORDS * pages,
        owed: 0,
    };
    let mut atoms = PlainAtoms::new(alloc, spaces.whole_len())?;
    atoms.store(spaces.page_place(spaces.board_page()), unprotect(0));
    atoms.store(spaces.size_place(1), u64::from(pages));
    atoms.store(spaces.size_place(0), u64::from(pages));
    atoms.store(spaces.weak_turn_place(), 1);
    atoms.store(spaces.area_place(1), area.pack());
    atoms.store(spaces.area_place(0), area.pack());
    atoms.store(spaces.traced_place(), 1);
    Ok(atoms)
}
