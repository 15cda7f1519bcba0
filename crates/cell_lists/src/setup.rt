// Setting up lists over the caller's cells.
ghost use Rattle.std.specs.Prelude.{◌≡◌, ℕ, ◌*◌, false, length, drop};
ghost use Rattle.lifts.specs.Faults.{unless_refused};
ghost use Rattle.conflicts.specs.Refusals.{memory_refusal};
ghost use Rattle.cell_lists.specs.Lists.{standing};
ghost use Rattle.cell_lists.specs.Memory.{capacity_of};

use super::cell::Cell;
use super::chains::Memory;
use super::lists::CellLists;
use conflicts::{ALL_PAIRS, check_memory};
use lifts::Fault;

// Two cells are the fewest that hold a pair.
const FEWEST_CELLS: usize = 2;

fn pairs_in(cells: usize) -> u32
    ensures { result ≡ capacity_of cells }
{
    let half = cells / 2;
    half.min(ALL_PAIRS as usize) as u32
}

impl<'a> CellLists<'a> {
    // Whether a graph with room for a pair can stand on the cells.
    pub fn check(cells: &[Cell]) -> Result<(), Fault>
        ensures { result ≡ unless_refused (memory_refusal 2 (length cells.now)) tt }
    {
        check_memory(cells.len(), FEWEST_CELLS)
    }

    // No pair stands. Over too few cells the capacity is 0.
    pub fn new(cells: &'a mut [Cell]) -> CellLists<'a>
        ensures empty { (x y : ℕ) → standing result x y ≡ false }
        ensures capacity { result.capacity ≡ capacity_of (length cells.old) }
        ensures named { result.memory.cells.ghost_name ≡ cells.entry.ghost_name }
        ensures long { length result.memory.cells.now ≡ length cells.old }
        ensures beyond { drop (2 * result.capacity) result.memory.cells.now ≡ drop (2 * result.capacity) cells.old }
    {
        let capacity = pairs_in(cells.len());
        CellLists {
            memory: Memory::all_free(cells, 2 * capacity),
            pairs: 0,
            capacity,
        }
    }
}
