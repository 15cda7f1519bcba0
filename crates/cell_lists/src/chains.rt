// Chains of cells. Each is a stack: a cell comes and goes at the top.
ghost use Rattle.std.specs.Prelude.{◌≡◌, ◌+◌, ◌^◌, ◌<◌, ◌≤◌, length, drop, ◌≢◌, slice_index_or, EachIndex};
ghost use Rattle.cell_lists.specs.Chains.{Cut, Moved, Unused};
ghost use Rattle.cell_lists.specs.Memory.{HasRoom, HasTop, Kept, blank, view};

use super::cell::Cell;
use lifts::LiftNumber;

// The chain of the free cells, after the numbers' own, so that one function moves a cell between any two chains.
const FREE: u32 = 512;

// The top cell of a chain, and how many cells it has.
#[derive(Clone, Copy, PartialEq, Eq, Debug)]
pub(crate) struct Chain {
    pub(crate) head: u32,
    pub(crate) len: u32,
}

// The caller's cells and the chains over them, that of the free cells last.
#[derive(Drop)]
pub(crate) struct Memory<'a> {
    pub(crate) cells: &'a mut [Cell],
    pub(crate) chains: [Chain; 513],
}

impl<'a> Memory<'a> {
    // No number has a neighbour: the first `free` cells are the free chain.
    pub(crate) fn all_free(cells: &'a mut [Cell], free: u32) -> Memory<'a>
        requires { free ≤ length cells.old }
        ensures unused { Unused (view result) free }
        ensures named { result.cells.ghost_name ≡ cells.entry.ghost_name }
        ensures long { length result.cells.now ≡ length cells.old }
        ensures beyond { drop free result.cells.now ≡ drop free cells.old }
    {
        link(&mut cells[..free as usize]);
        let mut chains = [Chain { head: 0, len: 0 }; 513];
        chains[FREE as usize].len = free;
        Memory { cells, chains }
    }

    // Moves the top cell of one chain to another, where it names `neighbour`.
    fn move_top(&mut self, from: u32, to: u32, neighbour: u32)
        requires apart { (from < 513) × (to < 513) × (from ≢ to) }
        requires top { HasTop self.old from }
        requires room { HasRoom self.old to }
        ensures moved { Moved (view self.old) (view self.new) from to neighbour }
        ensures kept { Kept self.old self.new }
    {
        let Chain { head: top, len } = self.chains[from as usize];
        let under = self.chains[to as usize];
        self.chains[from as usize] = Chain {
            head: self.cells[top as usize].next,
            len: len - 1,
        };
        self.cells[top as usize] = Cell {
            neighbour,
            next: under.head,
        };
        self.chains[to as usize] = Chain {
            head: top,
            len: under.len + 1,
        };
    }

    // Puts a free cell on top of the chain of `a`, where it names `b`.
    pub(crate) fn add(&mut self, a: LiftNumber, b: LiftNumber)
        requires top { HasTop self.old 512 }
        requires room { HasRoom self.old a.value }
        ensures added { Moved (view self.old) (view self.new) 512 a.value b.value }
        ensures kept { Kept self.old self.new }
    {
        self.move_top(FREE, a.get(), b.get());
    }

    // Cuts the cell `cell` out of the chain of `a`. So that no link changes below the top, it comes to name what the top cell
    // names, and the top cell becomes free.
    pub(crate) fn cut(&mut self, a: LiftNumber, cell: u32)
        requires top { HasTop self.old a.value }
        requires inside { cell < length self.old.cells.now }
        requires room { HasRoom self.old 512 }
        ensures cut { Cut (view self.old) (view self.new) a.value cell }
        ensures kept { Kept self.old self.new }
    {
        let a = a.get();
        let top = self.chains[a as usize].head;
        self.cells[cell as usize].neighbour = self.cells[top as usize].neighbour;
        self.move_top(a, FREE, 0);
    }
}

// Makes one chain of the cells, from the first on.
fn link(cells: &mut [Cell])
    requires { length cells.old < 2 ^ 32 }
    ensures { EachIndex cells.new (λ i. (slice_index_or cells.new i blank).next ≡ i + 1) }
{
    for (i, cell) in cells.iter_mut().enumerate() {
        *cell = Cell {
            neighbour: 0,
            next: i as u32 + 1,
        };
    }
}
