// The neighbours that a chain names.
ghost use Rattle.cell_lists.specs.Memory.{Stays};

use super::cell::Cell;

// Walks a chain from its top: each cell, with the neighbour that it names.
#[derive(Drop)]
pub(crate) struct Neighbours<'m> {
    pub(crate) cells: &'m [Cell],
    pub(crate) cell: u32,
    pub(crate) left: u32,
    ghost stays: { Stays cells.now cell left },
}

impl Iterator for Neighbours<'_> {
    ghost use Rattle.std.specs.Iterator.{YieldsFirst, at_most};
    ghost use Rattle.cell_lists.specs.Walks.{ahead};

    type Item = (u32, u32);

    ghost next_gives = { YieldsFirst ahead };

    ghost remaining = { λ s. at_most s.left };

    fn next(&mut self) -> Option<(u32, u32)> {
        if self.left == 0 {
            return None;
        }
        let cell = self.cell;
        let Cell { neighbour, next } = self.cells[cell as usize];
        self.cell = next;
        self.left -= 1;
        Some((cell, neighbour))
    }
}
