// The cells that a caller lends.
ghost use Rattle.std.specs.Prelude.{◌≡◌};

// One neighbour of a number, and the cell of the next one.
#[derive(Clone, Copy, PartialEq, Eq, Debug)]
pub struct Cell {
    pub(crate) neighbour: u32,
    pub(crate) next: u32,
}

impl Cell {
    pub fn blank() -> Cell
        ensures { (result.neighbour ≡ 0) × (result.next ≡ 0) }
    {
        Cell {
            neighbour: 0,
            next: 0,
        }
    }
}
