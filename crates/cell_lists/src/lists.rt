// Adjacency lists: each number below 512 has the chain of its neighbours.
ghost use Rattle.std.specs.Prelude.{◌≡◌, ◌+◌, ◌*◌, ◌≤◌, length};
ghost use Rattle.conflicts.specs.Graphs.{Bounded, Loopless, Symmetric, edge_count};
ghost use Rattle.cell_lists.specs.Chains.{Degrees, Disjoint, Inside, Ranged, Single, holds};
ghost use Rattle.cell_lists.specs.Memory.{view};

use super::chains::Memory;

#[derive(Drop)]
pub struct CellLists<'a> {
    pub(crate) memory: Memory<'a>,
    pub(crate) pairs: u32,
    pub(crate) capacity: u32,
    ghost long: { 2 * capacity ≤ length memory.cells.now },
    ghost most: { capacity ≤ 130816 },
    ghost ranged: { Ranged (view memory) (2 * capacity) },
    ghost disjoint: { Disjoint (view memory) },
    ghost inside: { Inside (view memory) },
    ghost single: { Single (view memory) },
    ghost symmetric: { Symmetric (holds (view memory)) },
    ghost loopless: { Loopless (holds (view memory)) },
    ghost bounded: { Bounded (holds (view memory)) },
    ghost degrees: { Degrees (view memory) },
    ghost free: { (view memory).count 512 + 2 * pairs ≡ 2 * capacity },
    ghost counted: { pairs ≡ edge_count (holds (view memory)) },
    ghost fitting: { edge_count (holds (view memory)) ≤ capacity },
}
