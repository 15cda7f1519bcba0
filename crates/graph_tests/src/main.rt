// Asks both conflict graphs and all orders the same questions, through their interfaces alone.
#![tactic(auto)]

#[cfg(test)]
mod limits;
#[cfg(test)]
mod orders;
mod selection;
#[cfg(test)]
mod side_by_side;
mod survey;

use bit_matrix::BitMatrix;
use cell_lists::{Cell, CellLists};
use conflicts::ConflictGraph;
use selection::tell_orders;
use survey::survey;

fn main(rt: HostRuntime) -> anyhow::Result<()> {
    let mut words = [u64::MAX; 4096];
    let mut cells = [Cell::blank(); 64];
    let mut matrix = BitMatrix::new(&mut words);
    let mut lists = CellLists::new(&mut cells);
    let room = matrix.capacity();
    println!(rt; "bit matrix, capacity {room}")?;
    survey(&rt, &mut matrix)?;
    let room = lists.capacity();
    println!(rt; "cell lists, capacity {room}")?;
    survey(&rt, &mut lists)?;
    tell_orders(&rt)
}
