// The first and last numbers, too little memory, and graphs that are full.
use super::survey::walk;
use bit_matrix::BitMatrix;
use cell_lists::{Cell, CellLists};
use conflicts::{ConflictGraph, check_memory};
use lifts::{Fault, Layer, Refusal};
use std::process::Abort;

fn refused(refusal: Refusal, lift: u32) -> Fault {
    Fault::about(refusal, Layer::Book, lift)
}

fn too_little() -> Fault {
    Fault::without_lift(Refusal::TooLittleMemory, Layer::Setup)
}

fn numbers_at_the_edges<G: ConflictGraph>(rt: &impl Abort, graph: &mut G) {
    assert_eq!(rt; graph.insert(0, 63), Ok(()));
    assert_eq!(rt; graph.insert(64, 0), Ok(()));
    assert_eq!(rt; graph.insert(511, 0), Ok(()));
    assert_eq!(rt; graph.edge_count(), 3);
    assert_eq!(rt; graph.degree(0), Ok(3));
    assert_eq!(rt; walk(graph, 0), Ok(3));
    assert_eq!(rt; graph.degree(511), Ok(1));
    assert_eq!(rt; graph.contains(0, 511), Ok(true));
    assert_eq!(rt; graph.contains(63, 64), Ok(false));
    assert_eq!(rt; graph.contains(63, 63), Ok(false));
}

fn smallest_neighbours<G: ConflictGraph>(rt: &impl Abort, graph: &G) {
    assert_eq!(rt; graph.next_neighbour(0, 0), Ok(Some(63)));
    assert_eq!(rt; graph.next_neighbour(0, 63), Ok(Some(63)));
    assert_eq!(rt; graph.next_neighbour(0, 64), Ok(Some(64)));
    assert_eq!(rt; graph.next_neighbour(0, 65), Ok(Some(511)));
    assert_eq!(rt; graph.next_neighbour(0, 511), Ok(Some(511)));
    assert_eq!(rt; graph.next_neighbour(0, 512), Ok(None));
    assert_eq!(rt; graph.next_neighbour(0, 1000), Ok(None));
    assert_eq!(rt; graph.next_neighbour(0, 4294967295), Ok(None));
    assert_eq!(rt; graph.next_neighbour(511, 0), Ok(Some(0)));
    assert_eq!(rt; graph.next_neighbour(511, 1), Ok(None));
    assert_eq!(rt; graph.next_neighbour(62, 0), Ok(None));
}

fn refusals_in_order<G: ConflictGraph>(rt: &impl Abort, graph: &mut G) {
    let large = Refusal::NumberTooLarge;
    assert_eq!(rt; graph.insert(512, 513), Err(refused(large, 512)));
    assert_eq!(rt; graph.insert(5, 513), Err(refused(large, 513)));
    assert_eq!(rt; graph.insert(600, 600), Err(refused(large, 600)));
    assert_eq!(rt; graph.insert(7, 7), Err(refused(Refusal::SameLiftTwice, 7)));
    assert_eq!(rt; graph.insert(63, 0), Err(refused(Refusal::ClashStands, 63)));
    assert_eq!(rt; graph.remove(512, 5), Err(refused(large, 512)));
    assert_eq!(rt; graph.remove(5, 512), Err(refused(large, 512)));
    assert_eq!(rt; graph.remove(0, 0), Err(refused(Refusal::SameLiftTwice, 0)));
    assert_eq!(rt;
        graph.remove(63, 64),
        Err(refused(Refusal::NoSuchClash, 63))
    );
    assert_eq!(rt; graph.isolate(512), Err(refused(large, 512)));
    assert_eq!(rt; graph.edge_count(), 3);
}

// What the changes would be refused with, and nothing is changed.
fn checks_before_changes<G: ConflictGraph>(rt: &impl Abort, graph: &G) {
    let large = Some(refused(Refusal::NumberTooLarge, 512));
    assert_eq!(rt; graph.check_insert(512, 0).err(), large);
    assert_eq!(rt;
        graph.check_insert(63, 0).err(),
        Some(refused(Refusal::ClashStands, 63))
    );
    assert!(rt; graph.check_remove(63, 0).is_ok());
    assert_eq!(rt; graph.check_remove(512, 0).err(), large);
    assert_eq!(rt;
        graph.check_remove(63, 64).err(),
        Some(refused(Refusal::NoSuchClash, 63))
    );
    assert_eq!(rt; graph.edge_count(), 3);
}

fn questions_past_the_end<G: ConflictGraph>(rt: &impl Abort, graph: &G) {
    let fault = refused(Refusal::NumberTooLarge, 512);
    assert_eq!(rt; graph.degree(512), Err(fault));
    assert_eq!(rt; walk(graph, 512), Err(fault));
    assert_eq!(rt; graph.next_neighbour(512, 0), Err(fault));
    assert_eq!(rt; graph.contains(512, 513), Err(fault));
    assert_eq!(rt; graph.contains(0, 512), Err(fault));
}

fn removed_and_isolated<G: ConflictGraph>(rt: &impl Abort, graph: &mut G) {
    assert_eq!(rt; graph.remove(63, 0), Ok(()));
    assert!(rt; graph.check_insert(63, 0).is_ok());
    assert_eq!(rt; graph.remove(63, 0), Err(refused(Refusal::NoSuchClash, 63)));
    assert_eq!(rt; graph.insert(64, 511), Ok(()));
    assert_eq!(rt; graph.isolate(0), Ok(()));
    assert_eq!(rt; graph.edge_count(), 1);
    assert_eq!(rt; graph.degree(0), Ok(0));
    assert_eq!(rt; graph.contains(511, 64), Ok(true));
    assert_eq!(rt; graph.isolate(0), Ok(()));
    assert_eq!(rt; graph.edge_count(), 1);
}

fn at_the_edges<G: ConflictGraph>(rt: &impl Abort, graph: &mut G) {
    numbers_at_the_edges(rt, graph);
    smallest_neighbours(rt, graph);
    refusals_in_order(rt, graph);
    checks_before_changes(rt, graph);
    questions_past_the_end(rt, graph);
    removed_and_isolated(rt, graph);
}

#[test]
fn edges_of_the_matrix(rt: HostRuntime) {
    let mut words = [u64::MAX; 4096];
    let mut graph = BitMatrix::new(&mut words);
    assert_eq!(rt; graph.capacity(), 130816);
    at_the_edges(&rt, &mut graph);
}

#[test]
fn edges_of_the_lists(rt: HostRuntime) {
    let mut cells = [Cell::blank(); 7];
    let mut graph = CellLists::new(&mut cells);
    assert_eq!(rt; graph.capacity(), 3);
    at_the_edges(&rt, &mut graph);
}

// A graph of capacity 0 still answers, and refuses, as every graph does.
fn of_capacity_0<G: ConflictGraph>(rt: &impl Abort, graph: &mut G) {
    assert_eq!(rt; graph.capacity(), 0);
    assert_eq!(rt; graph.edge_count(), 0);
    assert_eq!(rt; graph.insert(0, 511), Err(refused(Refusal::GraphFull, 0)));
    assert_eq!(rt;
        graph.check_insert(0, 511).err(),
        Some(refused(Refusal::GraphFull, 0))
    );
    assert_eq!(rt; graph.insert(0, 0), Err(refused(Refusal::SameLiftTwice, 0)));
    assert_eq!(rt;
        graph.remove(511, 0),
        Err(refused(Refusal::NoSuchClash, 511))
    );
    assert_eq!(rt; graph.contains(0, 511), Ok(false));
    assert_eq!(rt; graph.degree(511), Ok(0));
    assert_eq!(rt; graph.next_neighbour(0, 0), Ok(None));
    assert_eq!(rt; graph.isolate(3), Ok(()));
}

#[test]
fn memory_by_its_units(rt: HostRuntime) {
    assert_eq!(rt; check_memory(4095, 4096), Err(too_little()));
    assert_eq!(rt; check_memory(4096, 4096), Ok(()));
    assert_eq!(rt; check_memory(0, 0), Ok(()));
}

#[test]
fn too_few_words(rt: HostRuntime) {
    let mut words = [9u64; 4095];
    assert_eq!(rt; BitMatrix::check(&words), Err(too_little()));
    {
        let mut graph = BitMatrix::new(&mut words);
        of_capacity_0(&rt, &mut graph);
    }
    assert_eq!(rt; words[0], 9);
    assert_eq!(rt; words[4094], 9);
}

#[test]
fn words_past_the_matrix(rt: HostRuntime) {
    let mut words = [9u64; 4098];
    assert_eq!(rt; BitMatrix::check(&words), Ok(()));
    {
        let mut graph = BitMatrix::new(&mut words);
        assert_eq!(rt; graph.insert(511, 510), Ok(()));
        assert_eq!(rt; graph.insert(511, 0), Ok(()));
        assert_eq!(rt; graph.remove(511, 0), Ok(()));
        assert_eq!(rt; graph.degree(511), Ok(1));
    }
    assert_eq!(rt; words[4088], 0);
    assert_eq!(rt; words[4095], 1 << 62);
    assert_eq!(rt; words[4096], 9);
    assert_eq!(rt; words[4097], 9);
}

#[test]
fn too_few_cells(rt: HostRuntime) {
    let mut cells = [Cell::blank(); 1];
    assert_eq!(rt; CellLists::check(&cells), Err(too_little()));
    let mut graph = CellLists::new(&mut cells);
    of_capacity_0(&rt, &mut graph);
}

#[test]
fn cells_are_used_again(rt: HostRuntime) {
    let mut cells = [Cell::blank(); 2];
    assert_eq!(rt; CellLists::check(&cells), Ok(()));
    let mut graph = CellLists::new(&mut cells);
    assert_eq!(rt; graph.insert(1, 2), Ok(()));
    assert_eq!(rt; graph.insert(3, 4), Err(refused(Refusal::GraphFull, 3)));
    assert_eq!(rt; graph.insert(2, 1), Err(refused(Refusal::ClashStands, 2)));
    assert_eq!(rt; graph.remove(2, 1), Ok(()));
    assert_eq!(rt; graph.insert(3, 4), Ok(()));
    assert_eq!(rt; graph.isolate(4), Ok(()));
    assert_eq!(rt; graph.insert(511, 0), Ok(()));
    assert_eq!(rt; graph.next_neighbour(0, 1), Ok(Some(511)));
}

// Every pair that there is.
fn complete<G: ConflictGraph>(rt: &impl Abort, graph: &mut G) {
    for a in 0..512 {
        for b in 0..a {
            assert_eq!(rt; graph.insert(a, b), Ok(()));
        }
    }
}

#[test]
fn every_pair_in_the_matrix(rt: HostRuntime) {
    let mut words = [0u64; 4096];
    let mut graph = BitMatrix::new(&mut words);
    complete(&rt, &mut graph);
    assert_eq!(rt; graph.edge_count(), graph.capacity());
    assert_eq!(rt; graph.insert(0, 511), Err(refused(Refusal::ClashStands, 0)));
    assert_eq!(rt; graph.degree(300), Ok(511));
    assert_eq!(rt; graph.next_neighbour(300, 300), Ok(Some(301)));
    assert_eq!(rt; graph.isolate(300), Ok(()));
    assert_eq!(rt; graph.edge_count(), 130305);
    assert_eq!(rt; graph.degree(0), Ok(510));
}
