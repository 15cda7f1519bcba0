// Random changes to both graphs, which must answer alike.
use super::survey::walk;
use bit_matrix::BitMatrix;
use cell_lists::{Cell, CellLists};
use conflicts::ConflictGraph;
use std::process::Abort;

// Few numbers, so that pairs meet again, and those at the edges of words and of the range.
const NUMBERS: [u32; 16] = [
    0, 1, 2, 5, 62, 63, 64, 65, 127, 128, 447, 448, 509, 510, 511, 512,
];

// A generator of the xorshift kind: the same numbers in every run.
#[derive(Drop)]
struct Random {
    state: u64,
}

impl Random {
    fn next(&mut self) -> u64 {
        let mut x = self.state;
        x ^= x << 13;
        x ^= x >> 7;
        x ^= x << 17;
        self.state = x;
        x
    }

    fn number(&mut self) -> u32 {
        NUMBERS[(self.next() % 16) as usize]
    }
}

fn change_both<G: ConflictGraph, H: ConflictGraph>(
    rt: &impl Abort,
    random: &mut Random,
    g: &mut G,
    h: &mut H,
) {
    let a = random.number();
    let b = random.number();
    match random.next() % 16 {
        0..=9 => assert_eq!(rt; g.insert(a, b), h.insert(a, b)),
        10..=14 => assert_eq!(rt; g.remove(a, b), h.remove(a, b)),
        _ => assert_eq!(rt; g.isolate(a), h.isolate(a)),
    }
}

fn alike_at<G: ConflictGraph, H: ConflictGraph>(rt: &impl Abort, g: &G, h: &H, a: u32, b: u32) {
    assert_eq!(rt; g.contains(a, b), h.contains(a, b));
    assert_eq!(rt; g.next_neighbour(a, b), h.next_neighbour(a, b));
}

fn alike_on_numbers<G: ConflictGraph, H: ConflictGraph>(rt: &impl Abort, g: &G, h: &H) {
    assert_eq!(rt; g.edge_count(), h.edge_count());
    for a in NUMBERS {
        assert_eq!(rt; g.degree(a), h.degree(a));
        assert_eq!(rt; walk(g, a), h.degree(a));
        for b in NUMBERS {
            alike_at(rt, g, h, a, b);
        }
    }
}

fn alike_everywhere<G: ConflictGraph, H: ConflictGraph>(rt: &impl Abort, g: &G, h: &H) {
    for a in 0..514 {
        assert_eq!(rt; g.degree(a), h.degree(a));
        for b in 0..514 {
            alike_at(rt, g, h, a, b);
        }
    }
}

fn many_changes<G: ConflictGraph, H: ConflictGraph>(
    rt: &impl Abort,
    random: &mut Random,
    g: &mut G,
    h: &mut H,
) {
    for _ in 0..200 {
        for _ in 0..20 {
            change_both(rt, random, g, h);
        }
        alike_on_numbers(rt, g, h);
    }
    alike_everywhere(rt, g, h);
}

#[test]
fn both_graphs_answer_alike(rt: HostRuntime) {
    let mut words = [u64::MAX; 4096];
    let mut cells = [Cell::blank(); 256];
    let mut matrix = BitMatrix::new(&mut words);
    let mut lists = CellLists::new(&mut cells);
    let mut random = Random {
        state: 88172645463325252,
    };
    many_changes(&rt, &mut random, &mut matrix, &mut lists);
}

// A graph with room for few pairs refuses just those that the other takes past its capacity.
fn change_small<G: ConflictGraph>(rt: &impl Abort, random: &mut Random, graph: &mut G) {
    let a = random.number();
    let b = random.number();
    let before = graph.edge_count();
    let full = before >= graph.capacity();
    match random.next() % 8 {
        0..=5 => {
            let taken = graph.insert(a, b).is_ok();
            assert!(rt; !(taken && full));
        }
        6 => {
            let _ = graph.remove(a, b);
        }
        _ => {
            let _ = graph.isolate(a);
        }
    }
    assert!(rt; graph.edge_count() <= graph.capacity());
}

#[test]
fn small_lists_never_overflow(rt: HostRuntime) {
    let mut cells = [Cell::blank(); 11];
    let mut lists = CellLists::new(&mut cells);
    let mut random = Random {
        state: 4101842887655102017,
    };
    assert_eq!(rt; lists.capacity(), 5);
    for _ in 0..2000 {
        change_small(&rt, &mut random, &mut lists);
    }
}
