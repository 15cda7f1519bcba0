// A table of pairs put into a graph, and every question at every number.
ghost use Rattle.std.specs.Prelude.{◌≡◌, ℕ, ◌+◌, ◌<◌, ◌≤◌, true, false, MatchOption, MatchResult};
ghost use Rattle.lifts.specs.Faults.{number_refusal, unless_refused};
ghost use Rattle.lifts.specs.declared.fault.Layer.TheVariants.{Book};
ghost use Rattle.conflicts.specs.Counting.{bit};
ghost use Rattle.conflicts.specs.Graphs.{degree, edge_count};

use super::selection::RANKS;
use conflicts::ConflictGraph;
use lifts::{Fault, Lift};
use precedence::{ByClass, ByDue, ByNumber, Precedence};
use std::fmt;

// Some of these are refused: a pair twice, turned, of one number, or with a number that is too large.
const PAIRS: [(u32, u32); 16] = [
    (0, 63),
    (64, 0),
    (63, 64),
    (511, 0),
    (64, 511),
    (63, 0),
    (0, 63),
    (5, 5),
    (5, 2),
    (512, 5),
    (5, 512),
    (2, 7),
    (7, 5),
    (127, 128),
    (448, 447),
    (511, 510),
];

// Whether the pair was taken.
fn offer<G: ConflictGraph>(graph: &mut G, a: u32, b: u32) -> bool
    ensures kept { (x y : ℕ) → G.adjacent graph.old x y ≡ true → G.adjacent graph.new x y ≡ true }
    ensures counted { edge_count (G.adjacent graph.new) ≡ edge_count (G.adjacent graph.old) + bit result }
    ensures fixed { G.limit graph.new ≡ G.limit graph.old }
    ensures frame { G.framed graph.old graph.new }
{
    graph.insert(a, b).is_ok()
}

// Inserts each pair, goes on past the refused ones, and says how many were taken.
pub fn fill<G: ConflictGraph>(graph: &mut G, pairs: &[(u32, u32)]) -> usize
    ensures kept { (x y : ℕ) → G.adjacent graph.old x y ≡ true → G.adjacent graph.new x y ≡ true }
    ensures counted { edge_count (G.adjacent graph.new) ≡ edge_count (G.adjacent graph.old) + result }
    ensures fixed { G.limit graph.new ≡ G.limit graph.old }
    ensures frame { G.framed graph.old graph.new }
{
    let mut taken = 0;
    for &(a, b) in pairs {
        taken += usize::from(offer(graph, a, b));
    }
    taken
}

// How many neighbours there are, by asking for one after the other, as every loop over neighbours does.
#[tactic(auto, using(conflicts::proofs::Sums::count_le, conflicts::proofs::Sums::count_next, conflicts::proofs::Sums::count_skip, conflicts::proofs::Sums::sum_zero))]
pub fn walk<G: ConflictGraph>(graph: &G, a: u32) -> Result<u32, Fault>
    ensures { result ≡ unless_refused (number_refusal Book a) (degree (G.adjacent graph.now) a) }
{
    let mut count = 0;
    let mut from = 0;
    while let Some(b) = graph.next_neighbour(a, from)? {
        count += 1;
        from = b + 1;
    }
    Ok(count)
}

// Every number has a record, so that there is something to compare.
fn record(number: u32) -> Result<Lift, Fault>
    ensures { MatchResult result (λ lift. lift.number.value ≡ number) (λ _. 511 < number) }
{
    Lift::new(number, number % 64 * 100, number % 16)
}

// The neighbour whose record stands before those of all others. The contract says that it is a neighbour, and the
// stored output which one.
pub fn first_by<G: ConflictGraph, P: Precedence>(
    graph: &G,
    order: &P,
    a: u32,
) -> Result<Option<u32>, Fault>
    ensures { MatchResult result
        (λ first. MatchOption first
        ((x : ℕ) → G.adjacent graph.now a x ≡ false)
        (λ b. G.adjacent graph.now a b ≡ true))
        (λ _. 511 < a) }
{
    let mut first: Option<Lift> = None;
    let mut from = 0;
    while let Some(b) = graph.next_neighbour(a, from)? {
        let lift = record(b)?;
        first = Some(first.map_or(
            lift,
            |best| if order.before(lift, best) { lift } else { best },
        ));
        from = b + 1;
    }
    Ok(first.map(|lift| lift.number().get()))
}

// A number in a row, where it was asked for and is there.
#[derive(Clone, Copy)]
struct Told(Result<Option<u32>, Fault>);

impl fmt::Display for Told {
    fn fmt<W: fmt::Write>(&self, f: &mut fmt::Formatter<W>) -> fmt::Result {
        match self.0 {
            Ok(Some(number)) => write!(f, "{number}"),
            Ok(None) => f.write_str("none"),
            Err(_) => f.write_str("refused"),
        }
    }
}

// One row: the number, how many neighbours it has, which they are, how many were met by going along them,
// and which stands first by each order.
fn tell<G: ConflictGraph>(rt: &HostRuntime, graph: &G, a: u32) -> anyhow::Result<()> {
    let Ok(count) = graph.degree(a) else {
        println!(rt; "{a}: refused")?;
        return Ok(());
    };
    if count == 0 {
        return Ok(());
    }
    print!(rt; "{a}: degree {count}, neighbours")?;
    tell_neighbours(rt, graph, a)?;
    let walked = Told(walk(graph, a).map(Some));
    let number = Told(first_by(graph, &ByNumber, a));
    let due = Told(first_by(graph, &ByDue, a));
    let class = Told(first_by(graph, &ByClass::new(RANKS), a));
    println!(rt; "; walked {walked}; first by number {number}, by due {due}, by class {class}")?;
    Ok(())
}

fn tell_neighbours<G: ConflictGraph>(rt: &HostRuntime, graph: &G, a: u32) -> anyhow::Result<()> {
    for b in 0..512 {
        if let Ok(true) = graph.contains(a, b) {
            print!(rt; " {b}")?;
        }
    }
    Ok(())
}

pub fn survey<G: ConflictGraph>(rt: &HostRuntime, graph: &mut G) -> anyhow::Result<()> {
    let taken = fill(graph, &PAIRS);
    let count = graph.edge_count();
    println!(rt; "{taken} pairs taken, {count} stand")?;
    for a in 0..514 {
        tell(rt, graph, a)?;
    }
    Ok(())
}
