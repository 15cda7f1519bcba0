// Which of some lifts stands first, by every order.
ghost use Rattle.std.specs.Prelude.{◌≡◌, ℕ, ◌<◌, false, length, MatchOption, slice_index_or};
ghost use Rattle.lifts.specs.declared.lift.Lift.{Lift};

use lifts::{Fault, Lift};
use precedence::{ByClass, ByDue, ByNumber, Precedence};

// The place of a lift before which none of the others stands.
pub fn first_of<P: Precedence>(order: &P, lifts: &[Lift]) -> Option<usize>
    ensures { MatchOption result (length lifts.now ≡ 0)
        (λ i. (i < length lifts.now) × ((k : ℕ) (d : Lift) → k < length lifts.now → P.earlier order.now (slice_index_or lifts.now k d) (slice_index_or lifts.now i d) ≡ false)) }
{
    if lifts.is_empty() {
        return None;
    }
    let mut first = 0;
    for (i, lift) in lifts.iter().enumerate() {
        if order.before(*lift, lifts[first]) {
            first = i;
        }
    }
    Some(first)
}

// Classes share ranks, so that the number decides between some.
pub const RANKS: [u8; 16] = [9, 3, 9, 1, 4, 4, 0, 255, 7, 7, 2, 200, 3, 8, 6, 5];

pub fn four_lifts() -> Result<[Lift; 4], Fault> {
    Ok([
        Lift::new(3, 500, 7)?,
        Lift::new(1, 500, 0)?,
        Lift::new(2, 10079, 2)?,
        Lift::new(511, 0, 15)?,
    ])
}

fn tell_first<P: Precedence>(rt: &HostRuntime, order: &P, lifts: &[Lift]) -> anyhow::Result<()> {
    if let Some(i) = first_of(order, lifts) {
        let number = lifts[i].number().get();
        println!(rt; " {number}")?;
    }
    Ok(())
}

pub fn tell_orders(rt: &HostRuntime) -> anyhow::Result<()> {
    let lifts = four_lifts()?;
    print!(rt; "first by number:")?;
    tell_first(rt, &ByNumber, &lifts)?;
    print!(rt; "first by due:")?;
    tell_first(rt, &ByDue, &lifts)?;
    print!(rt; "first by class:")?;
    tell_first(rt, &ByClass::new(RANKS), &lifts)
}
