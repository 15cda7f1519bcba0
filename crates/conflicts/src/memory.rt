// Memory that a graph is to stand on.
ghost use Rattle.std.specs.Prelude.{◌≡◌};
ghost use Rattle.lifts.specs.Faults.{unless_refused};
ghost use Rattle.conflicts.specs.Refusals.{memory_refusal};

use lifts::{Fault, Layer, Refusal};

// Whether `units` of memory are enough where a graph wants `needed`.
pub fn check_memory(units: usize, needed: usize) -> Result<(), Fault>
    ensures { result ≡ unless_refused (memory_refusal needed units) tt }
{
    if units < needed {
        return Err(Fault::without_lift(Refusal::TooLittleMemory, Layer::Setup));
    }
    Ok(())
}
