// What the checks are made of: what must hold, and what is within its limits.
ghost use Rattle.std.specs.Prelude.{◌≡◌, if◌then◌else◌};
ghost use Rattle.laws.specs.Check.{between};

use faults::Fault;

// This must hold; if it doesn't, this is the fault.
pub(crate) fn must(holds: bool, fault: Fault) -> Result<(), Fault>
    ensures { result ≡ (if holds then Ok tt else Err fault) }
{
    if holds { Ok(()) } else { Err(fault) }
}

// Whether a count is within its limits.
#[tactic(auto, unfolding(laws::specs::Check::between))]
pub(crate) fn between(low: u8, high: u8, x: u8) -> bool
    ensures { result ≡ between low high x }
{
    (low..=high).contains(&x)
}
