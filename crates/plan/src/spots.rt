// The spots: an array with the seat of each parameter's thing, by place.
ghost use Rattle.std.specs.Prelude.{◌≡◌, set};
ghost use Rattle.plan.specs.Plan.{seat_at};

use model::Parameters;
use rights::Parameter;

// A parameter that no command has sits at seat 0.
#[tactic(auto, unfolding(crate::specs::Plan::seat_at))]
pub fn seat_at(spots: [u8; Parameters::PLACES], p: Parameter) -> u8
    ensures { result ≡ seat_at spots p }
{
    spots.get(p.0 as usize).copied().unwrap_or(0)
}

pub(crate) fn put_spot(spots: &mut [u8; Parameters::PLACES], p: Parameter, seat: u8)
    ensures { spots.new ≡ set spots.old p.0 seat }
{
    let i = p.0 as usize;
    if i < Parameters::PLACES {
        spots[i] = seat;
    }
}
