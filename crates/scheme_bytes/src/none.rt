// A table before anything is read into it.
ghost use Rattle.std.specs.Prelude.{◌≡◌};
ghost use Rattle.model.specs.Arrays.{no_scheme};

use command_bytes::no_command;
use model::{Head, Scheme};
use rights::TypeSet;

// A table to read into: no rights, no types, no commands. No reading gives it, so it is 27 everywhere.
#[tactic(auto, unfolding(model::specs::Arrays::no_scheme, model::specs::Arrays::scheme_of))]
pub fn no_scheme() -> Scheme
    ensures { result ≡ no_scheme }
{
    Scheme {
        head: Head {
            rights: 0,
            types: 0,
            subjects: TypeSet(0),
            count: 0,
        },
        commands: [no_command(); Scheme::PLACES],
    }
}
