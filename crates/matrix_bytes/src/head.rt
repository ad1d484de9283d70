// A scheme's head that some reading gives, which every record of a matrix is read against.
ghost use Rattle.std.specs.Prelude.{T};
ghost use Rattle.model.specs.Accepted.{accepted_head};

use model::Head;

#[derive(Clone, Copy)]
pub(crate) struct AcceptedHead {
    pub head: Head,
    ghost passes: { T (accepted_head head) },
}
