// The number that the header knows as SLUSHFERRET_VERSION: a caller may compare the two before it calls anything else.
ghost use Rattle.std.specs.Prelude.{◌≡◌};
ghost use Rattle.robot.specs.Library.{version};

pub fn slushferret_version() -> u32
    ensures { result ≡ version }
{
    7
}
