// Why something is refused: the outline's numbers as one enum. What can be refused gives it as the error of a `Result`, and `?` passes it up.
#![tactic(auto, unfolding(crate::specs::Numbers::fault_of))]

ghost use Rattle.std.specs.Prelude.{◌≡◌};
ghost use Rattle.faults.specs.Numbers.{number_of, fault_of};

#[derive(Clone, Copy, Debug, PartialEq, Eq, Drop)]
pub enum Fault {
    // ---- bytes
    Truncated,
    WrongKind,
    BodyEnd,
    Count,
    Range,
    Form,
    Order,
    Leftover,
    NoRoom,
    // ---- requests
    NoCommand,
    IdCount,
    NoThing,
    OtherType,
    FalseTest,
    IdTaken,
    NoSeat,
    Gone,
    OnHold,
    // ---- conversion, and moving back
    CreatesOrDestroys,
    TooManyRights,
    TooManyOperations,
    HighestLost,
    // ---- values handed in
    NotAccepted,
    // A number that the outline gives to nothing: a field's reader takes any number for its fault.
    Other(u8),
}

impl Fault {
    // The outline's number.
    pub fn number(self) -> u8
        ensures { result ≡ number_of self }
    {
        match self {
            Fault::Truncated => 1,
            Fault::WrongKind => 2,
            Fault::BodyEnd => 3,
            Fault::Count => 4,
            Fault::Range => 5,
            Fault::Form => 6,
            Fault::Order => 7,
            Fault::Leftover => 8,
            Fault::NoRoom => 9,
            Fault::NoCommand => 10,
            Fault::IdCount => 11,
            Fault::NoThing => 12,
            Fault::OtherType => 13,
            Fault::FalseTest => 14,
            Fault::IdTaken => 15,
            Fault::NoSeat => 16,
            Fault::Gone => 17,
            Fault::OnHold => 18,
            Fault::CreatesOrDestroys => 20,
            Fault::TooManyRights => 21,
            Fault::TooManyOperations => 22,
            Fault::HighestLost => 23,
            Fault::NotAccepted => 27,
            Fault::Other(number) => number,
        }
    }
}

impl From<u8> for Fault {
    ghost from_gives = { λ number fault. fault ≡ fault_of number };

    fn from(number: u8) -> Fault {
        match number {
            1 => Fault::Truncated,
            2 => Fault::WrongKind,
            3 => Fault::BodyEnd,
            4 => Fault::Count,
            5 => Fault::Range,
            6 => Fault::Form,
            7 => Fault::Order,
            8 => Fault::Leftover,
            9 => Fault::NoRoom,
            10 => Fault::NoCommand,
            11 => Fault::IdCount,
            12 => Fault::NoThing,
            13 => Fault::OtherType,
            14 => Fault::FalseTest,
            15 => Fault::IdTaken,
            16 => Fault::NoSeat,
            17 => Fault::Gone,
            18 => Fault::OnHold,
            20 => Fault::CreatesOrDestroys,
            21 => Fault::TooManyRights,
            22 => Fault::TooManyOperations,
            23 => Fault::HighestLost,
            27 => Fault::NotAccepted,
            _ => Fault::Other(number),
        }
    }
}

impl From<Fault> for u8 {
    ghost from_gives = { λ fault number. number ≡ number_of fault };

    fn from(fault: Fault) -> u8 {
        fault.number()
    }
}
