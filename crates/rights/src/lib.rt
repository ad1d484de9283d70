// Rights, types and parameters are three numberings, each a struct of its own; a set of rights goes by value.
#![tactic(auto)]

ghost use Rattle.std.specs.Prelude.{◌≡◌, ℕ, eqb, ltb};
ghost use Rattle.rights.specs.Sets.{has, single, enter_right, delete_right, all_rights, complement, count_rights, within};
ghost use Rattle.rights.specs.Numberings.{partner_of};

// A right's number, a type's number, and a parameter's place in a command. None may stand where another belongs.
#[derive(Clone, Copy, PartialEq, Eq, Debug)]
pub struct Right(pub u8);

#[derive(Clone, Copy, PartialEq, Eq, Debug)]
pub struct ThingType(pub u8);

#[derive(Clone, Copy, PartialEq, Eq, Debug)]
pub struct Parameter(pub u8);

// The rights in one cell: bit r for right r.
#[derive(Clone, Copy, PartialEq, Eq, Debug)]
pub struct RightSet(pub u64);

// The types that make a thing a subject: bit t for type t.
#[derive(Clone, Copy, PartialEq, Eq, Debug)]
pub struct TypeSet(pub u16);

// What the three numberings have in common: a number each, and what is asked of it. Each impl stands beside its type, and says where the number is.
pub trait Numbered: Copy {
    ghost number: { Self → ℕ };

    // The byte that stands for it in a record.
    fn byte(self) -> u8
        ensures { result ≡ number self };

    // Whether it is one of the first n.
    fn below(self, n: u8) -> bool
        ensures { result ≡ ltb (number self) n }
    {
        self.byte() < n
    }

    fn is(self, other: Self) -> bool
        ensures { result ≡ eqb (number self) (number other) }
    {
        self.byte() == other.byte()
    }

    // Number 0 also stands in unused places.
    fn is_zero(self) -> bool
        ensures { result ≡ eqb (number self) 0 }
    {
        self.byte() == 0
    }
}

impl Right {
    pub const LIMIT: u8 = 64;

    // The right that stands for this one's absence, where there are n rights.
    #[tactic(auto, using(crate::proofs::Words::partner_word))]
    pub fn partner(self, n: u8) -> Right
        ensures { result ≡ partner_of n self }
    {
        Right(self.0.saturating_add(n))
    }

    // The set of this right alone; a number that is no right's gives the empty set.
    #[tactic(auto, using(crate::proofs::Words::single_word, crate::proofs::Words::single_none))]
    pub fn single(self) -> RightSet
        ensures { result.0 ≡ single self.0 }
    {
        if self.0 < Right::LIMIT {
            RightSet(1u64 << self.0)
        } else {
            RightSet(0)
        }
    }
}

impl Numbered for Right {
    ghost number = { λ one. one.0 };

    fn byte(self) -> u8 {
        self.0
    }
}

impl ThingType {
    pub const LIMIT: u8 = 16;
}

impl Numbered for ThingType {
    ghost number = { λ one. one.0 };

    fn byte(self) -> u8 {
        self.0
    }
}

impl Parameter {
    pub const LIMIT: u8 = 8;
}

impl Numbered for Parameter {
    ghost number = { λ one. one.0 };

    fn byte(self) -> u8 {
        self.0
    }
}

// Whether bit i of a set's word is 1. A set of types is read in a word of rights, where it has no bit from 16 on.
#[tactic(auto, using(crate::proofs::Words::has_word, crate::proofs::Words::has_none))]
fn has_bit(word: u64, i: u8) -> bool
    ensures { result ≡ has word i }
{
    i < Right::LIMIT && (word >> i) % 2 == 1
}

// Whether a set's word has no bit from m on.
#[tactic(auto, using(crate::proofs::Words::within_word, crate::proofs::Words::within_full))]
fn is_within(word: u64, m: u8) -> bool
    ensures { result ≡ within m word }
{
    Right::LIMIT <= m || word < (1u64 << m)
}

impl RightSet {
    // The set of all n rights; there are 64 at most.
    #[tactic(auto, using(crate::proofs::Words::all_word, crate::proofs::Words::all_full, crate::proofs::Words::shifted_pos))]
    pub fn all(n: u8) -> RightSet
        ensures { result.0 ≡ all_rights n }
    {
        if n < Right::LIMIT {
            RightSet((1u64 << n) - 1)
        } else {
            RightSet(u64::MAX)
        }
    }

    pub fn has(self, r: Right) -> bool
        ensures { result ≡ has self.0 r.0 }
    {
        has_bit(self.0, r.0)
    }

    pub fn is_empty(self) -> bool
        ensures { result ≡ eqb self.0 0 }
    {
        self.0 == 0
    }

    #[tactic(auto, using(crate::proofs::Words::enter_word))]
    pub fn enter(self, r: Right) -> RightSet
        ensures { result.0 ≡ enter_right r.0 self.0 }
    {
        let one = r.single();
        RightSet(self.0 | one.0)
    }

    #[tactic(auto, using(crate::proofs::Words::delete_word))]
    pub fn delete(self, r: Right) -> RightSet
        ensures { result.0 ≡ delete_right r.0 self.0 }
    {
        let one = r.single();
        RightSet((self.0 | one.0) ^ one.0)
    }

    // The rights below n that this set lacks.
    #[tactic(auto, using(crate::proofs::Words::complement_word))]
    pub fn complement(self, n: u8) -> RightSet
        ensures { result.0 ≡ complement n self.0 }
    {
        let every = RightSet::all(n);
        RightSet((self.0 | every.0) ^ self.0)
    }

    // Whether no right of number n or above is in it.
    pub fn within(self, n: u8) -> bool
        ensures { result ≡ within n self.0 }
    {
        is_within(self.0, n)
    }

    // How many rights it holds.
    #[tactic(auto, using(crate::proofs::Words::count_word))]
    pub fn count(self) -> u32
        ensures { result ≡ count_rights self.0 }
    {
        self.0.count_ones()
    }
}

impl TypeSet {
    pub fn has(self, t: ThingType) -> bool
        ensures { result ≡ has self.0 t.0 }
    {
        has_bit(u64::from(self.0), t.0)
    }

    // Whether no type of number m or above is in it.
    pub fn within(self, m: u8) -> bool
        ensures { result ≡ within m self.0 }
    {
        is_within(u64::from(self.0), m)
    }
}
