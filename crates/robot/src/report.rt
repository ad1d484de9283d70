// What a call tells: what it did, or why it was refused; and the five numbers of it that every function of the library puts into the lent report.
ghost use Rattle.std.specs.Prelude.{◌≡◌, cond, List, ℕ, eqb, set, None};
ghost use Rattle.std.proofs.lemmas.List.Edits.{sets};
ghost use Rattle.faults.specs.Numbers.{number_of};
ghost use Rattle.robot.specs.Library.{gives};
ghost use Rattle.robot.specs.Inner.Calls.{listed, place_number, told, stored_told, moved_told};

use faults::Fault;
use records::Refused;

// Where a fault lies. It, `Failure` and `Success` are `pub` so that a law of another crate can name them.
#[derive(Clone, Copy, Debug)]
pub enum Place {
    Scheme,
    Matrix,
    List,
    Answers,
    Output,
}

// Why a call was refused, and where.
#[derive(Clone, Copy, Debug)]
pub struct Failure {
    pub fault: Fault,
    pub place: Place,
    pub at: usize,
}

// What a call did: how far it read, how many answers it stored and how many bytes it wrote; and where a record of a list that can't be read has ended that.
#[derive(Clone, Copy, Debug)]
pub struct Success {
    pub at: usize,
    pub count: usize,
    pub written: usize,
    pub cut: Option<Refused>,
}

pub(crate) type Called = Result<Success, Failure>;

impl Place {
    // As the report says it.
    pub(crate) fn number(self) -> usize
        ensures { result ≡ place_number self }
    {
        match self {
            Place::Scheme => 1,
            Place::Matrix => 2,
            Place::List => 3,
            Place::Answers => 4,
            Place::Output => 5,
        }
    }
}

impl Failure {
    // At the start of it.
    pub(crate) fn at_start(fault: Fault, place: Place) -> Failure
        ensures { result ≡ record { fault = fault; place = place; at = 0 } }
    {
        Failure {
            fault,
            place,
            at: 0,
        }
    }

    // At a record of what was read.
    pub(crate) fn at_record(refused: Refused, place: Place) -> Failure
        ensures { result ≡ record { fault = refused.fault; place = place; at = refused.at } }
    {
        Failure {
            fault: refused.fault,
            place,
            at: refused.at,
        }
    }
}

impl Success {
    pub(crate) fn read(at: usize) -> Success
        ensures { result ≡ record { at = at; count = 0; written = 0; cut = None } }
    {
        Success {
            at,
            count: 0,
            written: 0,
            cut: None,
        }
    }

    pub(crate) fn wrote(written: usize) -> Success
        ensures { result ≡ record { at = 0; count = 0; written = written; cut = None } }
    {
        Success {
            at: 0,
            count: 0,
            written,
            cut: None,
        }
    }
}

// Where a fault of what was to be stored lies: 9 in the output, any other number in what the caller says.
fn place_of(fault: Fault, other: Place) -> Place
    ensures { place_number result ≡ cond (eqb (number_of fault) 9) 5 (place_number other) }
{
    if fault.number() == 9 {
        Place::Output
    } else {
        other
    }
}

// What was written, or why not.
pub(crate) fn written(answer: Result<usize, Fault>, other: Place) -> Called
    ensures { told result ≡ stored_told (place_number other) answer }
{
    match answer {
        Ok(n) => Ok(Success::wrote(n)),
        Err(fault) => Err(Failure::at_start(fault, place_of(fault, other))),
    }
}

// What was moved, or why not: a fault that isn't the output's lies in the image that was handed in.
pub(crate) fn moved(answer: Result<usize, Refused>) -> Called
    ensures { told result ≡ moved_told answer }
{
    match answer {
        Ok(n) => Ok(Success::wrote(n)),
        Err(refused) => {
            let place = place_of(refused.fault, Place::Matrix);
            Err(Failure::at_record(refused, place))
        }
    }
}

// The five numbers of a report.
#[derive(Clone, Copy, Debug, PartialEq, Eq)]
pub(crate) struct Numbers {
    place: usize,
    at: usize,
    count: usize,
    written: usize,
    cut: usize,
}

// Of a list that a record has ended that record's number is told here, and the call's is 0.
fn numbers_of(called: Called) -> Numbers
    ensures { listed result ≡ (told called).report }
{
    match called {
        Err(failure) => Numbers {
            place: failure.place.number(),
            at: failure.at,
            count: 0,
            written: 0,
            cut: 0,
        },
        Ok(done) => match done.cut {
            None => Numbers {
                place: 0,
                at: done.at,
                count: done.count,
                written: done.written,
                cut: 0,
            },
            Some(refused) => Numbers {
                place: Place::List.number(),
                at: refused.at,
                count: done.count,
                written: done.written,
                cut: refused.fault.number() as usize,
            },
        },
    }
}

// A report holds as many of the five as it has room for.
fn put(report: &mut [usize], i: usize, v: usize)
    ensures { report.new ≡ set report.old i v }
{
    if i < report.len() {
        report[i] = v;
    }
}

fn put_all(report: &mut [usize], n: Numbers)
    ensures { report.new ≡ sets report.old 0 (listed n) }
{
    put(report, 0, n.place);
    put(report, 1, n.at);
    put(report, 2, n.count);
    put(report, 3, n.written);
    put(report, 4, n.cut);
}

// The call's own number.
fn own_number(called: Called) -> u8
    ensures { result ≡ (told called).number }
{
    match called {
        Ok(_) => 0,
        Err(failure) => failure.fault.number(),
    }
}

pub(crate) fn tell(report: &mut [usize], called: Called) -> u8
    ensures { ◌≡◌ {A = ℕ × List ℕ} (result, report.new) (gives report.old (told called)) }
{
    put_all(report, numbers_of(called));
    own_number(called)
}
