// Writing a scheme: each record into the part of the output behind the one before it, once it is known that all of them fit.
ghost use Rattle.std.specs.Prelude.{◌≡◌, List, [], ◌∷◌, ℕ, Result, ◌+◌, ◌*◌, ◌≤◌, ◌<◌, length, T};
ghost use Rattle.std.proofs.lemmas.List.Edits.{sets};
ghost use Rattle.rights.specs.Numberings.{right_byte, parameter_byte};
ghost use Rattle.model.specs.Accepted.{accepted_scheme};
ghost use Rattle.model.specs.Scheme.{commands_of};
ghost use Rattle.faults.specs.declared.Fault.{Fault};
ghost use Rattle.records.specs.Bytes.{record_bytes, each_bytes};
ghost use Rattle.records.specs.Writing.{placed};
ghost use Rattle.records.specs.Results.{written};
ghost use Rattle.command_bytes.specs.Write.{head_bytes, type_bytes, test_bytes, operation_bytes, code_number, command_bytes};
ghost use Rattle.scheme_bytes.specs.Write.{write_scheme};
ghost use Rattle.scheme_write.specs.Inner.Small.{Small};
ghost use Rattle.scheme_write.specs.Inner.Few.{few_in_type, few_in_test, few_in_operation};

use accepted::scheme_accepted;
use faults::Fault;
use model::{Code, Command, Head, Operation, Scheme, Test};
use rights::{Numbered, Parameter, Right, ThingType};

// A function, since an impl of `From` for a type of `model` can stand only there.
fn code_number(code: Code) -> u8
    ensures { result ≡ code_number code }
{
    match code {
        Code::Enter => 1,
        Code::Delete => 2,
        Code::Create => 3,
        Code::Destroy => 4,
    }
}

fn put_head(part: &mut [u8], h: Head)
    ensures { part.new ≡ sets part.old 0 (record_bytes 1 (head_bytes h)) }
{
    records::put_front(part, 1, 5);
    records::put1(part, 4, h.rights);
    records::put1(part, 5, h.types);
    records::put2(part, 6, h.subjects.0);
    records::put1(part, 8, h.count);
}

// What the lists of a command are made of: each is stored as a few bytes.
trait Stored: Copy {
    ghost bytes: { Self → List ℕ };

    // At a place of a part of the output; what it gives is the place behind.
    fn put(self, part: &mut [u8], i: usize) -> usize
        requires { i ≤ 4096 }
        ensures stored { part.new ≡ sets part.old i (bytes self) }
        ensures behind { result ≡ i + length (bytes self) };

    ghost few: { (x : Self) → length (bytes x) ≤ 4 };
}

impl Stored for ThingType {
    ghost bytes = { type_bytes };

    ghost few = { few_in_type };

    fn put(self, part: &mut [u8], i: usize) -> usize {
        records::put1(part, i, self.byte());
        i + 1
    }
}

// What a test names behind its sense, and an operation behind its code.
fn put_named(part: &mut [u8], i: usize, right: Right, row: Parameter, column: Parameter)
    requires { i ≤ 4097 }
    ensures { part.new ≡ sets part.old i (right_byte right ∷ parameter_byte row ∷ parameter_byte column ∷ []) }
{
    records::put1(part, i, right.byte());
    records::put1(part, i + 1, row.byte());
    records::put1(part, i + 2, column.byte());
}

impl Stored for Test {
    ghost bytes = { test_bytes };

    ghost few = { few_in_test };

    fn put(self, part: &mut [u8], i: usize) -> usize {
        records::put1(part, i, self.present as u8);
        put_named(part, i + 1, self.right, self.row, self.column);
        i + 4
    }
}

impl Stored for Operation {
    ghost bytes = { operation_bytes };

    ghost few = { few_in_operation };

    fn put(self, part: &mut [u8], i: usize) -> usize {
        records::put1(part, i, code_number(self.code));
        put_named(part, i + 1, self.right, self.row, self.column);
        i + 4
    }
}

// A list behind its count; the place behind it.
fn put_list<T: Stored>(part: &mut [u8], i: usize, items: &[T]) -> usize
    requires { (i ≤ 1024) × (length items.now ≤ 32) }
    ensures stored { part.new ≡ sets part.old i (length items.now ∷ each_bytes T.bytes items.now) }
    ensures behind { result ≡ i + 1 + length (each_bytes T.bytes items.now) }
{
    records::put1(part, i, items.len() as u8);
    let mut p = i + 1;
    for item in items {
        p = item.put(part, p);
    }
    p
}

// The length of a command's body.
fn command_length(c: &Command) -> usize
    requires { Small c.now }
    ensures { result ≡ length (command_bytes c.now) }
{
    3 + (c.parameters.count as usize)
        + 4 * (c.tests.count as usize)
        + 4 * (c.operations.count as usize)
}

fn put_command(part: &mut [u8], c: &Command)
    requires { Small c.now }
    ensures { part.new ≡ sets part.old 0 (record_bytes 2 (command_bytes c.now)) }
{
    records::put_front(part, 2, command_length(c) as u16);
    let tests = put_list(part, 4, &c.parameters.types[..c.parameters.count as usize]);
    let operations = put_list(part, tests, &c.tests.list[..c.tests.count as usize]);
    put_list(
        part,
        operations,
        &c.operations.list[..c.operations.count as usize],
    );
}

// How many bytes the commands' records take.
#[tactic(auto, using(crate::proofs::WriteLaws::commands_fit))]
fn commands_length(s: &Scheme) -> usize
    requires { T (accepted_scheme s.now) }
    ensures { (result ≡ length (each_bytes (λ c. record_bytes 2 (command_bytes c)) (commands_of s.now))) × (result ≤ 8192) }
{
    let commands = &s.commands[..s.head.count as usize];
    let mut sum: usize = 0;
    for c in commands {
        sum += 4 + command_length(c);
    }
    sum
}

#[tactic(auto, using(crate::proofs::WriteLaws::commands_fit))]
fn put_commands(out: &mut [u8], at: usize, s: &Scheme)
    requires { T (accepted_scheme s.now) × (at + length (each_bytes (λ c. record_bytes 2 (command_bytes c)) (commands_of s.now)) ≤ length out.old) }
    ensures { out.new ≡ placed out.old at (each_bytes (λ c. record_bytes 2 (command_bytes c)) (commands_of s.now)) }
{
    let commands = &s.commands[..s.head.count as usize];
    let mut p = at;
    for c in commands {
        put_command(&mut out[p..], c);
        p += 4 + command_length(c);
    }
}

// The scheme's bytes from the start of the output on: 27, then 9.
pub fn write_scheme(out: &mut [u8], s: Scheme) -> Result<usize, Fault>
    ensures { ◌≡◌ {A = Result ℕ Fault × List ℕ} (result, out.new) (written (write_scheme out.old s)) }
{
    if !scheme_accepted(s) {
        return Err(Fault::NotAccepted);
    }
    let n = 9 + commands_length(&s);
    if out.len() < n {
        return Err(Fault::NoRoom);
    }
    put_head(out, s.head);
    put_commands(out, 9, &s);
    Ok(n)
}
