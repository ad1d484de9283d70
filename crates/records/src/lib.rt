// Records: the front of one, its body lent back, its fields, and the writer's side. Every function takes any bytes and any position.
#![tactic(auto, unfolding(faults::specs::Numbers::fault_of))]

ghost use Rattle.std.specs.Prelude.{◌≡◌, List, ℕ, Result, ◌+◌, ◌<◌, ◌≤◌, length, drop, set};
ghost use Rattle.std.proofs.lemmas.List.Edits.{sets};
ghost use Rattle.records.specs.Bytes.{little_endian, record_bytes, number2, part};
ghost use Rattle.records.specs.Reading.{byte, number, field};
ghost use Rattle.records.specs.Front.{allowed, record_at, next_at};
ghost use Rattle.records.specs.Writing.{write_bytes, write_record};
ghost use Rattle.records.specs.Results.{value_of, record_result, reading_result, written};
ghost use Rattle.faults.specs.declared.Fault.{Fault};
ghost use Rattle.records.specs.Inner.Parts.{bytes_in};

use faults::Fault;

// The kinds that may stand at a place: bit k for kind k. A kind is a number: all 65,536 can stand in a record, are told, and may be asked for and written
// (`record_at`, `put_front`, `write_record`).
#[derive(Clone, Copy)]
pub struct Kinds(pub u16);

// A record that stands at a position: its kind, and where its body is.
#[derive(Clone, Copy, Debug, PartialEq, Eq)]
pub struct Record {
    pub kind: u16,
    pub start: usize,
    pub len: usize,
}

// Why a whole record is refused, with its position.
#[derive(Clone, Copy, Debug, PartialEq, Eq)]
pub struct Refused {
    pub fault: Fault,
    pub at: usize,
}

impl Kinds {
    pub fn has(self, kind: u16) -> bool
        ensures { result ≡ allowed self.0 kind }
    {
        if kind < 16 {
            (self.0 >> kind) % 2 == 1
        } else {
            false
        }
    }
}

// ---- bytes of a slice

// The N bytes from a position on, where there are as many.
fn bytes_at<const N: usize>(s: &[u8], i: usize) -> Option<[u8; N]>
    ensures { result ≡ bytes_in N s.now i }
{
    s.get(i..)?.first_chunk().copied()
}

fn number2_at(s: &[u8], i: usize) -> u16
    requires { i + 1 < length s.now }
    ensures { result ≡ number2 s.now i }
{
    u16::from_le_bytes([s[i], s[i + 1]])
}

// ---- a record

// Front (1), kind (2), body's end (1).
pub fn record_at(s: &[u8], at: usize, kinds: Kinds) -> Result<Record, Refused>
    ensures { result ≡ record_result (record_at s.now at kinds.0) }
{
    if s.len() < at || s.len() - at < 4 {
        return Err(Refused {
            fault: Fault::Truncated,
            at,
        });
    }
    let kind = number2_at(s, at + 2);
    if !kinds.has(kind) {
        return Err(Refused {
            fault: Fault::WrongKind,
            at,
        });
    }
    let len = number2_at(s, at) as usize;
    let start = at + 4;
    if s.len() - start < len {
        return Err(Refused {
            fault: Fault::Truncated,
            at,
        });
    }
    Ok(Record { kind, start, len })
}

// The body of a record as a part of the input; of a part that runs past the end, what there is of it.
pub fn body(s: &[u8], start: usize, len: usize) -> &[u8]
    ensures { result.now ≡ part s.now start len }
{
    let n = s.len();
    if n <= start {
        return &s[n..n];
    }
    if n - start < len {
        return &s[start..n];
    }
    &s[start..start + len]
}

// The position after the record that stands at a position.
pub fn next_record(s: &[u8], at: usize, kinds: Kinds) -> Result<usize, Refused>
    ensures { result ≡ reading_result (next_at s.now at kinds.0) }
{
    let found = record_at(s, at, kinds)?;
    Ok(found.start + found.len)
}

// ---- the fields of a body

pub fn byte_at(b: &[u8], i: usize) -> Result<u8, Fault>
    ensures { result ≡ value_of (byte (drop i b.now)) }
{
    if b.len() <= i {
        return Err(Fault::BodyEnd);
    }
    Ok(b[i])
}

// A byte from low on and below limit; another is the fault of this number, which may be any: the clause says so of every number.
pub fn field_at(b: &[u8], i: usize, low: u8, limit: u8, number: u8) -> Result<u8, Fault>
    ensures { result ≡ value_of (field low limit number (drop i b.now)) }
{
    let v = byte_at(b, i)?;
    if v < low || limit <= v {
        return Err(Fault::from(number));
    }
    Ok(v)
}

pub fn field2_at(b: &[u8], i: usize) -> Result<u16, Fault>
    ensures { result ≡ value_of (number 2 (drop i b.now)) }
{
    let bytes = bytes_at(b, i).ok_or(Fault::BodyEnd)?;
    Ok(u16::from_le_bytes(bytes))
}

pub fn field8_at(b: &[u8], i: usize) -> Result<u64, Fault>
    ensures { result ≡ value_of (number 8 (drop i b.now)) }
{
    let bytes = bytes_at(b, i).ok_or(Fault::BodyEnd)?;
    Ok(u64::from_le_bytes(bytes))
}

// ---- the writer's side: stores that have the meaning of `set`, so that one past the end changes nothing

pub fn put1(out: &mut [u8], i: usize, v: u8)
    ensures { out.new ≡ set out.old i v }
{
    if i < out.len() {
        out[i] = v;
    }
}

// As many bytes as there is room for.
fn put_each(out: &mut [u8], i: usize, bytes: &[u8])
    ensures { out.new ≡ sets out.old i bytes.now }
{
    if i < out.len() {
        for (j, byte) in bytes.iter().enumerate() {
            put1(out, i + j, *byte);
        }
    }
}

pub fn put2(out: &mut [u8], i: usize, v: u16)
    ensures { out.new ≡ sets out.old i (little_endian 2 v) }
{
    put_each(out, i, &v.to_le_bytes());
}

pub fn put8(out: &mut [u8], i: usize, v: u64)
    ensures { out.new ≡ sets out.old i (little_endian 8 v) }
{
    put_each(out, i, &v.to_le_bytes());
}

// The front of a record at the start of a part of the output.
pub fn put_front(part: &mut [u8], kind: u16, len: u16)
    ensures { part.new ≡ sets (sets part.old 0 (little_endian 2 len)) 2 (little_endian 2 kind) }
{
    put2(part, 0, len);
    put2(part, 2, kind);
}

// Bytes that there is room for, each stored once: a copy by the C library may store one twice, and a robot has no more of that library than the copy
// of what can't overlap.
fn put_bytes(part: &mut [u8], i: usize, bytes: &[u8])
    requires { i + length bytes.now ≤ length part.old }
    ensures { part.new ≡ sets part.old i bytes.now }
{
    for (j, byte) in bytes.iter().enumerate() {
        part[i + j] = *byte;
    }
}

fn put_record(part: &mut [u8], kind: u16, body: &[u8])
    requires { (length body.now ≤ 65535) × (4 + length body.now ≤ length part.old) }
    ensures { part.new ≡ sets part.old 0 (record_bytes kind body.now) }
{
    put_front(part, kind, body.len() as u16);
    put_bytes(part, 4, body);
}

// Bytes as they are, in the output's part from a position on: 9 where there is no room.
pub fn write_bytes(out: &mut [u8], at: usize, bytes: &[u8]) -> Result<usize, Fault>
    ensures { ◌≡◌ {A = Result ℕ Fault × List ℕ} (result, out.new) (written (write_bytes out.old at bytes.now)) }
{
    let n = bytes.len();
    if out.len() < at || out.len() - at < n {
        return Err(Fault::NoRoom);
    }
    put_bytes(&mut out[at..], 0, bytes);
    Ok(at + n)
}

// One record, in the output's part from a position on: 4 where the body has no length field, 9 where there is no room.
pub fn write_record(out: &mut [u8], at: usize, kind: u16, body: &[u8]) -> Result<usize, Fault>
    ensures { ◌≡◌ {A = Result ℕ Fault × List ℕ} (result, out.new) (written (write_record out.old at kind body.now)) }
{
    let n = body.len();
    if 65535 < n {
        return Err(Fault::Count);
    }
    if out.len() < at || out.len() - at < 4 + n {
        return Err(Fault::NoRoom);
    }
    put_record(&mut out[at..], kind, body);
    Ok(at + 4 + n)
}
