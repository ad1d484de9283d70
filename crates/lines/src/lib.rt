// Numbers and lines as text, put in a lent buffer; what is past its end is dropped. Each function gives the position behind what it put, for the next one.
// And the id that a word names.
#![tactic(auto)]

mod ids;

ghost use Rattle.std.specs.Prelude.{ℕ, ◌≡◌, List, [], ◌∷◌, ◌++◌};
ghost use Rattle.lines.specs.Lines.{decimal, line};
ghost use Rattle.lines.specs.Put.{put_text};

pub use ids::id_in;

// ---- bytes

// At the largest position nothing is stored, since no buffer is longer; so a position that stays there tells the same as one that goes on.
#[tactic(auto, using(crate::proofs::PutLaws::put_one))]
fn put_byte(out: &mut [u8], at: usize, byte: u8) -> usize
    ensures { ◌≡◌ {A = ℕ × List ℕ} (result, out.new) (put_text out.old at (byte ∷ [])) }
{
    records::put1(out, at, byte);
    at.saturating_add(1)
}

pub fn put_text(out: &mut [u8], at: usize, text: &[u8]) -> usize
    ensures { ◌≡◌ {A = ℕ × List ℕ} (result, out.new) (put_text out.old at text.now) }
{
    let mut p = at;
    for &byte in text {
        p = put_byte(out, p, byte);
    }
    p
}

// ---- numbers

pub fn put_decimal(out: &mut [u8], at: usize, n: u64) -> usize
    ensures { ◌≡◌ {A = ℕ × List ℕ} (result, out.new) (put_text out.old at (decimal n)) }
{
    if n < 10 {
        return put_byte(out, at, b'0' + n as u8);
    }
    let p = put_decimal(out, at, n / 10);
    put_byte(out, p, b'0' + (n % 10) as u8)
}

// A number and the byte behind it.
pub fn put_number(out: &mut [u8], at: usize, n: u64, end: u8) -> usize
    ensures { ◌≡◌ {A = ℕ × List ℕ} (result, out.new) (put_text out.old at (decimal n ++ end ∷ [])) }
{
    let p = put_decimal(out, at, n);
    put_byte(out, p, end)
}

// A line of any count of numbers: a space between them, a line feed behind the last.
pub fn put_line(out: &mut [u8], at: usize, numbers: &[u64]) -> usize
    ensures { ◌≡◌ {A = ℕ × List ℕ} (result, out.new) (put_text out.old at (line numbers.now)) }
{
    let Some((last, before)) = numbers.split_last() else {
        return at;
    };
    let mut p = at;
    for &number in before {
        p = put_number(out, p, number, b' ');
    }
    put_number(out, p, *last, b'\n')
}
