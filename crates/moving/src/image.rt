// An image of the other kind: a head of its own, and behind it what stood behind the head that was read.
ghost use Rattle.std.specs.Prelude.{◌≡◌, List, Result, ◌++◌, ℕ, ◌≤◌, length};
ghost use Rattle.faults.specs.declared.Fault.{Fault};
ghost use Rattle.records.specs.Bytes.{record_bytes};
ghost use Rattle.records.specs.Results.{written};
ghost use Rattle.records.specs.Writing.{write_bytes};
ghost use Rattle.moving.specs.Moves.{new_image, old_image};

use faults::Fault;

// What stands behind the head comes first: where there is no room for it, nothing is stored; and where there is, there is room for the head.
fn write_image(out: &mut [u8], kind: u16, head: &[u8], rest: &[u8]) -> Result<usize, Fault>
    requires { length head.now ≤ 65535 }
    ensures { ◌≡◌ {A = Result ℕ Fault × List ℕ} (result, out.new) (written (write_bytes out.old 0 (record_bytes kind head.now ++ rest.now))) }
{
    let next = records::write_bytes(out, 4 + head.len(), rest)?;
    records::write_record(out, 0, kind, head)?;
    Ok(next)
}

pub(crate) fn write_new(out: &mut [u8], old: &[u8], highest: u16) -> Result<usize, Fault>
    requires { 6 ≤ length old.now }
    ensures { ◌≡◌ {A = Result ℕ Fault × List ℕ} (result, out.new) (written (write_bytes out.old 0 (new_image old.now highest))) }
{
    let [low, high] = highest.to_le_bytes();
    let head = [old[4], old[5], low, high];
    write_image(out, 7, &head, records::body(old, 6, old.len()))
}

pub(crate) fn write_old(out: &mut [u8], new: &[u8]) -> Result<usize, Fault>
    ensures { ◌≡◌ {A = Result ℕ Fault × List ℕ} (result, out.new) (written (write_bytes out.old 0 (old_image new.now))) }
{
    write_image(
        out,
        3,
        records::body(new, 4, 2),
        records::body(new, 8, new.len()),
    )
}
