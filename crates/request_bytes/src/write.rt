// A request's bytes at a position of a lent buffer.
ghost use Rattle.std.specs.Prelude.{◌≡◌, List, ℕ, Result, ◌≤◌, length};
ghost use Rattle.std.proofs.lemmas.List.Edits.{sets};
ghost use Rattle.faults.specs.declared.Fault.{Fault};
ghost use Rattle.records.specs.Bytes.{little_endian, each_bytes};
ghost use Rattle.records.specs.Results.{written};
ghost use Rattle.request_bytes.specs.Write.{request_bytes, write_request};

use crate::Request;
use faults::Fault;

fn put_ids(part: &mut [u8], i: usize, ids: &[u16])
    requires { (i ≤ 1024) × (length ids.now ≤ 8) }
    ensures { part.new ≡ sets part.old i (each_bytes (little_endian 2) ids.now) }
{
    for (j, id) in ids.iter().enumerate() {
        records::put2(part, i + 2 * j, *id);
    }
}

fn put_request(part: &mut [u8], command: u8, ids: &[u16])
    requires { length ids.now ≤ 8 }
    ensures { part.new ≡ sets part.old 0 (request_bytes command ids.now) }
{
    let n = ids.len();
    records::put_front(part, 6, (2 + 2 * n) as u16);
    records::put1(part, 4, command);
    records::put1(part, 5, n as u8);
    put_ids(part, 6, ids);
}

// A request given as a command number and any number of ids, at a position of the output: over 8 ids 4, then 9.
pub fn write_request(out: &mut [u8], at: usize, command: u8, ids: &[u16]) -> Result<usize, Fault>
    ensures { ◌≡◌ {A = Result ℕ Fault × List ℕ} (result, out.new) (written (write_request out.old at command ids.now)) }
{
    let n = ids.len();
    if Request::LIMIT < n {
        return Err(Fault::Count);
    }
    if out.len() < at || out.len() - at < 6 + 2 * n {
        return Err(Fault::NoRoom);
    }
    put_request(&mut out[at..], command, ids);
    Ok(at + 6 + 2 * n)
}
