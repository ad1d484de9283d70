// A request's record at a position of a list: read, or only skipped.
ghost use Rattle.std.specs.Prelude.{◌≡◌, ◌≤◌, ℕ, Option, Result, drop};
ghost use Rattle.records.specs.Reading.{whole, field};
ghost use Rattle.records.specs.Results.{value_of};
ghost use Rattle.records.specs.declared.Refused.{Refused};
ghost use Rattle.request_bytes.specs.Read.{ids_in, request, read_request};
ghost use Rattle.request_bytes.specs.Results.{request_lent, skip_result};
ghost use Rattle.request_bytes.specs.declared.Request.{Request};
ghost use Rattle.request_bytes.specs.Inner.Body.{ids_result, end_result};

use crate::Request;
use faults::Fault;
use records::{Kinds, Refused};

// How many ids a body has, behind its command number.
fn count_at(b: &[u8]) -> Result<u8, Fault>
    ensures { result ≡ value_of (field 0 9 4 (drop 1 b.now)) }
{
    records::field_at(b, 1, 0, (Request::LIMIT + 1) as u8, 4)
}

fn ids_at(b: &[u8], i: usize, count: u8) -> Result<[u16; Request::LIMIT], Fault>
    requires { (i ≤ 1024) × (count ≤ 8) }
    ensures { result ≡ ids_result (ids_in count (drop i b.now)) }
{
    let mut ids = [0u16; Request::LIMIT];
    for j in 0..count as usize {
        let id = records::field2_at(b, i + 2 * j)?;
        ids[j] = id;
    }
    Ok(ids)
}

// The request of a body.
fn request_of(b: &[u8]) -> Result<Request, Fault>
    ensures { result ≡ value_of (whole request b.now) }
{
    let command = records::byte_at(b, 0)?;
    let count = count_at(b)?;
    let ids = ids_at(b, 2, count)?;
    if 2 + 2 * (count as usize) < b.len() {
        return Err(Fault::BodyEnd);
    }
    Ok(Request {
        command,
        count,
        ids,
    })
}

// The request's record at a position of a list, into the lent request, and the next position; or None at the list's end. There, and where it is refused,
// the request is left one of zeros.
pub fn read_request(s: &[u8], at: usize, request: &mut Request) -> Result<Option<usize>, Refused>
    ensures { ◌≡◌ {A = Result (Option ℕ) Refused × Request} (result, request.new) (request_lent (read_request s.now at)) }
{
    *request = Request::NONE;
    if at == s.len() {
        return Ok(None);
    }
    let found = records::record_at(s, at, Kinds(64))?;
    *request = request_of(records::body(s, found.start, found.len)).map_err(|fault| Refused {
        fault,
        at,
    })?;
    Ok(Some(found.start + found.len))
}

// Whether a request's body ends with its last id, and nothing else: no id is read.
fn skip_body(b: &[u8]) -> Result<(), Fault>
    ensures { result ≡ end_result (whole request b.now) }
{
    let count = count_at(b)?;
    if b.len() != 2 + 2 * (count as usize) {
        return Err(Fault::BodyEnd);
    }
    Ok(())
}

// What `read_request` answers, without the request.
pub fn skip_request(s: &[u8], at: usize) -> Result<Option<usize>, Refused>
    ensures { result ≡ skip_result (read_request s.now at).answer }
{
    if at == s.len() {
        return Ok(None);
    }
    let found = records::record_at(s, at, Kinds(64))?;
    skip_body(records::body(s, found.start, found.len)).map_err(|fault| Refused { fault, at })?;
    Ok(Some(found.start + found.len))
}
