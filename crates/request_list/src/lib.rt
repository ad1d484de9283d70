// A list of requests as bytes: how many it has.
#![tactic(auto)]

ghost use Rattle.std.specs.Prelude.{◌≡◌, length};
ghost use Rattle.request_list.specs.List.{read_list};

// How many requests a list has, up to its end or to the first record that can't be read.
pub fn count_requests(bytes: &[u8]) -> usize
    ensures { result ≡ length (read_list bytes.now).requests }
{
    let mut n: usize = 0;
    let mut p: usize = 0;
    // A loop, since a reading gives the next one's position.
    while let Ok(Some(next)) = request_bytes::skip_request(bytes, p) {
        n += 1;
        p = next;
    }
    n
}
