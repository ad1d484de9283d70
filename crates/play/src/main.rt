// Reads scheme.bin, matrix.bin and requests.bin in the folder that it is started in, and prints what each request is answered. The text is made by
// `printout`, which is proved; here is only what has to do with files.
#![tactic(auto)]

use files::{LONGEST, MOST_READ, Told};
use std::io::Print;

// Room for the largest text: that of 10,922 requests has 185,717 bytes at most.
const ROOM: usize = 262144;

// Of a file what the outline takes of it; a missing file is empty input, and so is one that can't be read, which was told.
fn input<'a>(rt: &HostRuntime, name: &[u8], room: &'a mut [u8]) -> &'a [u8] {
    match files::read_file(rt, name, room) {
        Ok(Some(bytes)) => &bytes[..LONGEST.min(bytes.len())],
        Ok(None) | Err(Told) => &[],
    }
}

// Where the text can't be written, as where nobody reads it any more, there is nobody to tell: the status is 0 all the same.
fn print(rt: &HostRuntime, scheme: &[u8], matrix: &[u8], requests: &[u8]) {
    let mut text = [0; ROOM];
    let n = printout::printout(scheme, matrix, requests, &mut text);
    let _ = rt.stdout().write_all(&text[..n.min(ROOM)]);
}

fn main(rt: HostRuntime) {
    let mut scheme = [0; MOST_READ];
    let mut matrix = [0; MOST_READ];
    let mut requests = [0; MOST_READ];
    print(
        &rt,
        input(&rt, b"scheme.bin", &mut scheme),
        input(&rt, b"matrix.bin", &mut matrix),
        input(&rt, b"requests.bin", &mut requests),
    );
}
