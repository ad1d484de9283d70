// What a tool leaves: files, with a line for each.
use crate::said::say;
use files::{Output, Told};

pub(crate) fn write_one(rt: &HostRuntime, word: &[u8], bytes: &[u8]) -> Result<(), Told> {
    let output = Output::new(rt, word, bytes)?;
    output.write(rt)?;
    say(rt, &output)
}

// Both or neither, each by its word.
pub(crate) fn write_two(
    rt: &HostRuntime,
    (first, one): (&[u8], &[u8]),
    (second, other): (&[u8], &[u8]),
) -> Result<(), Told> {
    let first = Output::new(rt, first, one)?;
    let second = Output::new(rt, second, other)?;
    files::write_two(rt, &first, &second)?;
    say(rt, &first)?;
    say(rt, &second)
}
