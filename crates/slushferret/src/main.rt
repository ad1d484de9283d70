// One program for all tools, started as `TOOL FILE..`. A thin one: what matters is done by proved functions on bytes, and here is only what has to do with
// files and words.
#![tactic(auto)]

mod errand;
mod failure;
mod input;
mod output;
mod report;
mod said;
mod tables;
mod tool_check;
mod tool_convert;
mod tool_hold;
mod tool_move;
mod tool_run;
mod words;
mod wrong_use;

use crate::failure::Failure;
use crate::words::{MOST, Word};
use std::process::ExitCode;

// Does what the words ask for.
fn run<'a>(rt: &HostRuntime, words: &'a [&'a [u8]]) -> Result<(), Failure<'a>> {
    let errand = words::errand_of(words)?;
    errand.carry_out(rt)
}

fn main(rt: HostRuntime) -> ExitCode {
    let mut rooms = [Word::NONE; MOST];
    let (words, count) = words::words(&rt, &mut rooms);
    match run(&rt, &words[..count.min(MOST)]) {
        Ok(()) => ExitCode::SUCCESS,
        Err(failure) => failure.end(&rt),
    }
}
