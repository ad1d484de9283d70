// What is told on standard error. Where that can't be written either there is nobody left to tell, so a failure there is passed over.
use std::fmt::Display;
use std::io::{Error, Print};

// Something failed, and the reason was told: nothing is left to say of it.
#[derive(Clone, Copy, Debug, PartialEq, Eq)]
pub struct Told;

// Why nothing comes of a name, which may have any bytes.
pub fn tell<D: Display + Drop>(rt: &HostRuntime, name: &[u8], reason: D) -> Told {
    let _ = rt.stderr().write_all(name);
    let _ = eprintln!(rt; ": {reason}");
    Told
}

// The system's words alone: an error shows its number behind them.
fn words_of(shown: &str) -> &str {
    match shown.split_once(" (os error ") {
        Some((words, _)) => words,
        None => shown,
    }
}

// What failed, as the caller names it, and the system's reason.
pub fn tell_error(rt: &HostRuntime, name: &[u8], error: Error) -> Told {
    let to = rt.stderr();
    let _ = to.write_all(name);
    let _ = to.write_all(b": ");
    let _ = match format!(in rt.alloc(); "{error}") {
        Ok(shown) => to.write_all(words_of(shown.as_str()).as_bytes()),
        Err(_) => to.write_all(b"out of memory"),
    };
    let _ = to.write_all(b"\n");
    Told
}
