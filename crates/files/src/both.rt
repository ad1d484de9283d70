// Two files written, or neither.
use crate::read::{LONGEST, MOST_READ, read};
use crate::told::{Told, tell};
use crate::write::{Output, remove};
use std::fs::File;
use std::io;

// What had the name before, where it was short enough to be kept.
fn put_back(rt: &HostRuntime, path: &str, was: io::Result<Option<&[u8]>>) -> Result<(), Told> {
    match was {
        Ok(None) => {
            remove(rt, path);
            Ok(())
        }
        Ok(Some(bytes)) if bytes.len() <= LONGEST => {
            Output::new(rt, path.as_bytes(), bytes)?.write(rt)
        }
        _ => Err(tell(
            rt,
            path.as_bytes(),
            "is new already, and its old bytes are lost",
        )),
    }
}

// Both or neither: the second renaming can still fail, and then the first is taken back.
fn rename_two(
    rt: &HostRuntime,
    first: &Output<'_>,
    second: &Output<'_>,
    was: io::Result<Option<&[u8]>>,
) -> Result<(), Told> {
    first.rename_new(rt).inspect_err(|_| second.remove_new(rt))?;
    second.rename_new(rt).inspect_err(|_| {
        // what can't be put back is told too
        let _ = put_back(rt, first.path, was);
    })
}

fn write_both_new(rt: &HostRuntime, first: &Output<'_>, second: &Output<'_>) -> Result<(), Told> {
    first.write_new(rt)?;
    second.write_new(rt).inspect_err(|_| first.remove_new(rt))
}

pub fn write_two(rt: &HostRuntime, first: &Output<'_>, second: &Output<'_>) -> Result<(), Told> {
    first.check_place(rt)?;
    second.check_place(rt)?;
    first.remove_new(rt);
    second.remove_new(rt);
    let mut room = [0; MOST_READ];
    let was = read(rt, first.path, &mut room);
    write_both_new(rt, first, second)?;
    // The first came to be when the second was written under its name with `.new`: then they are one file, however it was spelt.
    if matches!(was, Ok(None)) && File::open(rt, first.path).is_ok() {
        let told = tell(
            rt,
            first.path.as_bytes(),
            "another output is written under this name first",
        );
        first.remove_new(rt);
        second.remove_new(rt);
        return Err(told);
    }
    rename_two(rt, first, second, was)
}
