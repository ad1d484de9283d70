// The names of files. A word of the command line may be any bytes, and the library opens a file only by a name in UTF-8.
use crate::told::{Told, tell};

// A path as text. One that isn't text can't be opened here, which is told.
pub fn text_of<'a>(rt: &HostRuntime, path: &'a [u8]) -> Result<&'a str, Told> {
    str::from_utf8(path).map_err(|_| tell(
        rt,
        path,
        "not a name in UTF-8, and no other can be opened",
    ))
}

// The name under which a file is written before it takes the place of the old one: its own with `.new` behind it.
pub(crate) fn new_name(rt: &HostRuntime, path: &str) -> Result<String, Told> {
    format!(in rt.alloc(); "{path}.new").map_err(|_| tell(rt, path.as_bytes(), "out of memory"))
}
