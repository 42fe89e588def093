// Files, read into memory.
use std::alloc::Global;
use std::fs::{self, Files};
use std::io;
use std::io::Read;

fn read_up_to(rt: &impl Files, alloc: Global, path: &str, most: usize) -> io::Result<Vec<u8>> {
    let mut bytes = Vec::new(alloc);
    fs::open(rt, path)?
        // No `From` makes a `u64` of a `usize`.
        .take(most as u64)
        .read_to_end(&mut bytes)?;
    Ok(bytes)
}

// The first bytes of a file that may go on. Where it does, one byte more is taken, as of a file that has to end: FILE and BODY may be one
// pipe.
pub fn load_front<R: Files + Eprint>(
    rt: &R,
    alloc: Global,
    path: &str,
    most: usize,
) -> Option<Vec<u8>> {
    let mut bytes = load(rt, alloc, path, most.saturating_add(1))?;
    bytes.truncate(most);
    Some(bytes)
}

// The first bytes of the file at a path, `most` of them or all. Where it can't be read, standard error says why.
pub fn load<R: Files + Eprint>(rt: &R, alloc: Global, path: &str, most: usize) -> Option<Vec<u8>> {
    match read_up_to(rt, alloc, path, most) {
        Ok(bytes) => Some(bytes),
        Err(e) => {
            let _ = eprintln!(rt; "show: {path}: {e}");
            None
        }
    }
}
