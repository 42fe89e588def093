// The lines of standard input, one after another.
use crate::text::Text;
use std::alloc::Global;
use std::io;
use std::io::{BufRead, Read};
use std::ops::ControlFlow;

// The most bytes of a line, its end with them.
const ROOM: usize = 65536;

// Answers a line, and writes the answer.
fn answer_line(out: &mut Text, rt: &impl Print, alloc: Global, line: &[u8]) {
    crate::answer::line(out, alloc, line);
    out.write_to(rt);
}

// One turn: reads on to the line's end, and answers the line where it has ended, or where there is no more.
fn turn(
    out: &mut Text,
    rt: &(impl Print + Eprint),
    alloc: Global,
    failed: &mut Option<io::Error>,
    input: &mut impl BufRead,
    line: &mut Vec<u8>,
) -> ControlFlow<()> {
    let held = line.len();
    let room = ROOM.saturating_sub(held);
    // No `From` makes a `u64` of a `usize`.
    if let Err(e) = input.by_ref().take(room as u64).read_until(b'\n', line) {
        *failed = Some(e);
    }
    match line.as_slice() {
        [whole @ .., b'\n'] => {
            answer_line(out, rt, alloc, whole);
            line.clear();
            ControlFlow::Continue(())
        }
        all if ROOM <= all.len() => {
            let warned = eprintln!(rt;
                "replay: a line is longer than the 65,536 bytes that there is room for"
            );
            out.keep(warned);
            ControlFlow::Break(())
        }
        all if all.len() == held => {
            answer_line(out, rt, alloc, all);
            // What was read before a read failed is answered first.
            if let Some(e) = failed.take() {
                out.keep(Err(e));
            }
            ControlFlow::Break(())
        }
        _ => ControlFlow::Continue(()),
    }
}

// Nothing says that the input ends, so the turns are counted.
pub fn answer_all(
    rt: &(impl Print + Eprint),
    alloc: Global,
    input: &mut impl BufRead,
) -> io::Result<()> {
    let mut out = Text::new(alloc);
    let mut line = Vec::with_capacity(alloc, ROOM)?;
    let mut failed = None;
    for _ in 0..u64::MAX {
        let ended = turn(&mut out, rt, alloc, &mut failed, input, &mut line).is_break();
        if ended || out.has_failed() {
            break;
        }
    }
    out.finish()
}
