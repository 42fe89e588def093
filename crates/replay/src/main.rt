// Reads case lines on standard input, asks the library and prints the answer line of each. The format is that of the comparison project
// with the Rust; its program `sample` writes crates/replay/stdin, and with `--answers` the Rust's answers, crates/replay/stdout.
#![tactic(auto)]

use std::io;
use std::io::BufReader;

mod answer;
mod body;
mod case;
mod charges;
mod hex;
mod kinds;
mod lent;
mod lines;
mod lists;
mod print;
mod refusal;
mod small;
mod sweeps;
mod tables;
mod text;
mod words;
mod xdr_items;

fn main(rt: HostRuntime) -> io::Result<()> {
    let mut input = BufReader::new(rt.alloc(), rt.reader())?;
    lines::answer_all(&rt, rt.alloc(), &mut input)
}
