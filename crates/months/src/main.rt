// Works out the first day number of each month from January 1970 to June 2149 by the months' lengths, and prints them, one a line: the
// table of crate calendar.
#![tactic(auto)]

use std::io;
use std::io::{BufWriter, Write};

#[tactic(auto, using(calendar::proofs::Search::start_first, calendar::proofs::Search::start_next, calendar::proofs::Search::starts_below))]
fn main(rt: HostRuntime) -> io::Result<()> {
    let mut out = BufWriter::new(rt.alloc(), io::writer(&rt))?;
    let mut first: u64 = 1;
    for k in 0u16..2154 {
        writeln!(out, "{first}")?;
        let year = 1970 + k / 12;
        // In range by the proof: `try_from` would be a test that cannot fail.
        let month = (1 + k % 12) as u8;
        first += u64::from(calendar::month::month_length(year, month));
    }
    out.flush()
}
