// The rain charge of a total.
ghost use Rattle.std.specs.Prelude.{◌≡◌, IfOk};
ghost use Rattle.replay.specs.Words.{word_of};
ghost use Rattle.replay.specs.Lists.{rates_of};

use crate::case::Case;
use crate::refusal::ask;
use crate::text::Text;
use std::alloc::AllocError;
use std::io;
use std::io::Write;

// The numbers of a list as rates; no case has one that is none.
fn rates(case: Case, k: usize) -> Result<Vec<u32>, AllocError>
    ensures { IfOk result (λ v. v.items ≡ rates_of (word_of case.entry.line.now k)) }
{
    case.list(k)?
        .iter()
        .map(|n| u32::try_from(*n).unwrap_or(u32::MAX))
        .collect(case.alloc)
}

pub fn answer(out: &mut Text, case: Case) -> io::Result<()> {
    let total = crate::words::number(case.word(2));
    let ends = case.list(3)?;
    let rates = rates(case, 4)?;
    ask(
        out,
        |r| capi::charges::l3_charge(total, &ends, &rates, &mut r.ints, &mut r.floats),
        |out, r| write!(out, "A {} {}", r.ints[0], r.ints[1]),
    )
}
