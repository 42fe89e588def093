// The runs of an AF1F row, written as cells: the codes of a picture, or the bytes of a packet 16 body.
ghost use Rattle.std.specs.Prelude.{◌≡◌, ℕ, ◌<◌, ◌++◌, ◌==◌, cond, min, map, length, take, drop, replicate};
ghost use Rattle.symbology.specs.Rows.{reach, cells};

// What a row's cells are stored as. Not `From<u8>`: of a byte the compiler makes a block of cells in more steps, which takes a twentieth
// longer.
pub(crate) trait Cell: Copy {
    // The cell of a colour.
    ghost cell: { ℕ → Self };

    fn of(colour: u16) -> Self
        requires { colour < 16 }
        ensures { result ≡ cell colour };
}

impl Cell for u16 {
    ghost cell = { λ n. n };

    fn of(colour: u16) -> u16 {
        colour
    }
}

impl Cell for u8 {
    ghost cell = { λ n. n };

    fn of(colour: u16) -> u8 {
        // In range by the proof: `try_from` would be a test that cannot fail.
        colour as u8
    }
}

// Every place of the part gets v. `fill` takes a `clone`, which for any T may fail.
fn paint<T: Copy>(part: &mut [T], v: T)
    ensures { part.new ≡ replicate (length part.old) v }
{
    for place in part.iter_mut() {
        *place = v;
    }
}

// v at the first 16 places of the part, or at all where there are fewer. No run is longer, and a block is stored whole.
fn spread<T: Copy>(part: &mut [T], v: T)
    ensures { part.new ≡ replicate (min 16 (length part.old)) v ++ drop 16 part.old }
{
    if part.len() < 16 {
        paint(part, v);
    } else {
        paint(&mut part[..16], v);
    }
}

// The runs' cells into the row, which they are known to fill.
pub(crate) fn write_runs<T: Cell>(runs: &[u8], row: &mut [T])
    requires { reach (length row.old) runs.now ≡ length row.old }
    ensures { row.new ≡ map T.cell (take (length row.old) (cells runs.now)) }
{
    let mut gate: usize = 0;
    for b in runs {
        let b = u16::from(*b);
        let run = usize::from(b / 16);
        // Writes nothing.
        if run == 0 {
            continue;
        }
        if row.len() - gate < run {
            return;
        }
        spread(&mut row[gate..], T::of(b % 16));
        gate += run;
    }
}

// The cells of a row that its runs fill, as the bytes of packet 16. A row that they do not fill stays as it is.
pub fn write_row_bytes(runs: &[u8], row: &mut [u8])
    ensures { row.new ≡ cond (reach (length row.old) runs.now == length row.old)
        (take (length row.old) (cells runs.now)) row.old }
{
    if crate::rows::rle_reach(runs, row.len()) == row.len() {
        write_runs(runs, row);
    }
}
