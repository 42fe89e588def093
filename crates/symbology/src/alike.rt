// Whether two radials' data, which make rows, make the same row: no buffer is needed for any packet.
ghost use Rattle.std.specs.Prelude.{◌≡◌, take};
ghost use Rattle.std.specs.Iterator.{YieldsFirst, item_count};
ghost use Rattle.wire.specs.Text.{same};
ghost use Rattle.symbology.specs.Rows.{cells, codes_of, FullRow};
ghost use Rattle.symbology.specs.Cursors.{ahead};

use crate::figures::Packet;

// The cells that runs cover, in order: `left` of a colour, then those of the runs.
#[derive(Drop)]
struct Cells<'a> {
    left: u8,
    colour: u8,
    runs: &'a [u8],
}

impl<'a> Iterator for Cells<'a> {
    type Item = u8;

    ghost next_gives = { YieldsFirst (λ s. ahead s.left s.colour s.runs.now) };

    ghost remaining = { item_count (λ s. ahead s.left s.colour s.runs.now) };

    #[tactic(auto, unfolding(crate::specs::Rows::cells))]
    fn next(&mut self) -> Option<u8> {
        // Not a count: past the runs that cover no cell.
        while self.left == 0 {
            let [run, rest @ ..] = self.runs else {
                return None;
            };
            self.left = *run / 16;
            self.colour = *run % 16;
            self.runs = rest;
        }
        self.left -= 1;
        Some(self.colour)
    }
}

fn cells_of(runs: &[u8]) -> Cells<'_>
    ensures { ahead result.left result.colour result.runs.now ≡ cells runs.now }
{
    Cells {
        left: 0,
        colour: 0,
        runs,
    }
}

// AF1F: whether the first n cells of two rows are the same.
fn same_runs(a: &[u8], b: &[u8], n: usize) -> bool
    ensures { result ≡ same (take n (cells a.now)) (take n (cells b.now)) }
{
    cells_of(a).take(n).eq(cells_of(b).take(n))
}

#[tactic(auto, unfolding(crate::specs::Rows::codes_of, crate::specs::Rows::FullRow))]
pub fn same_row(packet: Packet, n: usize, a: &[u8], b: &[u8]) -> bool
    requires { FullRow packet n a.now × FullRow packet n b.now }
    ensures { result ≡ same (codes_of packet n a.now) (codes_of packet n b.now) }
{
    match packet {
        Packet::Packet16 => a[..n] == b[..n],
        Packet::PacketAf1f => same_runs(a, b, n),
        Packet::Packet28 => a == b,
    }
}
