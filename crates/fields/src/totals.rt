// The totals of a plan that was accepted, over the codes of a sweep.
ghost use Rattle.std.specs.Prelude.{◌≡◌, false, map, ◌*◌, ◌≤◌, ◌<◌, length, Some};
ghost use Rattle.wire.specs.Result.{accepted};
ghost use Rattle.fields.specs.declared.plan.Record.TheVariants.{Strip};
ghost use Rattle.fields.specs.Plan.{entries_of, leaves, plan_of};
ghost use Rattle.fields.specs.Totals.{counts, top_of, sum, most, strip_total, totals, items, grid};

use crate::plan::{Record, records_of};

// What totals see of a sweep: its codes, row after row, and the floor and the ceiling of the valid codes.
#[derive(Clone, Copy)]
pub(crate) struct Grid<'a> {
    pub codes: &'a [u16],
    pub radials: usize,
    pub bins: usize,
    pub floor: u16,
    pub ceiling: Option<u16>,
    ghost full: { radials * bins ≤ length codes.now },
}

// The highest code that may be valid.
fn top_of(ceiling: Option<u16>) -> u16
    ensures { result ≡ top_of ceiling }
{
    ceiling.unwrap_or(u16::MAX)
}

// What a code counts: from the floor up to the top what it is above the floor, else nothing.
#[tactic(auto, unfolding(crate::specs::Totals::counts))]
fn counted(code: u16, floor: u16, top: u16) -> u32
    ensures { (result ≡ counts floor (Some top) code) × ((result ≤ 65535) × (code < 65536)) }
{
    if code < floor || top < code {
        return 0;
    }
    u32::from(code - floor)
}

impl<'a> Grid<'a> {
    // What the codes of some cells count together.
    fn cells_total(&self, cells: &[u16]) -> u32
        requires { length cells.now ≤ 65535 }
        ensures { (result ≡ sum (map (counts self.now.floor self.now.ceiling) cells.now)) × (result ≤ 65535 * 65535) }
    {
        let top = top_of(self.ceiling);
        let mut total: u32 = 0;
        for code in cells {
            total += counted(*code, self.floor, top);
        }
        total
    }

    // A strip's total, over the codes of its cells.
    fn strip_total(&self, radial: u16, gate: u16, count: u16, weight: u16) -> u64
        requires { leaves self.now.radials self.now.bins (Strip radial gate count weight) ≡ false }
        ensures { (result ≡ strip_total (grid self.now.codes.now self.now.bins self.now.floor self.now.ceiling) radial gate count weight)
            × (result ≤ most) }
    {
        let start = usize::from(radial) * self.bins + usize::from(gate);
        let end = start + usize::from(count);
        let total = self.cells_total(&self.codes[start..end]);
        u64::from(weight) * u64::from(total)
    }

    // One total for each field of an accepted plan, in plan order.
    #[tactic(auto, using(crate::proofs::Writing::writing_first, crate::proofs::Writing::writing_field, crate::proofs::Writing::writing_strip))]
    pub(crate) fn write_totals(&self, plan: &[u8], out: &mut [u64])
        requires { plan_of plan.now self.now.radials self.now.bins ≡ accepted (length out.old) }
        ensures { out.new ≡ totals (grid self.now.codes.now self.now.bins self.now.floor self.now.ceiling) (items (entries_of plan.now)) }
    {
        let mut fields: usize = 0;
        for e in records_of(plan) {
            match e.item {
                Record::Field { .. } => {
                    out[fields] = 0;
                    fields += 1;
                }
                Record::Strip {
                    radial,
                    gate,
                    count,
                    weight,
                } => out[fields - 1] += self.strip_total(radial, gate, count, weight),
                Record::Malformed => {}
            }
        }
    }
}
