// A field plan: its records, and the refusals 37, 38 and 39.
ghost use Rattle.std.specs.Prelude.{◌≡◌, [], ◌≤◌, length};
ghost use Rattle.std.specs.Iterator.{YieldsFirst, item_count};
ghost use Rattle.wire.specs.Result.{answer};
ghost use Rattle.fields.specs.Marks.{again, marked, Halfword};
ghost use Rattle.fields.specs.Plan.{record_at, entries_from, entries_of, bad, bad_at, leaves, outside_at, repeated_at};
ghost use Rattle.fields.specs.Plan.{first_of, field_count, plan_of};

use wire::bytes::{byte_at, u16_at};
use wire::error::Level3DecodeError;

// A record of a plan: a field's number, or a strip of the field named last. A malformed one is a record too: it has a place, which 37 tells.
#[derive(Clone, Copy)]
pub enum Record {
    Field {
        number: u16,
    },
    Strip {
        radial: u16,
        gate: u16,
        count: u16,
        weight: u16,
    },
    Malformed,
}

// A record of a plan, and where it begins.
#[derive(Clone, Copy)]
pub struct Entry {
    pub at: usize,
    pub item: Record,
}

// The record at an offset.
#[tactic(auto, unfolding(crate::specs::Plan::record_at))]
fn record_at(plan: &[u8], at: usize) -> Record
    requires { at ≤ length plan.now }
    ensures { result ≡ record_at plan.now at }
{
    let left = plan.len() - at;
    match (byte_at(plan, at), u16_at(plan, at + 1)) {
        (1, 2) if 5 <= left => Record::Field {
            number: u16_at(plan, at + 3),
        },
        (2, 8) if 11 <= left => Record::Strip {
            radial: u16_at(plan, at + 3),
            gate: u16_at(plan, at + 5),
            count: u16_at(plan, at + 7),
            weight: u16_at(plan, at + 9),
        },
        _ => Record::Malformed,
    }
}

// The records of a plan from an offset on, the last of them the first that is malformed.
#[derive(Drop)]
pub(crate) struct Records<'a> {
    plan: &'a [u8],
    at: usize,
}

impl<'a> Iterator for Records<'a> {
    type Item = Entry;

    ghost next_gives = { YieldsFirst (λ s. entries_from s.plan.now s.at) };

    ghost remaining = { item_count (λ s. entries_from s.plan.now s.at) };

    #[tactic(auto, using(crate::proofs::Walk::entries_end, crate::proofs::Walk::field_left, crate::proofs::Walk::strip_left, crate::proofs::Walk::last_left))]
    fn next(&mut self) -> Option<Entry> {
        if self.plan.len() <= self.at {
            return None;
        }
        let at = self.at;
        let item = record_at(self.plan, at);
        self.at = match item {
            Record::Field { .. } => at + 5,
            Record::Strip { .. } => at + 11,
            Record::Malformed => self.plan.len(),
        };
        Some(Entry { at, item })
    }
}

pub(crate) fn records_of(plan: &[u8]) -> Records<'_>
    ensures { entries_from result.plan.now result.at ≡ entries_of plan.now }
{
    Records { plan, at: 0 }
}

// How many strips a plan may have.
const MAX_STRIPS: usize = 4096;

// 37: a record that may not stand after so many fields and strips.
fn is_bad(r: Record, fields: usize, strips: usize) -> bool
    ensures { result ≡ bad fields strips r }
{
    match r {
        Record::Field { .. } => false,
        Record::Strip { count, .. } => fields < 1 || count < 1 || MAX_STRIPS <= strips,
        Record::Malformed => true,
    }
}

// The first record of the plan that 37 refuses.
#[tactic(auto, using(crate::proofs::Walk::entries_few), unfolding(crate::specs::Plan::bad_at))]
fn first_bad(plan: &[u8]) -> Option<usize>
    ensures { result ≡ first_of (bad_at 0 0 (entries_of plan.now)) }
{
    let mut fields: usize = 0;
    let mut strips: usize = 0;
    for e in records_of(plan) {
        if is_bad(e.item, fields, strips) {
            return Some(e.at);
        }
        match e.item {
            Record::Field { .. } => fields += 1,
            Record::Strip { .. } => strips += 1,
            Record::Malformed => {}
        }
    }
    None
}

// 39: a strip that leaves the grid.
fn leaves_grid(r: Record, radials: usize, bins: usize) -> bool
    ensures { result ≡ leaves radials bins r }
{
    match r {
        Record::Strip {
            radial,
            gate,
            count,
            ..
        } => radials <= usize::from(radial) || bins < usize::from(gate) + usize::from(count),
        Record::Field { .. } | Record::Malformed => false,
    }
}

// The first strip of the plan that leaves the grid.
fn first_outside(plan: &[u8], radials: usize, bins: usize) -> Option<usize>
    ensures { result ≡ first_of (outside_at radials bins (entries_of plan.now)) }
{
    records_of(plan)
        .find(|e| leaves_grid(e.item, radials, bins))
        .map(|e| e.at)
}

// How many fields the plan has.
#[tactic(auto, using(crate::proofs::Walk::entries_few))]
fn count_fields(plan: &[u8]) -> usize
    ensures { result ≡ field_count (entries_of plan.now) }
{
    records_of(plan)
        .filter(|e| matches!(e.item, Record::Field { .. }))
        .count()
}

// Whether the record names a number that is marked; the number is marked.
fn mark(r: Record, marks: &mut [bool; 65536]) -> bool
    ensures again { result ≡ again marks.old r }
    ensures marks { marks.new ≡ marked marks.old r }
    ensures halfword { Halfword r }
{
    match r {
        Record::Field { number } => std::mem::replace(&mut marks[usize::from(number)], true),
        Record::Strip { .. } | Record::Malformed => false,
    }
}

// The first record of the plan that names a number named before.
#[tactic(auto, using(crate::proofs::Marking::marking_stop, crate::proofs::Marking::marking_turn), unfolding(crate::specs::Plan::repeated_at))]
fn first_repeat(plan: &[u8]) -> Option<usize>
    ensures { result ≡ first_of (repeated_at [] (entries_of plan.now)) }
{
    // A mark for each number that a field may have: the library has no heap.
    let mut marks = [false; 65536];
    for e in records_of(plan) {
        if mark(e.item, &mut marks) {
            return Some(e.at);
        }
    }
    None
}

// 37 over the whole plan, then 38 over the whole plan, then 39; or how many fields it has.
#[tactic(auto, unfolding(crate::specs::Plan::plan_of))]
pub fn check_plan(plan: &[u8], radials: usize, bins: usize) -> Result<usize, Level3DecodeError>
    ensures { answer result ≡ plan_of plan.now radials bins }
{
    if let Some(offset) = first_bad(plan) {
        return Err(Level3DecodeError::PlanMalformed { offset });
    }
    if let Some(offset) = first_repeat(plan) {
        return Err(Level3DecodeError::FieldRepeated { offset });
    }
    if let Some(offset) = first_outside(plan, radials, bins) {
        return Err(Level3DecodeError::StripOutside { offset });
    }
    Ok(count_fields(plan))
}
