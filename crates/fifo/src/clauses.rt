// The clauses of "Malformed" that speak of FIFO, place and counts alone.
ghost use Rattle.std.specs.Prelude.{◌≡◌, ◌+◌};
ghost use Rattle.output.specs.Answers as output_answers;
ghost use Rattle.output.specs.WellFormed as output_clauses;

use output::{Output, SLOTS};

// Whether all these slots are 0: a fold, and no `all`, which would end early, so that the compiler tests several at once (docs/SPEED.md).
fn all_zero(slots: &[u32]) -> bool
    ensures { result ≡ output_clauses.all_zero slots.now }
{
    slots.iter().fold(true, |zero, slot| zero & (*slot == 0))
}

pub fn bad_fifo(o: Output, slots: &[u32; SLOTS]) -> bool
    ensures { result ≡ output_clauses.bad_fifo (output_answers.left o slots.now) }
{
    let unused = &slots[SLOTS.min(o.held as usize)..];
    o.depth < o.held || !all_zero(unused)
}

pub fn bad_place(o: Output) -> bool
    ensures { result ≡ output_clauses.bad_place o }
{
    o.counts.landed < o.place
}

fn sum(landed: u32, held: u32, discarded: u32) -> u64
    ensures { result ≡ landed + held + discarded }
{
    landed as u64 + held as u64 + discarded as u64
}

pub fn bad_counts(o: Output) -> bool
    ensures { result ≡ output_clauses.bad_counts o }
{
    o.counts.completed as u64 != sum(o.counts.landed, o.held, o.counts.discarded)
}

// A depth outside 1 to 32.
pub fn bad_depth(depth: u32) -> bool
    ensures { result ≡ output_clauses.bad_depth depth }
{
    depth == 0 || SLOTS < depth as usize
}
