// Words on their way to memory, in code: rule 1, given the grant and ENABLE as truth values, and of rule 9 the count, the test for full, holding and discarding. Nothing here
// knows of a camera. The slots are lent and the rest goes by value (docs/SPEED.md). The functions are for the crates of this repository, which call them on well-formed states;
// each states its result as an equation with its definition, in `output`. They are no methods, since that crate, of the types, has no code.
// No type holds `Laid` or the bounds on the counts: a device may be malformed, which `clauses`, refusal 1 and the laws speak of, in the same type.
#![tactic(auto)]

ghost use Rattle.std.specs.Prelude.{◌≡◌, ℕ, ◌+◌, ◌-◌, ◌≤◌, ◌<◌, ◌^◌, true, List, ◌∷◌, ◌++◌, length, take, drop};
ghost use Rattle.output.specs.Output as output_rules;
ghost use Rattle.output.specs.WellFormed.{Laid};
ghost use Rattle.output.specs.Answers as output_answers;

pub mod clauses;
pub mod notes;

use output::{Counts, Fate, Granted, Offered, Output, SLOTS};

// The same output, each field by itself: so the compiler keeps them apart (docs/SPEED.md).
pub fn apart(o: Output) -> Output
    ensures { result ≡ o }
{
    Output {
        held: o.held,
        place: o.place,
        depth: o.depth,
        counts: Counts {
            completed: o.counts.completed,
            landed: o.counts.landed,
            samples: o.counts.samples,
            discarded: o.counts.discarded,
        },
    }
}

// One more sample.
pub fn count_sample(o: Output) -> Output
    requires { o.counts.samples + 1 < 2 ^ 32 }
    ensures { result ≡ output_rules.count_sample o }
{
    let mut counted = apart(o);
    counted.counts.samples += 1;
    counted
}

// The first slots, those of the held words, moved down by one.
fn move_down(slots: &mut [u32; SLOTS], held: usize)
    requires slots_len { length slots.old ≡ output_rules.slot_count }
    requires held_nonzero { (0 < held) × (held ≤ output_rules.slot_count) }
    ensures { slots.new ≡ take (held - 1) (drop 1 slots.old) ++ 0 ∷ drop held slots.old }
{
    slots.copy_within(1..held, 0);
    slots[held - 1] = 0;
}

// Whether word k has room in a frame buffer of some length.
fn room(k: u32, buffer: &[u8]) -> bool
    ensures { result ≡ output_rules.room k buffer.now }
{
    4 * (k as usize) + 4 <= buffer.len()
}

// A word stored little-endian from a byte on.
fn store(buffer: &mut [u8], at: usize, v: u32)
    requires { at + 4 ≤ length buffer.old }
    ensures { buffer.new ≡ take at buffer.old ++ output_rules.bytes v ++ drop (at + 4) buffer.old }
{
    buffer[at..at + 4].copy_from_slice(&v.to_le_bytes());
}

// One word more has landed, and one less is held.
fn landed(o: Output) -> Output
    requires { (0 < o.held) × (o.place + 1 < 2 ^ 32) × (o.counts.landed + 1 < 2 ^ 32) }
    ensures { result ≡ output_rules.with_held (o.held - 1) (output_rules.count_landed o) }
{
    let mut after = apart(o);
    after.held -= 1;
    after.place += 1;
    after.counts.landed += 1;
    after
}

// Rule 1 where no word lands.
pub fn no_landing(o: Output) -> Granted
    ensures { (slots buffer : List ℕ) → output_answers.granted result slots buffer ≡ output_rules.no_landing (output_answers.left o slots) buffer }
{
    Granted {
        landing: None,
        output: o,
    }
}

// Rule 1 where the bus grants and ENABLE is 1: the oldest held word, if there is one and it has room, goes to the next place.
// One test inside the other, here and in `grant`: joined by `&&`, with `notes::note_packing` as one test, a sample takes 2 instructions more (docs/SPEED.md).
fn oldest_lands(o: Output, slots: &mut [u32; SLOTS], buffer: &mut [u8]) -> Granted
    requires laid { Laid (output_answers.left o slots.old) }
    requires place_bound { (o.place + 1 < 2 ^ 32) × (o.counts.landed + 1 < 2 ^ 32) }
    ensures { output_answers.granted result slots.new buffer.new ≡ output_rules.grant true true (output_answers.left o slots.old) buffer.old }
{
    if 0 < o.held {
        if room(o.place, buffer) {
            let at = 4 * (o.place as usize);
            store(buffer, at, slots[0]);
            move_down(slots, o.held as usize);
            return Granted {
                landing: Some(at),
                output: landed(o),
            };
        }
        return no_landing(o);
    }
    no_landing(o)
}

// Rule 1.
pub fn grant(
    granted: bool,
    enabled: bool,
    o: Output,
    slots: &mut [u32; SLOTS],
    buffer: &mut [u8],
) -> Granted
    requires laid { Laid (output_answers.left o slots.old) }
    requires place_bound { (o.place + 1 < 2 ^ 32) × (o.counts.landed + 1 < 2 ^ 32) }
    ensures { output_answers.granted result slots.new buffer.new ≡ output_rules.grant granted enabled (output_answers.left o slots.old) buffer.old }
{
    if granted {
        if enabled {
            return oldest_lands(o, slots, buffer);
        }
        return no_landing(o);
    }
    no_landing(o)
}

// One word more is completed.
fn count_word(o: Output) -> Output
    requires { o.counts.completed + 1 < 2 ^ 32 }
    ensures { result ≡ output_rules.count_word o }
{
    let mut counted = apart(o);
    counted.counts.completed += 1;
    counted
}

// A word more is held.
fn one_more(o: Output) -> Output
    requires { o.held + 1 < 2 ^ 32 }
    ensures { result ≡ output_rules.with_held (o.held + 1) o }
{
    let mut after = apart(o);
    after.held += 1;
    after
}

// Rule 9: a full word is counted, and held where fewer than the depth are.
pub fn offer(v: u32, o: Output, slots: &mut [u32; SLOTS]) -> Offered
    requires laid { Laid (output_answers.left o slots.old) }
    requires completed_bound { o.counts.completed + 1 < 2 ^ 32 }
    ensures { output_answers.offered result slots.new ≡ output_rules.offer v (output_answers.left o slots.old) }
{
    let counted = count_word(o);
    if o.held < o.depth {
        let at = o.held as usize;
        slots[at] = v;
        Offered {
            output: one_more(counted),
            fate: Fate::Held,
        }
    } else {
        Offered {
            output: counted,
            fate: Fate::Lost,
        }
    }
}

// The held words and some more besides are discarded.
pub fn discard(more: u32, o: Output, slots: &mut [u32; SLOTS]) -> Output
    requires { o.counts.discarded + o.held + more < 2 ^ 32 }
    ensures { output_answers.left result slots.new ≡ output_rules.discard more (output_answers.left o slots.old) }
{
    *slots = [0; SLOTS];
    let mut after = apart(o);
    after.counts.discarded += o.held + more;
    after.held = 0;
    after
}

// A lost word alone is discarded, and the held words stay.
pub fn lose(o: Output) -> Output
    requires { o.counts.discarded + 1 < 2 ^ 32 }
    ensures { result ≡ output_rules.count_discarded 1 o }
{
    let mut after = apart(o);
    after.counts.discarded += 1;
    after
}
