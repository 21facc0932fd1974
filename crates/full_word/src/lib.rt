// Rule 9 of a sample: a full word is held, or there is an overrun. The slots are lent and the rest goes by value
// (docs/SPEED.md). The functions are for the crates above, which call them on well-formed devices; each states its result as an equation with its definition.
#![tactic(auto)]

ghost use Rattle.std.specs.Prelude.{true, false, cond, ◌≡◌, ◌+◌, ◌≤◌, ◌<◌, ◌^◌};
ghost use Rattle.output.specs.Answers.{left};
ghost use Rattle.output.specs.WellFormed.{Laid};
ghost use Rattle.rules.specs.State as state;
ghost use Rattle.rules.specs.Run as run_rules;
ghost use Rattle.capture.specs.Answers as capture_answers;
ghost use Rattle.coded_capture.specs.Answers as coded_answers;
ghost use Rattle.full_word.specs.Answers as word_answers;

use capture::frame::{clear_capture, close_frame};
use capture::syncs::{FRAME, OVR, raise};
use capture::{Captured, apart};
use coded_capture::Coded;
use fields::control;
use fifo::{discard, offer};
use output::{Fate, Output, Packing, SLOTS};
use rules::{Capture, Core};

// The core after rule 9, and what became of the word. The answer stands first for speed (docs/SPEED.md).
#[derive(Clone, Copy)]
pub struct Completed {
    pub packing: Packing,
    pub core: Core,
}

// OVR rises, and the frame closes without FRAME; with CM 1, CAPTURE becomes 0.
#[tactic(auto, unfolding(rules::specs::Run::lose_frame))]
fn lose_frame(s: Capture) -> Capture
    ensures { result ≡ run_rules.lose_frame s }
{
    let raised = raise::<OVR>(s);
    if control::snapshot(s.registers.cr) {
        return close_frame(clear_capture(raised));
    }
    close_frame(raised)
}

// By what became of the word: it is held; or it is lost, and with it the held words and the frame.
#[tactic(auto, unfolding(rules::specs::Run::complete, rules::specs::Run::after_word, rules::specs::Capture::flagged))]
fn full_word(v: u32, s: Capture, o: Output, slots: &mut [u32; SLOTS]) -> Completed
    requires laid { Laid (left o slots.old) }
    requires ris_bound { (s.registers.ris ≤ 31) × (o.counts.completed + 1 < 2 ^ 32) × (o.counts.discarded + o.held + 1 < 2 ^ 32) }
    ensures { word_answers.completed result slots.new ≡ run_rules.complete (Some v) (word_answers.with_word v false s) (left o slots.old) }
{
    let s = apart(s);
    let offered = offer(v, o, slots);
    if let Fate::Lost = offered.fate {
        return Completed {
            packing: Packing::Lost,
            core: Core {
                capture: lose_frame(s),
                output: discard(1, offered.output, slots),
            },
        };
    }
    Completed {
        packing: Packing::Completed(v),
        core: Core {
            capture: s,
            output: offered.output,
        },
    }
}

// Rule 9, where there is a word.
#[tactic(auto, unfolding(rules::specs::Run::complete, rules::specs::Capture::flagged))]
pub fn complete(c: Captured, o: Output, slots: &mut [u32; SLOTS]) -> Completed
    requires laid { Laid (left o slots.old) }
    requires ris_bound { (c.state.registers.ris ≤ 31) × (o.counts.completed + 1 < 2 ^ 32) × (o.counts.discarded + o.held + 1 < 2 ^ 32) }
    ensures { word_answers.completed result slots.new ≡ run_rules.complete c.word (capture_answers.captured c) (left o slots.old) }
{
    // an early return: a match in its place takes two instructions a sample more
    let Some(v) = c.word else {
        return Completed {
            packing: Packing::Nothing,
            core: Core {
                capture: c.state,
                output: o,
            },
        };
    };
    full_word(v, c.state, o, slots)
}

// Rule 9, W4: of a padded word, and then FRAME where the word is held.
#[tactic(auto, using(crate::proofs::Fates::held_flagged, crate::proofs::Fates::lost_same, crate::proofs::Fates::not_nothing), unfolding(rules::specs::Run::complete))]
pub fn padded_word(v: u32, s: Capture, o: Output, slots: &mut [u32; SLOTS]) -> Completed
    requires laid { Laid (left o slots.old) }
    requires ris_bound { (s.registers.ris ≤ 31) × (o.counts.completed + 1 < 2 ^ 32) × (o.counts.discarded + o.held + 1 < 2 ^ 32) }
    ensures { word_answers.completed result slots.new ≡ run_rules.complete (Some v) (word_answers.with_word v true s) (left o slots.old) }
{
    let c = full_word(v, s, o, slots);
    match c.packing {
        Packing::Completed(_) => Completed {
            core: Core {
                capture: raise::<FRAME>(s),
                ..c.core
            },
            ..c
        },
        Packing::Nothing | Packing::Lost => c,
    }
}

// W6: FRAME, where it is due.
fn flagged(due: bool, s: Capture) -> Capture
    ensures { result ≡ cond due (state.raise 0 s) s }
{
    if due {
        return raise::<FRAME>(s);
    }
    s
}

// Rule 9 of a sample by codes (W6). Where ERR rose the held words are discarded.
#[tactic(auto, using(crate::proofs::Fates::word_coded), unfolding(rules::specs::Run::complete, rules::specs::Capture::flagged))]
pub fn complete_coded(c: Coded, o: Output, slots: &mut [u32; SLOTS]) -> Completed
    requires laid { Laid (left o slots.old) }
    requires ris_bound { (c.state.registers.ris ≤ 31) × (o.counts.completed + 1 < 2 ^ 32) × (o.counts.discarded + o.held + 1 < 2 ^ 32) }
    ensures { word_answers.completed result slots.new ≡ run_rules.complete c.word (coded_answers.coded c) (left o slots.old) }
{
    match c.word {
        None => Completed {
            packing: Packing::Nothing,
            core: Core {
                capture: flagged(c.due, c.state),
                output: if c.error { discard(0, o, slots) } else { o },
            },
        },
        Some(v) if c.due => padded_word(v, c.state, o, slots),
        Some(v) => full_word(v, c.state, o, slots),
    }
}
