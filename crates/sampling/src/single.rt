// One sample over a core and lent slots: for callers that hold the slots themselves.
ghost use Rattle.std.specs.Prelude.{◌≡◌, length};
ghost use Rattle.output.specs.Output.{slot_count};
ghost use Rattle.rules.specs.Run as run_rules;
ghost use Rattle.full_word.specs.Answers as word_answers;
ghost use Rattle.sampling.specs.Answers as sample_answers;

use crate::{SampledCore, steps};
use fifo::notes::{in_memory, no_answer};
use output::SLOTS;
use refusals::Refusal;
use rules::Core;
use run_refusals::refusal_of;
use well_formed::malformed_core;

// One sample over a core and lent slots; refused, the slots are as they were. The test and `steps` are called here, on the one core, so that it is stored once (docs/SPEED.md).
pub fn sample_core(
    core: Core,
    slots: &mut [u32; SLOTS],
    memory: &mut [u8],
    start: usize,
    w: u32,
) -> Result<SampledCore, Refusal>
    requires { length slots.old ≡ slot_count }
    ensures { sample_answers.sampled_core core result slots.new memory.new ≡ run_rules.sample (word_answers.device core slots.old) memory.old start w }
{
    let bad = malformed_core(core, slots);
    let one = [w];
    refusal_of(bad, core.output.counts.samples, memory, start, &one)?;
    let mut answer = no_answer();
    let core = steps(core, slots, &mut memory[start..], &mut answer, &one);
    answer.landing = in_memory(start, answer.landing);
    Ok(SampledCore { core, answer })
}
