// A run of samples, and one sample, over the lent memory from a start byte on. Memory and start come one by one, as in C (include/dcmi.h).
ghost use Rattle.std.specs.Prelude.{◌≡◌};
ghost use Rattle.rules.specs.Run as run_rules;
ghost use Rattle.refusals.specs.Table.{outcome};
ghost use Rattle.device.specs.Answers as device_answers;

use crate::Sampled;
use refusals::Refusal;
use rules::Device;
use run_refusals::refusal_of;
use sampling::sample_core;
use well_formed::malformed;

// A run's refusals on a device.
#[tactic(auto, unfolding(rules::specs::Run::run_refusal))]
fn run_refusal(d: Device, memory: &[u8], start: usize, samples: &[u32]) -> Result<(), Refusal>
    ensures { outcome result ≡ run_rules.run_refusal d memory.now start samples.now }
{
    refusal_of(
        malformed(d),
        d.core.output.counts.samples,
        memory,
        start,
        samples,
    )
}

// A run: refused, or the samples in order over the frame buffer, the part of memory from the start byte to its end.
pub fn run(d: Device, memory: &mut [u8], start: usize, samples: &[u32]) -> Result<Device, Refusal>
    ensures { device_answers.ran d result memory.new ≡ run_rules.run d memory.old start samples.now }
{
    run_refusal(d, memory, start, samples)?;
    Ok(sampling::run(d, &mut memory[start..], samples))
}

// One sample: refused, or the rules over the frame buffer; the landing is a byte of the lent memory.
pub fn sample(d: Device, memory: &mut [u8], start: usize, w: u32) -> Result<Sampled, Refusal>
    ensures { device_answers.sampled d result memory.new ≡ run_rules.sample d memory.old start w }
{
    let mut slots = d.slots;
    let after = sample_core(d.core, &mut slots, memory, start, w)?;
    Ok(Sampled {
        device: Device {
            core: after.core,
            slots,
        },
        answer: after.answer,
    })
}
