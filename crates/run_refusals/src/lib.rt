// The refusals of a run of some samples, or of one, of any module that takes them. Each function answers for every input.
#![tactic(auto)]

ghost use Rattle.std.specs.Prelude.{◌≡◌, ◌+◌, ltb, length};
ghost use Rattle.refusals.specs.Table.{outcome};
ghost use Rattle.run_refusals.specs.RunRefusals.{refusal_of};

use refusals::Refusal;
use samples::any_bad;

// Whether the samples in all would pass 4,294,967,295.
fn too_many(before: u32, samples: &[u32]) -> bool
    ensures { result ≡ ltb 4294967295 (before + length samples.now) }
{
    4294967295 < before as usize + samples.len()
}

// A run's refusals 1, 9, 7, 8 in order, by whether the device is malformed and how many samples it has counted.
pub fn refusal_of(
    bad: bool,
    before: u32,
    memory: &[u8],
    start: usize,
    samples: &[u32],
) -> Result<(), Refusal>
    ensures { outcome result ≡ refusal_of bad (ltb (length memory.now) start) before samples.now }
{
    if bad {
        return Err(Refusal::Malformed);
    }
    if memory.len() < start {
        return Err(Refusal::StartBeyond);
    }
    if any_bad(samples) {
        return Err(Refusal::SampleBits);
    }
    if too_many(before, samples) {
        return Err(Refusal::SampleTotal);
    }
    Ok(())
}
