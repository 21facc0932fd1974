// The item at a place of a file.
ghost use Rattle.std.specs.Prelude.{◌≡◌, ◌<◌, ◌^◌};
ghost use Rattle.trace_format.specs.Reading as reading;
ghost use Rattle.trace_reader.specs.Answers as trace_answers;

use crate::Item;
use numbers::{byte, number};
use refusals::Refusal;
use samples::bad_sample;
use trace::{header_length, sample_count, samples_start, write_count};
use trace_format::{SAMPLE_SIZE, WRITE_SIZE, Write};

// The item at a place: first the writes, then the samples, each checked (refusal 7), then the end. It makes no form check, and a byte beyond the end of the slice reads as 0: for callers that have made
// the checks. Users read by `read_once` or a reader, which make them.
// (Inlined, so that its answer goes through no memory: a call of `dcmi_trace_item` takes 40 instructions less.)
// (Not by `trace::write_in` and `sample_in`: each over `file.get(at..).unwrap_or(&[])` is longer than its numbers read here, and proves only by lemmas of dropped bytes.)
#[tactic(auto, using(numbers::proofs::NumberAt::number_at_one, trace_format::proofs::Walk::sample_here), unfolding(trace_format::specs::Reading::item, trace_format::specs::Reading::checked, trace_format::specs::Reading::write_at, trace_format::specs::Reading::past))]
#[inline(always)]
pub fn item_at(file: &[u8], place: usize) -> Result<Option<Item>, Refusal>
    ensures result_value { trace_answers.item result ≡ reading.item file.now place }
    ensures result_bound { reading.past place (trace_answers.item result) < 2 ^ 64 }
{
    let writes = write_count(file);
    if place < writes {
        let at = header_length(file) + WRITE_SIZE * place;
        let offset = byte(file, at);
        let value = number::<4>(file, at + 1);
        return Ok(Some(Item::Write(Write { offset, value })));
    }
    let samples = sample_count(file);
    if place < writes + samples {
        let w = number::<3>(file, samples_start(file) + SAMPLE_SIZE * (place - writes));
        if bad_sample(w) {
            return Err(Refusal::SampleBits);
        }
        return Ok(Some(Item::Sample(w)));
    }
    Ok(None)
}
