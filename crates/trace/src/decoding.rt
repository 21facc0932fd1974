// A write or a sample from its bytes. Samples many at a time: those of any bytes into a lent array, and the test of all of a file's; the bytes
// go three at a time.
ghost use Rattle.std.specs.Prelude.{◌≡◌, ◌/◌, ◌≤◌, length, drop};
ghost use Rattle.std.proofs.lemmas.List.Edits.{sets};
ghost use Rattle.numbers.specs.Numbers.{number_at};
ghost use Rattle.refusals.specs.Table.{outcome};
ghost use Rattle.samples.specs.Samples as samples;
ghost use Rattle.trace_format.specs.Format as format;
ghost use Rattle.trace_format.specs.Reading as reading;
ghost use Rattle.trace.specs.Answers as decoding_answers;
ghost use Rattle.trace.specs.Decoding as decodings;

use crate::form::{check_form, samples_start};
use numbers::{byte, number};
use refusals::Refusal;
use samples::{any_bad, bad_sample};
use trace_format::{SAMPLE_SIZE, Write};

// The write, and the sample, that the bytes of an item are.
#[tactic(auto, using(numbers::proofs::NumberAt::number_at_one))]
pub fn write_in(item: &[u8]) -> Write
    ensures { (result.offset ≡ number_at item.now 0 1) × (result.value ≡ number_at item.now 1 4) }
{
    Write {
        offset: byte(item, 0),
        value: number::<4>(item, 1),
    }
}

pub fn sample_in(item: &[u8]) -> u32
    ensures { result ≡ number_at item.now 0 format.sample_size }
{
    number::<3>(item, 0)
}

// Whether a sample of a file of the right length has a bit above 17. It doesn't end at the first, so that the compiler tests several at once.
fn any_bad_of(file: &[u8]) -> bool
    requires { length file.now ≡ reading.whole file.now }
    ensures { result ≡ samples.any_bad (reading.samples_of file.now) }
{
    file[samples_start(file)..]
        .chunks_exact(SAMPLE_SIZE)
        .fold(false, |any, item| any | bad_sample(sample_in(item)))
}

// The form checks, then refusal 7 of any sample.
#[tactic(auto, using(refusals::proofs::Numbered::never_zero, trace_format::proofs::Form::formed), unfolding(trace_format::specs::Reading::file_refusal))]
pub fn check_file(file: &[u8]) -> Result<(), Refusal>
    ensures { outcome result ≡ reading.file_refusal file.now }
{
    check_form(file)?;
    if any_bad_of(file) {
        return Err(Refusal::SampleBits);
    }
    Ok(())
}

// The samples that some bytes are, to the front of the array, whatever their bits. (By index: over `array.iter_mut().zip(..)` an invariant has no array to speak of; tried, and not proved.)
fn decode_all(bytes: &[u8], array: &mut [u32])
    requires { length bytes.now / format.sample_size ≤ length array.old }
    ensures { array.new ≡ sets array.old 0 (decodings.samples_in (length bytes.now / format.sample_size) bytes.now) }
{
    for (i, item) in bytes.chunks_exact(SAMPLE_SIZE).enumerate() {
        array[i] = sample_in(item);
    }
}

// The samples from a byte on: those that are there whole, that the array takes, and at most as many as asked for. They stand at the front of the array, and the rest of it stays. It answers
// how many they are, 0 at the end; and where one of them has a bit above 17 refusal 7.
pub fn samples_at(bytes: &[u8], at: usize, most: usize, array: &mut [u32]) -> Result<usize, Refusal>
    ensures result_value { decoding_answers.samples result ≡ decodings.samples_at bytes.now at most (length array.old) }
    ensures array_after { array.new ≡ sets array.old 0 (decodings.samples_in (decodings.how_many bytes.now at most (length array.old)) (drop at bytes.now)) }
{
    let rest = bytes.get(at..).unwrap_or(&[]);
    let n = array.len().min(most).min(rest.len() / SAMPLE_SIZE);
    decode_all(&rest[..SAMPLE_SIZE * n], array);
    if any_bad(&array[..n]) {
        return Err(Refusal::SampleBits);
    }
    Ok(n)
}
