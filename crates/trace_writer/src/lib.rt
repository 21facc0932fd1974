// The writer: a trace file of some writes and samples into a lent buffer. It answers for every input. proofs/ has the two round trips.
#![tactic(auto)]

ghost use Rattle.std.specs.Prelude.{List, ◌≡◌, ◌++◌, ◌+◌, ◌*◌, ◌≤◌, ◌<◌, length, get_or};
ghost use Rattle.std.proofs.lemmas.List.Edits.{sets};
ghost use Rattle.numbers.specs.Numbers.{little};
ghost use Rattle.trace_format.specs.declared.Write.{Write};
ghost use Rattle.trace_format.specs.Format as format;
ghost use Rattle.trace_writer.specs.Writing as writing;
ghost use Rattle.trace_writer.specs.Answers as writer_answers;

use numbers::put;
use refusals::Refusal;
use samples::any_bad;
use trace_format::{SAMPLE_SIZE, WRITE_SIZE, Write, header_for, put_header};

// The writes of a file that is to be written, however they are kept. `encode_from`, which asks nothing of its callers, asks for each of at most 255 once, in order, where it accepts all: so
// no list is made of what C gives as two arrays, and none of their entries behind the count is read.
pub trait Writes: Copy {
    // The list.
    ghost list: { Self → List Write };

    fn count(&self) -> usize
        ensures { result ≡ length (list self.now) };

    // Write number k.
    fn nth(&self, k: usize) -> Write
        requires { (k < length (list self.now)) × (length (list self.now) ≤ 255) }
        ensures { result ≡ get_or (list self.now) k result };
}

impl<'a> Writes for &'a [Write] {
    ghost list = { λ writes. writes.now };

    fn count(&self) -> usize {
        self.len()
    }

    fn nth(&self, k: usize) -> Write {
        self[k]
    }
}

// Writes as C gives them: an array of offsets, one of values, and how many count.
#[derive(Clone, Copy)]
pub struct Given<'a> {
    pub count: usize,
    pub offsets: &'a [u8; 255],
    pub values: &'a [u32; 255],
}

impl<'a> Writes for Given<'a> {
    ghost list = { λ w. writing.given w.count w.offsets.now w.values.now };

    fn count(&self) -> usize {
        self.count
    }

    fn nth(&self, k: usize) -> Write {
        Write {
            offset: self.offsets[k],
            value: self.values[k],
        }
    }
}

// The offset and the value of a write, from a byte on.
#[tactic(auto, using(numbers::proofs::Numbers::length_little, numbers::proofs::Putting::sets_append))]
fn put_write(out: &mut [u8], at: usize, write: Write)
    requires { at + format.write_size ≤ length out.old }
    ensures { out.new ≡ sets out.old at (little 1 write.offset ++ little 4 write.value) }
{
    put(out, at, 1, write.offset as u32);
    put(out, at + 1, 4, write.value);
}

// The writes, from a byte on. (By index, and the samples too: over `out[at..].chunks_exact_mut(..).zip(..)` an invariant has no buffer to speak of; tried for the samples, and not proved.)
fn put_writes<W: Writes>(out: &mut [u8], at: usize, writes: W)
    requires { (length (W.list writes) ≤ 255) × (at + format.write_size * length (W.list writes) ≤ length out.old) }
    ensures { out.new ≡ sets out.old at (format.write_bytes (W.list writes)) }
{
    for i in 0..writes.count() {
        put_write(out, at + WRITE_SIZE * i, writes.nth(i));
    }
}

// The samples, from a byte on.
fn put_samples(out: &mut [u8], at: usize, samples: &[u32])
    requires { at + format.sample_size * length samples.now ≤ length out.old }
    ensures { out.new ≡ sets out.old at (format.sample_bytes samples.now) }
{
    for (i, sample) in samples.iter().enumerate() {
        put(out, at + SAMPLE_SIZE * i, SAMPLE_SIZE, *sample);
    }
}

// The whole file, from the first byte on.
#[tactic(auto, using(crate::proofs::Filling::file_put))]
fn put_file<W: Writes>(out: &mut [u8], writes: W, samples: &[u32])
    requires { (length (W.list writes) ≤ 255) × (length samples.now ≤ format.sample_limit) × (format.write_start (format.version_for (length samples.now)) (length (W.list writes)) + format.sample_size * length samples.now ≤ length out.old) }
    ensures { out.new ≡ sets out.old 0 (format.encode (W.list writes) samples.now) }
{
    let header = header_for(samples.len());
    let count = writes.count();
    put_header(out, count as u32, samples.len() as u32);
    put_writes(out, header, writes);
    put_samples(out, header + WRITE_SIZE * count, samples);
}

// A trace file of the writes, however they are kept, and the samples, in the version that the number of samples says: its length, or a refusal, 14, 12, 7 or 15. Refused, every byte of the
// buffer stays; accepted, the bytes after the file stay.
#[tactic(auto, using(trace_format::proofs::ReadBack::length_encode, numbers::proofs::Putting::put_over), unfolding(crate::specs::Writing::write, crate::specs::Writing::writer_refusal))]
pub fn encode_from<W: Writes>(writes: W, samples: &[u32], out: &mut [u8]) -> Result<usize, Refusal>
    ensures { writer_answers.written result out.new ≡ writing.write (W.list writes) samples.now out.old }
{
    let count = writes.count();
    if 255 < count {
        return Err(Refusal::WriteCount);
    }
    if 4294967295 < samples.len() {
        return Err(Refusal::SampleCount);
    }
    if any_bad(samples) {
        return Err(Refusal::SampleBits);
    }
    let header = header_for(samples.len());
    let length = header + WRITE_SIZE * count + SAMPLE_SIZE * samples.len();
    if out.len() < length {
        return Err(Refusal::Room);
    }
    put_file(out, writes, samples);
    Ok(length)
}

// The same of a slice of writes.
pub fn encode(writes: &[Write], samples: &[u32], out: &mut [u8]) -> Result<usize, Refusal>
    ensures { writer_answers.written result out.new ≡ writing.write writes.now samples.now out.old }
{
    encode_from(writes, samples, out)
}
