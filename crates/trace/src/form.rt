// The form checks, of a file and of a file's first bytes with its length; the numbers of a header.
ghost use Rattle.std.specs.Prelude.{◌||◌, ◌≡◌, ◌<◌, ◌^◌, eqb, take};
ghost use Rattle.refusals.specs.Table.{outcome};
ghost use Rattle.trace_format.specs.Format as format;
ghost use Rattle.trace_format.specs.Reading as reading;

use numbers::number;
use refusals::Refusal;
use trace_format::{MARK, SAMPLE_SIZE, WRITE_SIZE, header_size, version_for};

// Bytes 0 to 2 are the mark.
fn marked(file: &[u8]) -> bool
    ensures { result ≡ reading.same (take 3 file.now) format.mark }
{
    file.starts_with(&MARK)
}

// The version of a file, and whether it is one of the two.
fn version(file: &[u8]) -> u32
    ensures { result ≡ reading.version_of file.now }
{
    number::<2>(file, 3)
}

fn known(version: u32) -> bool
    ensures { result ≡ (eqb version 1 || eqb version 2) }
{
    matches!(version, 1 | 2)
}

// The bytes of a file's header: 8, in version 2 10.
pub fn header_length(file: &[u8]) -> usize
    ensures value { result ≡ format.header_length (reading.version_of file.now) }
    ensures upper_bound { result < 2 ^ 4 }
{
    header_size(version(file))
}

// The number of writes, which is the place of the first sample.
pub fn write_count(file: &[u8]) -> usize
    ensures value { result ≡ reading.write_count file.now }
    ensures upper_bound { result < 2 ^ 8 }
{
    number::<1>(file, 5) as usize
}

// The number of samples, and the byte at which they begin.
#[tactic(auto, unfolding(trace_format::specs::Format::count_size))]
pub fn sample_count(file: &[u8]) -> usize
    ensures value { result ≡ reading.sample_count file.now }
    ensures upper_bound { result < 2 ^ 32 }
{
    if version(file) == 2 {
        number::<4>(file, 6) as usize
    } else {
        number::<2>(file, 6) as usize
    }
}

pub fn samples_start(file: &[u8]) -> usize
    ensures value { result ≡ reading.sample_start file.now 0 }
    ensures upper_bound { result < 2 ^ 11 }
{
    header_length(file) + WRITE_SIZE * write_count(file)
}

// The checks of the header that some bytes begin with, for a file of that length: 13 (below 8 bytes), 10, 11, 13 (version 2 below 10 bytes), 12.
#[tactic(auto, unfolding(trace_format::specs::Reading::header_refusal))]
pub fn check_header(head: &[u8], length: usize) -> Result<(), Refusal>
    ensures { outcome result ≡ reading.header_refusal head.now length }
{
    if length < 8 {
        return Err(Refusal::Length);
    }
    if !marked(head) {
        return Err(Refusal::Mark);
    }
    let version = version(head);
    if !known(version) {
        return Err(Refusal::Version);
    }
    if length < header_size(version) {
        return Err(Refusal::Length);
    }
    if version != version_for(sample_count(head)) {
        return Err(Refusal::SampleCount);
    }
    Ok(())
}

// The form checks of a file that begins with these bytes and has that length: those of the header, then 13.
#[tactic(auto, using(trace_format::proofs::Form::form_after_header, refusals::proofs::Numbered::never_zero))]
pub fn form_of(head: &[u8], length: usize) -> Result<(), Refusal>
    ensures { outcome result ≡ reading.form_of head.now length }
{
    check_header(head, length)?;
    if length != samples_start(head) + SAMPLE_SIZE * sample_count(head) {
        return Err(Refusal::Length);
    }
    Ok(())
}

// The form checks: 13, 10, 11, 13, 12, 13.
pub fn check_form(file: &[u8]) -> Result<(), Refusal>
    ensures { outcome result ≡ reading.form_refusal file.now }
{
    form_of(file, file.len())
}
