// The trace file, versions 1 and 2, as definitions: its bytes, the form checks, the item at a place, a reader's walk. proofs/ has their laws: what is encoded reads
// back, and a file of good form is encoded from what it holds. The code is what the crates that read and write files share, and for them alone: a register write,
// the sizes of a file's parts, and its header.
#![tactic(auto)]

ghost use Rattle.std.specs.Prelude.{◌≡◌, ◌<◌, ◌≤◌, ◌^◌, length};
ghost use Rattle.std.proofs.lemmas.List.Edits.{sets};
ghost use Rattle.trace_format.specs.Format as format;

use numbers::put;

// A register write as a file has it: any offset byte, any 32-bit value.
#[derive(Clone, Copy, Debug, PartialEq, Eq)]
pub struct Write {
    pub offset: u8,
    pub value: u32,
}

// The bytes that a file begins with.
pub const MARK: [u8; 3] = *b"FGT";

// The bytes of a write and of a sample.
pub const WRITE_SIZE: usize = 5;

pub const SAMPLE_SIZE: usize = 3;

// The version of a file with that many samples: 1 up to 16,384, 2 above. It is the number that the file has, as the definitions have it.
#[tactic(auto, unfolding(crate::specs::Format::version_for))]
pub fn version_for(samples: usize) -> u32
    ensures { result ≡ format.version_for samples }
{
    if 16384 < samples { 2 } else { 1 }
}

// The bytes of the number of samples in a version, and of the header.
#[tactic(auto, unfolding(crate::specs::Format::count_size))]
pub fn count_size(version: u32) -> usize
    ensures value { result ≡ format.count_size version }
    ensures upper_bound { result ≤ 4 }
{
    if version == 2 { 4 } else { 2 }
}

pub fn header_size(version: u32) -> usize
    ensures value { result ≡ format.header_length version }
    ensures upper_bound { result < 2 ^ 4 }
{
    6 + count_size(version)
}

// The bytes of the header of a file with that many samples.
pub fn header_for(samples: usize) -> usize
    ensures value { result ≡ format.header_length (format.version_for samples) }
    ensures upper_bound { result < 2 ^ 4 }
{
    header_size(version_for(samples))
}

// The header of a file, put from the first byte on: the mark, the version and the two numbers.
pub fn put_header(out: &mut [u8], writes: u32, samples: u32)
    requires { format.header_length (format.version_for samples) ≤ length out.old }
    ensures { out.new ≡ sets out.old 0 (format.header writes samples) }
{
    let version = version_for(samples as usize);
    out[..3].copy_from_slice(&MARK);
    put(out, 3, 2, version);
    put(out, 5, 1, writes);
    put(out, 6, count_size(version), samples);
}
