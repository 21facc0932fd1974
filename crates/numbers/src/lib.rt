// Numbers as bytes, little-endian, for the crates of this repository alone: those that some bytes are, a byte beyond the end of the slice reading as 0; and the
// lowest bytes of one put into a buffer. proofs/ has the laws that what is put reads back, and what is read is put as it was.
#![tactic(auto)]

ghost use Rattle.std.specs.Prelude.{◌≡◌, ◌+◌, ◌<◌, ◌≤◌, ◌^◌, length, get_or};
ghost use Rattle.std.proofs.lemmas.List.Edits.{sets};
ghost use Rattle.numbers.specs.Numbers.{little, number_at};

pub fn byte(bytes: &[u8], at: usize) -> u8
    ensures { result ≡ get_or bytes.now at 0 }
{
    bytes.get(at).copied().unwrap_or(0)
}

// The number of N bytes from a byte on. (Not by a `fold` of the bytes in reverse: tried, and not proved, as its closure has no count that bounds x.)
pub fn number<const N: usize>(bytes: &[u8], at: usize) -> u32
    requires { N ≤ 4 }
    ensures value { result ≡ number_at bytes.now at N }
    ensures upper_bound { result < 256 ^ N }
{
    let rest = bytes.get(at..).unwrap_or(&[]);
    let mut x = 0;
    for i in (0..N).rev() {
        x = 256 * x + byte(rest, i) as u32;
    }
    x
}

// The n lowest bytes of a number, put from a byte on.
pub fn put(out: &mut [u8], at: usize, n: usize, x: u32)
    requires { at + n ≤ length out.old }
    ensures { out.new ≡ sets out.old at (little n x) }
{
    let mut rest = x;
    for b in &mut out[at..at + n] {
        *b = (rest % 256) as u8;
        rest /= 256;
    }
}
