// Text: bytes, and numbers in decimal, in a lent buffer from a byte on; hexadecimal digits. What is put is as much as fits; the answer is the place behind it, and every other byte stays. Each function
// answers for every buffer, place and number. The buffer is lent with a place in it, and no `String` is made: the frame printer's memory is fixed, with no heap (request W7).
#![tactic(auto)]

ghost use Rattle.std.specs.Prelude.{[], ◌∷◌, ◌≡◌, ◌<◌};
ghost use Rattle.text.specs.Text as text_rules;
ghost use Rattle.text.specs.Putting as putting_rules;

// One byte.
fn put_byte(b: u8, buffer: &mut [u8], at: usize) -> usize
    ensures { putting_rules.putting result buffer.new ≡ putting_rules.put (b ∷ []) at buffer.old }
{
    if at < buffer.len() {
        buffer[at] = b;
        return at + 1;
    }
    at
}

// Some bytes.
pub fn put(bytes: &[u8], buffer: &mut [u8], at: usize) -> usize
    ensures { putting_rules.putting result buffer.new ≡ putting_rules.put bytes.now at buffer.old }
{
    let mut place = at;
    for &b in bytes {
        place = put_byte(b, buffer, place);
    }
    place
}

// A digit, hexadecimal in upper case.
fn digit(x: u64) -> u8
    requires { x < 16 }
    ensures { result ≡ text_rules.digit x }
{
    match x {
        0..=9 => b'0' + x as u8,
        _ => b'A' + (x - 10) as u8,
    }
}

// A number in decimal, with no zero in front.
pub fn put_decimal(x: u64, buffer: &mut [u8], at: usize) -> usize
    ensures { putting_rules.putting result buffer.new ≡ putting_rules.put (text_rules.decimal x) at buffer.old }
{
    if x < 10 {
        return put_byte(digit(x), buffer, at);
    }
    let place = put_decimal(x / 10, buffer, at);
    put_byte(digit(x % 10), buffer, place)
}

// The N lowest hexadecimal digits of a number, highest first. By index, from the last on: the invariant is what stands from there on, and over `iter_mut` it is no plainer.
pub fn hex_digits<const N: usize>(x: u64) -> [u8; N]
    ensures { result ≡ text_rules.hex N x }
{
    let mut digits = [b'0'; N];
    let mut rest = x;
    for i in (0..N).rev() {
        digits[i] = digit(rest % 16);
        rest /= 16;
    }
    digits
}
