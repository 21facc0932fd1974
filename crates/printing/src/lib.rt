// What the frame printer prints, line by line: how many lines there are, and each of them by its number, into a lent buffer (no heap: request W7). The text is a definition from a
// file's bytes on (specs/Printed); proofs/ has the laws that it is the lines one after the other, and that a file by parts, cut in any way, prints the same.
#![tactic(auto)]

ghost use Rattle.std.specs.Prelude.{List, [], ◌≡◌, ℕ, ◌≤◌, length, get_or};
ghost use Rattle.refusals.specs.Table.{outcome as number};
ghost use Rattle.text.specs.Putting as putting_rules;
ghost use Rattle.printing.specs.Printed as printed_rules;

use numbers::number;
use refusals::Refusal;
use rules::Device;
use text::{hex_digits, put, put_decimal};

// A name and a number in decimal.
fn count_line(name: &[u8], n: u32, buffer: &mut [u8]) -> usize
    ensures { putting_rules.putting result buffer.new ≡ putting_rules.put (printed_rules.count_line name.now n) 0 buffer.old }
{
    let named = put(name, buffer, 0);
    let counted = put_decimal(n as u64, buffer, named);
    put(b"\n", buffer, counted)
}

// RIS as two digits.
fn flags_line(ris: u32, buffer: &mut [u8]) -> usize
    ensures { putting_rules.putting result buffer.new ≡ putting_rules.put (printed_rules.flags_line ris) 0 buffer.old }
{
    let named = put(b"flags ", buffer, 0);
    let digits = hex_digits::<2>(ris as u64);
    let flagged = put(&digits, buffer, named);
    put(b"\n", buffer, flagged)
}

// A word as eight.
fn word_line(word: u32, buffer: &mut [u8]) -> usize
    ensures { putting_rules.putting result buffer.new ≡ putting_rules.put (printed_rules.word_line word) 0 buffer.old }
{
    let digits = hex_digits::<8>(word as u64);
    let place = put(&digits, buffer, 0);
    put(b"\n", buffer, place)
}

// Line number k of an accepted file.
#[tactic(auto, unfolding(crate::specs::Printed::report))]
fn report_line(d: Device, memory: &[u8], k: usize, buffer: &mut [u8]) -> usize
    ensures { putting_rules.putting result buffer.new ≡ putting_rules.put (get_or (printed_rules.report d memory.now) k []) 0 buffer.old }
{
    let output = d.core.output;
    match k {
        0 => count_line(b"samples ", output.counts.samples, buffer),
        1 => count_line(b"words ", output.counts.landed, buffer),
        2 => count_line(b"held ", output.held, buffer),
        3 => count_line(b"discarded ", output.counts.discarded, buffer),
        4 => flags_line(d.core.capture.registers.ris, buffer),
        _ if k - 5 < output.counts.landed as usize => {
            word_line(number::<4>(memory, 4 * (k - 5)), buffer)
        }
        _ => 0,
    }
}

// How many lines there are.
#[tactic(auto, using(refusals::proofs::Numbered::never_zero, crate::proofs::Lines::length_words), unfolding(crate::specs::Printed::report, crate::specs::Printed::lines))]
pub fn line_count(ended: Result<Device, Refusal>) -> usize
    ensures { (memory : List ℕ) → result ≡ length (printed_rules.lines (number ended) (printed_rules.device_left ended) memory) }
{
    match ended {
        Ok(d) => 5 + d.core.output.counts.landed as usize,
        Err(_) => 1,
    }
}

// Line number k of what is printed for an outcome and a memory, to the front of the buffer: its length, where the buffer has 32 bytes or more. Behind the last line there is
// none.
pub fn line(ended: Result<Device, Refusal>, memory: &[u8], k: usize, buffer: &mut [u8]) -> usize
    ensures buffer_after { putting_rules.putting result buffer.new ≡ putting_rules.put (printed_rules.line (number ended) (printed_rules.device_left ended) memory.now k) 0 buffer.old }
    ensures value { 32 ≤ length buffer.old → result ≡ length (printed_rules.line (number ended) (printed_rules.device_left ended) memory.now k) }
{
    match ended {
        Ok(d) => report_line(d, memory, k, buffer),
        Err(refusal) if k == 0 => count_line(b"refused ", refusal.number(), buffer),
        Err(_) => 0,
    }
}
