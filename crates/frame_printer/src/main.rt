// The frame printer: it runs the trace file on standard input by parts over 16,384 zero bytes, and prints the refusal, or the counts, the flags and each landed word: the lines that the crate `printing` gives, in
// order. Nothing is printed before the outcome is certain. No byte is read behind the one that is one too many, nor behind a header that is refused. A read that fails ends the
// input; a write that fails ends the output.
// The buffers (request W7: at most 64 KiB): 32,768 bytes for input, 16,384 of memory, 32 for a line, and 2,048 for samples in `parts`. Together 51,232: what is read and
// written goes through no other.
#![tactic(auto)]

ghost use Rattle.frame_printer.specs.Reading as reading_facts;

use parts::Parts;
use printing::{line, line_count};
use std::io;
use std::io::{Read, Stdin};

// One read of standard input, of at most n bytes to the front of the buffer: how many came, 0 at the end.
fn read(input: &mut Stdin, buffer: &mut [u8], n: usize) -> io::Result<usize>
    ensures { reading_facts.Given buffer.new n result }
{
    let most = n.min(buffer.len());
    input.read(&mut buffer[..most])
}

// What the end of the input says, line by line: of a state that the parts of a file led to, so that it is what the file prints (proofs/Reading: `prints_the_file`).
fn print(rt: &impl Print, parts: &Parts, memory: &[u8]) -> io::Result<()>
    requires { reading_facts.ByParts parts.now memory.now }
{
    let ended = parts.end(memory, 0);
    let mut text = [0u8; 32];
    for k in 0..line_count(ended) {
        let n = line(ended, memory, k, &mut text);
        rt.write_all(&text[..n])?;
    }
    Ok(())
}

fn main(rt: HostRuntime) {
    let mut input = rt.stdin();
    let mut buffer = [0u8; 32768];
    let mut memory = [0u8; 16384];
    let mut p = Parts::open(device::fresh());
    // the end is 0 bytes; a read that failed ends the input too
    while let Ok(n @ 1..) = read(&mut input, &mut buffer, p.wanted()) {
        p.take(&buffer[..n], &mut memory, 0);
    }
    // a write that failed ends the output
    let _ = print(&rt, &p, &memory);
}
