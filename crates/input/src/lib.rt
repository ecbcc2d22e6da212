// Standard input as a whole, in as many reads as it takes.
#![tactic(auto)]

ghost use Rattle.std.specs.Prelude.{◌<◌, length, take, IfOk};
ghost use Rattle.std.specs.Io.KnownBytes.{Consumes, IsAtEnd};
ghost use Rattle.input.specs.Input.{IsPrefixLen};

use std::io;
use std::io::Read;

// What a program says where standard input cannot be read.
pub const UNREAD: &[u8] = b"standard input cannot be read\n";

// Reads until the buffer is full or the input ends, and answers how many bytes stand at the front of the buffer.
pub fn read_whole<R: Read>(stdin: &mut R, buf: &mut [u8]) -> io::Result<usize>
    ensures within { IfOk result (λ n. IsPrefixLen n buf.new) }
    ensures bytes { IfOk result (λ n. Consumes (R.remaining stdin.old) (R.remaining stdin.new) (take n buf.new)) }
    ensures end { IfOk result (λ n. n < length buf.new → IsAtEnd (R.remaining stdin.new)) }
{
    let mut at = 0;
    // `read_exact` tells no length where the input is shorter than the buffer, and `read_to_end` wants a heap.
    while at < buf.len() {
        match stdin.read(&mut buf[at..])? {
            0 => break,
            more => at += more,
        }
    }
    Ok(at)
}
