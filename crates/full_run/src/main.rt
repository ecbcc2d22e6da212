// The full run: the number of ticks is the argument, the table text comes from standard input; writes for each row its name and the
// completion instant of its first job.
#![tactic(auto)]

use std::env::Env;
use std::io;
use std::io::{Read, Write};

// The most digits of a number of 64 bits.
const DIGITS: usize = 20;

// The number of ticks that the first argument says; none where that has more bytes than the longest number.
fn ticks<V: Env>(env: &V) -> Option<u64> {
    // Fixed memory, as everywhere here: a buffer, and how much of it is used.
    let mut digits = [0u8; DIGITS];
    let len = env.arg(1, &mut digits).ok()?;
    decimal::read(&digits[..len], 0, u64::MAX)
}

// Reads a text, and writes its full run. What it has in common with `check_table` is no function: that would take a closure with a `requires`
// about it, for the six lines that are alike.
fn run<R: Read, W: Write, E: Write>(
    stdin: &mut R,
    stdout: &mut W,
    stderr: &mut E,
    ticks: u64,
) -> io::Result<()> {
    // Fixed memory, as above.
    let mut text = [0u8; replies::INPUT];
    let mut out = [0u8; replies::LONGEST];
    match input::read_whole(stdin, &mut text) {
        Ok(len) => {
            let n = replies::run_of(&text[..len], ticks, &mut out);
            output::put(stdout, stderr, &out[..n])
        }
        Err(_) => output::say(stderr, input::UNREAD),
    }
}

fn main(rt: HostRuntime) {
    let mut stderr = rt.stderr();
    // Whatever fails, standard error says it, and the program ends with 0.
    let _ = match ticks(&rt) {
        Some(n) => run(&mut rt.stdin(), &mut rt.stdout(), &mut stderr, n),
        None => output::say(
            &mut stderr,
            b"usage: full_run TICKS, a number with no leading zero and no sign\n",
        ),
    };
}
