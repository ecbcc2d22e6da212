// What the programs write: an answer to standard output, and words about trouble to standard error.
#![tactic(auto)]

ghost use Rattle.std.specs.Prelude.{◌≡◌, [], OnOk, IsOk};
ghost use Rattle.std.specs.Io.KnownBytes.{Appends, Keeps};

use std::io;
use std::io::Write;

// Writes bytes, and says whether that failed; to write nothing cannot fail.
fn write<W: Write>(to: &mut W, bytes: &[u8]) -> io::Result<()>
    ensures bytes { OnOk result (Appends (W.contents to.old) (W.contents to.new) bytes.now) }
    ensures nothing { bytes.now ≡ [] → IsOk result }
{
    if bytes.is_empty() {
        return Ok(());
    }
    to.write_all(bytes)
}

// Says what is wrong, on standard error.
pub fn say<E: Write>(stderr: &mut E, words: &[u8]) -> io::Result<()>
    ensures bytes { OnOk result (Appends (E.contents stderr.old) (E.contents stderr.new) words.now) }
    ensures nothing { words.now ≡ [] → IsOk result }
{
    write(stderr, words)
}

// Writes an answer to standard output, and says where that failed.
pub fn put<W: Write, E: Write>(stdout: &mut W, stderr: &mut E, answer: &[u8]) -> io::Result<()>
    ensures bytes { OnOk result (Appends (W.contents stdout.old) (W.contents stdout.new) answer.now) }
    ensures quiet { OnOk result (Keeps (E.contents stderr.old) (E.contents stderr.new)) }
    ensures nothing { answer.now ≡ [] → IsOk result }
{
    let done = write(stdout, answer);
    if done.is_err() {
        let _ = say(stderr, b"standard output cannot be written\n");
    }
    done
}
