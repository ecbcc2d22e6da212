// Answers the items of a stream, one after the other: next item, its answer, one write.
#![tactic(auto)]

ghost use Rattle.std.specs.Prelude.{◌≡◌, ◌≤◌};

use replies::Kind;
use std::io;
use std::io::{Read, Write};
use streams::StreamError;

// The most bytes of a stream's item: more than a text may have, so that texts that are too long can be tried.
const ITEM: usize = 8_192;

// The most items of a stream. A proved loop has to end, and nothing says that the input does.
const ITEMS: u64 = 100_000;

// Why a stream is not answered to its end.
#[derive(Clone, Copy)]
enum Trouble {
    // Standard input cannot be read.
    Unread,
    // An item is longer than an item may be, is cut off, or has no answer.
    Broken,
    // The stream is too long.
    Many,
    // Standard output cannot be written, and standard error says so.
    Unwritten,
}

impl From<StreamError> for Trouble {
    fn from(why: StreamError) -> Trouble {
        match why {
            StreamError::Broken => Trouble::Broken,
            StreamError::Unread(_) => Trouble::Unread,
        }
    }
}

// Says what is wrong with a stream.
fn say<E: Write>(stderr: &mut E, why: Trouble) -> io::Result<()> {
    match why {
        Trouble::Unread => output::say(stderr, input::UNREAD),
        Trouble::Broken => output::say(
            stderr,
            b"an item of the stream has more than 8192 bytes, is cut off, or has no room for the ticks\n",
        ),
        Trouble::Many => output::say(stderr, b"the stream has more than 100000 items\n"),
        Trouble::Unwritten => Ok(()),
    }
}

// Answers an item.
fn answer<W: Write, E: Write>(
    stdout: &mut W,
    stderr: &mut E,
    kind: Kind,
    item: &[u8],
) -> Result<(), Trouble> {
    // Fixed memory, as everywhere here: a buffer, and how much of it is used.
    let mut out = [0u8; replies::LONGEST];
    let len = replies::reply(kind, item, &mut out).ok_or(Trouble::Broken)?;
    output::put(stdout, stderr, &out[..len]).map_err(|_| Trouble::Unwritten)
}

// Answers each item of the stream, and counts those that were answered: the count is lent, since it is told where there is trouble too.
// The three streams are no struct: `answer_all` is lent them one by one, and would make one for this call alone.
fn answer_each<R: Read, W: Write, E: Write>(
    stdin: &mut R,
    stdout: &mut W,
    stderr: &mut E,
    kind: Kind,
    answered: &mut u64,
) -> Result<(), Trouble>
    requires { answered.old ≡ 0 }
    ensures { answered.new ≤ 100000 }
{
    // Fixed memory, as above.
    let mut item = [0u8; ITEM];
    for n in 0..ITEMS {
        let Some(len) = streams::next(stdin, &mut item)? else {
            return Ok(());
        };
        answer(stdout, stderr, kind, &item[..len])?;
        *answered = n + 1;
    }
    match streams::next(stdin, &mut item)? {
        Some(_) => Err(Trouble::Many),
        None => Ok(()),
    }
}

// Answers each item of the stream, and says how many were answered.
// `kind` is no closure: that proves, but takes a `requires` about the closure, and this function asks nothing of its callers.
pub fn answer_all<R: Read, W: Write, E: Write>(
    stdin: &mut R,
    stdout: &mut W,
    stderr: &mut E,
    kind: Kind,
) -> u64
    ensures { result ≤ 100000 }
{
    let mut answered = 0;
    if let Err(why) = answer_each(stdin, stdout, stderr, kind, &mut answered) {
        let _ = say(stderr, why);
    }
    answered
}
