// Items from standard input: each is its length as two bytes, the higher one first, then so many bytes. The stream ends with the input.
#![tactic(auto)]

ghost use Rattle.std.specs.Prelude.{◌≡◌, ◌/◌, ◌%◌, [], ◌∷◌, take, IfNone, IfOk, IfSome};
ghost use Rattle.std.specs.Io.KnownBytes.{Consumes, IsAtEnd};
ghost use Rattle.input.specs.Input.{IsPrefixLen};
ghost use Rattle.streams.specs.Items.{item_of};
ghost use Rattle.streams.specs.declared.StreamError.TheVariants.{Unread};

use std::io;
use std::io::Read;

// Why no item comes next, where the stream is not over.
#[derive(Clone, Copy)]
pub enum StreamError {
    // An item is longer than the buffer, or the input ended within it.
    Broken,
    // A read failed.
    Unread(io::Error),
}

impl From<io::Error> for StreamError {
    ghost from_gives = { λ why e. e ≡ Unread why };

    fn from(why: io::Error) -> StreamError {
        StreamError::Unread(why)
    }
}

// The length of an item, which its head says.
fn length_of(head: [u8; 2]) -> usize
    ensures { head ≡ result / 256 ∷ result % 256 ∷ [] }
{
    usize::from(u16::from_be_bytes(head))
}

// Takes the next item out of the stream, and answers how many bytes of it stand at the front of the buffer; there is none where the
// stream is over.
pub fn next<R: Read>(stdin: &mut R, buf: &mut [u8]) -> Result<Option<usize>, StreamError>
    ensures within { IfOk result (λ item. IfSome item (λ n. IsPrefixLen n buf.new)) }
    ensures bytes { IfOk result (λ item. IfSome item (λ n.
        Consumes (R.remaining stdin.old) (R.remaining stdin.new) (item_of (take n buf.new)))) }
    ensures over { IfOk result (λ item. IfNone item (IsAtEnd (R.remaining stdin.new))) }
{
    let mut head = [0u8; 2];
    let got = input::read_whole(stdin, &mut head)?;
    if got == 0 {
        return Ok(None);
    }
    if got < head.len() {
        return Err(StreamError::Broken);
    }
    let len = length_of(head);
    if buf.len() < len {
        return Err(StreamError::Broken);
    }
    let body = input::read_whole(stdin, &mut buf[..len])?;
    if body < len {
        return Err(StreamError::Broken);
    }
    Ok(Some(len))
}
