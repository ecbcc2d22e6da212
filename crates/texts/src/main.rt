// Reads a stream of texts, and writes for each what the library makes of it: the text again, written from the table that was read, or the refusal.
// A program of its own, since it has a stored input and output of its own; what the four of them share stands in `vectors`.
#![tactic(auto)]

use replies::Kind;

fn main(rt: HostRuntime) {
    vectors::answer_all(
        &mut rt.stdin(),
        &mut rt.stdout(),
        &mut rt.stderr(),
        Kind::Text,
    );
}
