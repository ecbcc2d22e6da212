// Runs full runs, chosen by hand and drawn, against the second program's stored answers. An item of the stream is the number of
// ticks in four bytes, the highest first, and then a text.
// A program of its own, since it has a stored input and output of its own; what the four of them share stands in `vectors`.
#![tactic(auto)]

use replies::Kind;

fn main(rt: HostRuntime) {
    vectors::answer_all(
        &mut rt.stdin(),
        &mut rt.stdout(),
        &mut rt.stderr(),
        Kind::Run,
    );
}
