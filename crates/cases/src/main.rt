// Runs the worked cases of document 01, and some forty tables on both sides of each line, against their stored answers.
// A program of its own, since it has a stored input and output of its own; what the four of them share stands in `vectors`.
#![tactic(auto)]

use replies::Kind;

fn main(rt: HostRuntime) {
    vectors::answer_all(
        &mut rt.stdin(),
        &mut rt.stdout(),
        &mut rt.stderr(),
        Kind::Report,
    );
}
