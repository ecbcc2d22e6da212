// The checking program: reads a table text from standard input, and writes its report or the line of its refusal.
#![tactic(auto)]

fn main(rt: HostRuntime) {
    let mut stderr = rt.stderr();
    // Fixed memory, as everywhere here: a buffer, and how much of it is used.
    let mut text = [0u8; replies::INPUT];
    let mut out = [0u8; replies::LONGEST];
    // Whatever fails, standard error says it, and the program ends with 0.
    let _ = match input::read_whole(&mut rt.stdin(), &mut text) {
        Ok(len) => {
            let n = replies::report_of(&text[..len], &mut out);
            output::put(&mut rt.stdout(), &mut stderr, &out[..n])
        }
        Err(_) => output::say(&mut stderr, input::UNREAD),
    };
}
