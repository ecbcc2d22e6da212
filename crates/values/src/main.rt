// Table values, each right or with a single rule broken, and what the test of a table value says of them.
#![tactic(auto)]

use std::io;
use std::io::{Stderr, Stdout};
use table::{Row, Table};
use ticks::Length;

// A name as a row keeps it: zeros behind its bytes. No `buffers::copy`: that needs to know that the word is short.
fn name(word: &str) -> [u8; 12] {
    let mut kept = [0u8; 12];
    for (to, from) in kept.iter_mut().zip(word.as_bytes()) {
        *to = *from;
    }
    kept
}

// A row of one stretch.
fn row(name: [u8; 12], period: u64, deadline: u64, c: u64) -> Row {
    let mut times = [Length(0); 7];
    times[0] = Length(c);
    Row {
        name,
        period: Length(period),
        deadline: Length(deadline),
        times,
    }
}

// The same row with a suspension and a second stretch.
fn waiting(first: Row, s: u64, c: u64) -> Row {
    let mut r = first;
    r.times[1] = Length(s);
    r.times[2] = Length(c);
    r
}

// A row with the numbers of `pulse`.
fn named(word: &str) -> Row {
    row(name(word), 10, 10, 2)
}

fn pulse() -> Row {
    named("pulse")
}

fn save() -> Row {
    waiting(row(name("save"), 100, 60, 4), 20, 6)
}

// A table with one more row.
fn below(t: Table, r: Row) -> Table {
    let mut more = t;
    let n = t.len;
    if n < Table::ROWS {
        more.rows[n] = r;
        more.len = n + 1;
    }
    more
}

fn one(r: Row) -> Table {
    below(Table::empty(), r)
}

fn table_a() -> Table {
    below(below(one(pulse()), row(name("radio"), 25, 20, 5)), save())
}

// Sixteen rows with names of one byte, a to p.
fn sixteen() -> Table {
    let mut t = Table::empty();
    for letter in b'a'..=b'p' {
        let mut kept = [0u8; 12];
        kept[0] = letter;
        t = below(t, row(kept, 1_000_000, 1_000_000, 1));
    }
    t
}

// Where the lines go.
#[derive(Drop)]
struct Lines {
    stdout: Stdout,
    stderr: Stderr,
}

impl Lines {
    // Writes a part of a line.
    fn put(&mut self, part: &[u8]) -> io::Result<()> {
        output::put(&mut self.stdout, &mut self.stderr, part)
    }

    // Writes a line: what the value is, and whether it is right.
    fn say(&mut self, what: &str, t: Table) -> io::Result<()> {
        self.put(what.as_bytes())?;
        if rules::well_formed(t) {
            self.put(b"\tright\n")
        } else {
            self.put(b"\t20\n")
        }
    }

    // The number of rows, and what stands in those that are not used.
    fn counts(&mut self) -> io::Result<()> {
        self.say("no row", Table::empty())?;
        let mut t = table_a();
        for (what, len) in [
            ("three rows", 3),
            ("a third row that is not counted", 2),
            ("a fourth row that is all zero", 4),
            ("17 rows", 17),
        ] {
            t.len = len;
            self.say(what, t)?;
        }
        self.say("16 rows", sixteen())
    }

    // The bytes of a name.
    fn names(&mut self) -> io::Result<()> {
        for (what, word) in [
            ("a name of 12 bytes", "az09-a-z0-99"),
            ("a name of one hyphen", "-"),
            ("no name", ""),
            ("a capital letter", "Pulse"),
            ("a byte below 0", "pulse/"),
            ("a byte above 9", "pulse:"),
            ("a byte below a", "pulse`"),
            ("a byte above z", "{}"),
            ("a byte behind the name", "pulse\0x"),
        ] {
            self.say(what, one(named(word)))?;
        }
        for (what, word) in [
            ("a name twice", "pulse"),
            ("a name longer by one byte", "pulse1"),
        ] {
            self.say(what, below(one(pulse()), named(word)))?;
        }
        Ok(())
    }

    // T, D and the times.
    fn numbers(&mut self) -> io::Result<()> {
        let n = name("pulse");
        for (what, period, deadline, c) in [
            ("all 1", 1, 1, 1),
            ("all 1000000", 1_000_000, 1_000_000, 1_000_000),
            ("T 1000001", 1_000_001, 10, 2),
            ("T 0", 0, 10, 2),
            ("D 0", 10, 0, 2),
            ("D above T", 10, 11, 2),
            ("C 0", 10, 10, 0),
            ("C equal to D", 10, 7, 7),
            ("C above D", 10, 7, 8),
        ] {
            self.say(what, one(row(n, period, deadline, c)))?;
        }
        for (what, deadline, s) in [
            ("C and S equal to D", 30, 20),
            ("C and S above D", 29, 20),
            ("times that pass 64 bits", 30, u64::MAX),
        ] {
            self.say(what, one(waiting(row(n, 40, deadline, 4), s, 6)))?;
        }
        Ok(())
    }

    // The order of the times, and who may wait.
    fn waits(&mut self) -> io::Result<()> {
        let first = row(name("pulse"), 100, 60, 4);
        self.say("two times", one(waiting(first, 20, 0)))?;
        self.say("a time behind a zero", one(waiting(first, 0, 6)))?;
        self.say("a waiting row alone", one(save()))?;
        self.say("a waiting row above another", below(one(save()), pulse()))
    }

    fn all(&mut self) -> io::Result<()> {
        self.counts()?;
        self.names()?;
        self.numbers()?;
        self.waits()
    }
}

fn main(rt: HostRuntime) {
    let mut lines = Lines {
        stdout: rt.stdout(),
        stderr: rt.stderr(),
    };
    // Where writing fails, standard error says so, and the program ends with 0.
    let _ = lines.all();
}
