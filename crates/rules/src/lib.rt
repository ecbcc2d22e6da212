// The rules of a table, tested in code: of a name, of a count of times, and of a whole table value.
#![tactic(auto)]

ghost use Rattle.std.specs.Prelude.{◌≡◌, []};
ghost use Rattle.std.specs.List.{list_all};
ghost use Rattle.words.specs.Choice.{◌and◌};
ghost use Rattle.table.specs.Paper.{name_byte, right_name, right_number, right_count};
ghost use Rattle.table.specs.Value.{well_formed};
ghost use Rattle.rules.specs.Tests.{right_value, unused, rows_test};

use table::{Row, Table};
use ticks::Length;

fn name_byte(b: u8) -> bool
    ensures { result ≡ name_byte b }
{
    b.is_ascii_lowercase() || b.is_ascii_digit() || b == b'-'
}

fn name_bytes(bytes: &[u8]) -> bool
    ensures { result ≡ list_all name_byte bytes.now }
{
    bytes.iter().all(|b| name_byte(*b))
}

// Whether the bytes are a name.
pub fn right_name(bytes: &[u8]) -> bool
    ensures { result ≡ right_name bytes.now }
{
    if bytes.len() < 1 {
        return false;
    }
    if Table::NAME < bytes.len() {
        return false;
    }
    name_bytes(bytes)
}

fn right_number(x: Length) -> bool
    ensures { result ≡ right_number x.0 }
{
    if x.0 < 1 {
        return false;
    }
    x.0 <= Table::NUMBER
}

fn right_times(times: &[Length]) -> bool
    ensures { result ≡ list_all (λ time. right_number time.0) times.now }
{
    times.iter().all(|time| right_number(*time))
}

// Two tests at once, with no branch for a proof to follow.
fn both(a: bool, b: bool) -> bool
    ensures { result ≡ (a and b) }
{
    if a { b } else { false }
}

// Whether a row may have so many times: a C for each segment, and an S between each two.
pub fn right_count(n: usize) -> bool
    ensures { result ≡ right_count n }
{
    both(n % 2 == 1, n <= Table::TIMES)
}

// Whether a row in use keeps its own rules; the tests stand in the order of the rules from the last line up.
fn right_row(row: Row) -> bool
    ensures { result ≡ right_value row }
{
    let name = row.name;
    let times = row.times;
    let len = row.name_len();
    let count = row.count();
    let lengths = both(row.deadline <= row.period, !row.too_long());
    let timed = both(
        right_count(count),
        both(right_times(&times[..count]), lengths),
    );
    let numbers = both(
        right_number(row.period),
        both(right_number(row.deadline), timed),
    );
    let right = both(right_name(&name[..len]), numbers);
    both(
        buffers::unused(&name[len..], 0),
        both(buffers::unused(&times[count..], Length(0)), right),
    )
}

// Whether a row that is not in use is all zero.
fn unused_row(row: Row) -> bool
    ensures { result ≡ unused row }
{
    let name = row.name;
    let times = row.times;
    let numbers = both(
        row.period.0 == 0,
        both(row.deadline.0 == 0, buffers::unused(&times, Length(0))),
    );
    both(buffers::unused(&name, 0), numbers)
}

// Whether the rows in use are right, each after those above it.
fn rows_right(rows: &[Row]) -> bool
    ensures { result ≡ rows_test [] rows.now }
{
    let mut waiting = false;
    for (i, row) in rows.iter().enumerate() {
        if waiting {
            return false;
        }
        if !right_row(*row) {
            return false;
        }
        if table::named(rows, i, row.name) {
            return false;
        }
        waiting = row.waits();
    }
    true
}

// Whether rows that are not in use are all zero.
fn all_unused(rows: &[Row]) -> bool
    ensures { result ≡ list_all unused rows.now }
{
    rows.iter().all(|row| unused_row(*row))
}

// Whether a table value keeps every rule: the test behind refusal 20.
pub fn well_formed(table: Table) -> bool
    ensures { result ≡ well_formed table }
{
    let rows = table.rows;
    let len = table.len;
    let none = len < 1;
    if none {
        return false;
    }
    if Table::ROWS < len {
        return false;
    }
    if !rows_right(&rows[..len]) {
        return false;
    }
    all_unused(&rows[len..])
}
