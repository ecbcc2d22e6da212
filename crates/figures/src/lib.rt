// The figures of a row and of a table: the recurrence with its rounds, whole, split and the verdicts.
#![tactic(auto)]

ghost use Rattle.std.specs.Prelude.{◌≡◌, ℕ, ◌-◌, ◌*◌, ◌<◌, ◌≤◌, length, get_or};
ghost use Rattle.table.specs.Limits.{most_rows, most_times};
ghost use Rattle.table.specs.Paper.{parts, work};
ghost use Rattle.table.specs.Value.{row_of, no_value};
ghost use Rattle.recurrence.specs.Figures.{own};
ghost use Rattle.figures.specs.Answers.{figures_of, row_answer, table_figures};
ghost use Rattle.figures.specs.Count.{safe_number};
ghost use Rattle.figures.specs.Work.{worked_of, split_worked, rows_from, right_below, rows_of, Counted, CountedAt, Loaded, Kept};

mod load;

use load::Load;
use refusals::Refusal;
use table::{Row, Table};
use ticks::Length;
use verdicts::{Figure, TableVerdict, Verdict};

// The figures of a row.
#[derive(Clone, Copy)]
pub struct RowFigures {
    pub verdict: Verdict,
    pub whole: Figure,
    pub split: Figure,
    pub rounds: u64,
}

// The figures of a whole table: its verdict, and the answer about each row; 21 behind the last row (fixed memory, so no Vec).
#[derive(Clone, Copy)]
pub struct TableFigures {
    pub verdict: TableVerdict,
    pub rows: [Result<RowFigures, Refusal>; Table::ROWS],
}

// What a recurrence came to, and how often its right side was worked out.
#[derive(Clone, Copy)]
struct Worked {
    figure: Figure,
    rounds: u64,
}

// That a row is kept stays a clause: the rows are lent as they stand in the table, and a type that says so of each would take a second copy of
// them.

// All C of a row: every other of its times. `step_by` was tried here, and the proof did not close.
fn work_of(row: &Row) -> u64
    requires { Kept row.now }
    ensures { result ≡ work (parts (row_of row.now).times) }
{
    let mut sum: u64 = 0;
    for (j, time) in row.times.iter().enumerate() {
        if j % 2 == 0 {
            sum += time.0;
        }
    }
    sum
}

// All C and S of a row.
fn own_of(row: &Row) -> u64
    requires { Kept row.now }
    ensures { result ≡ own (row_of row.now) }
{
    row.times.iter().map(|time| time.0).sum()
}

// The loads of rows, and others behind them that ask for nothing (fixed memory, so no Vec).
fn loads_of(rows: &[Row]) -> [Load; Table::ROWS]
    requires { (length rows.now ≤ most_rows) × ((i : ℕ) → i < length rows.now → Kept (get_or rows.now i no_value)) }
    ensures { Loaded rows.now result }
{
    let mut loads = [Load::NONE; Table::ROWS];
    for (i, row) in rows.iter().enumerate() {
        loads[i] = Load {
            period: row.period.0,
            work: work_of(row),
            until: 0,
        };
    }
    loads
}

// That the rows above are few stays a clause: a type that says so would be an array with a length beside it in place of a slice.

// What the right side of a recurrence comes to at t, where t is what it came to before, or what the recurrence starts from: as t only
// rises, each row above is counted on from the instant up to which its count holds, and what comes in is added to t. The c that the
// recurrence started from is part of t, so the code needs none, and the contract holds at each.
fn right_at(above: &mut [Load], t: u64) -> u64
    requires { (length above.old ≤ most_rows) × (t ≤ safe_number) × ((c : ℕ) × (c ≤ t) × Counted above.old t (t - c)) }
    ensures counted { (c : ℕ) → c ≤ t → Counted above.old t (t - c) → (c ≤ result) × CountedAt above.new t (result - c) }
    ensures same { rows_from above.new ≡ rows_from above.old }
{
    let mut next = t;
    for load in above.iter_mut() {
        next += load.count_on(t);
    }
    next
}

// The recurrence from c up to d, below the rows above.
fn solve(above: &mut [Load], c: u64, d: u64) -> Worked
    requires { (length above.old ≤ most_rows) × (1 ≤ c) × (c ≤ d) × (d ≤ safe_number) }
    ensures worked { result ≡ worked_of (right_below above.old c) d c }
    ensures same { rows_from above.new ≡ rows_from above.old }
{
    for load in above.iter_mut() {
        load.until = 0;
    }
    let mut t = c;
    let mut rounds: u64 = 0;
    loop {
        rounds += 1;
        let next = right_at(above, t);
        if next == t {
            return Worked {
                figure: Some(Length(t)),
                rounds,
            };
        }
        if d < next {
            return Worked {
                figure: None,
                rounds,
            };
        }
        t = next;
    }
}

// The recurrence for each C by itself, and the sum of the results and all S: the two take turns, so that `step_by` would need two loops.
fn split_of(above: &mut [Load], row: &Row) -> Worked
    requires { (length above.old ≤ most_rows) × Kept row.now }
    ensures split { result ≡ split_worked above.old (row_of row.now) }
    ensures few { result.rounds ≤ most_times * safe_number }
{
    let mut sum: u64 = 0;
    let mut rounds: u64 = 0;
    for (j, time) in row.times[..row.count()].iter().enumerate() {
        if j % 2 == 1 {
            sum += time.0;
            continue;
        }
        let worked = solve(above, time.0, row.deadline.0);
        rounds += worked.rounds;
        let Some(figure) = worked.figure else {
            return Worked {
                figure: None,
                rounds,
            };
        };
        sum += figure.0;
    }
    Worked {
        figure: Some(Length(sum)),
        rounds,
    }
}

// The figures of row k, from 0, of right rows.
fn figures_at(rows: &[Row; Table::ROWS], k: usize) -> RowFigures
    requires { (k < most_rows) × ((i : ℕ) → i ≤ k → Kept (get_or rows.now i no_value)) }
    ensures { result ≡ figures_of (rows_of rows.now) k }
{
    let row = &rows[k];
    let mut loads = loads_of(&rows[..k]);
    let above = &mut loads[..k];
    let whole = solve(above, own_of(row), row.deadline.0);
    if !row.waits() {
        return RowFigures {
            verdict: verdicts::of_one_stretch(whole.figure),
            whole: whole.figure,
            split: None,
            rounds: whole.rounds,
        };
    }
    let parted = split_of(above, row);
    let split = verdicts::at_most(row.deadline, parted.figure);
    RowFigures {
        verdict: verdicts::of_waiting(whole.figure, split),
        whole: whole.figure,
        split,
        rounds: whole.rounds + parted.rounds,
    }
}

// The figures of the row with that number, from 1.
pub fn row_figures(t: Table, number: usize) -> Result<RowFigures, Refusal>
    ensures { result ≡ row_answer t number }
{
    if !rules::well_formed(t) {
        Err(Refusal::BadTable)
    } else if number < 1 || t.len < number {
        Err(Refusal::NoSuchRow)
    } else {
        Ok(figures_at(&t.rows, number - 1))
    }
}

// The figures of every row, and the table's verdict.
pub fn table_figures(t: Table) -> Result<TableFigures, Refusal>
    ensures { result ≡ table_figures t }
{
    if !rules::well_formed(t) {
        return Err(Refusal::BadTable);
    }
    let mut verdict = Ok(TableVerdict::Fits);
    let mut answers = [Err(Refusal::NoSuchRow); Table::ROWS];
    for k in 0..t.len {
        let figures = figures_at(&t.rows, k);
        verdict = verdicts::joined(verdict, figures.verdict);
        answers[k] = Ok(figures);
    }
    Ok(TableFigures {
        verdict: verdict?,
        rows: answers,
    })
}
