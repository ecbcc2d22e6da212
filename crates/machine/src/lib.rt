// The kernel's machine, and the full run.
#![tactic(auto)]

ghost use Rattle.std.specs.Prelude.{◌≡◌, ◌+◌, ◌≤◌, length};
ghost use Rattle.ticks.specs.Ticks.{most, instant};
ghost use Rattle.table.specs.Limits.{most_rows};
ghost use Rattle.machine.specs.Run.{full_run};
ghost use Rattle.machine.specs.Tick.{time_at, cell_of, ended_of, served_of, highest, tick_of, start_of};
ghost use Rattle.machine.specs.Noted.{noted_of, firsts_after};
ghost use Rattle.machine.specs.Safe.{Fits, Safe, SafeRun};

use refusals::Refusal;
use table::{Row, Table};
use ticks::{Instant, Length};

// The time at a place of a row, C1 at 0; 0 behind the last. No Option: a row has zeros behind its times, so that a 0 would tell the last stretch all the same.
fn time_at(row: &Row, place: usize) -> Length
    ensures { result.0 ≡ time_at row.now place }
{
    row.times.get(place).copied().unwrap_or(Length(0))
}

// Of a row the oldest job that is not complete, or the next one to come. Late jobs behind it need no place: each is due a period after the one before it.
#[derive(Clone, Copy)]
struct Cell {
    release: Instant,
    // From this instant on the job's stretch is ready: its release, or the end of the suspension before the stretch.
    ready: Instant,
    // The stretch's place among the row's times: 0, 2, 4, 6.
    place: usize,
    // What is left of the stretch, never 0.
    left: Length,
}

impl Cell {
    // A job of the row of which nothing is done.
    fn new(release: Instant, row: &Row) -> Self
        ensures { result ≡ cell_of release row.now }
    {
        Cell {
            release,
            ready: release,
            place: 0,
            left: time_at(row, 0),
        }
    }

    // The stretch has ended at the instant `end`.
    fn ended(self, end: Instant, row: &Row) -> Self
        requires { Fits end row.now self }
        ensures { result ≡ ended_of end row.now self }
    {
        let left = time_at(row, self.place + 2);
        if left.0 == 0 {
            return Cell::new(self.release.plus(row.period), row);
        }
        let wait = time_at(row, self.place + 1);
        Cell {
            ready: end.plus(wait),
            place: self.place + 2,
            left,
            ..self
        }
    }

    // The row runs for the tick that begins at the instant `from`.
    fn served(self, from: Instant, row: &Row) -> Self
        requires { (from.0 + 1 ≤ most) × Fits (instant (from.0 + 1)) row.now self }
        ensures { result ≡ served_of from row.now self }
    {
        if 1 < self.left.0 {
            return Cell {
                left: Length(self.left.0 - 1),
                ..self
            };
        }
        self.ended(from.plus(Length(1)), row)
    }
}

// The highest of the rows whose stretch is ready at the instant `now`.
fn highest(cells: &[Cell], now: Instant) -> Option<usize>
    ensures { result ≡ highest now cells.now }
{
    cells.iter().position(|cell| cell.ready <= now)
}

// The state between two ticks. What never changes stands in the rows and is lent to each tick, so that the state, which is handed on in each tick, stays small.
#[derive(Drop)]
struct Machine {
    now: Instant,
    // The row that ran in the last tick.
    ran: Option<usize>,
    // Fixed memory: one for each row, and behind them others that no tick looks at.
    cells: [Cell; Table::ROWS],
}

impl Machine {
    // Before the first tick.
    fn start(rows: &[Row]) -> Self
        requires { length rows.now ≤ most_rows }
        ensures { result ≡ start_of rows.now }
    {
        let mut cells = [Cell::new(Instant(0), &Row::empty()); Table::ROWS];
        for (i, row) in rows.iter().enumerate() {
            cells[i] = Cell::new(Instant(0), row);
        }
        Machine {
            now: Instant(0),
            ran: None,
            cells,
        }
    }

    // The state after the tick that begins now: of the rows the highest that is ready runs.
    fn tick(mut self, rows: &[Row]) -> Self
        requires { Safe self rows.now }
        ensures { result ≡ tick_of self rows.now }
    {
        let from = self.now;
        self.ran = highest(&self.cells[..rows.len()], from);
        if let Some(i) = self.ran {
            self.cells[i] = self.cells[i].served(from, &rows[i]);
        }
        self.now = from.plus(Length(1));
        self
    }
}

// What is noted of a row's first job at the end of a tick, where `first` was noted before.
fn noted(cell: Cell, first: Option<Instant>, end: Instant) -> Option<Instant>
    ensures { result ≡ noted_of cell first end }
{
    if cell.release.0 == 0 {
        return first;
    }
    first.or(Some(end))
}

// What is noted in a run of the rows, tick by tick. It stands beside the state, which it would make half as large again.
#[tactic(auto, using(crate::proofs::Laws::ran_below))]
fn firsts_of(rows: &[Row], ticks: u64) -> [Option<Instant>; Table::ROWS]
    requires { SafeRun rows.now ticks }
    ensures { result ≡ firsts_after rows.now ticks }
{
    let mut m = Machine::start(rows);
    let mut firsts = [None; Table::ROWS];
    for _ in 0..ticks {
        m = m.tick(rows);
        if let Some(i) = m.ran {
            firsts[i] = noted(m.cells[i], firsts[i], m.now);
        }
    }
    firsts
}

// For each row the completion of its first job within the given ticks, if it is complete by then; none behind the last row (fixed memory, so no Vec).
#[tactic(auto, using(crate::proofs::Completions::run_steps), unfolding(crate::specs::Run::full_run))]
pub fn full_run(t: Table, ticks: u64) -> Result<[Option<Instant>; Table::ROWS], Refusal>
    ensures { result ≡ full_run t ticks }
{
    if !rules::well_formed(t) {
        return Err(Refusal::BadTable);
    }
    if Table::TICKS < ticks {
        return Err(Refusal::ManyTicks);
    }
    Ok(firsts_of(&t.rows[..t.len], ticks))
}
