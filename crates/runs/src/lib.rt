// The full run in text, put at the front of a lent buffer or not at all.
#![tactic(auto)]

ghost use Rattle.std.specs.Prelude.{◌≡◌};
ghost use Rattle.text.specs.Read.{read_text};
ghost use Rattle.runs.specs.Runs.{ran_in, ran_into};
ghost use Rattle.lines.specs.Lines.{field_text};
ghost use Rattle.runs.specs.Parts.{first_text, run_lines};

use lines::{Field, Line, Lines};
use refusals::Refusal;
use table::Table;
use ticks::Instant;

// The most bytes of a run's text: 21 for each row's line.
pub const LONGEST: usize = Table::ROWS * 21;

// A completion as a field.
fn first_field(first: Option<Instant>) -> Field
    ensures { field_text result ≡ first_text first }
{
    Field::from(first.map(|instant| instant.0))
}

// A run: its table, and what the machine noted of each row.
#[derive(Clone, Copy)]
struct Run<'a> {
    table: &'a Table,
    firsts: &'a [Option<Instant>; Table::ROWS],
}

// One line a row: its name, and the completion of its first job.
impl Lines for Run<'_> {
    ghost lines = { λ r. run_lines r.table.now r.firsts.now };

    fn count(&self) -> usize {
        self.table.len.min(Table::ROWS)
    }

    fn line(&self, i: usize) -> Line {
        Line::of(self.table.rows[i].name, &[first_field(self.firsts[i])])
    }
}

// Writes the full run of a text, or nothing: the text's refusal, then 23, then 22.
pub fn answer(text: &[u8], ticks: u64, out: &mut [u8]) -> Result<usize, Refusal>
    ensures { (result ≡ ran_in (read_text text.now) ticks out.old)
        × (out.new ≡ ran_into (read_text text.now) ticks out.old) }
{
    let table = text::read(text)?;
    let firsts = machine::full_run(table, ticks)?;
    let run = Run {
        table: &table,
        firsts: &firsts,
    };
    lines::write(&run, out)
}
