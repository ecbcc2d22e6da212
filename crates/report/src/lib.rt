// The report of a table, and the whole answer to a text, each put at the front of a lent buffer or not at all.
#![tactic(auto)]

ghost use Rattle.std.specs.Prelude.{◌≡◌, min};
ghost use Rattle.words.specs.Buffer.{placed};
ghost use Rattle.table.specs.Limits.{most_rows};
ghost use Rattle.table.specs.Value.{row_of};
ghost use Rattle.text.specs.Write.{length_in};
ghost use Rattle.lines.specs.Lines.{field_text, line_of};
ghost use Rattle.report.specs.Report.{figure_text, verdict_word, figure_in, row_line, table_word, last_line, answer_text, reported, reported_into};
ghost use Rattle.report.specs.Parts.{report_lines};

use figures::{RowFigures, TableFigures};
use lines::{Field, Line, Lines};
use refusals::Refusal;
use table::{Row, Table};
use verdicts::{Figure, TableVerdict, Verdict};

// The most bytes of an answer to a text: 52 for each row's line, and 13 for the last.
pub const LONGEST: usize = Table::ROWS * 52 + 13;

// The figure with which a row fits. No `From`: a verdict has no figure as its value, and the word says which one is meant.
fn figure_of(verdict: Verdict) -> Figure
    ensures { result ≡ figure_in verdict }
{
    match verdict {
        Verdict::Fits(_, figure) => Some(figure),
        Verdict::Misses => None,
        Verdict::Open => None,
    }
}

// A figure as a field. This and the next two are no `From`: that would have to stand in `lines` or `verdicts`, of which neither knows the other,
// and how a verdict is written is the report's matter.
fn figure_field(figure: Figure) -> Field
    ensures { field_text result ≡ figure_text figure }
{
    Field::from(figure.map(|length| length.0))
}

// The verdict of a row as a field.
fn verdict_field(verdict: Verdict) -> Field
    ensures { field_text result ≡ verdict_word verdict }
{
    match verdict {
        Verdict::Fits(_, _) => Field::Fits,
        Verdict::Misses => Field::Misses,
        Verdict::Open => Field::Open,
    }
}

// The verdict of a table as a field. It is a function of its own: of one verdict, the other would be made by the same three arms.
fn table_field(verdict: TableVerdict) -> Field
    ensures { field_text result ≡ table_word verdict }
{
    match verdict {
        TableVerdict::Fits => Field::Fits,
        TableVerdict::Misses => Field::Misses,
        TableVerdict::Open => Field::Open,
    }
}

// A row's line.
fn row_line(row: Row, figures: RowFigures) -> Line
    ensures { line_of result ≡ row_line (row_of row) figures }
{
    let verdict = figures.verdict;
    Line::of(
        row.name,
        &[
            verdict_field(verdict),
            figure_field(figure_of(verdict)),
            figure_field(figures.whole),
            figure_field(figures.split),
            Field::Number(figures.rounds),
        ],
    )
}

// The last line.
fn last_line(verdict: TableVerdict) -> Line
    ensures { line_of result ≡ last_line verdict }
{
    Line::of(*b"table\0\0\0\0\0\0\0", &[table_field(verdict)])
}

// A report: a table, and what is said of it.
#[derive(Clone, Copy)]
struct Report<'a> {
    table: &'a Table,
    figures: &'a TableFigures,
}

impl Report<'_> {
    // How many rows it has.
    fn rows(&self) -> usize
        ensures { result ≡ min self.now.table.now.len most_rows }
    {
        self.table.len.min(Table::ROWS)
    }
}

// One line a row, and the last line. A row of which nothing is said has its name alone: a well-formed table has none.
impl Lines for Report<'_> {
    ghost lines = { λ r. report_lines r.table.now r.figures.now };

    fn count(&self) -> usize {
        self.rows() + 1
    }

    fn line(&self, i: usize) -> Line {
        if i == self.rows() {
            return last_line(self.figures.verdict);
        }
        let row = self.table.rows[i];
        // 21 stands behind the end of an array of answers.
        let answers = self.figures.rows.get(i).copied();
        let answer = answers.unwrap_or(Err(Refusal::NoSuchRow));
        match answer {
            Ok(figures) => row_line(row, figures),
            Err(_) => Line::of(row.name, &[]),
        }
    }
}

// Writes the report of a table, or nothing.
pub fn write(table: Table, out: &mut [u8]) -> Result<usize, Refusal>
    ensures { (result ≡ reported table out.old) × (out.new ≡ reported_into table out.old) }
{
    let figures = figures::table_figures(table)?;
    let report = Report {
        table: &table,
        figures: &figures,
    };
    lines::write(&report, out)
}

// Writes the whole answer to a text, that is its report or the line of its refusal, or nothing.
pub fn answer(text: &[u8], out: &mut [u8]) -> Result<usize, Refusal>
    ensures { (result ≡ length_in (answer_text text.now) out.old) × (out.new ≡ placed (answer_text text.now) out.old) }
{
    match text::read(text) {
        Ok(table) => write(table, out),
        Err(why) => refused::write(why, out),
    }
}
