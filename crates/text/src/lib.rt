// The text of a table: read line by line and field by field, and written into a lent buffer.
#![tactic(auto)]

ghost use Rattle.std.specs.Prelude.{◌≡◌, ◌∷◌, suc, ◌+◌, ◌-◌, ◌≤◌, ◌<◌, length};
ghost use Rattle.words.specs.Lists.{padded};
ghost use Rattle.table.specs.Limits.{most_times, longest_name};
ghost use Rattle.table.specs.Value.{row_of, row_value};
ghost use Rattle.text.specs.Split.{lines, fields};
ghost use Rattle.text.specs.Read.{fixed_fields, right_fields, with_number, read_text, reading_of};
ghost use Rattle.lines.specs.Lines.{line_of};
ghost use Rattle.text.specs.Write.{line_text, written, written_into};
ghost use Rattle.text.specs.Parts.{row_lines};

use fields::{LINE_FEED, TAB};
use lines::{Field, Line, Lines};
use refusals::Refusal;
use table::{Row, Table};
use ticks::Length;

// The fields of a line before its times: name, T, D.
const FIXED: usize = 3;

// How many fields a line has.
fn count_fields(line: &[u8]) -> usize
    ensures { result ≡ length (fields line.now) }
{
    line.split(|b| *b == TAB).count()
}

// Whether a line may have so many fields.
fn right_fields(k: usize) -> bool
    ensures { result ≡ right_fields k }
{
    FIXED <= k && rules::right_count(k - FIXED)
}

// The name as a row keeps it, with zeros behind it.
fn name_bytes(field: &[u8]) -> [u8; Table::NAME]
    requires { length field.now ≤ longest_name }
    ensures { result ≡ padded longest_name field.now }
{
    let mut name = [0; Table::NAME];
    buffers::copy(field, &mut name);
    name
}

// The row with the number of field f: T, D, then the times one after another. f counts the fields of a line, as refusal 8 does, and is no kind.
fn with_number(mut row: Row, f: usize, n: u64) -> Row
    requires { (row ≡ row_value (row_of row)) × (2 ≤ f) × (f ≤ most_times + fixed_fields) × (length (row_of row).times ≡ f - suc fixed_fields) }
    ensures { result ≡ row_value (with_number (row_of row) f n) }
{
    match f {
        2 => row.period = Length(n),
        FIXED => row.deadline = Length(n),
        _ => row.times[f - FIXED - 1] = Length(n),
    }
    row
}

// The first line of a text, and what is behind its line feed.
fn first_line(text: &[u8]) -> (&[u8], &[u8])
    requires { 0 < length text.now }
    ensures { lines text.now ≡ result.0.now ∷ lines result.1.now }
{
    let mut parts = text.splitn(2, |b| *b == LINE_FEED);
    match (parts.next(), parts.next()) {
        (Some(line), Some(behind)) => (line, behind),
        _ => (text, &[]),
    }
}

// Reads a text: the first bad field of the first bad line ends it.
pub fn read(text: &[u8]) -> Result<Table, Refusal>
    ensures { result ≡ reading_of (read_text text.now) }
{
    // The first three refusals look at the whole text.
    let Some(last) = text.last() else {
        return Err(Refusal::NoText);
    };
    if Table::TEXT < text.len() {
        return Err(Refusal::LongText);
    }
    if *last != LINE_FEED {
        return Err(Refusal::NoLineFeed);
    }
    let mut table = Table::empty();
    // Whether the last row waits: then no line may follow.
    let mut waiting = false;
    // What is left of the text. A line is cut off it only once it may follow: one that may not is refused unread, however long it is.
    let mut rest = text;
    // A refusal leaves both loops.
    'lines: {
        for n in 0..Table::ROWS {
            if rest.is_empty() {
                break;
            }
            // Lines and fields are numbered from 1.
            let number = n + 1;
            if waiting {
                break 'lines Err(Refusal::AfterWaiting(number));
            }
            let (line, behind) = first_line(rest);
            if !right_fields(count_fields(line)) {
                break 'lines Err(Refusal::FieldCount(number));
            }
            let mut row = Row::empty();
            for (i, field) in line.split(|b| *b == TAB).enumerate() {
                let f = i + 1;
                if f == 1 {
                    if !rules::right_name(field) {
                        break 'lines Err(Refusal::BadName(number));
                    }
                    row.name = name_bytes(field);
                } else {
                    match decimal::read(field, 1, Table::NUMBER) {
                        Some(v) => row = with_number(row, f, v),
                        None => break 'lines Err(Refusal::BadNumber(number, f)),
                    }
                }
            }
            if row.period < row.deadline {
                break 'lines Err(Refusal::LateDeadline(number));
            }
            if row.too_long() {
                break 'lines Err(Refusal::LongTimes(number));
            }
            if table::named(&table.rows, n, row.name) {
                break 'lines Err(Refusal::NameTaken(number));
            }
            waiting = row.waits();
            table.rows[n] = row;
            table.len = number;
            rest = behind;
        }
        if rest.is_empty() {
            Ok(table)
        } else {
            Err(Refusal::ManyLines(Table::ROWS + 1))
        }
    }
}

// A row's line: name, T, D, and the times.
fn line(row: Row) -> Line
    ensures { line_of result ≡ line_text (row_of row) }
{
    let mut fields = [None; Line::FIELDS];
    fields[0] = Some(Field::Number(row.period.0));
    fields[1] = Some(Field::Number(row.deadline.0));
    for (i, time) in row.times[..row.count()].iter().enumerate() {
        fields[i + 2] = Some(Field::Number(time.0));
    }
    Line {
        head: row.name,
        fields,
    }
}

// The rows of a table.
#[derive(Clone, Copy)]
struct Rows<'a> {
    table: &'a Table,
}

// One line a row.
impl Lines for Rows<'_> {
    ghost lines = { λ r. row_lines r.table.now };

    // Here, in the report and in the run: `min` is all that they have in common, and a name for it would be no shorter.
    fn count(&self) -> usize {
        self.table.len.min(Table::ROWS)
    }

    fn line(&self, i: usize) -> Line {
        line(self.table.rows[i])
    }
}

// Writes a table's text at the front of out, or nothing.
pub fn write(table: Table, out: &mut [u8]) -> Result<usize, Refusal>
    ensures { (result ≡ written table out.old) × (out.new ≡ written_into table out.old) }
{
    if !rules::well_formed(table) {
        return Err(Refusal::BadTable);
    }
    lines::write(&Rows { table: &table }, out)
}
