// The boundary for the box's firmware and for other programs: two functions over bytes and numbers, which musselpath_c gives to C.
#![tactic(auto)]

ghost use Rattle.std.specs.Prelude.{◌≡◌, true, ◌≤◌, length};
ghost use Rattle.words.specs.Buffer.{over, placed, fitted};
ghost use Rattle.refusals.specs.Refusals.{line_of, field_of};
ghost use Rattle.table.specs.Value.{table_of, well_formed};
ghost use Rattle.text.specs.Read.{accepted, read_text};
ghost use Rattle.report.specs.Report.{answer_text};
ghost use Rattle.musselpath.specs.Boundary.{shift, packed, left_for, run_answered, run_left};
ghost use Rattle.musselpath.specs.Parts.{first_number, numbers_of, ran};

use refusals::Refusal;
use table::Table;
use ticks::Instant;

// 2 to the 16th: so many times the line stands in an answer, and so many times that the field.
const SHIFT: u64 = 65_536;

// Puts the report of a text or the line of its refusal at the front of out, and answers how many bytes it has; 0, and out is unchanged, where out is too short.
// 0 is what the C interface has for 22.
pub fn musselpath_report(text: &[u8], out: &mut [u8]) -> u64
    ensures { (result ≡ fitted (answer_text text.now) out.old) × (out.new ≡ placed (answer_text text.now) out.old) }
{
    match report::answer(text, out) {
        Ok(len) => len as u64,
        Err(_) => 0,
    }
}

// A refusal in one number, for the C interface: its number, its line shifted once, its field shifted twice.
fn pack(why: Refusal) -> u64
    requires { (line_of why ≤ shift) × (field_of why ≤ shift) }
    ensures { result ≡ packed why }
{
    why.number() + SHIFT * (why.line() as u64) + SHIFT * SHIFT * (why.field() as u64)
}

// A completion, as a number: the C interface has the largest one for a job that is not complete.
fn first_number(first: Option<Instant>) -> u64
    ensures { result ≡ first_number first }
{
    match first {
        Some(instant) => instant.0,
        None => u64::MAX,
    }
}

// Completions, as numbers at the front of out.
fn put_instants(firsts: &[Option<Instant>], out: &mut [u64])
    requires { length firsts.now ≤ length out.old }
    ensures { out.new ≡ over (numbers_of firsts.now) out.old }
{
    for (i, first) in firsts.iter().enumerate() {
        out[i] = first_number(*first);
    }
}

// The run of a well-formed table: 23, then 22, else its instants. It stays a call of its own, so that its stack and that of reading are not needed at once.
#[inline(never)]
fn run(table: Table, ticks: u64, out: &mut [u64]) -> Result<(), Refusal>
    requires { well_formed table ≡ true }
    ensures { (result ≡ ran (accepted (table_of table)) ticks out.old) × (out.new ≡ left_for (accepted (table_of table)) ticks out.old) }
{
    if Table::TICKS < ticks {
        return Err(Refusal::ManyTicks);
    }
    if out.len() < table.len {
        return Err(Refusal::NoRoom);
    }
    let firsts = machine::full_run(table, ticks)?;
    put_instants(&firsts[..table.len], out);
    Ok(())
}

// The run of a text: its refusal, then 23, then 22.
fn run_text(text: &[u8], ticks: u64, out: &mut [u64]) -> Result<(), Refusal>
    ensures { (result ≡ ran (read_text text.now) ticks out.old) × (out.new ≡ left_for (read_text text.now) ticks out.old) }
{
    let table = text::read(text)?;
    run(table, ticks, out)
}

// Puts the completion instants of the full run at the front of out, one for each row, and answers 0; or the refusal with its place, and out is unchanged.
// One number, as that is what the C interface hands out.
pub fn musselpath_full_run(text: &[u8], ticks: u64, out: &mut [u64]) -> u64
    ensures { (result ≡ run_answered text.now ticks out.old) × (out.new ≡ run_left text.now ticks out.old) }
{
    match run_text(text, ticks, out) {
        Ok(()) => 0,
        Err(why) => pack(why),
    }
}
