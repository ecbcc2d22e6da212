// What the programs answer, put at the front of a buffer in which every answer has room.
#![tactic(auto)]

ghost use Rattle.std.specs.Prelude.{option_map, IfSome, ◌≡◌, true, ◌≤◌, ◌<◌, length};
ghost use Rattle.words.specs.Buffer.{over};
ghost use Rattle.table.specs.Value.{table_of, well_formed};
ghost use Rattle.text.specs.Write.{table_text};
ghost use Rattle.refused.specs.Refused.{refused_line};
ghost use Rattle.report.specs.Report.{answer_text};
ghost use Rattle.replies.specs.Replies.{run_answer, text_answer, ticks_in, item_answer, reply_to, left_by, Front};

use refusals::Refusal;
use table::Table;

// The most bytes of an answer: no report and no run is as long as a text may be.
pub const LONGEST: usize = Table::TEXT;

// The most bytes that a program reads of a text: one more than a text may have, so that a text that is too long can be told.
pub const INPUT: usize = Table::TEXT + 1;

// The bytes of an item before its text, where it has a number of ticks.
const TICKS: usize = 4;

// What is to be made of an item of a stream.
#[derive(Clone, Copy)]
pub enum Kind {
    // Its report.
    Report,
    // The text again, written from its table.
    Text,
    // Its full run: the number of ticks stands before the text.
    Run,
}

// The line of a refusal. Here and in the next two the buffer has room, so that the 0 behind `unwrap_or` is never answered.
fn line_of(why: Refusal, out: &mut [u8]) -> usize
    requires { length (refused_line why) ≤ length out.old }
    ensures { (result ≡ length (refused_line why)) × (out.new ≡ over (refused_line why) out.old) }
{
    refused::write(why, out).unwrap_or(0)
}

// The text of a well-formed table.
fn table_text(table: Table, out: &mut [u8]) -> usize
    requires { (well_formed table ≡ true) × (length (table_text (table_of table)) ≤ length out.old) }
    ensures { (result ≡ length (table_text (table_of table))) × (out.new ≡ over (table_text (table_of table)) out.old) }
{
    text::write(table, out).unwrap_or(0)
}

// The report of a text, or the line of its refusal.
pub fn report_of(text: &[u8], out: &mut [u8; LONGEST]) -> usize
    ensures value { (result ≡ length (answer_text text.now)) × (out.new ≡ over (answer_text text.now) out.old) }
    ensures front { Front result out.new }
{
    report::answer(text, out).unwrap_or(0)
}

// The full run of a text, or the line of a refusal.
pub fn run_of(text: &[u8], ticks: u64, out: &mut [u8; LONGEST]) -> usize
    ensures value { (result ≡ length (run_answer text.now ticks)) × (out.new ≡ over (run_answer text.now ticks) out.old) }
    ensures front { Front result out.new }
{
    match runs::answer(text, ticks, out) {
        Ok(run_len) => run_len,
        Err(why) => line_of(why, out),
    }
}

// The text again, written from the table that was read, or the line of its refusal.
pub fn text_of(text: &[u8], out: &mut [u8; LONGEST]) -> usize
    ensures value { (result ≡ length (text_answer text.now)) × (out.new ≡ over (text_answer text.now) out.old) }
    ensures front { Front result out.new }
{
    match text::read(text) {
        Ok(table) => table_text(table, out),
        Err(refusal) => line_of(refusal, out),
    }
}

// The number of ticks at the front of an item.
fn ticks_of(item: &[u8]) -> u64
    requires { 4 ≤ length item.now }
    ensures { result ≡ ticks_in item.now }
{
    u64::from(u32::from_be_bytes([item[0], item[1], item[2], item[3]]))
}

// The full run of an item of ticks and a text; none where the item has no room for the ticks.
fn item_run(item: &[u8], out: &mut [u8; LONGEST]) -> Option<usize>
    ensures value { (result ≡ option_map length (item_answer item.now)) × (out.new ≡ left_by (item_answer item.now) out.old) }
    ensures front { IfSome result (λ n. Front n out.new) }
{
    if item.len() < TICKS {
        return None;
    }
    let ticks = ticks_of(item);
    Some(run_of(&item[TICKS..], ticks, out))
}

// The answer to an item of a stream; none to one that has none.
pub fn reply(kind: Kind, item: &[u8], out: &mut [u8; LONGEST]) -> Option<usize>
    ensures value { (result ≡ option_map length (reply_to kind item.now)) × (out.new ≡ left_by (reply_to kind item.now) out.old) }
    ensures front { IfSome result (λ n. Front n out.new) }
{
    // A switch and no closure: `reply_to`, which says what is answered, goes by the kinds, and so does the wrong version `meaning_text_for_report`.
    match kind {
        Kind::Report => Some(report_of(item, out)),
        Kind::Text => Some(text_of(item, out)),
        Kind::Run => item_run(item, out),
    }
}
