// The line of a refusal, put at the front of a lent buffer or not at all.
#![tactic(auto)]

ghost use Rattle.std.specs.Prelude.{◌≡◌};
ghost use Rattle.words.specs.Buffer.{placed};
ghost use Rattle.text.specs.Write.{length_in};
ghost use Rattle.lines.specs.Lines.{line_of};
ghost use Rattle.refused.specs.Refused.{refused_line};

use lines::{Field, Line};
use refusals::Refusal;

// The lowest of the refusals that have no place in a text. By number, as document 01 has it: a match would list all cases once more.
const NO_PLACE: u64 = 20;

// The first field, with zeros behind it.
const REFUSED: [u8; Line::HEAD] = *b"refused\0\0\0\0\0";

// The line of a refusal: its number, and where it has a place line and field.
fn line(why: Refusal) -> Line
    ensures { line_of result ≡ refused_line why }
{
    let number = why.number();
    if NO_PLACE <= number {
        return Line::of(REFUSED, &[Field::Number(number)]);
    }
    let line = why.line() as u64;
    let field = why.field() as u64;
    Line::of(
        REFUSED,
        &[
            Field::Number(number),
            Field::Number(line),
            Field::Number(field),
        ],
    )
}

// Writes the line of a refusal, or nothing.
pub fn write(why: Refusal, out: &mut [u8]) -> Result<usize, Refusal>
    ensures { (result ≡ length_in (refused_line why) out.old) × (out.new ≡ placed (refused_line why) out.old) }
{
    lines::write(&line(why), out)
}
