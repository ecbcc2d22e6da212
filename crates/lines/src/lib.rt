// Lines of fields, put at the front of a lent buffer: all of them, or nothing.
#![tactic(auto)]

ghost use Rattle.std.specs.Prelude.{◌≡◌, List, [], ◌∷◌, ℕ, ◌≤◌, ◌<◌, map, length, take, get_or};
ghost use Rattle.words.specs.Lists.{up_to};
ghost use Rattle.words.specs.Buffer.{over, placed, fitted};
ghost use Rattle.fields.specs.Fields.{tab, line, joined};
ghost use Rattle.lines.specs.Lines.{field_of, field_text, line_of, length_in, most_fields};

use fields::LINE_FEED;
use refusals::Refusal;

// What a field may hold: a number, or one of the words that the texts have.
#[derive(Clone, Copy)]
pub enum Field {
    Number(u64),
    Fits,
    Misses,
    Open,
    Hyphen,
}

// A line: its first field, with zeros behind it, and the others, of which those that are not there are left out. Fixed memory: no Vec.
#[derive(Clone, Copy)]
pub struct Line {
    pub head: [u8; Line::HEAD],
    pub fields: [Option<Field>; Line::FIELDS],
}

// What is written line by line.
pub trait Lines {
    // Its lines.
    ghost lines: { Self → List (List ℕ) };

    // How many there are.
    fn count(&self) -> usize
        ensures { result ≡ length (lines self.now) };

    // Line i, from 0.
    fn line(&self, i: usize) -> Line
        requires { i < length (lines self.now) }
        ensures { line_of result ≡ get_or (lines self.now) i [] };
}

// A number, or a hyphen where there is none.
impl From<Option<u64>> for Field {
    ghost from_gives = { λ n f. f ≡ field_of n };

    fn from(n: Option<u64>) -> Field {
        match n {
            Some(n) => Field::Number(n),
            None => Field::Hyphen,
        }
    }
}

impl Field {
    // How many bytes a field has.
    fn len(self) -> usize
        ensures exact { result ≡ length (field_text self) }
        ensures short { result ≤ 20 }
    {
        match self {
            Field::Number(n) => decimal::width(n),
            Field::Fits => 4,
            Field::Misses => 6,
            Field::Open => 4,
            Field::Hyphen => 1,
        }
    }

    // A tab and a field.
    fn write(self, out: &mut [u8]) -> usize
        ensures { (result ≡ fitted (tab ∷ field_text self) out.old) × (out.new ≡ placed (tab ∷ field_text self) out.old) }
    {
        match self {
            Field::Number(n) => fields::write_number(n, out),
            Field::Fits => fields::write_word(b"fits", out),
            Field::Misses => fields::write_word(b"misses", out),
            Field::Open => fields::write_word(b"open", out),
            Field::Hyphen => fields::write_word(b"-", out),
        }
    }
}

impl Line {
    // The most bytes of a line's first field.
    pub const HEAD: usize = 12;

    // The most fields behind it.
    pub const FIELDS: usize = 9;

    // The line with that first field and those behind it, as many as a line may have.
    pub fn of(head: [u8; Line::HEAD], fields: &[Field]) -> Line
        ensures { line_of result ≡ line (up_to 0 head) (map field_text (take most_fields fields.now)) }
    {
        // An index, since two slices are walked at once: `zip` would say it no plainer.
        let mut behind = [None; Line::FIELDS];
        for i in 0..Line::FIELDS.min(fields.len()) {
            behind[i] = Some(fields[i]);
        }
        Line {
            head,
            fields: behind,
        }
    }

    // How many bytes a line has.
    fn len(self) -> usize
        ensures { result ≡ length (line_of self) }
    {
        let mut len = buffers::used(&self.head, 0);
        // `if let` here and in `write`: `flatten` hides which field it is at, and the proofs go by that.
        for field in &self.fields {
            if let Some(f) = field {
                len += 1 + f.len();
            }
        }
        len + 1
    }

    // Writes a line.
    fn write(self, out: &mut [u8]) -> usize
        requires { length (line_of self) ≤ length out.old }
        ensures { (result ≡ length (line_of self)) × (out.new ≡ over (line_of self) out.old) }
    {
        let len = buffers::used(&self.head, 0);
        let mut at = buffers::copy(&self.head[..len], out);
        for field in &self.fields {
            if let Some(f) = field {
                at += f.write(&mut out[at..]);
            }
        }
        out[at] = LINE_FEED;
        at + 1
    }
}

// One line by itself.
impl Lines for Line {
    ghost lines = { λ l. line_of l ∷ [] };

    fn count(&self) -> usize {
        1
    }

    fn line(&self, i: usize) -> Line {
        *self
    }
}

// Writes all lines at the front of out and answers their length, or 22, and out stays as it was: the whole length is known before
// the first byte is written.
pub fn write<L: Lines>(lines: &L, out: &mut [u8]) -> Result<usize, Refusal>
    ensures { (result ≡ length_in (joined (L.lines lines.now)) out.old) × (out.new ≡ placed (joined (L.lines lines.now)) out.old) }
{
    let count = lines.count();
    let mut left = out.len();
    for i in 0..count {
        let len = lines.line(i).len();
        if left < len {
            return Err(Refusal::NoRoom);
        }
        left -= len;
    }
    let mut at: usize = 0;
    for k in 0..count {
        at += lines.line(k).write(&mut out[at..]);
    }
    Ok(at)
}
