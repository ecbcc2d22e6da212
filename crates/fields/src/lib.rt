// Fields in a lent buffer. Each is written with the tab that parts it from the field before it, whole or not at all.
// The answers are counts and no Option, as `decimal::write` has it: a line's writer adds them up.
#![tactic(auto)]

ghost use Rattle.std.specs.Prelude.{◌≡◌, ◌∷◌};
ghost use Rattle.words.specs.Buffer.{placed, fitted};
ghost use Rattle.decimal.specs.Decimal.{digits};
ghost use Rattle.fields.specs.Fields.{tab};

// The byte between two fields.
pub const TAB: u8 = 9;

// The byte that ends a line.
pub const LINE_FEED: u8 = 10;

// A tab and a word: how many bytes were written.
pub fn write_word(word: &[u8], out: &mut [u8]) -> usize
    ensures { (result ≡ fitted (tab ∷ word.now) out.old) × (out.new ≡ placed (tab ∷ word.now) out.old) }
{
    if out.len() <= word.len() {
        return 0;
    }
    out[0] = TAB;
    1 + buffers::copy(word, &mut out[1..])
}

// A tab and a number: how many bytes were written.
pub fn write_number(n: u64, out: &mut [u8]) -> usize
    ensures { (result ≡ fitted (tab ∷ digits n) out.old) × (out.new ≡ placed (tab ∷ digits n) out.old) }
{
    if out.len() <= decimal::width(n) {
        return 0;
    }
    out[0] = TAB;
    1 + decimal::write(n, &mut out[1..])
}
