// Decimal numbers in bytes: read from a part of a slice, and written into a lent buffer.
#![tactic(auto)]

ghost use Rattle.std.specs.Prelude.{◌≡◌, ◌≤◌, length, drop};
ghost use Rattle.words.specs.Buffer.{placed, fitted};
ghost use Rattle.decimal.specs.Decimal.{digits, read_number};

// Reads all of the bytes as a number from lo to hi.
pub fn read(bytes: &[u8], lo: u64, hi: u64) -> Option<u64>
    ensures { result ≡ read_number lo hi bytes.now }
{
    if bytes.is_empty() {
        return None;
    }
    if 1 < bytes.len() && bytes[0] == b'0' {
        return None;
    }
    let mut v: u64 = 0;
    for b in bytes {
        if !b.is_ascii_digit() {
            return None;
        }
        // A sum that would leave 64 bits is above any hi. The number so far is held to hi, so that the digits that follow cannot matter.
        v = v.checked_mul(10)?.checked_add(u64::from(*b - b'0'))?;
        if hi < v {
            return None;
        }
    }
    if v < lo {
        return None;
    }
    Some(v)
}

// How many digits n has. Most numbers of a text have few, and a number of one digit needs no logarithm; 0 has none.
pub fn width(n: u64) -> usize
    ensures { result ≡ length (digits n) }
{
    if n < 10 {
        return 1;
    }
    n.ilog10() as usize + 1
}

// Writes the digits of n at the front of out and answers how many there are; where out is too short for all of them, 0, and out stays as it was.
// A count and no Option: callers add it to their place in the buffer, which an Option would not make plainer.
pub fn write(n: u64, out: &mut [u8]) -> usize
    ensures { (result ≡ fitted (digits n) out.old) × (out.new ≡ placed (digits n) out.old) }
{
    let len = width(n);
    if out.len() < len {
        return 0;
    }
    let mut rest = n;
    for i in (0..len).rev() {
        out[i] = b'0' + (rest % 10) as u8;
        rest /= 10;
    }
    len
}
