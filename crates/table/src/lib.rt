// A table of rows, by value, and its limits.
// As document 01 has it, a row keeps zeros behind its name and behind its times, and rows that are not used are all zero: so no count can disagree with what it counts.
#![tactic(auto)]

ghost use Rattle.std.specs.Prelude.{◌≡◌, map, ltb, length, take};
ghost use Rattle.words.specs.Lists.{sum, same};
ghost use Rattle.table.specs.Paper.{waits};
ghost use Rattle.table.specs.Value.{row_of, empty_row, empty_table, name_in};
ghost use Rattle.ticks.specs.Ticks.{ticks};

use ticks::Length;

#[derive(Clone, Copy)]
pub struct Row {
    pub name: [u8; Table::NAME],
    // T, the least distance between releases.
    pub period: Length,
    // D, the relative deadline.
    pub deadline: Length,
    // C1, S1, C2, S2, ..: computation times, with a suspension time between each two.
    pub times: [Length; Table::TIMES],
}

// Highest priority first. A count beside the array, and no Vec: the library has no heap, and a count that is wrong (17 in `values`) is refused by
// 20, which `well_formed` says exactly.
#[derive(Clone, Copy)]
pub struct Table {
    pub rows: [Row; Table::ROWS],
    pub len: usize,
}

impl Row {
    pub fn empty() -> Self
        ensures { result ≡ empty_row }
    {
        Row {
            name: [0; Table::NAME],
            period: Length(0),
            deadline: Length(0),
            times: [Length(0); Table::TIMES],
        }
    }

    // How many bytes the name has.
    pub fn name_len(self) -> usize
        ensures { result ≡ length (row_of self).name }
    {
        buffers::used(&self.name, 0)
    }

    // How many times the row has, C and S together.
    pub fn count(self) -> usize
        ensures { result ≡ length (row_of self).times }
    {
        buffers::used(&self.times, Length(0))
    }

    // Whether the row has a suspension.
    pub fn waits(self) -> bool
        ensures { result ≡ waits (row_of self) }
    {
        1 < self.count()
    }

    // Whether all C and S add up to more than D. Each is taken from what is left of D, so that no sum can leave 64 bits.
    pub fn too_long(self) -> bool
        ensures { result ≡ ltb self.deadline.0 (sum (map ticks self.times)) }
    {
        let mut left = self.deadline.0;
        for time in &self.times {
            if left < time.0 {
                return true;
            }
            left -= time.0;
        }
        false
    }
}

impl Table {
    pub const ROWS: usize = 16;

    pub const SEGMENTS: usize = 4;

    // The most times of a row: a C for each segment, and an S between each two.
    pub const TIMES: usize = 2 * Table::SEGMENTS - 1;

    // The most bytes of a name.
    pub const NAME: usize = 12;

    // The largest number.
    pub const NUMBER: u64 = 1_000_000;

    // The most bytes of a text.
    pub const TEXT: usize = 1_360;

    // The most ticks of a full run.
    pub const TICKS: u64 = Table::NUMBER;

    pub fn empty() -> Self
        ensures { result ≡ empty_table }
    {
        let row = Row::empty();
        Table {
            rows: [row; Table::ROWS],
            len: 0,
        }
    }
}

// Whether one of the first n rows has the name. The slice has n beside it, since the wrong version `one_row_more_sought` is about n.
pub fn named(rows: &[Row], n: usize, name: [u8; Table::NAME]) -> bool
    ensures { result ≡ name_in name (take n rows.now) }
{
    for row in &rows[..n.min(rows.len())] {
        if name == row.name {
            return true;
        }
    }
    false
}
