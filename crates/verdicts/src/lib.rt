// What is said of a row and of a table: a figure, where there is one, and a verdict made of the bounds.
#![tactic(auto)]

ghost use Rattle.std.specs.Prelude.{◌≡◌};
ghost use Rattle.verdicts.specs.Verdicts.{figure_of, number_in, at_most, single, lesser, joined_of};

use refusals::Refusal;
use ticks::Length;

// A figure as a value: a length of time, where there is one.
pub type Figure = Option<Length>;

// Which of the two bounds gave a figure.
#[derive(Clone, Copy)]
pub enum Bound {
    Whole,
    Split,
}

// A row fits with a figure, misses its deadline, or stays open.
#[derive(Clone, Copy)]
pub enum Verdict {
    Fits(Bound, Length),
    Misses,
    Open,
}

// The table fits if every row does, misses if some row misses, and is open otherwise.
#[derive(Clone, Copy)]
pub enum TableVerdict {
    Fits,
    Misses,
    Open,
}

// A bound above D is no figure.
pub fn at_most(d: Length, bound: Figure) -> Figure
    ensures { result ≡ figure_of (at_most d.0 (number_in bound)) }
{
    bound.filter(|b| *b <= d)
}

// The verdict of a row with one C.
pub fn of_one_stretch(whole: Figure) -> Verdict
    ensures { result ≡ single (number_in whole) }
{
    match whole {
        None => Verdict::Misses,
        Some(w) => Verdict::Fits(Bound::Whole, w),
    }
}

// The verdict of a waiting row.
pub fn of_waiting(whole: Figure, split: Figure) -> Verdict
    ensures { result ≡ lesser (number_in whole) (number_in split) }
{
    match (whole, split) {
        (None, None) => Verdict::Open,
        (Some(w), None) => Verdict::Fits(Bound::Whole, w),
        (None, Some(s)) => Verdict::Fits(Bound::Split, s),
        (Some(w), Some(s)) => {
            if w <= s {
                Verdict::Fits(Bound::Whole, w)
            } else {
                Verdict::Fits(Bound::Split, s)
            }
        }
    }
}

// The table's verdict with one row more; a refused table stays refused.
pub fn joined(table: Result<TableVerdict, Refusal>, row: Verdict) -> Result<TableVerdict, Refusal>
    ensures { result ≡ joined_of table row }
{
    let verdict = table?;
    match (verdict, row) {
        (TableVerdict::Misses, _) => Ok(TableVerdict::Misses),
        (_, Verdict::Misses) => Ok(TableVerdict::Misses),
        (TableVerdict::Open, _) => Ok(TableVerdict::Open),
        (TableVerdict::Fits, Verdict::Open) => Ok(TableVerdict::Open),
        (TableVerdict::Fits, Verdict::Fits(_, _)) => Ok(TableVerdict::Fits),
    }
}
