// Instants and lengths of time, in whole ticks: two kinds of number that no sum mixes up.
// Two instants cannot be added: there is no function for it. A sum beyond 64 bits stays at the largest number, so that each sum has an
// answer for all input.
#![tactic(auto)]

ghost use Rattle.std.specs.Prelude.{◌≡◌};
ghost use Rattle.ticks.specs.Ticks.{later_by, between, together};

// A point of time: a release, a completion, an absolute deadline.
#[derive(Clone, Copy, PartialEq, Eq, PartialOrd, Ord)]
pub struct Instant(pub u64);

// A distance in time: T, D, C, S, R.
#[derive(Clone, Copy, PartialEq, Eq, PartialOrd, Ord)]
pub struct Length(pub u64);

// Two `plus` and no operator in common: document 01 wants a helper for each pair that may be added, and no other.
impl Instant {
    // The instant that lies a length after this one.
    pub fn plus(self, by: Length) -> Instant
        ensures { result ≡ later_by self by }
    {
        Instant(self.0.saturating_add(by.0))
    }

    // The length from an earlier instant to this one; 0 where the other is not earlier.
    pub fn since(self, earlier: Instant) -> Length
        ensures { result ≡ between earlier self }
    {
        Length(self.0.saturating_sub(earlier.0))
    }
}

impl Length {
    // Both lengths, one after the other.
    pub fn plus(self, more: Length) -> Length
        ensures { result ≡ together self more }
    {
        Length(self.0.saturating_add(more.0))
    }
}
