// A row above, as the recurrence goes by it.

ghost use Rattle.std.specs.Prelude.{◌≡◌, ◌+◌, ◌*◌, ◌≤◌};
ghost use Rattle.figures.specs.Count.{safe_number, more_of};

// A row above: T, all its C, and up to which instant the count of its releases holds.
#[derive(Clone, Copy)]
pub(crate) struct Load {
    pub period: u64,
    pub work: u64,
    pub until: u64,
    ghost some: { 1 ≤ period },
    ghost period_safe: { period ≤ safe_number },
    ghost work_safe: { work ≤ safe_number },
    ghost near: { until ≤ safe_number + safe_number },
}

impl Load {
    // A row that asks for nothing.
    pub(crate) const NONE: Load = Load {
        period: 1,
        work: 0,
        until: 0,
    };

    // Counts the row on until its count holds at t; the answer is what the releases that came in ask for. The first release is chosen
    // without a branch, since whether a row has moved is hard to foresee; a division is made only where one release isn't enough. With
    // `div_ceil` in its place each row took an instruction more, divided or not.
    pub(crate) fn count_on(&mut self, t: u64) -> u64
        requires { t ≤ safe_number }
        ensures same { (self.new.period ≡ self.old.period) × (self.new.work ≡ self.old.work) }
        ensures until { self.new.until ≡ self.old.until + more_of self.old.until self.old.period t * self.old.period }
        ensures asked { result ≡ more_of self.old.until self.old.period t * self.old.work }
    {
        let period = self.period;
        let work = self.work;
        let held = self.until;
        let mut upto = held;
        let mut add: u64 = 0;
        if held < t {
            upto = held + period;
            add = work;
        }
        if upto < t {
            let more = (t - upto - 1) / period + 1;
            upto += more * period;
            add += more * work;
        }
        self.until = upto;
        add
    }
}
