// How many cases there were, and how many of them differ.
ghost use Rattle.std.specs.Prelude.{◌≡◌, ◌+◌, ◌%◌, ◌^◌, if◌then◌else◌};

use std::fmt;

#[derive(Clone, Copy, Default)]
pub struct Tally {
    cases: u64,
    differ: u64,
}

impl Tally {
    // One more case, and whether its answers are those of the list.
    pub fn count(&mut self, same: bool)
        ensures cases { self.new.cases ≡ (self.old.cases + 1) % 2 ^ 64 }
        ensures differ { self.new.differ ≡ (if same then self.old.differ else (self.old.differ + 1) % 2 ^ 64) }
    {
        self.cases = self.cases.wrapping_add(1);
        if !same {
            self.differ = self.differ.wrapping_add(1);
        }
    }

    pub fn cases(self) -> u64
        ensures { result ≡ self.cases }
    {
        self.cases
    }
}

impl fmt::Display for Tally {
    fn fmt<W: fmt::Write>(&self, f: &mut fmt::Formatter<W>) -> fmt::Result {
        let cases = self.cases;
        let differ = self.differ;
        write!(f, "{cases} cases, {differ} differ")
    }
}
