// The numbers handed back (docs/RULES.md): why a call refuses, and the number that it answers.

ghost use Rattle.std.specs.Prelude.{◌≡◌};
ghost use Rattle.fixed.specs.Refusal.{number_of};

/// Why a call refuses. Each reason has its number, by which C and the text know it.
#[derive(Clone, Copy, Debug, PartialEq, Eq)]
pub enum Refusal {
    Period = 1,
    Gains = 2,
    Untied = 3,
    Limits = 4,
    Rest = 5,
    Sample = 6,
    Tripped = 7,
    Target = 8,
    Rows = 9,
    NotTripped = 10,
    Broken = 14,
    NoSheet = 17,
    NoRoom = 18,
    NoRow = 19,
}

impl Refusal {
    pub fn number(self) -> i32
        ensures { result ≡ number_of self }
    {
        self as i32
    }
}
