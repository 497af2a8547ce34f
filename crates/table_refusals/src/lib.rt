// Why a call is refused. It stands below all other code, since the lowest test of a table's bytes refuses already.
#![tactic(auto)]

ghost use Rattle.std.specs.Prelude.{◌≡◌};
ghost use Rattle.spec_calls.specs.Answers.{refusal_number};
ghost use Rattle.table_refusals.specs.Refusals.{refusal_of};

// Why a call is refused, in the order of document 01's table and of those that 02 adds to it.
#[derive(Clone, Copy, PartialEq, Eq, Debug)]
pub enum Refusal {
    Sizes = 1,
    Unsound = 2,
    JobNumber = 3,
    BenchNumber = 4,
    AlreadyStanding = 5,
    NotStanding = 6,
    Height = 7,
    ListTooShort = 8,
    CountFull = 9,
    Unreadable = 10,
    PageTooShort = 11,
}

impl Refusal {
    // Gives the number that is returned for it.
    pub fn number(self) -> u32
        ensures { result ≡ refusal_number (refusal_of self) }
    {
        self as u32
    }
}
