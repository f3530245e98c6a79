// What is wrong with a line of a plan.

ghost use Rattle.std.specs.Prelude.{◌≡◌};
ghost use Rattle.plan_line.specs.Results.{line_fault, line_number};

use text::Fault;

// A wrong key, word, operand count or number form is 11, a number out of its range 12, a start that is not above the one before 13.
#[derive(Clone, Copy, PartialEq, Eq, Debug)]
pub enum LineFault {
    Malformed,
    OutOfRange,
    NotRising,
}

impl LineFault {
    // The number that a plan's writer is told.
    pub fn number(self) -> u8
        ensures { result ≡ line_number self }
    {
        match self {
            LineFault::Malformed => 11,
            LineFault::OutOfRange => 12,
            LineFault::NotRising => 13,
        }
    }
}

impl From<Fault> for LineFault {
    ghost from_gives = { λ fault e. e ≡ line_fault fault };

    fn from(fault: Fault) -> LineFault {
        match fault {
            Fault::Malformed => LineFault::Malformed,
            Fault::OutOfRange => LineFault::OutOfRange,
        }
    }
}
