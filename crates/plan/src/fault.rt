// Why a plan text is refused.

ghost use Rattle.std.specs.Prelude.{◌≡◌};
ghost use Rattle.plan.specs.Faults.{fault_number, fault_of};

use plan_line::LineFault;

// The text has above 16,384 bytes; a line has a wrong form, a number out of its range or a start that is not above the one before; or there
// is a recv without its clauses, a stray clause or a target place on a clause.
#[derive(Clone, Copy, Debug, PartialEq, Eq)]
pub enum Fault {
    TooLong,
    Malformed,
    OutOfRange,
    NotRising,
    IllPlaced,
}

impl Fault {
    // The number that a plan's writer is told.
    pub fn number(self) -> u8
        ensures { result ≡ fault_number self }
    {
        match self {
            Fault::TooLong => 10,
            Fault::Malformed => 11,
            Fault::OutOfRange => 12,
            Fault::NotRising => 13,
            Fault::IllPlaced => 14,
        }
    }
}

impl From<LineFault> for Fault {
    ghost from_gives = { λ e f. f ≡ fault_of e };

    fn from(fault: LineFault) -> Fault {
        match fault {
            LineFault::Malformed => Fault::Malformed,
            LineFault::OutOfRange => Fault::OutOfRange,
            LineFault::NotRising => Fault::NotRising,
        }
    }
}

// What is wrong with a text, and which of its lines it is, from 1; line 0 where it is too long.
#[derive(Clone, Copy, Debug, PartialEq, Eq)]
pub struct Refused {
    pub fault: Fault,
    pub line: usize,
}
