// What is left of a plan text, read line by line.

ghost use Rattle.std.specs.Prelude.{◌≤◌, ◌+◌, length};

use crate::fault::{Fault, Refused};
use node::{Op, ProcessNumber, Start};
use plan_line::LineFault;

// What is left of a text behind its first lines, and how many these are. There are no more of them than a plan has bytes, so that they are
// counted without overflow.
#[derive(Drop)]
pub(crate) struct Rest<'a> {
    pub(crate) text: &'a [u8],
    pub(crate) read: usize,
    ghost few: { read + length text.now ≤ 65536 },
}

impl<'a> Rest<'a> {
    ghost use Rattle.std.specs.Prelude.{◌≡◌, [], ℕ, IfOk, MatchResult};
    ghost use Rattle.text.specs.Parts.{line_then};
    ghost use Rattle.plan_line.specs.declared.fault.LineFault.TheVariants.{Malformed};
    ghost use Rattle.plan_line.specs.Lines.{header_line, count_line, op_line, start_line};
    ghost use Rattle.plan_line.specs.Results.{start_read};
    ghost use Rattle.plan.specs.Reading.{on_line, end_of};
    ghost use Rattle.plan.specs.Rests.{left_of, refused_at, at_line, told};

    // The line `plan=1`.
    pub(crate) fn header(&mut self) -> Result<(), Refused>
        ensures { told (λ x. 1) result (left_of self.new) ≡ on_line header_line (left_of self.old) }
    {
        let line = self.line()?;
        self.at_line(plan_line::header_line(line))
    }

    // A line with a key and a number from low to high.
    pub(crate) fn count(&mut self, key: &[u8], low: u8, high: u8) -> Result<u8, Refused>
        ensures read { told (λ n. n) result (left_of self.new) ≡ on_line (count_line key.now low high) (left_of self.old) }
        ensures most { IfOk result (λ n. n ≤ high) }
    {
        let line = self.line()?;
        self.at_line(plan_line::count_line(line, key, low, high))
    }

    // A line with an op of a code with `len` ops, in a plan with `count` behaviours.
    pub(crate) fn op(&mut self, count: u8, len: u8) -> Result<Op, Refused>
        ensures { told (λ o. o) result (left_of self.new) ≡ on_line (op_line count len) (left_of self.old) }
    {
        let line = self.line()?;
        self.at_line(plan_line::op_line(line, count, len))
    }

    // A line with a start behind a start of process `last`.
    pub(crate) fn start(&mut self, count: u8, last: ProcessNumber) -> Result<Start, Refused>
        ensures read { told start_read result (left_of self.new) ≡ on_line (start_line count last) (left_of self.old) }
        ensures process { IfOk result (λ s. s.process.0 ≤ 16) }
    {
        let line = self.line()?;
        self.at_line(plan_line::start_line(line, count, last))
    }

    // The end of the text: a surplus line, whole or not, is 11.
    #[tactic(auto, using(crate::proofs::Whole::ends))]
    pub(crate) fn end(&self) -> Result<(), Refused>
        ensures { told {B = ℕ} (λ x. 1) result (left_of self.now) ≡ end_of 1 (left_of self.now) }
    {
        if self.text.is_empty() {
            Ok(())
        } else {
            Err(self.missing())
        }
    }

    // The next line, without its byte 10. A missing one, and one that lacks its byte 10, is 11.
    fn line(&mut self) -> Result<&'a [u8], Refused>
        ensures { MatchResult result
            (λ line. ((left_of self.old).text ≡ line_then line.now (left_of self.new).text) × (self.new.read ≡ self.old.read + 1))
            (λ e. ((left_of self.old).text.whole ≡ []) × (e ≡ refused_at Malformed (self.old.read + 1))) }
    {
        let text = self.text;
        let e = text::line_end(text, 0);
        if text.len() <= e {
            return Err(self.missing());
        }
        *self = Rest {
            text: &text[e + 1..],
            read: self.read + 1,
        };
        Ok(&text[..e])
    }

    // No whole line follows, or one that is too many.
    fn missing(&self) -> Refused
        ensures { result ≡ refused_at Malformed (self.now.read + 1) }
    {
        Refused {
            fault: Fault::Malformed,
            line: self.read + 1,
        }
    }

    // What the line that was read last gave.
    fn at_line<T>(&self, given: Result<T, LineFault>) -> Result<T, Refused>
        ensures { result ≡ at_line self.now.read given }
    {
        match given {
            Ok(x) => Ok(x),
            Err(fault) => Err(Refused {
                fault: fault.into(),
                line: self.read,
            }),
        }
    }
}
