// Steps text: lines `run=i`, `arrive=i,j` and `timeout=i`, each ended by byte 10, into the numbers of the steps.
#![tactic(auto)]

ghost use Rattle.std.specs.Prelude.{◌≡◌, set};
ghost use Rattle.text.specs.Parts.{fields_of};
ghost use Rattle.schedule.specs.Reading.{byte_of, byte_told, packed_step, own_of, arrival_of, step_of, line_of};
ghost use Rattle.schedule.specs.Reading.{refusal_number, refusal_line, schedule_told, schedule_of};

mod accepted;

pub use accepted::Schedule;
use actions::encode;
use node::{ProcessNumber, Refusal, Step};

// Text above this many bytes is refused.
const LIMIT: usize = 61440;

// The most steps that a schedule has.
const ROOM: usize = 4096;

// Why a text has no steps: its first malformed line, from 1, is told; or the text or the schedule is too long.
#[derive(Clone, Copy, Debug, PartialEq, Eq)]
pub enum Refused {
    Malformed(usize),
    TooLong,
}

impl Refused {
    // The number that the text's writer is told.
    pub fn number(self) -> u8
        ensures { result ≡ refusal_number self }
    {
        match self {
            Refused::Malformed(_) => 15,
            Refused::TooLong => Refusal::ScheduleTooLong.number(),
        }
    }

    // The line that is told with it; 0 where the refusal is of no line.
    pub fn line(self) -> usize
        ensures { result ≡ refusal_line self }
    {
        match self {
            Refused::Malformed(line) => line,
            Refused::TooLong => 0,
        }
    }
}

// The steps of a text, or why it has none.
pub fn read(text: &[u8]) -> Result<Schedule, Refused>
    ensures { schedule_told result ≡ schedule_of text.now }
{
    if LIMIT < text.len() {
        return Err(Refused::TooLong);
    }
    let mut steps = [0u32; 4096];
    let mut count = 0;
    for line in text.split_inclusive(|&b| b == b'\n') {
        let Some(step) = line.strip_suffix(b"\n").and_then(read_line) else {
            return Err(Refused::Malformed(count + 1));
        };
        if count < ROOM {
            steps[count] = step;
        }
        count += 1;
    }
    if ROOM < count {
        return Err(Refused::TooLong);
    }
    Ok(Schedule { count, steps })
}

// A line without its byte 10; none where it is malformed.
fn read_line(line: &[u8]) -> Option<u32>
    ensures { line_of result ≡ step_of line.now }
{
    if let Some(rest) = line.strip_prefix(b"run=") {
        return own(0, rest);
    }
    if let Some(rest) = line.strip_prefix(b"arrive=") {
        return arrival(rest);
    }
    own(2, line.strip_prefix(b"timeout=")?)
}

// What follows `run=` or `timeout=`.
fn own(kind: u8, rest: &[u8]) -> Option<u32>
    ensures { line_of result ≡ own_of kind rest.now }
{
    let owner = number(rest)?;
    Some(packed(kind, owner, 0))
}

// What follows `arrive=`.
fn arrival(rest: &[u8]) -> Option<u32>
    ensures { line_of result ≡ arrival_of (fields_of rest.now) }
{
    if text::count_fields(rest) != 2 {
        return None;
    }
    let owner = number(text::field(rest, 0))?;
    let from = number(text::field(rest, 1))?;
    Some(packed(1, owner, from))
}

// A process's number, as a line tells it: 0 to 255.
fn number(s: &[u8]) -> Option<u8>
    ensures { result ≡ byte_told (byte_of s.now) }
{
    text::read_ranged(s, 0, 255).ok()
}

// The step of a kind with two numbers that were read.
fn packed(kind: u8, owner: u8, from: u8) -> u32
    ensures { result ≡ packed_step kind owner from }
{
    encode(Step {
        kind,
        owner: ProcessNumber(owner),
        from: ProcessNumber(from),
    })
}
