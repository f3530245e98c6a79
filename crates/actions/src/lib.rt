// A step as one number: its action, and where its parts stand in a node; and the numbers of all possible steps.
#![tactic(auto)]

ghost use Rattle.std.specs.Prelude.{true, false, cond, ◌≡◌, ◌<◌, eqb};
ghost use Rattle.rules.specs.Steps.{record_of};
ghost use Rattle.rules.specs.Suggest.{at_turn};
ghost use Rattle.actions.specs.Numbers.{encode, decode, possible_numbers};
ghost use Rattle.actions.specs.Places.{process_at, row_at, behaviour_at, op_at, decoded_of};

use node::{BehaviourNumber, ProcessNumber, Step, fallen, is_number};
use std::array;

// What the number of a step says: whether a process number in it is none (20), whether it is an arrival or a timeout, whose it is, from whom,
// and where the owner's process and the row stand.
#[derive(Clone, Copy)]
pub struct Decoded {
    pub bad: bool,
    pub arrives: bool,
    pub expires: bool,
    pub owner: ProcessNumber,
    pub from: ProcessNumber,
    pub at: usize,
    pub row: usize,
}

// Where process i stands.
pub fn process_index(i: ProcessNumber) -> usize
    ensures value { result ≡ process_at i.0 }
    ensures upper_bound { result < 16 }
{
    i.index() % 16
}

// Where the row from j to i stands.
pub fn row_index(j: ProcessNumber, i: ProcessNumber) -> usize
    ensures value { result ≡ row_at j.0 i.0 }
    ensures upper_bound { result < 256 }
{
    16 * process_index(j) + process_index(i)
}

// Where the length of behaviour b stands.
pub fn behaviour_index(b: BehaviourNumber) -> usize
    ensures value { result ≡ behaviour_at b.0 }
    ensures upper_bound { result < 8 }
{
    b.index() % 8
}

// Where the op at a place of behaviour b stands.
pub fn op_index(b: BehaviourNumber, place: u8) -> usize
    ensures value { result ≡ op_at b.0 place }
    ensures upper_bound { result < 256 }
{
    32 * behaviour_index(b) + ((place % 32) as usize)
}

// The number of a step, which stands for that step.
pub fn encode(s: Step) -> u32
    ensures value { result ≡ encode s }
    ensures result_value { decode result ≡ s }
{
    (s.kind as u32) * 65536 + (s.owner.0 as u32) * 256 + (s.from.0 as u32)
}

// The step that a number stands for.
pub fn step_of(number: u32) -> Step
    ensures { result ≡ decode number }
{
    Step {
        kind: (number / 65536).min(255) as u8,
        owner: ProcessNumber((number / 256 % 256) as u8),
        from: ProcessNumber((number % 256) as u8),
    }
}

// The step of a number, as its action. No index is made of a number that is none.
pub fn decode(s: u32) -> Decoded
    ensures value { result ≡ decoded_of s }
    ensures at_bound { (result.at < 16) × (result.row < 256) }
{
    let kind = s / 65536;
    let owner = ProcessNumber((s / 256 % 256) as u8);
    let from = ProcessNumber((s % 256) as u8);
    if !is_number(owner.0) {
        return unnumbered(kind, owner, from);
    }
    match kind {
        0 => own(false, owner, from),
        1 if is_number(from.0) => Decoded {
            arrives: true,
            row: row_index(from, owner),
            ..own(false, owner, from)
        },
        2 => own(true, owner, from),
        _ => unnumbered(kind, owner, from),
    }
}

// A run or a timeout: it is of its owner alone.
fn own(expires: bool, owner: ProcessNumber, from: ProcessNumber) -> Decoded
    ensures value { result ≡ record { bad = false; arrives = false; expires = expires; owner = owner; from = from; at = process_at owner.0; row = 0 } }
    ensures at_bound { (result.at < 16) × (result.row < 256) }
{
    Decoded {
        bad: false,
        arrives: false,
        expires,
        owner,
        from,
        at: process_index(owner),
        row: 0,
    }
}

// 20: a process number of the step is none, or its kind is none.
fn unnumbered(kind: u32, owner: ProcessNumber, from: ProcessNumber) -> Decoded
    ensures { result ≡ record { bad = true; arrives = eqb kind 1; expires = eqb kind 2; owner = owner; from = from; at = 0; row = 0 } }
{
    Decoded {
        bad: true,
        arrives: kind == 1,
        expires: kind == 2,
        owner,
        from,
        at: 0,
        row: 0,
    }
}

// The numbers of all possible steps, in their order: by owner, its run, its timeout, then its arrivals by sender.
pub fn possible_numbers() -> [u32; 288]
    ensures { result ≡ possible_numbers }
{
    array::from_fn(
        |k: usize| -> u32
            requires { k < 288 }
            ensures { result ≡ encode (record_of (at_turn k)) }
        { encode(possible(k as u16)) },
    )
}

// The possible step of turn k: 18 turns for each owner.
fn possible(k: u16) -> Step
    requires { k < 288 }
    ensures { result ≡ record_of (at_turn k) }
{
    let turn = (k % 18) as u8;
    let owner = ((k / 18) as u8) + 1;
    Step {
        kind: possible_kind(turn),
        owner: ProcessNumber(owner),
        from: ProcessNumber(fallen(turn)),
    }
}

// The kind of a step by its turn among its owner's: 0 its run, 2 its timeout, 1 an arrival.
fn possible_kind(turn: u8) -> u8
    ensures { result ≡ cond (eqb turn 0) 0 (cond (eqb turn 1) 2 1) }
{
    match turn {
        0 => 0,
        1 => 2,
        _ => 1,
    }
}
