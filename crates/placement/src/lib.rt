// Rule 14 of a plan's behaviours, and the line that is told of it.
#![tactic(auto)]

ghost use Rattle.std.specs.Prelude.{◌≡◌, ◌+◌, ◌*◌, ◌≤◌, ◌<◌, get_or, take, drop};
ghost use Rattle.node.specs.Nodes.{no_op};
ghost use Rattle.rules.specs.Behaviours.{due, has_clauses, in_turn, instruction, targets_free, well_placed};
ghost use Rattle.behaviours.specs.Codes.{codes_in};
ghost use Rattle.placement.specs.Misplaced.{first_code, line_told, misplaced_in, misplaced_from};
ghost use Rattle.placement.specs.Read.{code_of};

use node::{AFTER, CLAUSE, Op, RECV, is_part};

// The line of the first op that is not well placed, where there is one. Sound behaviours have none: that is one pass, and the walk below is
// left to plans that are refused.
pub fn misplaced(count: u8, lens: [u8; 8], ops: [Op; 256]) -> Option<usize>
    ensures { result ≡ line_told (misplaced_from first_code (codes_in count lens ops)) }
{
    if behaviours::behaviours_sound(count, lens, ops) {
        return None;
    }
    let mut line: usize = 3;
    for k in 0..count {
        let len = lens.get(k as usize).copied().unwrap_or(0);
        let code = Code { ops: &ops, k, len };
        line += 1;
        if let Some(found) = code.misplaced(line) {
            return Some(found);
        }
        line += len as usize;
    }
    None
}

// The behaviour of `len` ops that stands at k. It is no slice of the ops, since a length may reach past their end, where blank ops are read.
#[derive(Clone, Copy)]
struct Code<'a> {
    ops: &'a [Op; 256],
    k: u8,
    len: u8,
}

impl Code<'_> {
    // The op at place t.
    fn op(self, t: u8) -> Op
        ensures { result ≡ get_or self.entry.ops.now (32 * self.entry.k + t) no_op }
    {
        let ops = self.ops;
        let at = 32 * self.k as usize + t as usize;
        ops.get(at).copied().unwrap_or(Op::blank())
    }

    // The line of the first op that is not well placed, where there is one; the first op of all is on line `first`.
    fn misplaced(self, first: usize) -> Option<usize>
        requires least { 1 ≤ first }
        requires most { first < 65537 }
        ensures { result ≡ line_told (misplaced_in (code_of self.entry) 0 first (code_of self.entry)) }
    {
        let mut left: u16 = 0;
        for t in 0..self.len {
            if !self.well_placed(t, left) {
                return Some(first + t as usize);
            }
            left = behaviours::due_next(left, self.op(t));
        }
        None
    }

    // The op at place t, where `left` parts of a recv may still stand.
    fn well_placed(self, t: u8, left: u16) -> bool
        requires inside { t < self.len }
        requires parts { left ≡ due 0 (take t (code_of self)) }
        ensures { result ≡ well_placed (code_of self.entry) t (get_or (code_of self.entry) t (instruction no_op)) }
    {
        let op = self.op(t);
        if op.number == RECV {
            return self.has_clauses(t, op.small);
        }
        in_turn(op.number, left) && self.lands_free(op)
    }

    // The n ops behind place t are clauses.
    fn has_clauses(self, t: u8, n: u8) -> bool
        requires { t < self.len }
        ensures { result ≡ has_clauses n (drop (t + 1) (code_of self.entry)) }
    {
        let next = t + 1;
        if self.len - next < n {
            return false;
        }
        for i in 0..n {
            let op = self.op(next + i);
            if op.number != CLAUSE {
                return false;
            }
        }
        true
    }

    // An op leads to no part of a recv.
    fn lands_free(self, op: Op) -> bool
        ensures { result ≡ targets_free (code_of self.entry) (instruction op) }
    {
        match behaviours::landing(op) {
            Some(to) => self.len <= to || !is_part(self.op(to).number),
            None => true,
        }
    }
}

// A clause is due where one stands, and an `after` may stand where one does.
fn in_turn(number: u8, left: u16) -> bool
    ensures { result ≡ in_turn number left }
{
    match number {
        CLAUSE => 1 < left,
        AFTER => left == 1,
        _ => true,
    }
}
