// Behaviours by the plan's rules: 12, each operand in range, and 14, clauses, `after` and targets where they belong.
#![tactic(auto)]

ghost use Rattle.std.specs.Prelude.{◌&&◌, cond, ◌≡◌, ◌≤◌, Some, None, eqb, leb, length, map};
ghost use Rattle.node.specs.Lists.{all_of};
ghost use Rattle.node.specs.Values.{exact_kind, int_zero, is_number, last_kind, value_sound};
ghost use Rattle.rules.specs.Behaviours.{code_sound, due_next, in_range, instruction, targets_free};
ghost use Rattle.behaviours.specs.Codes.{codes_in, has_target, placed_by};

use node::{
    AFTER, BehaviourNumber, CLAUSE, EXACT, LAST_KIND, Op, ProcessNumber, RECV, Shape, Value,
    is_number, is_part, shape_of, value_sound, within,
};

// All behaviours, of which there are `count`. Each is lent as a slice of `ops`: a call that takes all of them copies 4 KB. They are three parameters
// and no `Behaviours`, since `codes_in` and the callers' contracts speak of the three.
pub fn behaviours_sound(count: u8, lens: [u8; 8], ops: [Op; 256]) -> bool
    ensures { result ≡ (leb 1 count && leb count 8 && all_of (code_sound count) (codes_in count lens ops)) }
{
    if !within(count, 1, 8) {
        return false;
    }
    for b in 0..count as usize {
        let len = lens[b];
        if !within(len, 1, 32) {
            return false;
        }
        let code = &ops[32 * b..32 * b + len as usize];
        if !behaviour_sound(code, count) {
            return false;
        }
    }
    true
}

// A behaviour by its ops, of which there are 1 to 32.
fn behaviour_sound(code: &[Op], count: u8) -> bool
    requires least { 1 ≤ length code.now }
    requires most { length code.now ≤ 32 }
    ensures { result ≡ code_sound count (map instruction code.now) }
{
    let len = code.len() as u8;
    let mut due: u16 = 0;
    for op in code {
        if !op_sound(*op, count, len, due) {
            return false;
        }
        if !lands_free(code, *op) {
            return false;
        }
        due = due_next(due, *op);
    }
    due <= 1
}

// An op in range that is a clause where one is due, and an `after` only where one may stand.
pub fn op_sound(op: Op, count: u8, len: u8, due: u16) -> bool
    ensures { result ≡ (in_range count len (instruction op) && placed_by due (instruction op)) }
{
    in_range(op, count, len) && placed_by(op, due)
}

// Where `due` parts of a recv may stand, an op is a clause if one is due, and an `after` only if it is the one that may stand.
fn placed_by(op: Op, due: u16) -> bool
    ensures { result ≡ placed_by due (instruction op) }
{
    match op.number {
        CLAUSE => 1 < due,
        AFTER => due == 1,
        _ => due <= 1,
    }
}

// How many parts of a recv may stand behind an op, where `due` could before it.
pub fn due_next(due: u16, op: Op) -> u16
    ensures { result ≡ due_next due (instruction op) }
{
    match op.number {
        RECV => op.small as u16 + 1,
        CLAUSE => due.saturating_sub(1),
        _ => 0,
    }
}

// An op of a behaviour leads to no part of a recv.
fn lands_free(code: &[Op], op: Op) -> bool
    requires { length code.now ≤ 32 }
    ensures { result ≡ targets_free (map instruction code.now) (instruction op) }
{
    match landing(op) {
        Some(to) => code.len() <= to as usize || !is_part(code[to as usize].number),
        None => true,
    }
}

// The place that an op may lead to by an operand, where it has one.
pub fn landing(op: Op) -> Option<u8>
    ensures { result ≡ cond (has_target op.number) (Some op.target) None }
{
    has_target(op.number).then_some(op.target)
}

pub fn has_target(number: u8) -> bool
    ensures { result ≡ has_target number }
{
    matches!(
        shape_of(number),
        Shape::KRST | Shape::T | Shape::RVT | Shape::RST
    )
}

// Each operand of an op in range, in a behaviour of `len` ops, of `count` behaviours. The arms are the shapes of operands in `node`: looking
// each operand up there takes longer.
pub fn in_range(op: Op, count: u8, len: u8) -> bool
    ensures { result ≡ in_range count len (instruction op) }
{
    match shape_of(op.number) {
        Shape::Nothing => false,
        Shape::R => op.r <= 3,
        Shape::RS => registers(op.r, op.s),
        Shape::RV => register_and_value(op.r, op.value),
        Shape::F => op.small <= 1,
        Shape::RBQ => register_and_numbers(op.r, op.behaviour, op.process, count),
        Shape::N => within(op.small, 1, 8),
        Shape::KRST => {
            clause_kind_sound(op.small, op.value) && registers_and_place(op.r, op.s, op.target, len)
        }
        Shape::T => op.target <= len,
        Shape::RVT => register_and_value(op.r, op.value) && op.target <= len,
        Shape::RST => registers_and_place(op.r, op.s, op.target, len),
    }
}

// The kind of a clause, which has a value where it takes just that one.
pub fn clause_kind_sound(kind: u8, v: Value) -> bool
    ensures { result ≡ (leb kind last_kind && value_sound (cond (eqb kind exact_kind) v int_zero)) }
{
    kind <= LAST_KIND && (kind != EXACT || value_sound(v))
}

fn registers(r: u8, s: u8) -> bool
    ensures { result ≡ (leb r 3 && leb s 3) }
{
    r <= 3 && s <= 3
}

fn registers_and_place(r: u8, s: u8, t: u8, len: u8) -> bool
    ensures { result ≡ (leb r 3 && leb s 3 && leb t len) }
{
    registers(r, s) && t <= len
}

fn register_and_value(r: u8, v: Value) -> bool
    ensures { result ≡ (leb r 3 && value_sound v) }
{
    r <= 3 && value_sound(v)
}

// The register, the behaviour and the process of a spawn.
fn register_and_numbers(r: u8, b: BehaviourNumber, q: ProcessNumber, count: u8) -> bool
    ensures { result ≡ (leb r 3 && (leb 1 b.0 && leb b.0 count) && is_number q.0) }
{
    r <= 3 && within(b.0, 1, count) && is_number(q.0)
}
