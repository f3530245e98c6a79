// Behaviours and a row of starts into plan text.
#![tactic(auto)]

ghost use Rattle.std.proofs.Math.Bool.{So};
ghost use Rattle.std.specs.Prelude.{cond, ◌++◌, map, ◌≡◌, ◌≤◌, ◌<◌, eqb, length};
ghost use Rattle.node.specs.Lists.{all_of};
ghost use Rattle.node.specs.Starts.{starts_in};
ghost use Rattle.node.specs.Texts.{bytes};
ghost use Rattle.node.specs.Values.{exact_kind, int_zero};
ghost use Rattle.rules.specs.Behaviours.{code_sound, instruction, operand};
ghost use Rattle.behaviours.specs.Codes.{code_in, codes_in};
ghost use Rattle.text.specs.Writing.{Wrote, each};
ghost use Rattle.listing.specs.Answers.{listed_of};
ghost use Rattle.plan_writer.specs.Texts.{kind_text, operand_text, operands_of, op_row, code_rows, codes_rows, start_row, ended, plan_text};
ghost use Rattle.plan_writer.specs.Answers.{codes_of, start_fits, starts_sound, plan_sound, write_told, write_shown};

use behaviours::behaviours_sound;
use listing::{Text, fill};
use node::{
    Behaviours, EXACT, Op, OperandKind, Refusal, Start, Starts, Value, operand_count, operand_kind,
    within,
};
use plan_line::{kind_word, op_word};
use text::{put_byte, put_bytes, put_number, put_number_line, put_value};
use words::put_word;

// The text of a plan: 31, 30, or the text in the first bytes of the buffer, and its length.
pub fn write_plan(behaviours: Behaviours, starts: Starts, out: &mut [u8]) -> Result<usize, Refusal>
    ensures answer { listed_of result ≡ write_told (codes_of behaviours) (starts_in starts) out.old }
    ensures buffer { out.new ≡ write_shown (codes_of behaviours) (starts_in starts) out.old }
{
    if !plan_sound(behaviours, starts) {
        return Err(Refusal::NotSound);
    }
    fill(&Plan { behaviours, starts }, out).ok_or(Refusal::OutputShort)
}

// Whether some accepted plan text holds these behaviours and starts.
pub fn plan_sound(behaviours: Behaviours, starts: Starts) -> bool
    ensures { result ≡ plan_sound (codes_of behaviours) (starts_in starts) }
{
    if !behaviours_sound(behaviours.count, behaviours.lens, behaviours.ops) {
        return false;
    }
    starts_sound(starts, behaviours.count)
}

// 1 to 16 starts in range, rising, of a plan with `count` behaviours.
fn starts_sound(starts: Starts, count: u8) -> bool
    ensures { result ≡ starts_sound count (starts_in starts) }
{
    if !within(starts.count, 1, 16) {
        return false;
    }
    let mut last: u8 = 0;
    for s in &starts.list[..starts.count as usize] {
        if !start_fits(*s, count, last) {
            return false;
        }
        last = s.process.0;
    }
    true
}

// A start in range, behind one of process `last`.
fn start_fits(s: Start, count: u8, last: u8) -> bool
    ensures { result ≡ start_fits count last s }
{
    last < s.process.0 && s.process.0 <= 16 && within(s.behaviour.0, 1, count)
}

// Behaviours and starts that some accepted plan text holds.
#[derive(Drop)]
struct Plan {
    behaviours: Behaviours,
    starts: Starts,
    ghost sound: { So (plan_sound (codes_of behaviours) (starts_in starts)) },
}

impl Text for Plan {
    ghost text = { λ p. plan_text (codes_of p.behaviours) (starts_in p.starts) };

    fn put(&self, out: &mut [u8], at: usize) -> usize {
        let e = put_bytes(out, at, b"plan=1\n");
        let e = put_number_line(out, e, b"behaviours=", self.behaviours.count as u64);
        let e = self.put_codes(out, e);
        let e = put_number_line(out, e, b"starts=", self.starts.count as u64);
        self.put_starts(out, e)
    }
}

impl Plan {
    // The behaviours.
    fn put_codes(&self, out: &mut [u8], at: usize) -> usize
        ensures { Wrote out.old at (each ended (codes_rows (codes_of self.now.behaviours))) out.new result }
    {
        let mut e = at;
        for k in 0..self.behaviours.count as usize {
            let len = self.behaviours.lens[k] as usize;
            e = put_code(out, e, &self.behaviours.ops[32 * k..32 * k + len]);
        }
        e
    }

    // The starts.
    fn put_starts(&self, out: &mut [u8], at: usize) -> usize
        ensures { Wrote out.old at (each ended (map start_row (starts_in self.now.starts))) out.new result }
    {
        let mut e = at;
        for k in 0..self.starts.count as usize {
            e = put_start(out, e, self.starts.list[k]);
        }
        e
    }
}

// A behaviour.
fn put_code(out: &mut [u8], at: usize, code: &[Op]) -> usize
    ensures { Wrote out.old at (each ended (code_rows (map instruction code.now))) out.new result }
{
    let mut e = put_number_line(out, at, b"code=", code.len() as u64);
    for op in code {
        e = put_op(out, e, *op);
    }
    e
}

// A line `op=`.
fn put_op(out: &mut [u8], at: usize, op: Op) -> usize
    ensures { Wrote out.old at (ended (op_row (instruction op))) out.new result }
{
    let e = put_bytes(out, at, b"op=");
    let e = put_word(out, e, op_word(op.number));
    let e = put_operands(out, e, op);
    put_byte(out, e, b'\n')
}

// The operands of an op, as many as the table of operand counts says, each by its kind.
fn put_operands(out: &mut [u8], at: usize, op: Op) -> usize
    ensures { Wrote out.old at (operands_of (instruction op)) out.new result }
{
    let mut e = at;
    for i in 0..operand_count(op.number) {
        e = put_operand(out, e, op, operand_kind(op.number, i));
    }
    e
}

// A comma and the operand of a kind.
fn put_operand(out: &mut [u8], at: usize, op: Op, kind: OperandKind) -> usize
    ensures { Wrote out.old at (bytes "," ++ operand_text kind (operand op kind)) out.new result }
{
    let e = put_byte(out, at, b',');
    match kind {
        OperandKind::NoOperand => put_number(out, e, 0),
        OperandKind::RegisterR => put_number(out, e, op.r as u64),
        OperandKind::RegisterS => put_number(out, e, op.s as u64),
        OperandKind::ValueV => put_value(out, e, op.value),
        OperandKind::PlaceT => put_number(out, e, op.target as u64),
        OperandKind::BehaviourB => put_number(out, e, op.behaviour.0 as u64),
        OperandKind::ProcessQ => put_number(out, e, op.process.0 as u64),
        OperandKind::FlagF => put_number(out, e, op.small as u64),
        OperandKind::CountN => put_number(out, e, op.small as u64),
        OperandKind::KindK => put_kind(out, e, op.small, op.value),
    }
}

// A clause's kind: its word, or one exact value.
fn put_kind(out: &mut [u8], at: usize, kind: u8, v: Value) -> usize
    ensures { Wrote out.old at (kind_text (record { number = kind; value = cond (eqb kind exact_kind) v int_zero })) out.new result }
{
    if kind == EXACT {
        return put_value(out, at, v);
    }
    put_word(out, at, kind_word(kind))
}

// A line `start=`.
fn put_start(out: &mut [u8], at: usize, s: Start) -> usize
    ensures { Wrote out.old at (ended (start_row s)) out.new result }
{
    let e = put_bytes(out, at, b"start=");
    let e = put_number(out, e, s.process.0 as u64);
    let e = put_byte(out, e, b',');
    let e = put_number(out, e, s.behaviour.0 as u64);
    put_byte(out, e, b'\n')
}
