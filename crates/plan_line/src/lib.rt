// The lines of a plan, each read on its own.
#![tactic(auto)]

mod fault;

ghost use Rattle.std.specs.Prelude.{List, [], map, true, false, ℕ, ◌≡◌, ◌<◌, ◌-◌, IsTrue, MatchResult, length, get_or, drop};
ghost use Rattle.node.specs.Lists.{all_of};
ghost use Rattle.node.specs.Ops.{op_count, op_words};
ghost use Rattle.node.specs.Values.{any_kind};
ghost use Rattle.text.specs.declared.Fault.TheVariants.{Malformed};
ghost use Rattle.text.specs.Parts.{fields_of, index_of, starts_with};
ghost use Rattle.words.specs.Words.{is_word, packed, found};
ghost use Rattle.plan_line.specs.Ops.{clause_words, clause_kind, operand_of, with_operand};
ghost use Rattle.plan_line.specs.Ops.{FieldEnd, behind_field, bare, op_of, coded_of};
ghost use Rattle.plan_line.specs.Lines.{answered, op, start, header_line, count_line, op_line, start_of, start_line};
ghost use Rattle.plan_line.specs.Results.{fault_told, line_told, kind_read, start_read};

pub use fault::LineFault;
use node::{ANY, BehaviourNumber, EXACT, Op, OperandKind, ProcessNumber, Start, Value};
use text::Fault;

// The words of the ops, in their order, as `words::word_code` gives them: the reader and the writer of plan text take them from here.
const OP_WORDS: [u64; 19] = [
    0xd0b3, // set
    0x1c_c1e3, // copy
    0x13_30b3, // self
    0x9081, // add
    0x12_38b3, // send
    0x1a_2705, // exit
    0x15_b92c, // link
    0x56e4_b1d5, // unlink
    0x18_0654, // trap
    0x2eb_8613, // spawn
    0x1b_0cb2, // recv
    0x4b3a_8583, // clause
    0x18_36aa, // jump
    0x12_b433, // same
    0x19_ccac, // less
    0x18_3e93, // stop
    0xc_9f44_b9ed, // monitor
    0x327d_12e7_b4a4, // demonitor
    0x322_d0c1, // after
];

// The words of the clause kinds, in their order.
const KIND_WORDS: [u64; 6] = [
    0xe5c1, // any
    0xd1c9, // int
    0x16_be81, // atom
    0x9130, // pid
    0x12_d1ee, // note
    0x17_5de4, // down
];

// The number of the empty text, which the clauses of `op_word` and `kind_word` promise where there is no word: so they answer no Option.
const NO_WORD: u64 = 1;

// The line `plan=1`.
#[tactic(auto, unfolding(crate::specs::Lines::header_line, crate::specs::Lines::header_told))]
pub fn header_line(line: &[u8]) -> Result<(), LineFault>
    ensures { line_told (λ x. 1) result ≡ header_line line.now }
{
    if text::same(line, b"plan=1") {
        Ok(())
    } else {
        Err(LineFault::Malformed)
    }
}

// A line with a key and a number.
#[tactic(auto, using(crate::proofs::Keys::keys), unfolding(crate::specs::Lines::count_line, crate::specs::Lines::count_told))]
pub fn count_line(line: &[u8], key: &[u8], low: u8, high: u8) -> Result<u8, LineFault>
    ensures { line_told (λ n. n) result ≡ count_line key.now low high line.now }
{
    let rest = behind_key(line, key)?;
    Ok(text::read_ranged(rest, low, high)?)
}

// A line `op=` of a code with `len` ops, in a plan with `count` behaviours.
#[tactic(auto, using(crate::proofs::Keys::keys), unfolding(crate::specs::Lines::op_line, crate::specs::Lines::op_told))]
pub fn op_line(line: &[u8], count: u8, len: u8) -> Result<Op, LineFault>
    ensures { line_told (λ o. o) result ≡ op_line count len line.now }
{
    let rest = behind_key(line, b"op=")?;
    Ok(read_op(rest, count, len)?)
}

// A line `start=` behind a start of process `last`, which its process has to be above.
#[tactic(auto, using(crate::proofs::Keys::keys, crate::proofs::Starts::above), unfolding(crate::specs::Lines::start_line, crate::specs::Lines::start_told))]
pub fn start_line(line: &[u8], count: u8, last: ProcessNumber) -> Result<Start, LineFault>
    ensures { line_told start_read result ≡ start_line count last line.now }
{
    let rest = behind_key(line, b"start=")?;
    let start = read_start(rest, count)?;
    if last.0 < start.process.0 {
        Ok(start)
    } else {
        Err(LineFault::NotRising)
    }
}

// The word of an op, as `words::put_word` takes it; no word for a number that is no op.
pub fn op_word(number: u8) -> u64
    ensures { result ≡ packed (get_or op_words number []) }
{
    OP_WORDS
        .get(usize::from(number))
        .copied()
        .unwrap_or(NO_WORD)
}

// The word of a clause's kind; no word past the last. The kind of one exact value, which has none, is read as `any`.
pub fn kind_word(kind: u8) -> u64
    ensures { result ≡ packed (get_or clause_words (kind - any_kind) []) }
{
    KIND_WORDS
        .get(usize::from(kind.saturating_sub(ANY)))
        .copied()
        .unwrap_or(NO_WORD)
}

// What stands behind the key of a line.
fn behind_key<'a>(line: &'a [u8], key: &[u8]) -> Result<&'a [u8], Fault>
    ensures { MatchResult result
        (λ rest. (starts_with key.now line.now ≡ true) × (rest.now ≡ drop (length key.now) line.now))
        (λ e. (starts_with key.now line.now ≡ false) × (e ≡ Malformed)) }
{
    line.strip_prefix(key).ok_or(Fault::Malformed)
}

// What follows `op=`: a word and its operands.
fn read_op(rest: &[u8], count: u8, len: u8) -> Result<Op, Fault>
    ensures { fault_told (λ o. o) result ≡ op (coded_of count len (fields_of rest.now)) }
{
    let e = text::find(rest, 0, b',');
    match place_among(&OP_WORDS, &rest[..e]) {
        Some(k) => operands(rest, e, k as u8, count, len),
        None => Err(Fault::Malformed),
    }
}

// The operands of op `number`, whose word ends at `word`, each read by its kind. A comma stands at e, or the line ends there. 11 is told at
// once, and 12 only at the end of the line, since 11 comes before it.
fn operands(rest: &[u8], word: usize, number: u8, count: u8, len: u8) -> Result<Op, Fault>
    requires { FieldEnd rest.now word × (number < op_count) }
    ensures { fault_told (λ o. o) result ≡ op (op_of count len number (behind_field word rest.now)) }
{
    let mut op = Op {
        number,
        ..Op::blank()
    };
    let mut out_of_range = false;
    let mut e = word;
    for i in 0..node::operand_count(number) {
        if rest.len() <= e {
            return Err(Fault::Malformed);
        }
        let at = e + 1;
        e = text::find(rest, at, b',');
        match with_operand(op, node::operand_kind(number, i), &rest[at..e], count, len) {
            Ok(more) => op = more,
            Err(Fault::Malformed) => return Err(Fault::Malformed),
            Err(Fault::OutOfRange) => out_of_range = true,
        }
    }
    if e < rest.len() {
        return Err(Fault::Malformed);
    }
    if out_of_range {
        return Err(Fault::OutOfRange);
    }
    Ok(op)
}

// An op with an operand of a kind, which is read from s.
#[tactic(auto, using(crate::proofs::Told::put), unfolding(crate::specs::Ops::with_operand, crate::specs::Ops::operand_of))]
fn with_operand(op: Op, kind: OperandKind, s: &[u8], count: u8, len: u8) -> Result<Op, Fault>
    ensures { let x = operand_of count len kind s.now in fault_told (λ o. o) result ≡ answered x.refusal (with_operand op kind x) }
{
    match kind {
        OperandKind::NoOperand => {
            text::read_ranged(s, 0, 0)?;
            Ok(op)
        }
        OperandKind::RegisterR => Ok(Op {
            r: text::read_ranged(s, 0, 3)?,
            ..op
        }),
        OperandKind::RegisterS => Ok(Op {
            s: text::read_ranged(s, 0, 3)?,
            ..op
        }),
        OperandKind::ValueV => Ok(Op {
            value: text::read_value(s)?,
            ..op
        }),
        OperandKind::PlaceT => Ok(Op {
            target: text::read_ranged(s, 0, len)?,
            ..op
        }),
        OperandKind::BehaviourB => Ok(Op {
            behaviour: BehaviourNumber(text::read_ranged(s, 1, count)?),
            ..op
        }),
        OperandKind::ProcessQ => Ok(Op {
            process: ProcessNumber(text::read_ranged(s, 1, 16)?),
            ..op
        }),
        OperandKind::FlagF => Ok(Op {
            small: text::read_ranged(s, 0, 1)?,
            ..op
        }),
        OperandKind::CountN => Ok(Op {
            small: text::read_ranged(s, 1, 8)?,
            ..op
        }),
        OperandKind::KindK => {
            let (small, value) = clause_kind(s)?;
            Ok(Op { small, value, ..op })
        }
    }
}

// A clause's kind: a word, or one exact value.
fn clause_kind(s: &[u8]) -> Result<(u8, Value), Fault>
    ensures { let x = clause_kind s.now in fault_told kind_read result ≡ answered x.refusal x }
{
    match place_among(&KIND_WORDS, s) {
        Some(k) => Ok(((k as u8) + ANY, Value::ZERO)),
        None => Ok((EXACT, text::read_value(s)?)),
    }
}

// Which of some words it is, from 0, by their numbers.
fn place_among(table: &[u64], word: &[u8]) -> Option<usize>
    ensures { (words : List (List ℕ)) → table.now ≡ map packed words → IsTrue (all_of is_word words) → result ≡ found (index_of word.now words) (length words) }
{
    words::place_of(table, words::word_code(word)?)
}

// What follows `start=`: a process and a behaviour. 11 is told before 12.
#[tactic(auto, using(crate::proofs::Starts::pairs), unfolding(crate::specs::Lines::start_of))]
fn read_start(rest: &[u8], count: u8) -> Result<Start, Fault>
    ensures { fault_told start_read result ≡ start (start_of count (fields_of rest.now)) }
{
    if text::count_fields(rest) != 2 {
        return Err(Fault::Malformed);
    }
    let behaviour = text::read_ranged(text::field(rest, 1), 1, count);
    match text::read_ranged(text::field(rest, 0), 1, 16) {
        Ok(i) => Ok(Start {
            process: ProcessNumber(i),
            behaviour: BehaviourNumber(behaviour?),
        }),
        Err(Fault::OutOfRange) => Err(behaviour.err().unwrap_or(Fault::OutOfRange)),
        Err(Fault::Malformed) => Err(Fault::Malformed),
    }
}
