// Limits of the ops of a behaviour: each broken alone, 31, beside the neighbour that keeps it. The op is put in the place of the jump or of
// the clause.
use super::parts::{AT_CLAUSE, AT_JUMP};
use super::{holds, parts, refused, show, unsound};
use node::{ANY, BehaviourNumber, EXACT, LAST_KIND, Node, Op, ProcessNumber, Value};
use std::io;

pub(crate) fn all(rt: &impl Print) -> io::Result<()> {
    behaviours(rt)?;
    registers(rt)?;
    clause_registers(rt)?;
    smalls(rt)?;
    receives(rt)?;
    spawns(rt)?;
    targets(rt)?;
    other_targets(rt)?;
    values(rt)?;
    clauses(rt)?;
    unread(rt)
}

pub(crate) fn plain(number: u8) -> Op {
    Op {
        number,
        r: 0,
        s: 0,
        target: 0,
        small: 0,
        process: ProcessNumber(1),
        behaviour: BehaviourNumber(1),
        value: Value::ZERO,
    }
}

fn with_registers(number: u8, r: u8, s: u8) -> Op {
    Op {
        r,
        s,
        ..plain(number)
    }
}

pub(crate) fn with_small(number: u8, small: u8) -> Op {
    Op {
        small,
        ..plain(number)
    }
}

pub(crate) fn with_target(number: u8, target: u8) -> Op {
    Op {
        target,
        ..plain(number)
    }
}

pub(crate) fn with_value(number: u8, small: u8, value: Value) -> Op {
    Op {
        small,
        value,
        ..plain(number)
    }
}

fn spawn(b: u8, q: u8) -> Op {
    Op {
        process: ProcessNumber(q),
        behaviour: BehaviourNumber(b),
        ..plain(9)
    }
}

// The longest behaviour, and the last op.
fn behaviours(rt: &impl Print) -> io::Result<()> {
    holds::whole(
        rt,
        b"sound: a behaviour of 32 ops",
        unsound::with_length(32),
    )?;
    holds::whole(
        rt,
        b"sound: the last op number",
        parts::with_op(AT_JUMP, plain(15)),
    )
}

// Registers are 0 to 3.
fn registers(rt: &impl Print) -> io::Result<()> {
    refused::whole(
        rt,
        b"31 an op with r4",
        parts::with_op(AT_JUMP, with_registers(2, 4, 0)),
    )?;
    holds::whole(
        rt,
        b"sound: an op with r3",
        parts::with_op(AT_JUMP, with_registers(2, 3, 0)),
    )?;
    refused::whole(
        rt,
        b"31 an op with s4",
        parts::with_op(AT_JUMP, with_registers(1, 0, 4)),
    )?;
    holds::whole(
        rt,
        b"sound: an op with s3",
        parts::with_op(AT_JUMP, with_registers(1, 0, 3)),
    )
}

fn clause_registers(rt: &impl Print) -> io::Result<()> {
    refused::whole(
        rt,
        b"31 a clause with r4",
        parts::with_op(AT_CLAUSE, with_registers(11, 4, 0)),
    )?;
    refused::whole(
        rt,
        b"31 a clause with s4",
        parts::with_op(AT_CLAUSE, with_registers(11, 0, 4)),
    )?;
    holds::whole(
        rt,
        b"sound: a clause with r3, s3",
        parts::with_op(AT_CLAUSE, with_registers(11, 3, 3)),
    )
}

// A trap flag is 0 or 1, a clause's kind one of seven.
fn smalls(rt: &impl Print) -> io::Result<()> {
    refused::whole(
        rt,
        b"31 a trap flag of 7",
        parts::with_op(AT_JUMP, with_small(8, 7)),
    )?;
    refused::whole(
        rt,
        b"31 a trap flag of 2",
        parts::with_op(AT_JUMP, with_small(8, 2)),
    )?;
    holds::whole(
        rt,
        b"sound: a trap flag of 1",
        parts::with_op(AT_JUMP, with_small(8, 1)),
    )?;
    refused::whole(
        rt,
        b"31 a clause of no kind",
        parts::with_op(AT_CLAUSE, with_small(11, LAST_KIND + 1)),
    )?;
    holds::whole(
        rt,
        b"sound: a clause of the last kind",
        parts::with_op(AT_CLAUSE, with_small(11, LAST_KIND)),
    )
}

// A recv has 1 to 8 clauses.
fn receives(rt: &impl Print) -> io::Result<()> {
    refused::whole(
        rt,
        b"31 a recv of no clauses",
        parts::with_op(AT_JUMP, with_small(10, 0)),
    )?;
    refused::whole(rt, b"31 a recv of nine clauses", nine_clauses())?;
    holds::whole(rt, b"sound: a recv of eight clauses", eight_clauses())
}

fn eight_clauses() -> Node {
    show::reached(
        b"plan=1
behaviours=1
code=10
op=recv,8
op=clause,any,0,0,0
op=clause,any,0,0,0
op=clause,any,0,0,0
op=clause,any,0,0,0
op=clause,any,0,0,0
op=clause,any,0,0,0
op=clause,any,0,0,0
op=clause,any,0,0,0
op=stop,0
starts=1
start=1,1
",
        b"",
    )
}

// The op behind the eight clauses is a ninth, and the recv says so.
fn nine_clauses() -> Node {
    let mut n = eight_clauses();
    n.ops[0].small = 9;
    n.ops[9].number = 11;
    n
}

// A spawn names a behaviour of the node and a process number.
fn spawns(rt: &impl Print) -> io::Result<()> {
    refused::whole(
        rt,
        b"31 a spawn of behaviour 0",
        parts::with_op(AT_JUMP, spawn(0, 1)),
    )?;
    refused::whole(
        rt,
        b"31 a spawn of behaviour 2",
        parts::with_op(AT_JUMP, spawn(2, 1)),
    )?;
    refused::whole(
        rt,
        b"31 a spawn of process 0",
        parts::with_op(AT_JUMP, spawn(1, 0)),
    )?;
    refused::whole(
        rt,
        b"31 a spawn of process 17",
        parts::with_op(AT_JUMP, spawn(1, 17)),
    )?;
    holds::whole(
        rt,
        b"sound: a spawn of process 16",
        parts::with_op(AT_JUMP, spawn(1, 16)),
    )
}

// A target place is 0 to N.
fn targets(rt: &impl Print) -> io::Result<()> {
    refused::whole(
        rt,
        b"31 a jump past the end",
        parts::with_op(AT_JUMP, with_target(12, 4)),
    )?;
    holds::whole(
        rt,
        b"sound: a jump to the end",
        parts::with_op(AT_JUMP, with_target(12, 3)),
    )?;
    refused::whole(
        rt,
        b"31 a clause that leads past the end",
        parts::with_op(AT_CLAUSE, with_target(11, 4)),
    )?;
    holds::whole(
        rt,
        b"sound: a clause that leads to the end",
        parts::with_op(AT_CLAUSE, with_target(11, 3)),
    )
}

fn other_targets(rt: &impl Print) -> io::Result<()> {
    refused::whole(
        rt,
        b"31 a same past the end",
        parts::with_op(AT_JUMP, with_target(13, 4)),
    )?;
    refused::whole(
        rt,
        b"31 a less past the end",
        parts::with_op(AT_JUMP, with_target(14, 4)),
    )?;
    refused::whole(
        rt,
        b"31 a same to a clause",
        parts::with_op(AT_JUMP, with_target(13, 1)),
    )?;
    refused::whole(
        rt,
        b"31 a less to a clause",
        parts::with_op(AT_JUMP, with_target(14, 1)),
    )?;
    refused::whole(
        rt,
        b"31 a clause that leads to a clause",
        parts::with_op(AT_CLAUSE, with_target(11, 1)),
    )
}

// A process number as an operand is 1 to 16.
fn values(rt: &impl Print) -> io::Result<()> {
    refused::whole(
        rt,
        b"31 a set to p0",
        parts::with_op(AT_JUMP, with_value(0, 0, parts::pid(0))),
    )?;
    refused::whole(
        rt,
        b"31 a set to p17",
        parts::with_op(AT_JUMP, with_value(0, 0, parts::pid(17))),
    )?;
    holds::whole(
        rt,
        b"sound: a set to p16",
        parts::with_op(AT_JUMP, with_value(0, 0, parts::pid(16))),
    )?;
    refused::whole(
        rt,
        b"31 a same with p17",
        parts::with_op(AT_JUMP, with_value(13, 0, parts::pid(17))),
    )?;
    refused::whole(
        rt,
        b"31 a clause of p17",
        parts::with_op(AT_CLAUSE, with_value(11, EXACT, parts::pid(17))),
    )?;
    holds::whole(
        rt,
        b"sound: a clause of p16",
        parts::with_op(AT_CLAUSE, with_value(11, EXACT, parts::pid(16))),
    )
}

// A clause belongs to a recv.
fn clauses(rt: &impl Print) -> io::Result<()> {
    refused::whole(rt, b"31 a stray clause", parts::with_op(AT_JUMP, plain(11)))?;
    refused::whole(
        rt,
        b"31 a recv before the end",
        parts::with_op(AT_JUMP, with_small(10, 1)),
    )
}

// What an op does not have as an operand is not looked at, nor a behaviour past the count.
fn unread(rt: &impl Print) -> io::Result<()> {
    holds::whole(
        rt,
        b"sound: a jump with r200",
        parts::with_op(AT_JUMP, with_registers(12, 200, 200)),
    )?;
    holds::whole(
        rt,
        b"sound: a clause of any kind, with p17",
        parts::with_op(AT_CLAUSE, with_value(11, ANY, parts::pid(17))),
    )?;
    holds::whole(rt, b"sound: a length past the count", with_unread_length())
}

fn with_unread_length() -> Node {
    let mut n = parts::started();
    n.lens[1] = 33;
    n
}
