// `after` and timeouts on nodes that no text makes: each rule of soundness on an `after` broken alone, 31, beside what keeps it, and an op
// past the end of a code.
use super::parts::{AT_CLAUSE, AT_JUMP};
use super::{calls, codes, holds, parts, refused, show};
use node::{Node, Op};
use std::io;

pub(crate) fn all(rt: &impl Print) -> io::Result<()> {
    placed(rt)?;
    targets(rt)?;
    led_to(rt)?;
    past_the_code(rt)
}

fn after(target: u8) -> Op {
    codes::with_target(18, target)
}

// Directly behind the last clause of a recv, and nowhere else; no process stands at one.
fn placed(rt: &impl Print) -> io::Result<()> {
    holds::whole(
        rt,
        b"sound: an after behind the last clause",
        parts::with_op(AT_JUMP, after(0)),
    )?;
    refused::whole(
        rt,
        b"31 an after in the place of a clause",
        parts::with_op(AT_CLAUSE, after(0)),
    )?;
    refused::whole(rt, b"31 a stray after", stray())?;
    refused::whole(rt, b"31 a second after", with_last(after(4)))?;
    refused::whole(rt, b"31 a place on an after", standing_on_it())
}

// A code of one op, with the process at its end.
fn stray() -> Node {
    let mut n = calls::stopping();
    n.ops[0] = after(1);
    n.processes[0] = parts::first_process().moved(1);
    n
}

// An op behind the `after`, where a plan has a stop.
fn with_last(o: Op) -> Node {
    let mut n = show::reached(
        b"plan=1
behaviours=1
code=4
op=recv,1
op=clause,any,0,1,4
op=after,4
op=stop,0
starts=1
start=1,1
",
        b"",
    );
    n.ops[3] = o;
    n
}

fn standing_on_it() -> Node {
    let mut n = parts::with_op(AT_JUMP, after(0));
    n.processes[0] = parts::first_process().moved(2);
    n
}

// Its own target is 0 to N, and on no part of a recv.
fn targets(rt: &impl Print) -> io::Result<()> {
    holds::whole(
        rt,
        b"sound: an after to the end",
        parts::with_op(AT_JUMP, after(3)),
    )?;
    refused::whole(
        rt,
        b"31 an after past the end",
        parts::with_op(AT_JUMP, after(4)),
    )?;
    refused::whole(
        rt,
        b"31 an after to a clause",
        parts::with_op(AT_JUMP, after(1)),
    )?;
    refused::whole(
        rt,
        b"31 an after to itself",
        parts::with_op(AT_JUMP, after(2)),
    )
}

// No other target leads to one.
fn led_to(rt: &impl Print) -> io::Result<()> {
    holds::whole(
        rt,
        b"sound: a jump behind an after",
        with_last(codes::with_target(12, 0)),
    )?;
    refused::whole(
        rt,
        b"31 a jump to an after",
        with_last(codes::with_target(12, 2)),
    )?;
    refused::whole(
        rt,
        b"31 a same to an after",
        with_last(codes::with_target(13, 2)),
    )?;
    refused::whole(rt, b"31 a clause that leads to an after", with_clause_to(2))
}

fn with_clause_to(target: u8) -> Node {
    let mut n = parts::with_op(AT_JUMP, after(0));
    n.ops[1].target = target;
    n
}

// What stands in the array behind the last op of a code is no part of it.
fn past_the_code(rt: &impl Print) -> io::Result<()> {
    show::title(rt, b"28 an after past the end of the code")?;
    let mut n = calls::receiving();
    n.ops[2] = after(0);
    show::timeout(rt, n)
}
