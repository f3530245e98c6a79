// The public calls: rows of steps at their limit, and single steps.
use super::show;
use node::{Node, ProcessNumber, Step};
use std::io;

pub(crate) fn all(rt: &impl Print) -> io::Result<()> {
    longest(rt)?;
    too_long(rt)?;
    too_long_first(rt)?;
    steps(rt)
}

// Process 1 counts its turns in r0.
pub(crate) fn counting() -> Node {
    show::reached(
        b"plan=1
behaviours=1
code=3
op=set,1,i1
op=add,0,1
op=jump,1
starts=1
start=1,1
",
        b"",
    )
}

// A row of 4,096 runs of process 1 is played whole.
fn longest(rt: &impl Print) -> io::Result<()> {
    let numbers = [256u32; 4096];
    played(rt, b"32 4,096 steps", &numbers)
}

// Of a row of 4,097 none is played.
fn too_long(rt: &impl Print) -> io::Result<()> {
    let numbers = [256u32; 4097];
    played(rt, b"32 4,097 steps", &numbers)
}

// 32 is looked at before 20 of the first step.
fn too_long_first(rt: &impl Print) -> io::Result<()> {
    let numbers = [0u32; 4097];
    played(rt, b"32 before 20", &numbers)
}

fn played(rt: &impl Print, name: &[u8], numbers: &[u32]) -> io::Result<()> {
    show::title(rt, name)?;
    show::played(rt, engine::play(counting(), numbers))
}

// A single step: a run or a timeout, of which `from` means nothing; an arrival; and a record whose kind is none of these.
fn steps(rt: &impl Print) -> io::Result<()> {
    one_step(rt, b"step run", 0, 99)?;
    one_step(rt, b"step arrival", 1, 1)?;
    one_step(rt, b"step timeout", 2, 99)?;
    one_step(rt, b"step of no kind", 3, 1)
}

// A step of process 1, which stands at a stop.
fn one_step(rt: &impl Print, name: &[u8], kind: u8, from: u8) -> io::Result<()> {
    show::title(rt, name)?;
    stepped(rt, stopping(), kind, from)
}

// What a step of process 1 tells, and the node then.
pub(crate) fn stepped(rt: &impl Print, n: Node, kind: u8, from: u8) -> io::Result<()> {
    let s = Step {
        kind,
        owner: ProcessNumber(1),
        from: ProcessNumber(from),
    };
    let told = engine::step(n, s);
    show::stepped(rt, told)?;
    show::listed(rt, told.unwrap_or(n))
}

pub(crate) fn stopping() -> Node {
    show::reached(
        b"plan=1
behaviours=1
code=1
op=stop,0
starts=1
start=1,1
",
        b"",
    )
}

// A process that waits for mail, with nothing in flight.
pub(crate) fn receiving() -> Node {
    show::reached(
        b"plan=1
behaviours=1
code=2
op=recv,1
op=clause,any,0,1,2
starts=1
start=1,1
",
        b"",
    )
}
