// Exit signals at a full mailbox, line by line of document 01: only the third, where a note would join, is refused with 24.
use super::parts::SECOND_TO_FIRST;
use super::{parts, show};
use node::{Node, Process, ProcessNumber, Signal, Value};
use std::io;

pub(crate) fn all(rt: &impl Print) -> io::Result<()> {
    not_linked(rt)?;
    killed(rt)?;
    noted(rt)?;
    normal(rt)?;
    ended(rt)
}

// Process 1 as p, with sixteen messages; the signal is in flight to it from process 2, and arrives.
fn arrives(rt: &impl Print, name: &[u8], p: Process, x: Signal) -> io::Result<()> {
    show::title(rt, name)?;
    let n = with_signal(p, x);
    let numbers = [65794u32];
    show::played(rt, engine::play(n, &numbers))
}

fn with_signal(p: Process, x: Signal) -> Node {
    let n = parts::with_messages(parts::with_process(p), 16);
    parts::with_signal(n, SECOND_TO_FIRST, x)
}

fn trapping() -> Process {
    parts::first_process().trapped(true)
}

fn linked(p: Process) -> Process {
    p.linked(ProcessNumber(2))
}

// Line 1: linked, and the sender is no link.
fn not_linked(rt: &impl Print) -> io::Result<()> {
    arrives(
        rt,
        b"full mailbox: a linked exit from no link",
        trapping(),
        Signal::Exit(Value::Atom(9), true),
    )
}

// Line 2: kill, trap or no trap.
fn killed(rt: &impl Print) -> io::Result<()> {
    arrives(
        rt,
        b"full mailbox: kill, trapped",
        trapping(),
        Signal::Exit(Value::KILL, false),
    )?;
    arrives(
        rt,
        b"full mailbox: kill",
        parts::first_process(),
        Signal::Exit(Value::KILL, false),
    )
}

// Line 3: trapped, a note would join, of a linked kill too.
fn noted(rt: &impl Print) -> io::Result<()> {
    arrives(
        rt,
        b"full mailbox: an exit, trapped",
        trapping(),
        Signal::Exit(Value::NORMAL, false),
    )?;
    arrives(
        rt,
        b"full mailbox: a linked kill, trapped",
        linked(trapping()),
        Signal::Exit(Value::KILL, true),
    )
}

// Line 4: normal from another.
fn normal(rt: &impl Print) -> io::Result<()> {
    arrives(
        rt,
        b"full mailbox: normal from another",
        parts::first_process(),
        Signal::Exit(Value::NORMAL, false),
    )
}

// Line 5: the process ends, of a linked kill with a1.
fn ended(rt: &impl Print) -> io::Result<()> {
    arrives(
        rt,
        b"full mailbox: an exit",
        parts::first_process(),
        Signal::Exit(Value::Atom(9), false),
    )?;
    arrives(
        rt,
        b"full mailbox: a linked kill",
        linked(parts::first_process()),
        Signal::Exit(Value::KILL, true),
    )
}
