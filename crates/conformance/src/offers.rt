// Suggestions: the first step that would be accepted, in the order of request M-105, and none.
use super::{calls, parts, show};
use node::{Node, Step};
use std::io;

pub(crate) fn all(rt: &impl Print) -> io::Result<()> {
    nobody(rt)?;
    waiting(rt)?;
    blocked(rt)?;
    all_gone(rt)?;
    one_run(rt)?;
    one_timeout(rt)?;
    one_arrival(rt)?;
    last_process(rt)?;
    lowest_owner(rt)?;
    last_sender(rt)?;
    run_first(rt)?;
    timeout_first(rt)?;
    lowest_sender(rt)?;
    closing(rt)?;
    number_taken(rt)?;
    mailbox_full(rt)
}

// Nothing can be done where all are unborn.
fn nobody(rt: &impl Print) -> io::Result<()> {
    show::title(rt, b"suggest: nobody is born")?;
    suggest(rt, Node::blank())
}

fn waiting(rt: &impl Print) -> io::Result<()> {
    show::title(rt, b"suggest: a process waits")?;
    suggest(rt, calls::receiving())
}

// Process 1 sends to a full pair (26), and process 4, to whom the signals go, is unborn (21).
fn blocked(rt: &impl Print) -> io::Result<()> {
    suggested(
        rt,
        b"suggest: a full pair to an unborn process",
        b"plan=1
behaviours=1
code=3
op=set,0,p4
op=send,0,0
op=jump,1
starts=1
start=1,1
",
        b"run=1
run=1
run=1
run=1
run=1
run=1
run=1
run=1
run=1
",
    )
}

// A gone process owns no run, and nothing is in flight.
fn all_gone(rt: &impl Print) -> io::Result<()> {
    suggested(
        rt,
        b"suggest: all are gone",
        b"plan=1
behaviours=1
code=1
op=stop,0
starts=1
start=1,1
",
        b"run=1
run=1
",
    )
}

// Only the run of process 1 would be accepted.
fn one_run(rt: &impl Print) -> io::Result<()> {
    show::title(rt, b"suggest: one run")?;
    suggest(rt, calls::stopping())
}

// Process 2 waits with a message that does not fit, and may give up.
fn one_timeout(rt: &impl Print) -> io::Result<()> {
    suggested(
        rt,
        b"suggest: one timeout",
        b"plan=1
behaviours=1
code=5
op=self,0
op=send,0,0
op=recv,1
op=clause,int,1,1,5
op=after,5
starts=1
start=2,1
",
        b"run=2
run=2
arrive=2,2
",
    )
}

// Processes 2 and 3 wait, and a signal is in flight from 2 to 3.
fn one_arrival(rt: &impl Print) -> io::Result<()> {
    suggested(
        rt,
        b"suggest: one arrival",
        b"plan=1
behaviours=2
code=4
op=set,0,p3
op=send,0,0
op=recv,1
op=clause,any,1,1,4
code=2
op=recv,1
op=clause,any,0,0,2
starts=2
start=2,1
start=3,2
",
        b"run=2
run=2
",
    )
}

// Process 16 waits for the message that it sent to itself: the last of all steps.
fn last_process(rt: &impl Print) -> io::Result<()> {
    suggested(
        rt,
        b"suggest: the last process",
        b"plan=1
behaviours=1
code=4
op=self,0
op=send,0,0
op=recv,1
op=clause,any,1,1,4
starts=1
start=16,1
",
        b"run=16
run=16
",
    )
}

// Three processes could run: the lowest is named, and not the first of the steps that led here.
fn lowest_owner(rt: &impl Print) -> io::Result<()> {
    suggested(
        rt,
        b"suggest: the lowest of three owners",
        b"plan=1
behaviours=1
code=2
op=self,0
op=send,0,0
starts=3
start=2,1
start=5,1
start=7,1
",
        b"run=7
run=5
run=2
run=2
",
    )
}

// Process 1 waits, 16 has sent to it, and 2 could run: the owner comes first.
fn last_sender(rt: &impl Print) -> io::Result<()> {
    suggested(
        rt,
        b"suggest: an arrival from 16 before a run of 2",
        b"plan=1
behaviours=3
code=2
op=recv,1
op=clause,any,0,0,2
code=1
op=stop,0
code=2
op=set,0,p1
op=send,0,0
starts=3
start=1,1
start=2,2
start=16,3
",
        b"run=16
run=16
",
    )
}

// What process 1 sent to itself is in flight, and it could run on.
fn run_first(rt: &impl Print) -> io::Result<()> {
    suggested(
        rt,
        b"suggest: a run before an arrival",
        b"plan=1
behaviours=1
code=3
op=self,0
op=send,0,0
op=stop,0
starts=1
start=1,1
",
        b"run=1
run=1
",
    )
}

// What process 1 sent to itself is in flight, and it may give up waiting.
fn timeout_first(rt: &impl Print) -> io::Result<()> {
    suggested(
        rt,
        b"suggest: a timeout before an arrival",
        b"plan=1
behaviours=1
code=5
op=self,0
op=send,0,0
op=recv,1
op=clause,any,1,1,5
op=after,5
starts=1
start=1,1
",
        b"run=1
run=1
",
    )
}

// Processes 3 and 2 have sent to process 1, in this order.
fn lowest_sender(rt: &impl Print) -> io::Result<()> {
    suggested(
        rt,
        b"suggest: the lower of two senders",
        b"plan=1
behaviours=2
code=2
op=recv,1
op=clause,any,0,0,2
code=2
op=set,0,p1
op=send,0,0
starts=3
start=1,1
start=2,2
start=3,2
",
        b"run=3
run=3
run=2
run=2
",
    )
}

// Process 1 has ended; 2 is live.
fn closing(rt: &impl Print) -> io::Result<()> {
    suggested(
        rt,
        b"suggest: a run of a closing process",
        b"plan=1
behaviours=1
code=1
op=stop,0
starts=2
start=1,1
start=2,1
",
        b"run=1
",
    )
}

// The run of process 1 is refused with 27.
fn number_taken(rt: &impl Print) -> io::Result<()> {
    suggested(
        rt,
        b"suggest: behind a spawn of a born process",
        b"plan=1
behaviours=2
code=1
op=spawn,0,2,2
code=1
op=stop,0
starts=2
start=1,1
start=2,2
",
        b"",
    )
}

// Process 1 has sixteen integers, and waits for a process number: its run is refused with 29, an arrival with 24.
fn mailbox_full(rt: &impl Print) -> io::Result<()> {
    show::title(rt, b"suggest: behind an arrival at a full mailbox")?;
    let n = parts::with_messages(
        show::reached(
            b"plan=1
behaviours=2
code=2
op=recv,1
op=clause,pid,0,1,2
code=1
op=stop,0
starts=2
start=1,1
start=2,2
",
            b"",
        ),
        16,
    );
    suggest(rt, parts::with_signals(n, parts::SECOND_TO_FIRST, 1))
}

// What is suggested where a plan and steps lead.
fn suggested(rt: &impl Print, name: &[u8], plan: &[u8], steps: &[u8]) -> io::Result<()> {
    show::title(rt, name)?;
    suggest(rt, show::reached(plan, steps))
}

// The step that is suggested, and its refusal when it is taken.
pub(crate) fn suggest(rt: &impl Print, n: Node) -> io::Result<()> {
    let s = engine::suggest(n);
    match s {
        Err(_) => rt.write_all(b"31\n"),
        Ok(Some(step)) => {
            named(rt, step)?;
            take(rt, n, step)
        }
        Ok(None) => rt.write_all(b"none\n"),
    }
}

// A step, with its `from` also where a steps text has none: it is 0 there.
fn named(rt: &impl Print, s: Step) -> io::Result<()> {
    let owner = s.owner;
    let from = s.from;
    if s.kind == 0 {
        return show::two(rt, b"run=", owner.0 as u64, from.0 as u64);
    }
    if s.kind == 2 {
        return show::two(rt, b"timeout=", owner.0 as u64, from.0 as u64);
    }
    show::two(rt, b"arrive=", owner.0 as u64, from.0 as u64)
}

fn take(rt: &impl Print, n: Node, s: Step) -> io::Result<()> {
    show::stepped(rt, engine::step(n, s))
}
