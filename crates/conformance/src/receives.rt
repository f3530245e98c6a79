// What a run tells of a mailbox where nothing fits: 25 where it is empty, 29 where it has messages. Both leave the node as it was, allow a
// timeout, and are refusals to a suggestion.
use super::parts::SECOND_TO_FIRST;
use super::{calls, offers, parts, show, unsound};
use engine::Played;
use node::{Message, Node, ProcessNumber, Signal, Slot, Value};
use std::io;

pub(crate) fn all(rt: &impl Print) -> io::Result<()> {
    empty(rt)?;
    unfit(rt)?;
    behind_others(rt)?;
    until_it_arrives(rt)?;
    nothing_to_suggest(rt)
}

// Process 1 waits for an atom, and may give up.
fn waiting() -> Node {
    show::reached(
        b"plan=1
behaviours=1
code=3
op=recv,1
op=clause,atom,1,2,3
op=after,3
starts=1
start=1,1
",
        b"",
    )
}

// It waits with so many messages i0, and m behind them.
fn with_message(before: u8, m: Message) -> Node {
    parts::with_message(waiting(), before, m)
}

fn empty(rt: &impl Print) -> io::Result<()> {
    tried(rt, b"25 an empty mailbox", waiting())
}

// Every message counts: a value, a note or a down, and sixteen of them as well as one.
fn unfit(rt: &impl Print) -> io::Result<()> {
    tried(
        rt,
        b"29 a value that does not fit",
        with_message(0, Message::Plain(parts::pid(2))),
    )?;
    tried(
        rt,
        b"29 a note that does not fit",
        with_message(0, Message::Note(ProcessNumber(2), Value::KILL)),
    )?;
    tried(
        rt,
        b"29 a down that does not fit",
        with_message(0, Message::Down(ProcessNumber(2), Value::NOPROC)),
    )?;
    tried(
        rt,
        b"29 sixteen messages that do not fit",
        parts::with_messages(waiting(), 16),
    )
}

// The run is accepted, and the timeout is refused with 28.
fn behind_others(rt: &impl Print) -> io::Result<()> {
    tried(
        rt,
        b"28 a fit behind fifteen others",
        with_message(15, Message::Plain(Value::Atom(9))),
    )
}

// A run of process 1, by each of the calls, with the node that the first hands out; then a timeout of it.
fn tried(rt: &impl Print, name: &[u8], n: Node) -> io::Result<()> {
    show::title(rt, name)?;
    calls::stepped(rt, n, 0, 0)?;
    let numbers = [256u32];
    unsound::both_ways(rt, n, &numbers)?;
    show::timeout(rt, n)
}

// On the node of the refused run the fit arrives behind the message that does not fit, and the next run takes it.
fn until_it_arrives(rt: &impl Print) -> io::Result<()> {
    show::title(rt, b"29 until a fit arrives")?;
    let n = with_message(0, Message::Plain(parts::pid(2)));
    let numbers = [256u32];
    continued(rt, engine::play(with_fit(n), &numbers))
}

fn with_fit(n: Node) -> Node {
    parts::with_signal(n, SECOND_TO_FIRST, Signal::Msg(Value::Atom(9)))
}

fn continued(rt: &impl Print, r: Played) -> io::Result<()> {
    show::two(rt, b"play=", r.accepted as u64, show::number(r.refusal))?;
    let numbers = [65794u32, 256];
    show::played(rt, engine::play(r.node, &numbers))
}

// Four processes wait for an integer, the first with no message, the others with a value, a note and a down: no run is accepted.
fn nothing_to_suggest(rt: &impl Print) -> io::Result<()> {
    show::title(
        rt,
        b"suggest: one hears nothing, three hear what does not fit",
    )?;
    let n = waiting_in_vain();
    each_runs(rt, n)?;
    offers::suggest(rt, n)
}

fn waiting_in_vain() -> Node {
    let mut n = show::reached(
        b"plan=1
behaviours=1
code=2
op=recv,1
op=clause,int,1,1,2
starts=4
start=1,1
start=2,1
start=3,1
start=4,1
",
        b"",
    );
    n.waiting[1] = 1;
    n.waiting[2] = 1;
    n.waiting[3] = 1;
    n.slots[16] = Slot {
        message: Message::Plain(parts::pid(2)),
    };
    n.slots[32] = Slot {
        message: Message::Note(ProcessNumber(2), Value::KILL),
    };
    n.slots[48] = Slot {
        message: Message::Down(ProcessNumber(2), Value::NOPROC),
    };
    n
}

fn each_runs(rt: &impl Print, n: Node) -> io::Result<()> {
    let first = [256u32];
    show::told(rt, n, &first)?;
    let second = [512u32];
    show::told(rt, n, &second)?;
    let third = [768u32];
    show::told(rt, n, &third)?;
    let fourth = [1024u32];
    show::told(rt, n, &fourth)
}
