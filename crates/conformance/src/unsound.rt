// Nodes that are not sound, each made by one change of a started node: every call says 31 and nothing else.
use super::parts::{AT_JUMP, AT_RECV, FIRST_TO_ITSELF, FIRST_TO_SECOND};
use super::{codes, holds, parts, refused, show};
use engine::Played;
use node::{Message, Node, ProcessNumber, Signal, Value};
use std::io;

pub(crate) fn all(rt: &impl Print) -> io::Result<()> {
    behaviours(rt)?;
    codes(rt)?;
    places(rt)?;
    registers(rt)?;
    mailboxes(rt)?;
    flights(rt)?;
    flights_to_itself(rt)?;
    leaves(rt)?;
    first(rt)?;
    sound_flights(rt)?;
    sound_leftovers(rt)
}

// The number of behaviours is 1 to 8, their length 1 to 32.
fn behaviours(rt: &impl Print) -> io::Result<()> {
    refused::whole(rt, b"31 no behaviours", with_count(0))?;
    refused::whole(rt, b"31 nine behaviours", with_count(9))?;
    refused::whole(rt, b"31 a behaviour without ops", with_length(0))?;
    refused::whole(rt, b"31 a behaviour of 33 ops", with_length(33))
}

fn with_count(count: u8) -> Node {
    let mut n = parts::started();
    n.count = count;
    n
}

pub(crate) fn with_length(length: u8) -> Node {
    let mut n = parts::started();
    n.lens[0] = length;
    n
}

// Behaviours pass the plan's rules.
fn codes(rt: &impl Print) -> io::Result<()> {
    refused::whole(
        rt,
        b"31 an op that is none",
        parts::with_op(AT_JUMP, codes::plain(19)),
    )?;
    refused::whole(
        rt,
        b"31 a recv without its clauses",
        parts::with_op(AT_RECV, codes::with_small(10, 2)),
    )?;
    refused::whole(
        rt,
        b"31 a target place on a clause",
        parts::with_op(AT_JUMP, codes::with_target(12, 1)),
    )
}

// A place is 0 to N and on no clause; the node has the behaviour.
fn places(rt: &impl Print) -> io::Result<()> {
    refused::whole(
        rt,
        b"31 a place past the end",
        parts::with_process(parts::first_process().moved(4)),
    )?;
    refused::whole(
        rt,
        b"31 a place on a clause",
        parts::with_process(parts::first_process().moved(1)),
    )?;
    refused::whole(
        rt,
        b"31 a behaviour number past the count",
        parts::with_process(parts::of_behaviour(2)),
    )
}

// A process number is 1 to 16, and no process links itself.
fn registers(rt: &impl Print) -> io::Result<()> {
    refused::whole(
        rt,
        b"31 a register with p17",
        parts::with_process(parts::with_register(2, 17)),
    )?;
    refused::whole(
        rt,
        b"31 a register with p0",
        parts::with_process(parts::with_register(2, 0)),
    )?;
    refused::whole(
        rt,
        b"31 a link to itself",
        parts::with_process(parts::linked(1)),
    )
}

// A mailbox has at most 16 messages, each of sound numbers.
fn mailboxes(rt: &impl Print) -> io::Result<()> {
    refused::whole(
        rt,
        b"31 seventeen messages",
        parts::with_messages(parts::started(), 17),
    )?;
    refused::whole(
        rt,
        b"31 a message p17",
        parts::holding(Message::Plain(parts::pid(17))),
    )?;
    refused::whole(
        rt,
        b"31 a note from 0",
        parts::holding(Message::Note(ProcessNumber(0), Value::KILL)),
    )
}

// A pair has at most 4 signals, each of sound numbers.
fn flights(rt: &impl Print) -> io::Result<()> {
    refused::whole(
        rt,
        b"31 five signals in flight",
        parts::with_signals(parts::started(), FIRST_TO_ITSELF, 5),
    )?;
    refused::whole(
        rt,
        b"31 a signal with p17",
        parts::in_flight(FIRST_TO_ITSELF, Signal::Msg(parts::pid(17))),
    )
}

// No link and no unlink is in flight from a process to itself.
fn flights_to_itself(rt: &impl Print) -> io::Result<()> {
    refused::whole(
        rt,
        b"31 a link in flight to itself",
        parts::in_flight(FIRST_TO_ITSELF, Signal::Link),
    )?;
    refused::whole(
        rt,
        b"31 an unlink in flight to itself",
        parts::in_flight(FIRST_TO_ITSELF, Signal::Unlink),
    )
}

// A play refused by 31 gives the node back as it came: with the place put right the listing is the started node's.
fn leaves(rt: &impl Print) -> io::Result<()> {
    show::title(rt, b"31 leaves the node")?;
    let numbers = [256u32];
    put_right(rt, engine::play(parts::past_the_end(), &numbers))
}

fn put_right(rt: &impl Print, r: Played) -> io::Result<()> {
    show::two(rt, b"play=", r.accepted as u64, show::number(r.refusal))?;
    let mut n = r.node;
    n.processes[0].place = 0;
    show::listed(rt, n)
}

// 31 is looked at before 32, and before 20 of a first step.
fn first(rt: &impl Print) -> io::Result<()> {
    show::title(rt, b"31 before 20 and 32")?;
    let bad = [0u32];
    both_ways(rt, parts::past_the_end(), &bad)?;
    let long = [256u32; 4097];
    both_ways(rt, parts::past_the_end(), &long)
}

// A play of numbers, and of the step records that they stand for.
pub(crate) fn both_ways(rt: &impl Print, n: Node, numbers: &[u32]) -> io::Result<()> {
    show::told(rt, n, numbers)?;
    let s = steps::play_lent(n, numbers);
    show::two(rt, b"lent=", s.accepted as u64, show::number(s.refusal))
}

// What a node may have in flight: its run is refused by 25, not by 31.
fn sound_flights(rt: &impl Print) -> io::Result<()> {
    holds::whole(
        rt,
        b"sound: a link in flight to another",
        parts::in_flight(FIRST_TO_SECOND, Signal::Link),
    )?;
    holds::whole(
        rt,
        b"sound: a linked exit in flight to itself",
        parts::in_flight(FIRST_TO_ITSELF, Signal::Exit(Value::KILL, true)),
    )
}

// What stands in the record where document 01's node has nothing is not looked at.
fn sound_leftovers(rt: &impl Print) -> io::Result<()> {
    holds::whole(rt, b"sound: a place of an unborn process", with_unborn())?;
    holds::whole(rt, b"sound: a slot past the count", with_leftover())
}

fn with_unborn() -> Node {
    let mut n = parts::started();
    n.processes[1].place = 200;
    n
}

fn with_leftover() -> Node {
    let note = Message::Note(ProcessNumber(0), Value::KILL);
    parts::with_messages(parts::with_message(parts::started(), 0, note), 0)
}
