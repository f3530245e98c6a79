// Limits of processes, mailboxes and rows in flight: each broken alone, 31, beside the neighbour that keeps it.
use super::parts::{FIRST_TO_ITSELF, FIRST_TO_SECOND, LAST_TO_ITSELF, SECOND_TO_ITSELF};
use super::{holds, parts, refused};
use node::{Message, Node, Process, ProcessNumber, Signal, Value};
use std::io;

pub(crate) fn all(rt: &impl Print) -> io::Result<()> {
    places(rt)?;
    registers(rt)?;
    last_process(rt)?;
    mailboxes(rt)?;
    notes(rt)?;
    rows(rt)?;
    exits(rt)?;
    others(rt)?;
    links(rt)?;
    closing(rt)?;
    unheld(rt)?;
    unheld_closing(rt)
}

fn places(rt: &impl Print) -> io::Result<()> {
    holds::whole(
        rt,
        b"sound: a place at the end",
        parts::with_process(parts::first_process().moved(3)),
    )?;
    refused::whole(
        rt,
        b"31 behaviour 0",
        parts::with_process(parts::of_behaviour(0)),
    )
}

fn registers(rt: &impl Print) -> io::Result<()> {
    refused::whole(
        rt,
        b"31 r0 with p17",
        parts::with_process(parts::with_register(0, 17)),
    )?;
    refused::whole(
        rt,
        b"31 r1 with p17",
        parts::with_process(parts::with_register(1, 17)),
    )?;
    refused::whole(
        rt,
        b"31 r3 with p17",
        parts::with_process(parts::with_register(3, 17)),
    )?;
    holds::whole(
        rt,
        b"sound: a register with p1",
        parts::with_process(parts::with_register(2, 1)),
    )?;
    holds::whole(
        rt,
        b"sound: a register with p16",
        parts::with_process(parts::with_register(2, 16)),
    )
}

// Process 16 is looked at as the first is.
fn last_process(rt: &impl Print) -> io::Result<()> {
    refused::whole(rt, b"31 process 16 with p17", with_last(17))?;
    holds::whole(rt, b"sound: process 16 with p16", with_last(16))
}

fn with_last(number: u8) -> Node {
    let mut n = parts::started();
    n.processes[15] = parts::with_register(2, number);
    n
}

fn mailboxes(rt: &impl Print) -> io::Result<()> {
    refused::whole(
        rt,
        b"31 a message p0",
        parts::holding(Message::Plain(parts::pid(0))),
    )?;
    holds::whole(
        rt,
        b"sound: a message p16",
        parts::holding(Message::Plain(parts::pid(16))),
    )?;
    refused::whole(rt, b"31 the last of sixteen messages", full(17))?;
    holds::whole(rt, b"sound: sixteen messages", full(16))
}

fn full(last: u8) -> Node {
    parts::with_message(parts::started(), 15, Message::Plain(parts::pid(last)))
}

fn notes(rt: &impl Print) -> io::Result<()> {
    refused::whole(
        rt,
        b"31 a note from 17",
        parts::holding(Message::Note(ProcessNumber(17), Value::KILL)),
    )?;
    refused::whole(
        rt,
        b"31 a note of p17",
        parts::holding(Message::Note(ProcessNumber(1), parts::pid(17))),
    )?;
    holds::whole(
        rt,
        b"sound: a note from 16 of p16",
        parts::holding(Message::Note(ProcessNumber(16), parts::pid(16))),
    )
}

fn rows(rt: &impl Print) -> io::Result<()> {
    holds::whole(
        rt,
        b"sound: four signals in flight",
        parts::with_signals(parts::started(), FIRST_TO_ITSELF, 4),
    )?;
    refused::whole(
        rt,
        b"31 a signal with p0",
        parts::in_flight(FIRST_TO_ITSELF, Signal::Msg(parts::pid(0))),
    )?;
    holds::whole(
        rt,
        b"sound: a signal with p16",
        parts::in_flight(FIRST_TO_ITSELF, Signal::Msg(parts::pid(16))),
    )
}

fn exits(rt: &impl Print) -> io::Result<()> {
    refused::whole(
        rt,
        b"31 an exit signal with p17",
        parts::in_flight(FIRST_TO_ITSELF, Signal::Exit(parts::pid(17), false)),
    )?;
    holds::whole(
        rt,
        b"sound: an exit signal with p16",
        parts::in_flight(FIRST_TO_ITSELF, Signal::Exit(parts::pid(16), false)),
    )
}

// The row from 1 to 2, from 2 to 2, and the last of all.
fn others(rt: &impl Print) -> io::Result<()> {
    holds::whole(
        rt,
        b"sound: an unlink in flight to another",
        parts::in_flight(FIRST_TO_SECOND, Signal::Unlink),
    )?;
    refused::whole(
        rt,
        b"31 a link in flight from 2 to 2",
        parts::in_flight(SECOND_TO_ITSELF, Signal::Link),
    )?;
    refused::whole(
        rt,
        b"31 the last row with p17",
        parts::in_flight(LAST_TO_ITSELF, Signal::Msg(parts::pid(17))),
    )?;
    holds::whole(
        rt,
        b"sound: the last row with p16",
        parts::in_flight(LAST_TO_ITSELF, Signal::Msg(parts::pid(16))),
    )
}

// No live and no closing process links itself.
fn links(rt: &impl Print) -> io::Result<()> {
    holds::whole(
        rt,
        b"sound: a link to another",
        parts::with_process(parts::linked(2)),
    )?;
    refused::whole(
        rt,
        b"31 a closing process that links itself",
        parts::with_process(parts::linked(1).ended(Value::NORMAL)),
    )?;
    holds::whole(
        rt,
        b"sound: a closing process that links another",
        parts::with_process(parts::linked(2).ended(Value::NORMAL)),
    )
}

fn ended(number: u8) -> Process {
    parts::first_process().ended(parts::pid(number))
}

fn closing(rt: &impl Print) -> io::Result<()> {
    refused::whole(rt, b"31 a reason p0", parts::with_process(ended(0)))?;
    refused::whole(rt, b"31 a reason p17", parts::with_process(ended(17)))?;
    holds::whole(rt, b"sound: a reason p16", parts::with_process(ended(16)))
}

// A gone process holds nothing.
fn unheld(rt: &impl Print) -> io::Result<()> {
    holds::whole(
        rt,
        b"sound: a gone process that links itself",
        parts::with_process(parts::linked(1).gone()),
    )?;
    holds::whole(
        rt,
        b"sound: a gone process with p17",
        parts::with_process(ended(17).with_register(2, parts::pid(17)).gone()),
    )
}

// A closing process holds a reason and links: no register, no place, no behaviour, no mail.
fn unheld_closing(rt: &impl Print) -> io::Result<()> {
    holds::whole(
        rt,
        b"sound: a closing process with p17",
        parts::with_process(ended(16).with_register(2, parts::pid(17)).moved(200)),
    )?;
    holds::whole(
        rt,
        b"sound: a closing process with seventeen messages",
        closing_with_mail(),
    )
}

fn closing_with_mail() -> Node {
    parts::with_messages(parts::with_process(ended(16)), 17)
}
