// Watches, watchers and what is in flight of them: each rule of soundness broken alone, 31, beside what keeps it.
use super::parts::{FIRST_TO_ITSELF, FIRST_TO_SECOND};
use super::{holds, parts, refused};
use node::{Message, Process, ProcessNumber, Signal, Value};
use std::io;

pub(crate) fn all(rt: &impl Print) -> io::Result<()> {
    own_sets(rt)?;
    ended_sets(rt)?;
    own_signals(rt)?;
    downs(rt)
}

fn watching(number: u8) -> Process {
    parts::first_process().watching(ProcessNumber(number))
}

fn watched(number: u8) -> Process {
    parts::first_process().watched(ProcessNumber(number))
}

// No live process is in either of its own two sets.
fn own_sets(rt: &impl Print) -> io::Result<()> {
    refused::whole(
        rt,
        b"31 a process that watches itself",
        parts::with_process(watching(1)),
    )?;
    holds::whole(
        rt,
        b"sound: a process that watches another",
        parts::with_process(watching(2)),
    )?;
    refused::whole(
        rt,
        b"31 a process that is its own watcher",
        parts::with_process(watched(1)),
    )?;
    holds::whole(
        rt,
        b"sound: a process with another for a watcher",
        parts::with_process(watched(2)),
    )
}

// A closing process holds its watchers and no watches, a gone one neither: what a stage does not hold is not looked at.
fn ended_sets(rt: &impl Print) -> io::Result<()> {
    refused::whole(
        rt,
        b"31 a closing process that is its own watcher",
        parts::with_process(watched(1).ended(Value::NORMAL)),
    )?;
    holds::whole(
        rt,
        b"sound: a closing process that had watched itself",
        parts::with_process(watching(1).ended(Value::NORMAL)),
    )?;
    holds::whole(
        rt,
        b"sound: a gone process that was its own watcher",
        parts::with_process(watched(1).ended(Value::NORMAL).gone()),
    )
}

// No monitor and no demonitor is in flight from a process to itself; a down may be.
fn own_signals(rt: &impl Print) -> io::Result<()> {
    refused::whole(
        rt,
        b"31 a monitor in flight to itself",
        parts::in_flight(FIRST_TO_ITSELF, Signal::Monitor),
    )?;
    refused::whole(
        rt,
        b"31 a demonitor in flight to itself",
        parts::in_flight(FIRST_TO_ITSELF, Signal::Demonitor),
    )?;
    holds::whole(
        rt,
        b"sound: a monitor in flight to another",
        parts::in_flight(FIRST_TO_SECOND, Signal::Monitor),
    )?;
    holds::whole(
        rt,
        b"sound: a down in flight to itself",
        parts::in_flight(FIRST_TO_ITSELF, Signal::Down(Value::NOPROC)),
    )
}

// The sender and the reason of a down keep their limits. A down that is sound is taken by the clause any.
fn downs(rt: &impl Print) -> io::Result<()> {
    refused::whole(
        rt,
        b"31 a down in flight with p17",
        parts::in_flight(FIRST_TO_SECOND, Signal::Down(parts::pid(17))),
    )?;
    refused::whole(
        rt,
        b"31 a down from 0",
        parts::holding(Message::Down(ProcessNumber(0), Value::NOPROC)),
    )?;
    refused::whole(
        rt,
        b"31 a down with p17",
        parts::holding(Message::Down(ProcessNumber(1), parts::pid(17))),
    )?;
    holds::whole(
        rt,
        b"sound: a down from 16 with p16",
        parts::holding(Message::Down(ProcessNumber(16), parts::pid(16))),
    )
}
