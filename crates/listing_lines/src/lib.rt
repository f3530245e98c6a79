// The lines of the listing, written into a lent buffer: each writer below writes one piece of its grammar.
// Run over an empty slice a writer counts.
#![tactic(auto)]

ghost use Rattle.std.specs.Prelude.{cond, [], ◌∷◌, ◌++◌, ◌≡◌};
ghost use Rattle.rules.specs.Nodes.{set_of, running, live, closing, gone, standing};
ghost use Rattle.node.specs.Values.{numbers};
ghost use Rattle.text.specs.Writing.{Wrote, digits};
ghost use Rattle.listing_lines.specs.Lines.{value_line, each_from, members, with_commas, set_line, set_lines, register_line};
ghost use Rattle.listing_lines.specs.Lines.{sender_line, message_line, standing_lines, signal_line, flight_line};

use node::{Message, Peers, Process, ProcessNumber, Signal, Stage, Value};
use text::{put_byte, put_bytes, put_number, put_number_line, put_value};

// The lines of process i, for which `waiting` messages wait, up to and without them; an unborn process has no text.
pub fn put_process(out: &mut [u8], at: usize, i: ProcessNumber, p: Process, waiting: u8) -> usize
    ensures { Wrote out.old at (standing_lines i.0 (standing p []) waiting) out.new result }
{
    match p.stage {
        Stage::Unborn => at,
        Stage::Live => put_live(out, at, i, p, waiting),
        Stage::Closing => put_closing(out, at, i, p),
        Stage::Gone => put_gone(out, at, i),
    }
}

pub fn put_message(out: &mut [u8], at: usize, m: Message) -> usize
    ensures { Wrote out.old at (message_line m) out.new result }
{
    match m {
        Message::Plain(v) => put_value_line(out, at, b"message=", v),
        Message::Note(j, v) => put_sender(out, at, b"note=", j, v),
        Message::Down(j, v) => put_sender(out, at, b"down=", j, v),
    }
}

// That n signals are in flight from process j to process i.
pub fn put_flight(out: &mut [u8], at: usize, j: ProcessNumber, i: ProcessNumber, n: u8) -> usize
    ensures { Wrote out.old at (flight_line j.0 i.0 n) out.new result }
{
    let e = put_bytes(out, at, b"flight=");
    let e = put_number(out, e, j.0 as u64);
    let e = put_byte(out, e, b',');
    let e = put_number(out, e, i.0 as u64);
    let e = put_byte(out, e, b',');
    let e = put_number(out, e, n as u64);
    put_byte(out, e, b'\n')
}

pub fn put_signal(out: &mut [u8], at: usize, x: Signal) -> usize
    ensures { Wrote out.old at (signal_line x) out.new result }
{
    match x {
        Signal::Msg(v) => put_value_line(out, at, b"signal=msg,", v),
        Signal::Exit(v, b) => put_exit(out, at, v, b),
        Signal::Link => put_bytes(out, at, b"signal=link\n"),
        Signal::Unlink => put_bytes(out, at, b"signal=unlink\n"),
        Signal::Monitor => put_bytes(out, at, b"signal=monitor\n"),
        Signal::Demonitor => put_bytes(out, at, b"signal=demonitor\n"),
        Signal::Down(v) => put_value_line(out, at, b"signal=down,", v),
    }
}

fn put_live(out: &mut [u8], at: usize, i: ProcessNumber, p: Process, waiting: u8) -> usize
    ensures { Wrote out.old at (standing_lines i.0 (live (running p [])) waiting) out.new result }
{
    let e = put_number_line(out, at, b"process=", i.0 as u64);
    let e = put_bytes(out, e, b"stage=live\n");
    let e = put_number_line(out, e, b"behaviour=", p.behaviour.0 as u64);
    let e = put_number_line(out, e, b"place=", p.place as u64);
    let e = put_registers(out, e, p);
    let e = put_number_line(out, e, b"trap=", u64::from(p.trap));
    let e = put_sets(out, e, p);
    put_number_line(out, e, b"mail=", waiting as u64)
}

// The sets of a live process.
fn put_sets(out: &mut [u8], at: usize, p: Process) -> usize
    ensures { Wrote out.old at (set_lines (set_of p.links) (set_of p.watches) (set_of p.watchers)) out.new result }
{
    let e = put_set(out, at, b"links=", p.links);
    let e = put_set(out, e, b"watches=", p.watches);
    put_set(out, e, b"watchers=", p.watchers)
}

fn put_closing(out: &mut [u8], at: usize, i: ProcessNumber, p: Process) -> usize
    ensures { Wrote out.old at (standing_lines i.0 (closing p.reason (set_of p.links) (set_of p.watchers)) 0) out.new result }
{
    let e = put_number_line(out, at, b"process=", i.0 as u64);
    let e = put_bytes(out, e, b"stage=closing\n");
    let e = put_value_line(out, e, b"reason=", p.reason);
    let e = put_set(out, e, b"links=", p.links);
    put_set(out, e, b"watchers=", p.watchers)
}

fn put_gone(out: &mut [u8], at: usize, i: ProcessNumber) -> usize
    ensures { Wrote out.old at (standing_lines i.0 gone 0) out.new result }
{
    let e = put_number_line(out, at, b"process=", i.0 as u64);
    put_bytes(out, e, b"stage=gone\n")
}

fn put_registers(out: &mut [u8], at: usize, p: Process) -> usize
    ensures { Wrote out.old at (each_from register_line 0 (p.r0 ∷ p.r1 ∷ p.r2 ∷ p.r3 ∷ [])) out.new result }
{
    let e = put_value_line(out, at, b"r0=", p.r0);
    let e = put_value_line(out, e, b"r1=", p.r1);
    let e = put_value_line(out, e, b"r2=", p.r2);
    put_value_line(out, e, b"r3=", p.r3)
}

// A key and a set of processes.
fn put_set(out: &mut [u8], at: usize, key: &[u8], set: Peers) -> usize
    ensures { Wrote out.old at (set_line key.now (set_of set)) out.new result }
{
    let e = put_bytes(out, at, key);
    let e = put_members(out, e, set);
    put_byte(out, e, b'\n')
}

fn put_members(out: &mut [u8], at: usize, set: Peers) -> usize
    ensures { Wrote out.old at (with_commas (members (set_of set) numbers)) out.new result }
{
    let mut e = at;
    let mut comma: &[u8] = b"";
    for k in 0..16 {
        let j = ProcessNumber(k + 1);
        if !set.has(j) {
            continue;
        }
        e = put_bytes(out, e, comma);
        e = put_number(out, e, j.0 as u64);
        comma = b",";
    }
    e
}

// A key, a sender and its reason.
fn put_sender(out: &mut [u8], at: usize, key: &[u8], j: ProcessNumber, v: Value) -> usize
    ensures { Wrote out.old at (sender_line key.now j v) out.new result }
{
    let e = put_bytes(out, at, key);
    let e = put_value(out, e, Value::Pid(j));
    let e = put_byte(out, e, b',');
    let e = put_value(out, e, v);
    put_byte(out, e, b'\n')
}

fn put_exit(out: &mut [u8], at: usize, v: Value, b: bool) -> usize
    ensures { Wrote out.old at (signal_line (Signal.Exit v b)) out.new result }
{
    let e = put_bytes(out, at, b"signal=exit,");
    let e = put_value(out, e, v);
    let e = put_byte(out, e, b',');
    let e = put_number(out, e, u64::from(b));
    put_byte(out, e, b'\n')
}

fn put_value_line(out: &mut [u8], at: usize, key: &[u8], v: Value) -> usize
    ensures { Wrote out.old at (value_line key.now v) out.new result }
{
    let e = put_bytes(out, at, key);
    let e = put_value(out, e, v);
    put_byte(out, e, b'\n')
}
