// How many clauses a search of a mailbox consults (document 02, M-106) and what it answers: each kind of clause at each kind of message, full
// mailboxes, and what is asked past the arrays; and what is told of nodes that are not sound and of processes that are at no recv.
use super::parts::{AT_CLAUSE, AT_JUMP};
use super::{codes, parts, show, unsound};
use node::{
    ANY, ATOM, CLAUSE, DOWN, EXACT, INT, Message, NOTE, Node, Op, PID, Process, ProcessNumber,
    RECV, Slot, Value,
};
use receive::{NoFit, Searched};
use std::io;

// The largest number.
const TOP: usize = 18446744073709551615;

pub(crate) fn all(rt: &impl Print) -> io::Result<()> {
    kinds(rt)?;
    settled(rt)?;
    full(rt)?;
    mixed(rt)?;
    within_the_arrays(rt)?;
    past_the_arrays(rt)?;
    numbers(rt)?;
    stages(rt)?;
    past_the_code(rt)?;
    two_recvs(rt)?;
    last_clause(rt)
}

fn of_kind(kind: u8) -> Op {
    codes::with_small(CLAUSE, kind)
}

fn exact(v: Value) -> Op {
    codes::with_value(CLAUSE, EXACT, v)
}

// What is told of process i.
pub(crate) fn consulted(rt: &impl Print, n: Node, i: usize) -> io::Result<()> {
    rt.write_all(b"clauses=")?;
    count(rt, n, i)?;
    rt.write_all(b"\n")
}

fn count(rt: &impl Print, n: Node, i: usize) -> io::Result<()> {
    let c = consult::consultation(n, i);
    match c {
        Err(_) => rt.write_all(b"unsound"),
        Ok(None) => rt.write_all(b"elsewhere"),
        Ok(Some(k)) => rt.print(k as u64),
    }
}

// The answer of a search, and how many clauses it consulted; of a fit the index of the message first.
fn answered(rt: &impl Print, s: Searched) -> io::Result<()> {
    let clauses = s.consulted as u64;
    let found = s.found;
    match found {
        Err(NoFit::Silent) => show::one(rt, b"silent=", clauses),
        Err(NoFit::Unfit) => show::one(rt, b"unfit=", clauses),
        Ok(fit) => show::two(rt, b"fit=", fit.index as u64, clauses),
    }
}

// What is told of process 1, which is at the recv at place 0, and what the search answers there.
fn searched(rt: &impl Print, name: &[u8], n: Node) -> io::Result<()> {
    show::title(rt, name)?;
    consulted(rt, n, 1)?;
    let slots = n.slots;
    let ops = n.ops;
    let recv = n.ops[0];
    answered(
        rt,
        receive::search(slots, 0, n.waiting[0], ops, 1, recv.small),
    )
}

// One clause and one message: 1 where the clause can take the message's kind, be it the message or not. Of the exact values the first of a
// kind is the message, the second has the number of a message of another kind.
fn kinds(rt: &impl Print) -> io::Result<()> {
    show::title(
        rt,
        b"consulted: a clause at i5, at a7, at p2, at a note and at a down of p2, a7",
    )?;
    row(rt, b"any", of_kind(ANY))?;
    row(rt, b"int", of_kind(INT))?;
    row(rt, b"atom", of_kind(ATOM))?;
    row(rt, b"pid", of_kind(PID))?;
    row(rt, b"note", of_kind(NOTE))?;
    row(rt, b"down", of_kind(DOWN))?;
    row(rt, b"i5", exact(Value::Int(5)))?;
    row(rt, b"i7", exact(Value::Int(7)))?;
    row(rt, b"a7", exact(Value::Atom(7)))?;
    row(rt, b"a2", exact(Value::Atom(2)))?;
    row(rt, b"p2", exact(parts::pid(2)))?;
    row(rt, b"p5", exact(parts::pid(5)))
}

fn row(rt: &impl Print, name: &[u8], clause: Op) -> io::Result<()> {
    rt.write_all(name)?;
    let n = parts::with_op(AT_CLAUSE, clause);
    column(rt, n, Message::Plain(Value::Int(5)))?;
    column(rt, n, Message::Plain(Value::Atom(7)))?;
    column(rt, n, Message::Plain(parts::pid(2)))?;
    column(rt, n, Message::Note(ProcessNumber(2), Value::Atom(7)))?;
    column(rt, n, Message::Down(ProcessNumber(2), Value::Atom(7)))?;
    rt.write_all(b"\n")
}

fn column(rt: &impl Print, n: Node, m: Message) -> io::Result<()> {
    rt.write_all(b" ")?;
    count(rt, parts::with_message(n, 0, m), 1)
}

// A clause counts that can't take the kind itself, once another can.
fn settled(rt: &impl Print) -> io::Result<()> {
    let a7 = Message::Plain(Value::Atom(7));
    let int = of_kind(INT);
    searched(
        rt,
        b"consulted: int, a3 at a7",
        parts::with_message(two(int, exact(Value::BADARG)), 0, a7),
    )?;
    searched(
        rt,
        b"consulted: int, int at a7",
        parts::with_message(two(int, int), 0, a7),
    )?;
    searched(
        rt,
        b"consulted: int, any at a7",
        parts::with_message(two(int, of_kind(ANY)), 0, a7),
    )?;
    let i5 = Message::Plain(Value::Int(5));
    let n = parts::with_message(two(of_kind(ATOM), int), 0, i5);
    searched(
        rt,
        b"consulted: atom, int at i5, a7",
        parts::with_message(n, 1, a7),
    )?;
    searched(rt, b"consulted: int, int at no message", two(int, int))
}

// Process 1 at a recv of two clauses.
fn two(first: Op, second: Op) -> Node {
    let mut n = show::reached(
        b"plan=1
behaviours=1
code=3
op=recv,2
op=clause,any,0,1,3
op=clause,any,0,1,3
starts=1
start=1,1
",
        b"",
    );
    n.ops[1] = first;
    n.ops[2] = second;
    n
}

// Sixteen messages, which are i0 where nothing else is said, and eight clauses.
fn full(rt: &impl Print) -> io::Result<()> {
    searched(
        rt,
        b"consulted: the last of sixteen messages fits the last of eight clauses",
        parts::with_message(of_one_kind(), 15, Message::Plain(Value::Int(8))),
    )?;
    searched(
        rt,
        b"consulted: the last of sixteen messages fits the first of eight clauses",
        parts::with_message(of_one_kind(), 15, Message::Plain(Value::Int(1))),
    )?;
    let n = parts::with_message(of_one_kind(), 7, Message::Plain(Value::Int(5)));
    searched(
        rt,
        b"consulted: the eighth of sixteen messages fits the fifth of eight clauses",
        parts::with_messages(n, 16),
    )?;
    searched(
        rt,
        b"consulted: sixteen messages of a kind that is taken, and no fit",
        parts::with_messages(of_one_kind(), 16),
    )?;
    searched(
        rt,
        b"consulted: sixteen messages of a kind that is not taken",
        parts::with_messages(of_two_kinds(), 16),
    )
}

// Messages of all kinds; the values among them are taken by eight clauses of two kinds, of one and of three.
fn mixed(rt: &impl Print) -> io::Result<()> {
    searched(
        rt,
        b"consulted: a fit among messages of kinds that are not taken",
        with_all_kinds(of_two_kinds(), 4),
    )?;
    searched(
        rt,
        b"consulted: no fit among messages of kinds that are not taken",
        with_all_kinds(of_one_kind(), 4),
    )?;
    let mut n = of_two_kinds();
    n.ops[1] = exact(Value::Int(1));
    searched(
        rt,
        b"consulted: no fit, and of all kinds only note and down are not taken",
        with_all_kinds(n, 9),
    )?;
    n.slots[7] = Slot {
        message: Message::Plain(Value::Atom(9)),
    };
    searched(
        rt,
        b"consulted: no fit, and every kind is taken",
        parts::with_messages(n, 16),
    )
}

// Sixteen messages: i0, a9, p9, a note, a down, nine times i0, a process number, i0.
fn with_all_kinds(mut n: Node, number: u8) -> Node {
    n.slots[1] = Slot {
        message: Message::Plain(Value::Atom(9)),
    };
    n.slots[2] = Slot {
        message: Message::Plain(parts::pid(9)),
    };
    n.slots[3] = Slot {
        message: Message::Note(ProcessNumber(4), Value::KILL),
    };
    n.slots[4] = Slot {
        message: Message::Down(ProcessNumber(4), Value::KILL),
    };
    n.slots[14] = Slot {
        message: Message::Plain(parts::pid(number)),
    };
    parts::with_messages(n, 16)
}

fn of_one_kind() -> Node {
    show::reached(
        b"plan=1
behaviours=1
code=9
op=recv,8
op=clause,i1,0,1,9
op=clause,i2,0,1,9
op=clause,i3,0,1,9
op=clause,i4,0,1,9
op=clause,i5,0,1,9
op=clause,i6,0,1,9
op=clause,i7,0,1,9
op=clause,i8,0,1,9
starts=1
start=1,1
",
        b"",
    )
}

fn of_two_kinds() -> Node {
    show::reached(
        b"plan=1
behaviours=1
code=9
op=recv,8
op=clause,a1,0,1,9
op=clause,a2,0,1,9
op=clause,a3,0,1,9
op=clause,a4,0,1,9
op=clause,p1,0,1,9
op=clause,p2,0,1,9
op=clause,p3,0,1,9
op=clause,p4,0,1,9
starts=1
start=1,1
",
        b"",
    )
}

// A search of 256 slots by 256 clauses: all messages are i0 but the last, all clauses i1 but the last, and these two are i9.
fn search(rt: &impl Print, first: usize, count: u8, at: usize, clauses: u8) -> io::Result<()> {
    let zero = Slot::blank();
    let mut slots = [zero; 256];
    slots[255] = Slot {
        message: Message::Plain(Value::Int(9)),
    };
    let one = exact(Value::Int(1));
    let mut ops = [one; 256];
    ops[255] = exact(Value::Int(9));
    answered(rt, receive::search(slots, first, count, ops, at, clauses))
}

// The largest counts, and none; then up to the arrays' ends.
fn within_the_arrays(rt: &impl Print) -> io::Result<()> {
    show::title(rt, b"search: 255 messages and 255 clauses, and none")?;
    search(rt, 0, 255, 0, 255)?;
    search(rt, 0, 255, 0, 0)?;
    search(rt, 0, 0, 0, 255)?;
    show::title(rt, b"search: up to the ends of the arrays")?;
    search(rt, 1, 255, 1, 255)?;
    search(rt, 255, 1, 255, 1)
}

// Past the end of an array stands nothing.
fn past_the_arrays(rt: &impl Print) -> io::Result<()> {
    show::title(rt, b"search: messages past the slots")?;
    search(rt, 250, 255, 255, 1)?;
    search(rt, 256, 255, 0, 255)?;
    search(rt, 257, 1, 0, 255)?;
    search(rt, 4294967296, 255, 0, 255)?;
    search(rt, TOP, 255, 0, 255)?;
    show::title(rt, b"search: clauses past the ops")?;
    search(rt, 255, 1, 250, 255)?;
    search(rt, 255, 1, 256, 255)?;
    search(rt, 255, 1, 257, 1)?;
    search(rt, 255, 1, 4294967296, 255)?;
    search(rt, 255, 1, TOP, 255)?;
    show::title(rt, b"search: messages and clauses past their arrays")?;
    search(rt, 250, 255, 250, 255)?;
    search(rt, 256, 255, 256, 255)?;
    search(rt, TOP, 255, TOP, 255)
}

// 31 is looked at first; then no number but 1 to 16 is one of a process.
fn numbers(rt: &impl Print) -> io::Result<()> {
    show::title(rt, b"consulted: 31 before a number that is none")?;
    consulted(rt, parts::past_the_end(), 0)?;
    consulted(rt, parts::past_the_end(), 17)?;
    consulted(rt, parts::past_the_end(), TOP)?;
    show::title(rt, b"consulted: process 1, and numbers that are none")?;
    let n = parts::with_messages(parts::started(), 1);
    consulted(rt, n, 1)?;
    consulted(rt, n, 0)?;
    consulted(rt, n, 17)?;
    consulted(rt, n, 257)?;
    consulted(rt, n, 4294967297)?;
    consulted(rt, n, TOP)
}

// Only its stage keeps each of the first three from a recv with a message.
fn stages(rt: &impl Print) -> io::Result<()> {
    with_process(rt, b"consulted: an unborn process", Process::unborn())?;
    with_process(
        rt,
        b"consulted: a closing process",
        parts::first_process().ended(Value::NORMAL),
    )?;
    with_process(
        rt,
        b"consulted: a gone process",
        parts::first_process().gone(),
    )?;
    with_process(
        rt,
        b"consulted: a process at a jump",
        parts::first_process().moved(AT_JUMP),
    )?;
    with_process(
        rt,
        b"consulted: a process at the end of its code",
        parts::first_process().moved(3),
    )
}

fn with_process(rt: &impl Print, name: &[u8], p: Process) -> io::Result<()> {
    show::title(rt, name)?;
    consulted(rt, parts::with_messages(parts::with_process(p), 1), 1)
}

// What stands in the array behind the last op of a code is no part of it; a code of 32 ops fills its part of the array.
fn past_the_code(rt: &impl Print) -> io::Result<()> {
    show::title(rt, b"consulted: a recv past the end of the code")?;
    let mut n = parts::with_messages(parts::with_process(parts::first_process().moved(3)), 1);
    n.ops[3] = codes::with_small(RECV, 1);
    n.ops[4] = of_kind(ANY);
    consulted(rt, n, 1)?;
    show::title(rt, b"consulted: the end of a code of 32 ops")?;
    let mut m = parts::with_messages(unsound::with_length(32), 1);
    m.ops[32] = codes::with_small(RECV, 1);
    m.processes[0] = parts::first_process().moved(32);
    consulted(rt, m, 1)
}

// A recv has its own clauses, and not those of the recv behind it.
fn two_recvs(rt: &impl Print) -> io::Result<()> {
    show::title(
        rt,
        b"consulted: a3, and behind it a recv of any; at a7, at i5",
    )?;
    at_recv(rt, 0, Value::Atom(7))?;
    at_recv(rt, 0, Value::Int(5))?;
    show::title(rt, b"consulted: the recv of any; at a7, at i5")?;
    at_recv(rt, 2, Value::Atom(7))?;
    at_recv(rt, 2, Value::Int(5))
}

fn at_recv(rt: &impl Print, place: u8, v: Value) -> io::Result<()> {
    let mut n = show::reached(
        b"plan=1
behaviours=1
code=4
op=recv,1
op=clause,a3,0,1,4
op=recv,1
op=clause,any,0,1,4
starts=1
start=1,1
",
        b"",
    );
    n.processes[0].place = place;
    consulted(rt, parts::with_message(n, 0, Message::Plain(v)), 1)
}

// Process 16 has the last slots, and its recv the last of all ops.
fn last_clause(rt: &impl Print) -> io::Result<()> {
    show::title(rt, b"consulted: the last process at the last clause")?;
    let mut n = Node::blank();
    n.count = 8;
    n.lens = [32; 8];
    n.ops[254] = codes::with_small(RECV, 1);
    n.ops[255] = exact(Value::Int(9));
    n.processes[15] = parts::of_behaviour(8).moved(30);
    n.waiting[15] = 16;
    n.slots[255] = Slot {
        message: Message::Plain(Value::Int(9)),
    };
    consulted(rt, n, 16)?;
    consulted(rt, n, 15)
}
