// Plans written into a buffer that is filled with `#`: each kind of 31, 30, an exact fit, the bytes behind, and what is not looked at.
use super::{codes, show};
use node::{BehaviourNumber, Behaviours, Node, Op, ProcessNumber, Start, Starts};
use std::io;

pub(crate) fn all(rt: &impl Print) -> io::Result<()> {
    rooms(rt)?;
    counts(rt)?;
    lengths(rt)?;
    ops(rt)?;
    places(rt)?;
    start_counts(rt)?;
    start_numbers(rt)?;
    start_orders(rt)?;
    unread(rt)?;
    whole(rt)?;
    stages(rt)
}

// The text has 116 bytes; 31 is looked at before 30.
fn rooms(rt: &impl Print) -> io::Result<()> {
    write(rt, b"115 bytes for 116", behaviours(), starts(), 115)?;
    write(rt, b"116 bytes for 116", behaviours(), starts(), 116)?;
    write(rt, b"121 bytes for 116", behaviours(), starts(), 121)?;
    write(rt, b"no byte for 116", behaviours(), starts(), 0)?;
    write(rt, b"31 in no byte", with_count(0), starts(), 0)
}

// 1 to 8 behaviours.
fn counts(rt: &impl Print) -> io::Result<()> {
    refused(rt, b"31 no behaviour", with_count(0), starts())?;
    refused(rt, b"31 9 behaviours", with_count(9), starts())?;
    refused(rt, b"31 255 behaviours", with_count(255), starts())?;
    refused(
        rt,
        b"31 a third behaviour of no ops",
        with_count(3),
        starts(),
    )
}

// 1 to 32 ops.
fn lengths(rt: &impl Print) -> io::Result<()> {
    refused(rt, b"31 no op", with_length(0), starts())?;
    refused(rt, b"31 33 ops", with_length(33), starts())?;
    refused(rt, b"31 255 ops", with_length(255), starts())
}

// Numbers in their range.
fn ops(rt: &impl Print) -> io::Result<()> {
    refused(
        rt,
        b"31 no op's number",
        with_first(codes::plain(19)),
        starts(),
    )?;
    refused(
        rt,
        b"31 a jump past the end",
        with_first(codes::with_target(12, 4)),
        starts(),
    )?;
    refused(
        rt,
        b"31 a trap flag of 2",
        with_first(codes::with_small(8, 2)),
        starts(),
    )
}

// Clauses and targets where they belong.
fn places(rt: &impl Print) -> io::Result<()> {
    refused(
        rt,
        b"31 a stray clause",
        with_first(codes::plain(11)),
        starts(),
    )?;
    refused(
        rt,
        b"31 a recv without its clauses",
        with_first(codes::with_small(10, 1)),
        starts(),
    )?;
    refused(
        rt,
        b"31 a jump to a clause",
        with_first(codes::with_target(12, 2)),
        starts(),
    )
}

// 1 to 16 starts.
fn start_counts(rt: &impl Print) -> io::Result<()> {
    refused(rt, b"31 no start", behaviours(), with_starts(0))?;
    refused(rt, b"31 17 starts", behaviours(), with_starts(17))?;
    refused(rt, b"31 255 starts", behaviours(), with_starts(255))
}

fn start_numbers(rt: &impl Print) -> io::Result<()> {
    refused(
        rt,
        b"31 a start of process 0",
        behaviours(),
        with_start(0, 1),
    )?;
    refused(
        rt,
        b"31 a start of process 17",
        behaviours(),
        with_start(17, 1),
    )?;
    refused(
        rt,
        b"31 a start of behaviour 0",
        behaviours(),
        with_start(15, 0),
    )?;
    refused(
        rt,
        b"31 a start of behaviour 3 of 2",
        behaviours(),
        with_start(15, 3),
    )
}

// The second start is that of process 16.
fn start_orders(rt: &impl Print) -> io::Result<()> {
    refused(rt, b"31 starts 16 and 16", behaviours(), with_start(16, 1))?;
    written(rt, b"starts 15 and 16", behaviours(), with_start(15, 2))
}

// Fields that are no operands, an op past the length, a behaviour and starts past their counts.
fn unread(rt: &impl Print) -> io::Result<()> {
    let mut b = behaviours();
    b.ops[32].s = 200;
    b.ops[32].target = 200;
    b.ops[33].number = 200;
    b.lens[2] = 33;
    let mut s = starts();
    s.list[2] = Start {
        process: ProcessNumber(1),
        behaviour: BehaviourNumber(200),
    };
    written(rt, b"what is not looked at", b, s)
}

// Every op, every kind of a clause, values at their limits.
fn whole(rt: &impl Print) -> io::Result<()> {
    let n = every_op();
    write(rt, b"every op", n.behaviours(), n.starts(), 530)
}

// A process that is gone is no start.
fn stages(rt: &impl Print) -> io::Result<()> {
    let n = show::reached(
        b"plan=1
behaviours=1
code=1
op=stop,0
starts=2
start=3,1
start=4,1
",
        b"run=3
run=3
",
    );
    written(rt, b"a gone process", n.behaviours(), n.starts())
}

fn refused(rt: &impl Print, name: &[u8], b: Behaviours, s: Starts) -> io::Result<()> {
    write(rt, name, b, s, 10)
}

fn written(rt: &impl Print, name: &[u8], b: Behaviours, s: Starts) -> io::Result<()> {
    write(rt, name, b, s, 120)
}

fn write(rt: &impl Print, name: &[u8], b: Behaviours, s: Starts, room: usize) -> io::Result<()> {
    let mut out = [b'#'; 530];
    write_in(rt, name, b, s, &mut out, room)
}

fn write_in(
    rt: &impl Print,
    name: &[u8],
    b: Behaviours,
    s: Starts,
    out: &mut [u8],
    room: usize,
) -> io::Result<()> {
    if room <= out.len() {
        write_part(rt, name, b, s, &mut out[..room])?;
    }
    Ok(())
}

// What the writer tells, and the buffer.
fn write_part(
    rt: &impl Print,
    name: &[u8],
    b: Behaviours,
    s: Starts,
    out: &mut [u8],
) -> io::Result<()> {
    let told = plan_writer::write_plan(b, s, out);
    rt.write_all(name)?;
    show::written(rt, b" ", told)?;
    rt.write_all(out)?;
    rt.write_all(b"|\n")
}

fn started() -> Node {
    show::reached(
        b"plan=1
behaviours=2
code=3
op=set,0,p2
op=recv,1
op=clause,i-1,0,1,3
code=1
op=stop,0
starts=2
start=2,1
start=16,2
",
        b"",
    )
}

fn behaviours() -> Behaviours {
    let n = started();
    n.behaviours()
}

fn starts() -> Starts {
    let n = started();
    n.starts()
}

fn with_count(count: u8) -> Behaviours {
    let mut b = behaviours();
    b.count = count;
    b
}

// The first behaviour with so many ops.
fn with_length(len: u8) -> Behaviours {
    let mut b = behaviours();
    b.lens[0] = len;
    b
}

// The first behaviour with another first op.
fn with_first(o: Op) -> Behaviours {
    let mut b = behaviours();
    b.ops[0] = o;
    b
}

fn with_starts(count: u8) -> Starts {
    let mut s = starts();
    s.count = count;
    s
}

// Another first start.
fn with_start(process: u8, behaviour: u8) -> Starts {
    let mut s = starts();
    s.list[0] = Start {
        process: ProcessNumber(process),
        behaviour: BehaviourNumber(behaviour),
    };
    s
}

fn every_op() -> Node {
    show::reached(
        b"plan=1
behaviours=3
code=16
op=set,3,i-2147483648
op=set,0,i2147483647
op=set,1,a255
op=copy,0,3
op=self,2
op=add,1,2
op=send,0,1
op=exit,2,3
op=link,0
op=unlink,1
op=trap,1
op=spawn,2,3,16
op=jump,16
op=same,3,p16,0
op=less,1,0,15
op=stop,3
code=11
op=recv,8
op=clause,any,0,1,10
op=clause,int,0,1,11
op=clause,atom,2,3,0
op=clause,pid,0,1,11
op=clause,note,3,2,11
op=clause,down,0,1,11
op=clause,i-1,0,1,11
op=clause,p1,0,1,11
op=after,0
op=trap,0
code=2
op=monitor,0
op=demonitor,3
starts=3
start=1,1
start=9,3
start=10,2
",
        b"",
    )
}
