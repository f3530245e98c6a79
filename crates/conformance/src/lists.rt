// Listings in a buffer that is filled with `#`: 30, 31, an exact fit, and the bytes behind.
use super::show;
use node::Node;
use std::io;

pub(crate) fn all(rt: &impl Print) -> io::Result<()> {
    gone_lists(rt)?;
    blank_lists(rt)?;
    unsound_lists(rt)?;
    sample_lists(rt)
}

// The listing of a gone process has 21 bytes.
fn gone_lists(rt: &impl Print) -> io::Result<()> {
    list_gone(rt, b"20 bytes for 21", 20)?;
    list_gone(rt, b"21 bytes for 21", 21)?;
    list_gone(rt, b"25 bytes for 21", 25)?;
    list_gone(rt, b"no byte for 21", 0)
}

fn list_gone(rt: &impl Print, name: &[u8], room: usize) -> io::Result<()> {
    list(rt, name, gone(), room)
}

// The listing of the blank node is empty, so any buffer is long enough.
fn blank_lists(rt: &impl Print) -> io::Result<()> {
    list(rt, b"no byte for none", Node::blank(), 0)?;
    list(rt, b"5 bytes for none", Node::blank(), 5)
}

// 31 is looked at before 30, and leaves the buffer.
fn unsound_lists(rt: &impl Print) -> io::Result<()> {
    list(rt, b"not sound, 25 bytes", without_behaviours(), 25)?;
    list(rt, b"not sound, 5 bytes", without_behaviours(), 5)
}

fn without_behaviours() -> Node {
    let mut n = gone();
    n.count = 0;
    n
}

// The listing of document 01's sample has 212 bytes.
fn sample_lists(rt: &impl Print) -> io::Result<()> {
    list_sample(rt, b"211 bytes for the sample", 211)?;
    list_sample(rt, b"212 bytes for the sample", 212)?;
    list_sample(rt, b"238 bytes for the sample", 238)
}

fn list_sample(rt: &impl Print, name: &[u8], room: usize) -> io::Result<()> {
    list(rt, name, sample(), room)
}

// What a listing tells, in a buffer of `room` bytes, and the buffer.
fn list(rt: &impl Print, name: &[u8], n: Node, room: usize) -> io::Result<()> {
    let mut out = [b'#'; 256];
    list_in(rt, name, n, &mut out, room)
}

fn list_in(rt: &impl Print, name: &[u8], n: Node, out: &mut [u8], room: usize) -> io::Result<()> {
    if room <= out.len() {
        list_part(rt, name, n, &mut out[..room])?;
    }
    Ok(())
}

fn list_part(rt: &impl Print, name: &[u8], n: Node, out: &mut [u8]) -> io::Result<()> {
    let told = listing::list(n, out);
    rt.write_all(name)?;
    show::written(rt, b" ", told)?;
    rt.write_all(out)?;
    rt.write_all(b"|\n")
}

// Process 1 after two runs of a stop.
fn gone() -> Node {
    show::reached(
        b"plan=1
behaviours=1
code=1
op=stop,0
starts=1
start=1,1
",
        b"run=1
run=1
",
    )
}

fn sample() -> Node {
    show::reached(
        b"plan=1
behaviours=2
code=3
op=set,0,p2
op=set,1,i12
op=send,0,1
code=2
op=recv,1
op=clause,int,0,1,2
starts=2
start=1,1
start=2,2
",
        b"run=1
run=1
run=1
arrive=2,1
run=2
",
    )
}
