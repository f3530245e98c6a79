// Plays of step records, and plays with the listing: the order of 31, 30, 32 and 20.
use super::calls::counting;
use super::{parts, show};
use controller::PlayedListed;
use node::Node;
use std::io;

pub(crate) fn all(rt: &impl Print) -> io::Result<()> {
    lent_refused(rt)?;
    lent_no_kind(rt)?;
    lent_longest(rt)?;
    lent_long(rt)?;
    listed(rt)?;
    listed_fits(rt)?;
    listed_short(rt)?;
    listed_unsound(rt)?;
    listed_long_short(rt)?;
    listed_long(rt)
}

// Two steps are played, the third is refused, and the fourth is not played.
fn lent_refused(rt: &impl Print) -> io::Result<()> {
    let numbers = [256u32, 256, 0, 256];
    lent(rt, b"records: until one is refused", &numbers)
}

// A record whose kind is none.
fn lent_no_kind(rt: &impl Print) -> io::Result<()> {
    let numbers = [256u32, 196864];
    lent(rt, b"records: of no kind", &numbers)
}

fn lent_longest(rt: &impl Print) -> io::Result<()> {
    let numbers = [256u32; 4096];
    lent(rt, b"records: 4,096 steps", &numbers)
}

// 32 is looked at before 20 of the first step.
fn lent_long(rt: &impl Print) -> io::Result<()> {
    let numbers = [0u32; 4097];
    lent(rt, b"records: 32 before 20", &numbers)
}

fn lent(rt: &impl Print, name: &[u8], numbers: &[u32]) -> io::Result<()> {
    show::title(rt, name)?;
    show::played(rt, steps::play_lent(counting(), numbers))
}

// The listing is that of the node behind the steps.
fn listed(rt: &impl Print) -> io::Result<()> {
    let numbers = [256u32, 0];
    let mut out = [b'#'; 120];
    counted(rt, b"play and list", &numbers, &mut out)
}

// The listing has 105 bytes, and so has the buffer.
fn listed_fits(rt: &impl Print) -> io::Result<()> {
    let numbers = [256u32];
    let mut out = [b'#'; 105];
    counted(
        rt,
        b"play and list: the buffer is just long enough",
        &numbers,
        &mut out,
    )
}

// A buffer of 104 bytes is too short: it stays, and so does the node.
fn listed_short(rt: &impl Print) -> io::Result<()> {
    let numbers = [256u32];
    let mut out = [b'#'; 104];
    counted(rt, b"play and list: 30 leaves the node", &numbers, &mut out)?;
    whole(rt, &out)
}

// 31 is looked at before 30, of a node whose place is past its end.
fn listed_unsound(rt: &impl Print) -> io::Result<()> {
    show::title(rt, b"play and list: 31 before 30")?;
    let numbers = [256u32];
    let mut out = [b'#'; 1];
    told(rt, parts::past_the_end(), &numbers, &mut out)?;
    whole(rt, &out)
}

// 30 is looked at before 32.
fn listed_long_short(rt: &impl Print) -> io::Result<()> {
    let numbers = [0u32; 4097];
    let mut out = [b'#'; 1];
    counted(rt, b"play and list: 30 before 32", &numbers, &mut out)?;
    whole(rt, &out)
}

// With room for the listing 32 is told, before 20 of the first step.
fn listed_long(rt: &impl Print) -> io::Result<()> {
    let numbers = [0u32; 4097];
    let mut out = [b'#'; 120];
    counted(rt, b"play and list: 32 before 20", &numbers, &mut out)
}

fn counted(rt: &impl Print, name: &[u8], numbers: &[u32], out: &mut [u8]) -> io::Result<()> {
    show::title(rt, name)?;
    told(rt, counting(), numbers, out)
}

// What a play with the listing tells, its listing, and the node that it hands out. Of a refusal nothing is played, and the node is as it was.
fn told(rt: &impl Print, n: Node, numbers: &[u32], out: &mut [u8]) -> io::Result<()> {
    let r = match controller::play_and_list(n, numbers, out) {
        Ok(played) => played,
        Err(refusal) => PlayedListed {
            accepted: 0,
            refusal: Some(refusal),
            length: 0,
            node: n,
        },
    };
    show::two(rt, b"played=", r.accepted as u64, show::number(r.refusal))?;
    show::one(rt, b"length=", r.length as u64)?;
    show::write_first(rt, out, r.length)?;
    show::listed(rt, r.node)
}

// All bytes of a buffer, and the end of the line.
fn whole(rt: &impl Print, out: &[u8]) -> io::Result<()> {
    rt.write_all(out)?;
    rt.write_all(b"\n")
}
