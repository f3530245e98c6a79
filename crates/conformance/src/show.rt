// How a case is reached and printed.
use engine::Played;
use node::{Node, Refusal};
use std::io;

// What a play tells, and the listing.
pub(crate) fn played(rt: &impl Print, r: Played) -> io::Result<()> {
    one(rt, b"accepted=", r.accepted as u64)?;
    one(rt, b"refused=", number(r.refusal))?;
    listed(rt, r.node)
}

// A play of `run 1`.
pub(crate) fn run(rt: &impl Print, n: Node) -> io::Result<()> {
    let numbers = [256u32];
    told(rt, n, &numbers)
}

// A play of `timeout 1`.
pub(crate) fn timeout(rt: &impl Print, n: Node) -> io::Result<()> {
    let numbers = [131328u32];
    told(rt, n, &numbers)
}

// What a play tells, in a line.
pub(crate) fn told(rt: &impl Print, n: Node, numbers: &[u32]) -> io::Result<()> {
    let r = engine::play(n, numbers);
    two(rt, b"play=", r.accepted as u64, number(r.refusal))
}

// What a step tells: 0, or the refusal's number.
pub(crate) fn stepped(rt: &impl Print, told: Result<Node, Refusal>) -> io::Result<()> {
    one(rt, b"step=", number(told.err()))
}

// The number that a refusal is told by, 0 where there is none.
pub(crate) fn number(told: Option<Refusal>) -> u64 {
    match told {
        Some(refusal) => refusal.number() as u64,
        None => 0,
    }
}

// The node that a plan and steps lead to.
pub(crate) fn reached(plan: &[u8], steps: &[u8]) -> Node {
    let r = plan::load(plan);
    match schedule::read(steps) {
        Ok(schedule) => engine::play(r.node, schedule.numbers()).node,
        Err(_) => engine::play(r.node, &[]).node,
    }
}

// The listing of a node, or `list=` with its refusal.
pub(crate) fn listed(rt: &impl Print, n: Node) -> io::Result<()> {
    let mut out = [0u8; 40000];
    let told = listing::list(n, &mut out);
    match told {
        Ok(length) => write_first(rt, &out, length),
        Err(_) => written(rt, b"list=", told),
    }
}

// What a writer tells: 0 and the length, or the refusal's number and 0.
pub(crate) fn written(rt: &impl Print, key: &[u8], told: Result<usize, Refusal>) -> io::Result<()> {
    match told {
        Ok(length) => two(rt, key, 0, length as u64),
        Err(refusal) => two(rt, key, refusal.number() as u64, 0),
    }
}

// The first bytes of a buffer; nothing where it has not so many.
pub(crate) fn write_first(rt: &impl Print, out: &[u8], length: usize) -> io::Result<()> {
    if length <= out.len() {
        rt.write_all(&out[..length])?;
    }
    Ok(())
}

// The name of a case.
pub(crate) fn title(rt: &impl Print, name: &[u8]) -> io::Result<()> {
    rt.write_all(b"== ")?;
    rt.write_all(name)?;
    rt.write_all(b"\n")
}

// A line with a key and a number.
pub(crate) fn one(rt: &impl Print, key: &[u8], n: u64) -> io::Result<()> {
    rt.write_all(key)?;
    rt.print(n)?;
    rt.write_all(b"\n")
}

// A line with a key and two numbers.
pub(crate) fn two(rt: &impl Print, key: &[u8], n: u64, m: u64) -> io::Result<()> {
    rt.write_all(key)?;
    rt.print(n)?;
    rt.write_all(b",")?;
    rt.print(m)?;
    rt.write_all(b"\n")
}
