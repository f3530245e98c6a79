// A node that is not sound: what each call says of it.
use super::{counts, show};
use node::{Node, ProcessNumber, Step};
use std::io;

pub(crate) fn whole(rt: &impl Print, name: &[u8], n: Node) -> io::Result<()> {
    show::title(rt, name)?;
    show::run(rt, n)?;
    step_run(rt, n)?;
    suggestion(rt, n)?;
    counts::consulted(rt, n, 1)?;
    show::listed(rt, n)
}

fn step_run(rt: &impl Print, n: Node) -> io::Result<()> {
    let s = Step {
        kind: 0,
        owner: ProcessNumber(1),
        from: ProcessNumber(0),
    };
    show::stepped(rt, engine::step(n, s))
}

fn suggestion(rt: &impl Print, n: Node) -> io::Result<()> {
    let s = engine::suggest(n);
    match s {
        Err(_) => rt.write_all(b"suggest=31\n"),
        Ok(Some(_)) => rt.write_all(b"suggest=step\n"),
        Ok(None) => rt.write_all(b"suggest=none\n"),
    }
}
