// Texts at their limits: 16,384 bytes of plan, 61,440 bytes and 4,096 lines of steps; and the node of a refused load.
use super::show;
use std::io;
use text::put_bytes;

pub(crate) fn all(rt: &impl Print) -> io::Result<()> {
    blank(rt)?;
    plan_bytes(rt)?;
    plan_number(rt)?;
    plan_surplus(rt)?;
    newlines(rt)?;
    lines(rt)?;
    arrivals(rt)?;
    digits(rt)
}

// A refused load gives the blank node: one behaviour of one op, the table's last with register 0.
fn blank(rt: &impl Print) -> io::Result<()> {
    let r = plan::load(b"plan=2\n");
    let n = r.node;
    // Here, since further from the load the prover's search does not find that it is a byte.
    let length = n.lens[0] as u64;
    let op = n.ops[0];
    rt.write_all(b"blank node ")?;
    rt.print(n.count as u64)?;
    rt.write_all(b" ")?;
    rt.print(length)?;
    show::two(rt, b" ", op.number as u64, op.r as u64)
}

// One byte above the limit is 10 with line 0; a text at the limit is read.
fn plan_bytes(rt: &impl Print) -> io::Result<()> {
    let text = [b'x'; 16385];
    plan(rt, b"16,384 bytes x", first(&text, 16384))?;
    plan(rt, b"16,385 bytes x", &text)
}

// A number that fills the text to its last byte has a form, so it is out of range (12) and not malformed.
fn plan_number(rt: &impl Print) -> io::Result<()> {
    let mut text = [b'9'; 16385];
    put_bytes(&mut text, 0, b"plan=1\nbehaviours=");
    text[16383] = b'\n';
    plan(rt, b"16,384 bytes with a number", first(&text, 16384))?;
    text[16383] = b'9';
    text[16384] = b'\n';
    plan(rt, b"16,385 bytes with a number", &text)
}

// A whole plan and empty lines up to the limit: the first line behind the last start is told.
fn plan_surplus(rt: &impl Print) -> io::Result<()> {
    let mut text = [b'\n'; 16385];
    let e = put_bytes(
        &mut text,
        0,
        b"plan=1\nbehaviours=1\ncode=1\nop=stop,0\nstarts=1\nstart=1,1\n",
    );
    plan(rt, b"a plan", first(&text, e))?;
    plan(
        rt,
        b"a plan and empty lines, 16,384 bytes",
        first(&text, 16384),
    )?;
    plan(rt, b"a plan and empty lines, 16,385 bytes", &text)
}

// 61,440 empty lines are within the limit, and the first is malformed; one byte more is 32.
fn newlines(rt: &impl Print) -> io::Result<()> {
    let text = [b'\n'; 61441];
    steps(rt, b"61,440 bytes 10", first(&text, 61440))?;
    steps(rt, b"61,441 bytes 10", &text)
}

// 4,096 lines are steps; 4,097 are 32, unless one of them, the last here, is malformed.
fn lines(rt: &impl Print) -> io::Result<()> {
    let mut text = [b'x'; 24588];
    repeated(&mut text, 0, b"run=1\n", 4097);
    steps(rt, b"4,096 lines", first(&text, 24576))?;
    steps(rt, b"4,097 lines", first(&text, 24582))?;
    steps(
        rt,
        b"4,097 lines, the last without its end",
        first(&text, 24581),
    )?;
    steps(rt, b"4,097 lines and an x", first(&text, 24583))?;
    text[24576] = b'R';
    steps(rt, b"4,097 lines, the last malformed", first(&text, 24582))?;
    text[0] = b'R';
    steps(rt, b"4,097 lines, the first malformed", first(&text, 24582))
}

// 4,096 of the longest lines have just 61,440 bytes.
fn arrivals(rt: &impl Print) -> io::Result<()> {
    let mut text = [b'\n'; 61441];
    repeated(&mut text, 0, b"arrive=255,255\n", 4096);
    steps(rt, b"4,096 lines of 15 bytes", first(&text, 61440))?;
    steps(rt, b"4,096 lines of 15 bytes and a byte", &text)?;
    steps(
        rt,
        b"4,096 lines of 15 bytes less one byte",
        first(&text, 61439),
    )
}

// One line with a number up to the limit.
fn digits(rt: &impl Print) -> io::Result<()> {
    let mut text = [b'1'; 61441];
    put_bytes(&mut text, 0, b"run=");
    text[61439] = b'\n';
    steps(rt, b"61,440 bytes with a number", first(&text, 61440))
}

// A text again and again, from a place of a buffer on; the place behind it.
fn repeated(out: &mut [u8], at: usize, unit: &[u8], times: usize) -> usize {
    let mut e = at;
    for _ in 0..times {
        e = put_bytes(out, e, unit);
    }
    e
}

// The first bytes of a text; all where it has not so many.
fn first(text: &[u8], length: usize) -> &[u8] {
    &text[..length.min(text.len())]
}

// A plan, and what its load tells: the number and the line.
fn plan(rt: &impl Print, name: &[u8], text: &[u8]) -> io::Result<()> {
    let (number, line) = match plan::load(text).refused {
        Some(refused) => (refused.fault.number(), refused.line),
        None => (0, 0),
    };
    rt.write_all(name)?;
    show::two(rt, b" ", number as u64, line as u64)
}

// Steps, and what is told: the count of steps, the number and the line.
fn steps(rt: &impl Print, name: &[u8], text: &[u8]) -> io::Result<()> {
    let (count, number, line) = match schedule::read(text) {
        Ok(schedule) => (schedule.numbers().len(), 0, 0),
        Err(refused) => (0, refused.number(), refused.line()),
    };
    rt.write_all(name)?;
    rt.write_all(b" ")?;
    rt.print(count as u64)?;
    show::two(rt, b" ", number as u64, line as u64)
}
