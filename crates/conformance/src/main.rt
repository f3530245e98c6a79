// Cases that are no folders of tests/cases: nodes made by hand, calls that the program does not make, and texts at their limits. The file
// stdout was worked out from documents 01 and 02 by hand.
#![tactic(auto)]

use std::io;

mod calls;
mod codes;
mod counts;
mod full;
mod holds;
mod limits;
mod lists;
mod offers;
mod parts;
mod plays;
mod receives;
mod refused;
mod show;
mod texts;
mod timeouts;
mod unsound;
mod watches;
mod writes;

fn main(rt: HostRuntime) -> io::Result<()> {
    full::all(&rt)?;
    unsound::all(&rt)?;
    codes::all(&rt)?;
    limits::all(&rt)?;
    watches::all(&rt)?;
    timeouts::all(&rt)?;
    receives::all(&rt)?;
    counts::all(&rt)?;
    calls::all(&rt)?;
    offers::all(&rt)?;
    plays::all(&rt)?;
    texts::all(&rt)?;
    lists::all(&rt)?;
    writes::all(&rt)
}
