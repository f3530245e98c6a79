// A node that is sound: `run 1` is refused with 25, or accepted.
use super::show;
use node::Node;
use std::io;

pub(crate) fn whole(rt: &impl Print, name: &[u8], n: Node) -> io::Result<()> {
    show::title(rt, name)?;
    show::run(rt, n)
}
