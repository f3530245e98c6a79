// Processes in their stages, but for their mailboxes.
ghost use Rattle.std.specs.Prelude.{◌≡◌, cond, eqb, ltb, not};
ghost use Rattle.node.specs.Ops.{is_part};
ghost use Rattle.soundness.specs.Parts.{length_in, place_in, running_told, standing_told};

use node::{Process, ProcessNumber, Stage, is_part, value_sound, within};

// Process i in its stage; `there` is the number of the op at its place.
pub fn process_sound(i: ProcessNumber, p: Process, count: u8, lens: [u8; 8], there: u8) -> bool
    ensures { result ≡ standing_told p.stage count (length_in lens p) there i.0 p }
{
    match p.stage {
        Stage::Unborn | Stage::Gone => true,
        Stage::Live => {
            running_sound(p, count, lens, there)
                && !p.links_to(i)
                && !p.watches_over(i)
                && !p.watched_by(i)
        }
        Stage::Closing => value_sound(p.reason) && !p.links_to(i) && !p.watched_by(i),
    }
}

pub fn running_sound(p: Process, count: u8, lens: [u8; 8], there: u8) -> bool
    ensures { result ≡ running_told count (length_in lens p) there p }
{
    let len = lens[p.behaviour.index() % 8];
    within(p.behaviour.0, 1, count)
        && super::values::registers_sound(p)
        && at_op_or_end(p.place, len, there)
}

// A place of a behaviour of `len` ops is its end, or an op that is no part of a recv.
fn at_op_or_end(place: u8, len: u8, there: u8) -> bool
    ensures { result ≡ cond (ltb place len) (not (is_part there)) (eqb place len) }
{
    if place < len {
        return !is_part(there);
    }
    place == len
}

// Where the op at the place of a process stands. What is no place of the node's behaviours wraps, so that no read is out of range.
pub fn place_index(p: Process) -> usize
    ensures { result ≡ place_in p }
{
    (32 * p.behaviour.index() + p.place as usize) % 256
}
