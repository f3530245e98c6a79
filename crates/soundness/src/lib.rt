// Whether a node is sound (well-formed). What a call takes by value is copied, and so is a node of which an element or a slice is taken: each
// array of the node is a local of its own, copied where it is looked at, and the cells, the largest of them, only where a signal is in flight.
// Slices of the node's own fields read plainer and miss the bar of `sound`: a blank node takes four times as long.
#![tactic(auto)]

ghost use Rattle.std.specs.Prelude.{true, ◌≡◌, ◌+◌, ◌*◌, ◌<◌, ◌≤◌, IfSome};
ghost use Rattle.std.specs.Option.{unwrap_or};
ghost use Rattle.rules.specs.Nodes.{sound};
ghost use Rattle.soundness.specs.Parts.{Busy, Quiet};

use node::{Node, ProcessNumber};

mod processes;
mod values;

// 31: the node is not sound.
#[derive(Clone, Copy, Debug, PartialEq, Eq)]
pub struct NotSound;

pub fn sound(n: Node) -> bool
    ensures { result ≡ sound n }
{
    let count = n.count;
    let lens = n.lens;
    let ops = n.ops;
    if !behaviours::behaviours_sound(count, lens, ops) {
        return false;
    }
    let processes = n.processes;
    let waitings = n.waiting;
    let slots = n.slots;
    for i in 0..16 {
        let p = processes[i];
        let there = ops[processes::place_index(p)].number;
        let number = ProcessNumber((i + 1) as u8);
        if !processes::process_sound(number, p, count, lens, there) {
            return false;
        }
        let waiting = p.mail_count(waitings[i]) as usize;
        if 16 < waiting {
            return false;
        }
        let mail = &slots[16 * i..16 * i + waiting];
        if !values::mail_sound(mail) {
            return false;
        }
    }
    let counts = n.counts;
    let mut next = busy_from(&counts, 0);
    if next.is_none() {
        return true;
    }
    let cells = n.cells;
    while let Some(k) = next {
        let held = counts[k] as usize;
        if 4 < held {
            return false;
        }
        let from = ProcessNumber((k / 16 + 1) as u8);
        let to = ProcessNumber((k % 16 + 1) as u8);
        let row = &cells[4 * k..4 * k + held];
        if !values::row_sound(from, to, row) {
            return false;
        }
        next = busy_from(&counts, k + 1);
    }
    true
}

// The first pair from `from` on with a signal in flight, where there is one. Most pairs have none, and are passed over eight at a time: the loop
// steps by one or by eight, so it is no `for`.
fn busy_from(counts: &[u8; 256], from: usize) -> Option<usize>
    requires { from ≤ 256 }
    ensures pair { Busy counts.now from (unwrap_or result 256) }
    ensures inside { IfSome result (λ k. k < 256) }
{
    let mut j = from;
    while j < 256 {
        if j % 8 == 0 && quiet(counts, j) {
            j += 8;
            continue;
        }
        if counts[j] != 0 {
            return Some(j);
        }
        j += 1;
    }
    None
}

// Whether the eight pairs from k on have no signal in flight.
fn quiet(counts: &[u8; 256], k: usize) -> bool
    requires { k + 7 < 256 }
    ensures { result ≡ true → Quiet counts.now k (k + 8) }
{
    four(counts[k], counts[k + 1], counts[k + 2], counts[k + 3]) == 0
        && four(counts[k + 4], counts[k + 5], counts[k + 6], counts[k + 7]) == 0
}

// Four bytes as one number: side by side in memory they are read at once.
fn four(a: u8, b: u8, c: u8, d: u8) -> u32
    ensures { result ≡ a + 256 * b + 65536 * c + 16777216 * d }
{
    u32::from_le_bytes([a, b, c, d])
}
