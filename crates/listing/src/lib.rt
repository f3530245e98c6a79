// The listing of a node, and any text, written into a lent buffer.
// Run over an empty slice a text's writer counts, so a text is counted before a buffer that may be too short is touched.
#![tactic(auto)]

ghost use Rattle.std.specs.Prelude.{List, ℕ, ◌≡◌};
ghost use Rattle.node.specs.Lists.{firsts};
ghost use Rattle.rules.specs.Nodes.{view};
ghost use Rattle.text.specs.Writing.{Wrote, each};
ghost use Rattle.listing_lines.specs.Lines.{each_from, standing_text, message_line, signal_line};
ghost use Rattle.listing.specs.Answers.{listed_of, fitting, shown, known_told, known_shown, list_told, list_shown};
ghost use Rattle.listing.specs.Listing.{rows_text, listing_of, longest};

use listing_lines::{put_flight, put_message, put_process, put_signal};
use node::{Cell, Node, ProcessNumber, Refusal, Slot};

// No sound node has a longer listing (`longest`).
const LONGEST: usize = 41792;

// What has a text: `put` writes it at a place of a buffer, as far as the buffer reaches, and tells the place behind it.
pub trait Text {
    ghost text: { Self → List ℕ };

    fn put(&self, out: &mut [u8], at: usize) -> usize
        ensures { Wrote out.old at (text self.now) out.new result };
}

// A text in the first bytes of a buffer, and its length; or none, with a buffer that is too short left as it was.
pub fn fill<T: Text>(t: &T, out: &mut [u8]) -> Option<usize>
    ensures answer { result ≡ fitting out.old (T.text t.now) }
    ensures buffer { out.new ≡ shown out.old (T.text t.now) }
{
    if out.len() < t.put(&mut out[..0], 0) {
        return None;
    }
    Some(t.put(out, 0))
}

// The listing of a node: 31, 30, or the listing in the first bytes of the buffer, and its length.
pub fn list(n: Node, out: &mut [u8]) -> Result<usize, Refusal>
    ensures answer { listed_of result ≡ list_told n out.old }
    ensures buffer { out.new ≡ list_shown n out.old }
{
    if soundness::sound(n) {
        return list_sound(n, out);
    }
    Err(Refusal::NotSound)
}

// The listing of a node that is known to be sound: neither its soundness is looked at nor, in a buffer that holds the longest listing,
// its length.
pub fn list_sound(n: Node, out: &mut [u8]) -> Result<usize, Refusal>
    ensures answer { listed_of result ≡ known_told longest out.old (listing_of n) }
    ensures buffer { out.new ≡ known_shown longest out.old (listing_of n) }
{
    if LONGEST <= out.len() {
        return Ok(n.put(out, 0));
    }
    fill(&n, out).ok_or(Refusal::OutputShort)
}

// The listing.
impl Text for Node {
    ghost text = { λ n. listing_of n };

    fn put(&self, out: &mut [u8], at: usize) -> usize {
        let e = put_processes(out, at, self);
        put_pairs(out, e, self)
    }
}

impl Text for Slot {
    ghost text = { λ s. message_line s.message };

    fn put(&self, out: &mut [u8], at: usize) -> usize {
        put_message(out, at, self.message)
    }
}

impl Text for Cell {
    ghost text = { λ c. signal_line c.signal };

    fn put(&self, out: &mut [u8], at: usize) -> usize {
        put_signal(out, at, self.signal)
    }
}

// Each process not unborn, with its messages.
fn put_processes(out: &mut [u8], at: usize, n: &Node) -> usize
    ensures { Wrote out.old at (each_from standing_text 1 (view n.now).processes) out.new result }
{
    let mut e = at;
    'processes: for i in 0..16 {
        let p = n.processes[i];
        let waiting = n.waiting[i];
        e = put_process(out, e, ProcessNumber(i as u8 + 1), p, waiting);
        let mail = &n.slots[16 * i..16 * i + 16];
        e = put_firsts(out, e, mail, p.mail_count(waiting), &Slot::blank());
    }
    e
}

// Each pair with signals, and these. Of a pair with none only the count is looked at.
fn put_pairs(out: &mut [u8], at: usize, n: &Node) -> usize
    ensures { Wrote out.old at (each_from rows_text 1 (view n.now).flight) out.new result }
{
    let mut e = at;
    'pairs: for j in 0..256 {
        let in_flight = n.counts[j];
        if in_flight == 0 {
            continue;
        }
        let from = ProcessNumber((j / 16 + 1) as u8);
        let to = ProcessNumber((j % 16 + 1) as u8);
        e = put_flight(out, e, from, to, in_flight);
        let row = &n.cells[4 * j..4 * j + 4];
        e = put_firsts(out, e, row, in_flight, &Cell::blank());
    }
    e
}

// The texts of what the first `count` places hold; `blank` stands where the count goes past the places.
fn put_firsts<T: Text>(out: &mut [u8], at: usize, places: &[T], count: u8, blank: &T) -> usize
    ensures { Wrote out.old at (each T.text (firsts blank.now count places.now)) out.new result }
{
    let mut e = at;
    for k in 0..count as usize {
        e = places.get(k).unwrap_or(blank).put(out, e);
    }
    e
}
