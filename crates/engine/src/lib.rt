// The engine: a step, a schedule, and what to do next. One loop is lent the node, reads and stores in place, and decides on small values; it
// plays steps, or looks which of them would be accepted.
#![tactic(auto)]

ghost use Rattle.std.specs.Prelude.{true, false, map, ◌≡◌, ◌<◌, ◌+◌, ◌*◌, min};
ghost use Rattle.actions.specs.Numbers.{action_of};
ghost use Rattle.node.specs.Refusals.{refusal_told};
ghost use Rattle.rules.specs.Answers.{done};
ghost use Rattle.rules.specs.Nodes.{Sound};
ghost use Rattle.rules.specs.Steps.{meaning, step, play, played};
ghost use Rattle.rules.specs.Suggest.{possible, first_accepted, suggest};
ghost use Rattle.engine.specs.Answers.{played_of, stop_of, stepped_of, stepped_by, suggestion_of, recorded, first_of};

use actions::{
    behaviour_index, decode, encode, op_index, possible_numbers, process_index, row_index, step_of,
};
use decisions::{Deed, birth_refusal, decide, pair_refusal};
use node::{Cell, Node, Process, Refusal, Slot, Step, Value, fallen, risen};
use soundness::NotSound;

// What a play tells: how many steps were accepted, the refusal that ended it, if one did, and the node then. A record and no Result: a play
// that a refusal ends has a count and a node as well. The node stands first: with no gap before it, the compiler leaves out copies of it.
#[derive(Clone, Copy)]
pub struct Played {
    pub node: Node,
    pub refusal: Option<Refusal>,
    pub accepted: usize,
}

// What the loop tells of a play: the count and the refusal, if one ended it. The node then stands where the loop was lent it.
#[derive(Clone, Copy)]
struct Stop {
    accepted: usize,
    refusal: Option<Refusal>,
}

// The most steps of a schedule.
pub const LONGEST: usize = 4096;

// A step of a node: 31, then what the rules say. A refusal leaves the node, which the caller has still. It calls the loop itself and not
// `play`, which would copy the node once more.
pub fn step(n: Node, s: Step) -> Result<Node, Refusal>
    ensures { stepped_of n result ≡ stepped_by n (step n (meaning s)) }
{
    if soundness::sound(n) {
        let numbers = [encode(s)];
        let mut node = n;
        return match core(&mut node, &numbers, false).refusal {
            None => Ok(node),
            Some(refusal) => Err(refusal),
        };
    }
    Err(Refusal::NotSound)
}

// A schedule, a number for each step: 31, 32, then the steps until one is refused.
pub fn play(n: Node, numbers: &[u32]) -> Played
    ensures { played_of result ≡ play n (map action_of numbers.now) }
{
    let mut node = n;
    let stop = if !soundness::sound(n) {
        ended(0, Some(Refusal::NotSound))
    } else if LONGEST < numbers.len() {
        ended(0, Some(Refusal::ScheduleTooLong))
    } else {
        core(&mut node, numbers, false)
    };
    Played {
        node,
        refusal: stop.refusal,
        accepted: stop.accepted,
    }
}

// The first step that the node would accept, or none where it would accept no step: by owner, its run, its timeout, then its arrivals by sender.
pub fn suggest(n: Node) -> Result<Option<Step>, NotSound>
    ensures { suggestion_of result ≡ recorded (suggest n) }
{
    if soundness::sound(n) {
        return Ok(first_accepted(n));
    }
    Err(NotSound)
}

// The first of the possible steps that a sound node would accept.
fn first_accepted(n: Node) -> Option<Step>
    requires { Sound n }
    ensures { suggestion_of (Ok result) ≡ recorded (done (first_accepted n possible)) }
{
    let numbers = possible_numbers();
    let mut node = n;
    let r = core(&mut node, &numbers, true);
    let number = numbers.get(r.accepted)?;
    Some(step_of(*number))
}

fn ended(accepted: usize, refusal: Option<Refusal>) -> Stop
    ensures { (n : Node) → stop_of result n ≡ record { accepted = accepted; refusal = refusal_told refusal; node = n } }
{
    Stop { accepted, refusal }
}

// A count that a byte holds, at most `limit`.
fn up_to(k: u8, limit: usize) -> usize
    ensures { result ≡ min k limit }
{
    limit.min(k as usize)
}

// Where the op behind the clauses of the recv at x is read.
fn behind_clauses(x: usize, clauses: u8) -> usize
    requires { x < 256 }
    ensures value { result ≡ min (x + 1 + clauses) 255 }
    ensures upper_bound { result < 256 }
{
    (x + 1 + (clauses as usize)).min(255)
}

// The cell behind the signals of a row.
fn cell_index(row: usize, sent: u8) -> usize
    requires { row < 256 }
    ensures value { result ≡ min (4 * row + sent) 1023 }
    ensures upper_bound { result < 1024 }
{
    (4 * row + (sent as usize)).min(1023)
}

// The steps of a sound node, played until one is refused; or, where `looks` is set, looked at until one would be accepted, without a store.
// It reads and stores in place, since handing the node to a function for each step would copy it; this is why it is long. Where it only looks, no
// clause speaks of the node then, which nobody reads.
fn core(node: &mut Node, numbers: &[u32], looks: bool) -> Stop
    requires { Sound node.old }
    ensures result_value { looks ≡ false → stop_of result node.new ≡ played node.old (map action_of numbers.now) }
    ensures accepted_value { looks ≡ true → result.accepted ≡ first_of node.old (map action_of numbers.now) }
{
    for t in 0..numbers.len() {
        let s = decode(numbers[t]);
        let k = s.at;
        let r = s.row;
        let p = node.processes[k];
        let x = op_index(p.behaviour, p.place);
        let op = node.ops[x];
        let oldest = node.cells[4 * r];
        let waiting = node.waiting[k];
        let w = behaviour_index(p.behaviour);
        let (process, deed) = match decide(
            s,
            p,
            node.counts[r],
            oldest.signal,
            node.lens[w],
            op,
            waiting,
        ) {
            Ok(e) => (e.process, e.deed),
            Err(refusal) => {
                if looks {
                    continue;
                }
                return ended(t, Some(refusal));
            }
        };
        let mut next = process;
        let first = 16 * k;
        let refused = match deed {
            Deed::Searches => {
                let slots = &node.slots;
                let ops = &node.ops;
                let mail = &slots[first..];
                let clauses = &ops[x + 1..];
                let found = receive::first_fit(mail, waiting, clauses, op.small);
                if s.expires {
                    let behind = node.ops[behind_clauses(x, op.small)];
                    next = p.moved(behind.target);
                    receive::timeout_refusal(found, p.place, op.small, node.lens[w], behind)
                } else {
                    if found.is_ok() {
                        if looks {
                            return ended(t, None);
                        }
                        // Nothing is sent and nobody is brought to life: the message leaves, and the step is over.
                        node.processes[k] = receive::after_search(p, found);
                        node.waiting[k] = fallen(waiting);
                        let count = up_to(waiting, 16);
                        let from = first + receive::fit_index(found, count);
                        let top = first + count;
                        for m in from + 1..top {
                            node.slots[m - 1] = node.slots[m];
                        }
                        continue;
                    }
                    receive::search_refusal(found)
                }
            }
            Deed::Sends(to, _) => {
                let row = row_index(s.owner, to);
                pair_refusal(None, node.counts[row])
            }
            Deed::Spawns(number, _) => {
                let child = process_index(number);
                birth_refusal(None, node.processes[child])
            }
            Deed::Joins(_) | Deed::Nothing => None,
        };
        if let Some(refusal) = refused {
            if looks {
                continue;
            }
            return ended(t, Some(refusal));
        }
        if looks {
            return ended(t, None);
        }
        node.processes[k] = next;
        match deed {
            Deed::Joins(message) => {
                let join = first + up_to(waiting, 15);
                node.slots[join] = Slot { message };
                node.waiting[k] = risen(waiting);
            }
            Deed::Sends(to, signal) => {
                let row = row_index(s.owner, to);
                let sent = node.counts[row];
                node.cells[cell_index(row, sent)] = Cell { signal };
                node.counts[row] = risen(sent);
            }
            Deed::Spawns(number, behaviour) => {
                let child = process_index(number);
                node.processes[child] = Process::fresh(behaviour, Value::Pid(s.owner));
                node.waiting[child] = 0;
                continue;
            }
            Deed::Searches | Deed::Nothing => {}
        }
        if s.arrives {
            let last = 4 * r + 3;
            for f in 4 * r..last {
                node.cells[f] = node.cells[f + 1];
            }
            node.cells[last] = Cell::blank();
            node.counts[r] = fallen(node.counts[r]);
        }
    }
    ended(numbers.len(), None)
}
