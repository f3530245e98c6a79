// How many clauses a search of a process's mailbox consults.
#![tactic(auto)]

ghost use Rattle.std.specs.Prelude.{◌≡◌};
ghost use Rattle.rules.specs.Consult.{consultation};
ghost use Rattle.rules.specs.Nodes.{Sound};
ghost use Rattle.consult.specs.Answers.{consulted_of};

use actions::{behaviour_index, op_index};
use node::Node;
use soundness::NotSound;

// How many clauses a search of the mailbox of process i consults; none where the process is not live at a recv.
pub fn consultation(n: Node, i: usize) -> Result<Option<usize>, NotSound>
    ensures { consulted_of result ≡ consultation n i }
{
    if soundness::sound(n) {
        return Ok(of_sound(n, i));
    }
    Err(NotSound)
}

// The same of a sound node.
fn of_sound(n: Node, i: usize) -> Option<usize>
    requires { Sound n }
    ensures { consulted_of (Ok result) ≡ consultation n i }
{
    if i < 1 || 16 < i {
        return None;
    }
    let k = i - 1;
    let p = n.processes[k];
    let x = op_index(p.behaviour, p.place);
    let op = n.ops[x];
    if !receive::awaits(p, n.lens[behaviour_index(p.behaviour)], op) {
        return None;
    }
    let s = receive::search(n.slots, 16 * k, n.waiting[k], n.ops, x + 1, op.small);
    Some(s.consulted)
}
