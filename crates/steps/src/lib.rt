// A schedule as a lent slice of step records, walked: each record is handed by value to `engine::step`, which looks at the whole node for
// soundness at each step. `engine::play` looks once and is the faster way where the steps are at hand as numbers.
#![tactic(auto)]

ghost use Rattle.std.specs.Prelude.{cond, map, ◌≡◌, ◌+◌, ◌<◌, ◌≤◌, ◌^◌, eqb, length, take};
ghost use Rattle.actions.specs.Numbers.{decode, action_of};
ghost use Rattle.engine.specs.Answers.{played_of};
ghost use Rattle.rules.specs.Steps.{meaning, play};
ghost use Rattle.steps.specs.Walk.{begins, goes_on};

use actions::step_of;
use engine::{LONGEST, Played};
use node::{Node, Refusal, Step};

// A schedule of step records: 31, 32, then the steps until one is refused.
pub fn play_steps(n: Node, steps: &[Step]) -> Played
    ensures { played_of result ≡ play n (map meaning steps.now) }
{
    let mut r = begun(n, steps.len());
    for s in steps {
        if r.refusal.is_some() {
            return r;
        }
        r = onward(r, *s);
    }
    r
}

// A schedule, a number for each step, as step records that are lent to `play_steps`. It has plain parameters, so a caller needs no
// slice of records of its own. More than 4,096 numbers make no records: 31 and 32 are the engine's to tell.
pub fn play_lent(n: Node, numbers: &[u32]) -> Played
    ensures { played_of result ≡ play n (map action_of numbers.now) }
{
    if LONGEST < numbers.len() {
        return engine::play(n, numbers);
    }
    let steps = decoded(numbers);
    play_steps(n, &steps[..numbers.len()])
}

// A play before its first step: refused with 31 or 32, or to be gone on with.
#[tactic(auto, using(std::proofs::lemmas::Bool::Decides::nat_tests), unfolding(crate::specs::Walk::begins))]
fn begun(n: Node, count: usize) -> Played
    ensures { played_of result ≡ begins n count }
{
    let refusal = if !soundness::sound(n) {
        Some(Refusal::NotSound)
    } else if LONGEST < count {
        Some(Refusal::ScheduleTooLong)
    } else {
        None
    };
    Played {
        node: n,
        refusal,
        accepted: 0,
    }
}

// A play, one step further; one that is refused stays.
fn onward(p: Played, s: Step) -> Played
    requires { p.accepted + 1 < 2 ^ 64 }
    ensures { played_of result ≡ goes_on (played_of p) (meaning s) }
{
    if p.refusal.is_some() {
        return p;
    }
    match engine::step(p.node, s) {
        Ok(node) => Played {
            node,
            accepted: p.accepted + 1,
            ..p
        },
        Err(refusal) => Played {
            refusal: Some(refusal),
            ..p
        },
    }
}

// The steps that the numbers stand for; what is behind them is not read.
fn decoded(numbers: &[u32]) -> [Step; 4096]
    requires { length numbers.now ≤ 4096 }
    ensures { take (length numbers.now) result ≡ map decode numbers.now }
{
    let mut steps = [step_of(0); 4096];
    for (i, number) in numbers.iter().enumerate() {
        steps[i] = step_of(*number);
    }
    steps
}
