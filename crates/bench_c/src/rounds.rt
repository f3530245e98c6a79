// The loops over the rounds.
ghost use Rattle.std.specs.Prelude.{Bool, cond, ℕ, map, ◌≡◌};
ghost use Rattle.actions.specs.Numbers.{action_of};
ghost use Rattle.engine.specs.Answers.{suggestion_of};
ghost use Rattle.listing.specs.Answers.{list_told, list_shown};
ghost use Rattle.bench_c.specs.Rounds.{after, says_none, singly};

use node::{Node, Step};
use soundness::NotSound;

// What a work tells that is done so many times and tells the same each time; 0 where it is not done.
pub(crate) fn last_of<F: Fn() -> usize>(rounds: usize, work: F) -> usize
    requires { F.IsAlwaysCallable work }
    ensures { (x : ℕ) → ((r : ℕ) → F.post work r → r ≡ x) → result ≡ after rounds 0 x }
{
    let mut last = 0;
    'rounds: for _ in 0..rounds {
        last = work();
    }
    last
}

// In how many rounds a test holds that says the same each time.
pub(crate) fn times<F: Fn() -> bool>(rounds: usize, test: F) -> usize
    requires { F.IsAlwaysCallable test }
    ensures { (b : Bool) → ((r : Bool) → F.post test r → r ≡ b) → result ≡ cond b rounds 0 }
{
    let mut said = 0;
    'rounds: for _ in 0..rounds {
        if test() {
            said += 1;
        }
    }
    said
}

// The length of the last listing; each but the first is written over itself.
pub(crate) fn lists(n: Node, out: &mut [u8], rounds: usize) -> usize
    ensures answer { result ≡ after rounds 0 (list_told n out.old).length }
    ensures buffer { out.new ≡ after rounds out.old (list_shown n out.old) }
{
    let mut last = 0;
    'rounds: for _ in 0..rounds {
        last = listing::list(n, out).unwrap_or(0);
    }
    last
}

pub(crate) fn says_none(s: Result<Option<Step>, NotSound>) -> bool
    ensures { result ≡ says_none (suggestion_of s) }
{
    match s {
        Err(_) => false,
        Ok(Some(_)) => false,
        Ok(None) => true,
    }
}

// How many of the steps are accepted, each as a step of its own.
pub(crate) fn accepted_singly(n: Node, numbers: &[u32]) -> usize
    ensures { result ≡ singly n (map action_of numbers.now) }
{
    let mut node = n;
    let mut accepted = 0;
    for number in numbers {
        if let Ok(next) = engine::step(node, actions::step_of(*number)) {
            node = next;
            accepted += 1;
        }
    }
    accepted
}
