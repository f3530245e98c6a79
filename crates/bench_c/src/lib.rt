// Calls for the benchmark: each does one piece of the controller's work a number of times, so that a caller can time it.
#![tactic(auto)]

ghost use Rattle.std.specs.Prelude.{length, map, ◌≡◌};
ghost use Rattle.actions.specs.Numbers.{action_of};
ghost use Rattle.controller.specs.Program.{steps};
ghost use Rattle.listing.specs.Answers.{list_told, list_shown};
ghost use Rattle.plan.specs.Plans.{load_of};
ghost use Rattle.plan.specs.Rests.{loaded_told};
ghost use Rattle.schedule.specs.Reading.{schedule_told, schedule_of};
ghost use Rattle.bench_c.specs.Rounds.{after, played_by, reached_by, sound_in, stuck_in, accepted_singly};

use node::Node;
use plan::Loaded;
use rounds::{accepted_singly, last_of, lists, says_none, times};
use schedule::{Refused, Schedule};

mod rounds;

// The number that a load of the plan text tells.
#[unsafe(no_mangle)]
pub extern "C" fn bench_load(plan: &[u8], rounds: usize) -> usize
    ensures { result ≡ after rounds 0 (load_of plan.now).number }
{
    last_of(rounds, || number_told(&plan::load(plan)))
}

// How many steps the steps text has.
#[unsafe(no_mangle)]
pub extern "C" fn bench_read(steps: &[u8], rounds: usize) -> usize
    ensures { result ≡ after rounds 0 (schedule_of steps.now).count }
{
    last_of(rounds, || numbers_read(&schedule::read(steps)).len())
}

// How many of the rounds find sound the node that the two texts lead to.
#[unsafe(no_mangle)]
pub extern "C" fn bench_sound(plan: &[u8], steps: &[u8], rounds: usize) -> usize
    ensures { result ≡ sound_in rounds (reached_by plan.now steps.now) }
{
    let n = reached(plan, steps);
    times(rounds, || soundness::sound(n))
}

// How many of the rounds are told that no step would be accepted on the node that the two texts lead to.
#[unsafe(no_mangle)]
pub extern "C" fn bench_suggest(plan: &[u8], steps: &[u8], rounds: usize) -> usize
    ensures { result ≡ stuck_in rounds (reached_by plan.now steps.now) }
{
    let n = reached(plan, steps);
    times(rounds, || says_none(engine::suggest(n)))
}

// How many of the steps are accepted, by a play of them all.
#[unsafe(no_mangle)]
pub extern "C" fn bench_play(plan: &[u8], steps: &[u8], rounds: usize) -> usize
    ensures { result ≡ after rounds 0 (played_by plan.now steps.now).accepted }
{
    let n = plan::load(plan).node;
    let s = schedule::read(steps);
    let numbers = numbers_read(&s);
    last_of(rounds, || engine::play(n, numbers).accepted)
}

// The same by a play of step records.
#[unsafe(no_mangle)]
pub extern "C" fn bench_play_steps(plan: &[u8], steps: &[u8], rounds: usize) -> usize
    ensures { result ≡ after rounds 0 (played_by plan.now steps.now).accepted }
{
    let n = plan::load(plan).node;
    let s = schedule::read(steps);
    let numbers = numbers_read(&s);
    last_of(rounds, || steps::play_lent(n, numbers).accepted)
}

// How many of the steps are accepted, each as a step of its own; a refused one leaves the node, and the next is tried.
#[unsafe(no_mangle)]
pub extern "C" fn bench_step(plan: &[u8], steps: &[u8], rounds: usize) -> usize
    ensures { result ≡ after rounds 0 (accepted_singly plan.now steps.now) }
{
    let n = plan::load(plan).node;
    let s = schedule::read(steps);
    let numbers = numbers_read(&s);
    last_of(rounds, || accepted_singly(n, numbers))
}

// The length of the listing of the node that the two texts lead to, with the listing in `out`; 0 where `out` is too short.
#[unsafe(no_mangle)]
pub extern "C" fn bench_list(plan: &[u8], steps: &[u8], out: &mut [u8], rounds: usize) -> usize
    ensures answer { result ≡ after rounds 0 (list_told (reached_by plan.now steps.now) out.old).length }
    ensures buffer { out.new ≡ after rounds out.old (list_shown (reached_by plan.now steps.now) out.old) }
{
    lists(reached(plan, steps), out, rounds)
}

// The node that the two texts lead to.
fn reached(plan: &[u8], steps: &[u8]) -> Node
    ensures { result ≡ reached_by plan.now steps.now }
{
    let s = schedule::read(steps);
    engine::play(plan::load(plan).node, numbers_read(&s)).node
}

// The number that a load tells.
fn number_told(loaded: &Loaded) -> usize
    ensures { result ≡ (loaded_told loaded.now).number }
{
    match loaded.refused {
        Some(refused) => refused.fault.number() as usize,
        None => 0,
    }
}

// The numbers of the steps that were read; none where the text is refused.
fn numbers_read(read: &Result<Schedule, Refused>) -> &[u32]
    ensures steps { map action_of result.now ≡ steps (schedule_told read.now) }
    ensures count { length result.now ≡ (schedule_told read.now).count }
{
    match read {
        Ok(schedule) => schedule.numbers(),
        Err(_) => &[],
    }
}
