// The controller for C and Rust programs: include/open_controller.h declares what is exported here.
#![tactic(auto)]

ghost use Rattle.std.specs.Prelude.{Err, ◌≡◌};
ghost use Rattle.consult.specs.Answers.{consulted_of};
ghost use Rattle.engine.specs.Answers.{suggestion_of};
ghost use Rattle.listing.specs.Answers.{listed_of, told, shown};
ghost use Rattle.plan.specs.Plans.{load_of};
ghost use Rattle.schedule.specs.Reading.{schedule_of};
ghost use Rattle.controller.specs.Program.{program_text};
ghost use Rattle.controller_c.specs.Exported.{exported, exported_written, rewritten, rewritten_shown};
ghost use Rattle.controller_c.specs.Exported.{reached_of, reached_by, exported_offer, offered, exported_count, counted};

use actions::encode;
use node::{Node, Refusal, Step};
use plan_writer::write_plan;
use soundness::NotSound;

// A C caller is told one number, and the header names the largest for a refusal: so these are numbers and no enum.

// Told where the buffer is shorter than what is to be written (30).
const SHORT: usize = usize::MAX;

// Told where no accepted plan text holds the behaviours and starts that are to be written (31).
const UNSOUND: usize = usize::MAX - 1;

// Told where a text is refused on whose node a step is to be suggested.
const REFUSED: usize = usize::MAX;

// Told where no search of a mailbox is counted: a text is refused, or the process is not live at a recv.
const NOT_AT_RECV: usize = usize::MAX;

// What the program prints for a plan text and a steps text: its length, with the bytes in `out`; or SHORT, with `out` unchanged.
#[unsafe(no_mangle)]
pub extern "C" fn open_controller_simulate(plan: &[u8], steps: &[u8], out: &mut [u8]) -> usize
    ensures answer { result ≡ exported (told out.old (program_text plan.now steps.now)) }
    ensures buffer { out.new ≡ shown out.old (program_text plan.now steps.now) }
{
    controller::simulate(plan, steps, out).unwrap_or(SHORT)
}

// The plan text with the behaviours of one plan text and the starts of another: its length, with the bytes in `out`; or, with `out` unchanged,
// 0 where one of the texts is refused, SHORT or UNSOUND.
#[unsafe(no_mangle)]
pub extern "C" fn open_controller_write_plan(
    behaviours: &[u8],
    starts: &[u8],
    out: &mut [u8],
) -> usize
    ensures answer { result ≡ rewritten (load_of behaviours.now) (load_of starts.now) out.old }
    ensures buffer { out.new ≡ rewritten_shown (load_of behaviours.now) (load_of starts.now) out.old }
{
    let x = plan::load(behaviours);
    if x.refused.is_some() {
        return 0;
    }
    let y = plan::load(starts);
    if y.refused.is_some() {
        return 0;
    }
    written_number(write_plan(x.node.behaviours(), y.node.starts(), out))
}

// The first step that would be accepted where the steps of a text lead, played on a plan text until one is refused: its kind (0 run, 1 arrive,
// 2 timeout) * 65536 + owner * 256 + from; 0 where no step would be accepted; or REFUSED where one of the texts is refused.
#[unsafe(no_mangle)]
pub extern "C" fn open_controller_suggest(plan: &[u8], steps: &[u8]) -> usize
    ensures { result ≡ offered (load_of plan.now) (schedule_of steps.now) }
{
    match reach(plan, steps) {
        Some(n) => offer_number(engine::suggest(n)),
        None => REFUSED,
    }
}

// How many clauses a search consults of the mailbox of process number `process`, which is live at a recv where the steps of a text lead, played
// on a plan text until one is refused; NOT_AT_RECV in every other case.
#[unsafe(no_mangle)]
pub extern "C" fn open_controller_consulted(plan: &[u8], steps: &[u8], process: usize) -> usize
    ensures { result ≡ counted (load_of plan.now) (schedule_of steps.now) process }
{
    match reach(plan, steps) {
        Some(n) => count_number(consult::consultation(n, process)),
        None => NOT_AT_RECV,
    }
}

// The node behind the steps of a text, played on a plan text until one is refused; none where one of the texts is refused.
fn reach(plan: &[u8], steps: &[u8]) -> Option<Node>
    ensures { reached_of result ≡ reached_by (load_of plan.now) (schedule_of steps.now) }
{
    let loaded = plan::load(plan);
    if loaded.refused.is_some() {
        return None;
    }
    let Ok(schedule) = schedule::read(steps) else {
        return None;
    };
    Some(engine::play(loaded.node, schedule.numbers()).node)
}

// What a C caller is told of a suggestion. A play of a loaded node leaves a sound one, so that the first case is never met (`offer_made`).
fn offer_number(s: Result<Option<Step>, NotSound>) -> usize
    ensures { result ≡ exported_offer (suggestion_of s) }
{
    match s {
        Err(_) => REFUSED,
        Ok(Some(step)) => encode(step) as usize,
        Ok(None) => 0,
    }
}

// What a C caller is told of a search. The first case is never met here either (`count_told_lem`).
fn count_number(c: Result<Option<usize>, NotSound>) -> usize
    ensures { result ≡ exported_count (consulted_of c) }
{
    match c {
        Ok(Some(k)) => k,
        Ok(None) | Err(_) => NOT_AT_RECV,
    }
}

// What a C caller is told of a text that was written or refused.
fn written_number(r: Result<usize, Refusal>) -> usize
    ensures { result ≡ exported_written (listed_of r) }
{
    match r {
        Ok(length) => length,
        Err(refusal) => refusal_told(refusal),
    }
}

// Of the two refusals that a writer has, 30 is told apart.
fn refusal_told(refusal: Refusal) -> usize
    ensures { result ≡ exported_written (listed_of (Err refusal)) }
{
    match refusal {
        Refusal::OutputShort => SHORT,
        _ => UNSOUND,
    }
}
