// The program: plays the schedule in steps.txt on the plan in plan.txt, both in the folder that it is started in, and prints what
// `controller::simulate` gives.
#![tactic(auto)]

ghost use Rattle.std.specs.Prelude.{◌≤◌, length};
ghost use Rattle.controller.specs.Program.{program_text, longest_answer};
ghost use Rattle.open_controller.specs.Answers.{Whole};

use files::read_file;

// The longest texts, each with one byte more, so that a text past its limit is seen to be.
const PLAN: usize = 16385;

const STEPS: usize = 61441;

// No answer is longer (`longest_answer`).
const OUTPUT: usize = 45056;

fn main(rt: HostRuntime) {
    let mut plan = [0u8; PLAN];
    let p = read_file(&rt, b"plan.txt", &mut plan);
    let mut steps = [0u8; STEPS];
    let s = read_file(&rt, b"steps.txt", &mut steps);
    let mut out = [0u8; OUTPUT];
    let n = answer(&plan[..p], &steps[..s], &mut out);
    if rt.write_all(&out[..n]).is_err() {
        let _ = eprintln!(rt; "open_controller: the answer could not be written");
    }
}

// The whole answer, and its length: by `program_short` the buffer is never too short (30), so that the 0 is never told.
fn answer(plan: &[u8], steps: &[u8], out: &mut [u8]) -> usize
    requires { longest_answer ≤ length out.old }
    ensures { Whole (program_text plan.now steps.now) out.old result out.new }
{
    controller::simulate(plan, steps, out).unwrap_or(0)
}
