// The local decision of a step: what a process does at a run, at an arrival or at a timeout, from small values alone.
#![tactic(auto)]

ghost use Rattle.std.specs.Prelude.{◌≡◌, false, not, ◌&&◌, ℕ, eqb, ◌+ℤ◌};
ghost use Rattle.node.specs.declared.Signal.TheVariants.{Msg, Exit, Link, Unlink, Monitor, Demonitor};
ghost use Rattle.node.specs.declared.Value.TheVariants.{Pid};
ghost use Rattle.node.specs.Processes.{register, moved, advanced, trapped, links_to, linked, unlinked, watching, unwatching, ended};
ghost use Rattle.node.specs.Sets.{lowest_peer};
ghost use Rattle.node.specs.Values.{pid, normal, kill, badarg, same_value};
ghost use Rattle.rules.specs.Effects.{becomes, ends};
ghost use Rattle.rules.specs.Run.{sets_register, jumps_if, integer_in, sets_sum, adds, compares, sends_to, to_other, spawns, closes_to, closes, runs_live};
ghost use Rattle.rules.specs.Arrive.{joins_with, received, exits, downs, takes, is_monitor, answers};
ghost use Rattle.rules.specs.Steps.{is_unborn};
ghost use Rattle.node.specs.Refusals.{refusal_told};
ghost use Rattle.decisions.specs.Answers.{becoming, searching, sending_to, says, code_at};
ghost use Rattle.decisions.specs.Answers.{ran_op, ran, arrived};
ghost use Rattle.decisions.specs.Decided.{decided_of, pair_refusal, birth_refusal};
ghost use Rattle.decisions.specs.Told.{told_by, told_of};

use actions::Decoded;
use node::{
    BehaviourNumber, Message, Op, Process, ProcessNumber, Refusal, Signal, Stage, Value, same_value,
};

// What a process decides: its next self, and what it does beside.
#[derive(Clone, Copy)]
pub struct Decision {
    pub process: Process,
    pub deed: Deed,
}

// No decision does two of these.
#[derive(Clone, Copy)]
pub enum Deed {
    Nothing,
    // The mailbox is searched, by the clauses behind the op: a run takes the first fit, a timeout needs that there is none.
    Searches,
    Joins(Message),
    Sends(ProcessNumber, Signal),
    // A process of that number is brought to life, with that behaviour.
    Spawns(ProcessNumber, BehaviourNumber),
}

// What the owner of step s decides, from what stands at its places: its process p, the signals in flight of its row and the oldest of
// them, x, the length of its code and the op at its place, and how many messages wait. 20, 21 and 23 come first.
#[tactic(auto, using(std::proofs::lemmas::Bool::Decides::nat_tests), unfolding(crate::specs::Decided::decided_of, crate::specs::Answers::expired))]
pub fn decide(
    s: Decoded,
    p: Process,
    signals: u8,
    x: Signal,
    len: u8,
    op: Op,
    waiting: u8,
) -> Result<Decision, Refusal>
    ensures { told_of p result ≡ decided_of s p signals x len op waiting }
{
    if s.bad {
        return Err(Refusal::BadNumber);
    }
    if is_unborn(p) {
        return Err(Refusal::OwnerUnborn);
    }
    if s.arrives {
        if signals == 0 {
            return Err(Refusal::NoneInFlight);
        }
        return arrive(s.owner, s.from, p, waiting, x);
    }
    // A timeout at a recv goes by the run's way to the search: with a way of its own `play` takes 5 % more instructions.
    if s.expires && !receive::awaits(p, len, op) {
        return Err(Refusal::NoTimeout);
    }
    run(s.owner, p, len, op)
}

// 26: the refusal of a decision that sends, to a receiver with so many signals in flight; what refuses it already is told first.
pub fn pair_refusal(refusal: Option<Refusal>, sent: u8) -> Option<Refusal>
    ensures { refusal_told result ≡ pair_refusal (refusal_told refusal) sent }
{
    let full = (4 <= sent).then_some(Refusal::PairFull);
    refusal.or(full)
}

// 27: the same of a decision that brings to life a process which is `old` as yet.
pub fn birth_refusal(refusal: Option<Refusal>, old: Process) -> Option<Refusal>
    ensures { refusal_told result ≡ birth_refusal (refusal_told refusal) old }
{
    let taken = (!is_unborn(old)).then_some(Refusal::NotUnborn);
    refusal.or(taken)
}

// A run of process i, whose code has len ops and which is at op.
pub fn run(i: ProcessNumber, p: Process, len: u8, op: Op) -> Result<Decision, Refusal>
    ensures { told_of p result ≡ ran i p len op }
{
    match p.stage {
        Stage::Unborn => Err(Refusal::OwnerUnborn),
        Stage::Live => Ok(run_live(i, p, len, op)),
        Stage::Closing => Ok(close(p)),
        Stage::Gone => Err(Refusal::OwnerGone),
    }
}

// The op decides: by its number, an arm to each, which document 01 asks for. None refuses by itself: 26, 27 and, at a recv, 25 and 29 are told by
// what is met there.
pub fn run_op(i: ProcessNumber, p: Process, op: Op) -> Decision
    ensures { told_by result ≡ ran_op i p op }
{
    let number = op.number;
    match number {
        0 => run_set(p, op),
        1 => run_copy(p, op),
        2 => run_self(i, p, op),
        3 => run_add(p, op),
        4 => run_send(p, op),
        5 => run_exit(p, op),
        6 => run_link(i, p, op),
        7 => run_unlink(i, p, op),
        8 => run_trap(p, op),
        9 => run_spawn(p, op),
        10 => Decision::searches(p),
        11 => run_part(p),
        12 => run_jump(p, op),
        13 => run_same(p, op),
        14 => run_less(p, op),
        15 => run_stop(p, op),
        16 => run_monitor(i, p, op),
        17 => run_demonitor(i, p, op),
        18 => run_part(p),
        _ => run_stop(p, op),
    }
}

// The arrival at process i, whose mailbox has count messages, of signal x from j.
pub fn arrive(
    i: ProcessNumber,
    j: ProcessNumber,
    p: Process,
    count: u8,
    x: Signal,
) -> Result<Decision, Refusal>
    ensures { told_of p result ≡ arrived i j p count x }
{
    match p.stage {
        Stage::Unborn => Err(Refusal::OwnerUnborn), // the signal waits in its row
        Stage::Live => take(i, j, p, count, x),
        Stage::Closing | Stage::Gone => Ok(answer(j, p, x)),
    }
}

impl Decision {
    // Only the process changes.
    fn becomes(p: Process) -> Decision
        ensures { told_by result ≡ becoming p }
    {
        Decision {
            process: p,
            deed: Deed::Nothing,
        }
    }

    // What is decided is left to a search of the mailbox.
    fn searches(p: Process) -> Decision
        ensures { told_by result ≡ searching p }
    {
        Decision {
            process: p,
            deed: Deed::Searches,
        }
    }

    fn sends(p: Process, j: ProcessNumber, x: Signal) -> Decision
        ensures { told_by result ≡ sending_to p j x }
    {
        Decision {
            process: p,
            deed: Deed::Sends(j, x),
        }
    }
}

// ---- the ops, each by its number

fn run_set(p: Process, op: Op) -> Decision
    ensures { told_by result ≡ says p 0 (λ st. sets_register st op.r op.value) }
{
    Decision::becomes(p.with_register(op.r, op.value).advanced())
}

fn run_copy(p: Process, op: Op) -> Decision
    ensures { told_by result ≡ says p 0 (λ st. sets_register st op.r (register p op.s)) }
{
    Decision::becomes(p.with_register(op.r, p.register(op.s)).advanced())
}

fn run_self(i: ProcessNumber, p: Process, op: Op) -> Decision
    ensures { told_by result ≡ says p 0 (λ st. sets_register st op.r (pid i.0)) }
{
    Decision::becomes(p.with_register(op.r, Value::Pid(i)).advanced())
}

// The sum of two integers goes to register r, where it is one too; else the process ends.
fn add(p: Process, r: u8, x: i32, y: i32) -> Decision
    ensures { told_by result ≡ says p 0 (λ st. sets_sum st r x y) }
{
    match x.checked_add(y) {
        Some(z) => Decision::becomes(p.with_register(r, Value::Int(z)).advanced()),
        None => Decision::becomes(p.ended(Value::BADARITH)),
    }
}

fn run_add(p: Process, op: Op) -> Decision
    ensures { told_by result ≡ says p 0 (λ st. adds st op.r (register p op.r) (register p op.s)) }
{
    match (p.register(op.r), p.register(op.s)) {
        (Value::Int(x), Value::Int(y)) => add(p, op.r, x, y),
        _ => Decision::becomes(p.ended(Value::BADARITH)),
    }
}

// The end of a process whose op finds a value of the wrong kind. It is no refusal and sends nothing, so no pair is looked at.
fn end_badarg(p: Process) -> Decision
    ensures { told_by result ≡ becoming (ended p badarg) }
{
    Decision::becomes(p.ended(Value::BADARG))
}

// A signal from p to the process that v names; where v names none p ends.
fn send_to(p: Process, v: Value, x: Signal) -> Decision
    ensures { told_by result ≡ says p 0 (λ st. sends_to st v (λ j. p) x) }
{
    match v {
        Value::Pid(j) => Decision::sends(p.advanced(), j, x),
        _ => end_badarg(p),
    }
}

// A signal to process j, which makes p `next`; to process i itself nothing.
#[tactic(auto, using(std::proofs::lemmas::Bool::Decides::nat_tests), unfolding(node::specs::Values::same_value))]
fn send_to_other(
    i: ProcessNumber,
    p: Process,
    next: Process,
    j: ProcessNumber,
    x: Signal,
) -> Decision
    ensures { told_by result ≡ says p 0 (λ st. to_other i.0 st (Pid j) (sends_to st (Pid j) (λ k. next) x)) }
{
    if j.0 == i.0 {
        return Decision::becomes(p.advanced());
    }
    Decision::sends(next.advanced(), j, x)
}

fn run_send(p: Process, op: Op) -> Decision
    ensures { told_by result ≡ says p 0 (λ st. sends_to st (register p op.r) (λ j. p) (Msg (register p op.s))) }
{
    send_to(p, p.register(op.r), Signal::Msg(p.register(op.s)))
}

fn run_exit(p: Process, op: Op) -> Decision
    ensures { told_by result ≡ says p 0 (λ st. sends_to st (register p op.r) (λ j. p) (Exit (register p op.s) false)) }
{
    send_to(p, p.register(op.r), Signal::Exit(p.register(op.s), false))
}

fn run_link(i: ProcessNumber, p: Process, op: Op) -> Decision
    ensures { told_by result ≡ says p 0 (λ st. to_other i.0 st (register p op.r) (sends_to st (register p op.r) (linked p) Link)) }
{
    match p.register(op.r) {
        Value::Pid(j) => send_to_other(i, p, p.linked(j), j, Signal::Link),
        _ => end_badarg(p),
    }
}

fn run_unlink(i: ProcessNumber, p: Process, op: Op) -> Decision
    ensures { told_by result ≡ says p 0 (λ st. to_other i.0 st (register p op.r) (sends_to st (register p op.r) (unlinked p) Unlink)) }
{
    match p.register(op.r) {
        Value::Pid(j) => send_to_other(i, p, p.unlinked(j), j, Signal::Unlink),
        _ => end_badarg(p),
    }
}

fn run_monitor(i: ProcessNumber, p: Process, op: Op) -> Decision
    ensures { told_by result ≡ says p 0 (λ st. to_other i.0 st (register p op.r) (sends_to st (register p op.r) (watching p) Monitor)) }
{
    match p.register(op.r) {
        Value::Pid(j) => send_to_other(i, p, p.watching(j), j, Signal::Monitor),
        _ => end_badarg(p),
    }
}

fn run_demonitor(i: ProcessNumber, p: Process, op: Op) -> Decision
    ensures { told_by result ≡ says p 0 (λ st. to_other i.0 st (register p op.r) (sends_to st (register p op.r) (unwatching p) Demonitor)) }
{
    match p.register(op.r) {
        Value::Pid(j) => send_to_other(i, p, p.unwatching(j), j, Signal::Demonitor),
        _ => end_badarg(p),
    }
}

fn run_trap(p: Process, op: Op) -> Decision
    ensures { told_by result ≡ says p 0 (λ st. becomes st (advanced (trapped p (eqb op.small 1)))) }
{
    Decision::becomes(p.trapped(op.small == 1).advanced())
}

fn run_spawn(p: Process, op: Op) -> Decision
    ensures { (i : ℕ) → told_by result ≡ says p 0 (λ st. spawns i st op) }
{
    Decision {
        process: p.with_register(op.r, Value::Pid(op.process)).advanced(),
        deed: Deed::Spawns(op.process, op.behaviour),
    }
}

// A clause or an `after`, which no place of a sound node is on.
fn run_part(p: Process) -> Decision
    ensures { told_by result ≡ says p 0 (λ st. becomes st (advanced p)) }
{
    Decision::becomes(p.advanced())
}

fn run_jump(p: Process, op: Op) -> Decision
    ensures { told_by result ≡ says p 0 (λ st. becomes st (moved p op.target)) }
{
    Decision::becomes(p.moved(op.target))
}

// To place t where b holds, else on.
fn jump_if(p: Process, b: bool, t: u8) -> Decision
    ensures { told_by result ≡ says p 0 (λ st. jumps_if st b t) }
{
    if b {
        return Decision::becomes(p.moved(t));
    }
    Decision::becomes(p.advanced())
}

fn run_same(p: Process, op: Op) -> Decision
    ensures { told_by result ≡ says p 0 (λ st. jumps_if st (same_value (register p op.r) op.value) op.target) }
{
    jump_if(p, same_value(p.register(op.r), op.value), op.target)
}

fn run_less(p: Process, op: Op) -> Decision
    ensures { told_by result ≡ says p 0 (λ st. compares st op.target (register p op.r) (register p op.s)) }
{
    match (p.register(op.r), p.register(op.s)) {
        (Value::Int(x), Value::Int(y)) => jump_if(p, x < y, op.target),
        _ => end_badarg(p),
    }
}

fn run_stop(p: Process, op: Op) -> Decision
    ensures { told_by result ≡ says p 0 (λ st. ends st (register p op.r)) }
{
    Decision::becomes(p.ended(p.register(op.r)))
}

// ---- a run

// Tells the lowest link and drops it; without links the watchers are told.
fn close(p: Process) -> Decision
    ensures { told_by result ≡ says p 0 closes }
{
    match p.links.lowest() {
        Some(j) => Decision::sends(p.unlinked(j), j, Signal::Exit(p.reason, true)),
        None => close_unlinked(p),
    }
}

// Tells the lowest watcher and drops it; without watchers the process is gone.
fn close_unlinked(p: Process) -> Decision
    ensures { told_by result ≡ says p 0 (λ st. closes_to st 0 (lowest_peer p.watchers)) }
{
    match p.watchers.lowest() {
        Some(j) => Decision::sends(p.unwatched(j), j, Signal::Down(p.reason)),
        None => Decision::becomes(p.gone()),
    }
}

// A live process whose code has len ops, at op.
fn run_live(i: ProcessNumber, p: Process, len: u8, op: Op) -> Decision
    ensures { told_by result ≡ says p 0 (λ st. runs_live (code_at len p.place op) i.0 st) }
{
    if len <= p.place {
        return Decision::becomes(p.ended(Value::NORMAL));
    }
    run_op(i, p, op)
}

// ---- an arrival

// Message x joins a mailbox of count messages, which makes its process `next`; on 24 the process stays.
fn join(next: Process, count: u8, x: Message) -> Result<Decision, Refusal>
    ensures { (p : Process) → told_of p result ≡ says p count (λ st. joins_with st next x) }
{
    if 16 <= count {
        return Err(Refusal::MailboxFull);
    }
    Ok(Decision {
        process: next,
        deed: Deed::Joins(x),
    })
}

// What is left of p once an exit signal from j is received: where it came along the link (b), the link is over.
fn received(j: ProcessNumber, p: Process, b: bool) -> Process
    ensures { result ≡ received j.0 p b }
{
    if b {
        return p.unlinked(j);
    }
    p
}

// Line 1: the signal came along a link that is over.
fn strays(j: ProcessNumber, p: Process, b: bool) -> bool
    ensures { result ≡ (b && not (links_to p j.0)) }
{
    b && !p.links_to(j)
}

// Line 2: the reason is kill, and the signal came along no link.
fn kills(v: Value, b: bool) -> bool
    ensures { result ≡ (not b && same_value v kill) }
{
    !b && same_value(v, Value::KILL)
}

// Line 4: the reason is normal, and j is not i.
fn drops_normal(i: ProcessNumber, j: ProcessNumber, v: Value) -> bool
    ensures { result ≡ (same_value v normal && not (eqb j.0 i.0)) }
{
    same_value(v, Value::NORMAL) && j.0 != i.0
}

// An exit signal from j: the first of document 01's five lines that applies.
#[tactic(auto, using(std::proofs::lemmas::Bool::Decides::nat_tests), unfolding(rules::specs::Arrive::exits))]
fn exit(
    i: ProcessNumber,
    j: ProcessNumber,
    p: Process,
    count: u8,
    v: Value,
    b: bool,
) -> Result<Decision, Refusal>
    ensures { told_of p result ≡ says p count (λ st. exits i.0 j.0 st v b) }
{
    if strays(j, p, b) {
        return Ok(Decision::becomes(p));
    }
    if kills(v, b) {
        return Ok(Decision::becomes(p.ended(Value::KILLED)));
    }
    let left = received(j, p, b);
    if p.trap {
        return join(left, count, Message::Note(j, v));
    }
    if drops_normal(i, j, v) {
        return Ok(Decision::becomes(left));
    }
    Ok(Decision::becomes(left.ended(v)))
}

// What a live process does with a signal from j.
fn take(
    i: ProcessNumber,
    j: ProcessNumber,
    p: Process,
    count: u8,
    x: Signal,
) -> Result<Decision, Refusal>
    ensures { told_of p result ≡ says p count (λ st. takes i.0 j.0 st x) }
{
    match x {
        Signal::Msg(v) => join(p, count, Message::Plain(v)),
        Signal::Exit(v, b) => exit(i, j, p, count, v, b),
        Signal::Link => Ok(Decision::becomes(p.linked(j))),
        Signal::Unlink => Ok(Decision::becomes(p.unlinked(j))),
        Signal::Monitor => Ok(Decision::becomes(p.watched(j))),
        Signal::Demonitor => Ok(Decision::becomes(p.unwatched(j))),
        Signal::Down(v) => down(j, p, count, v),
    }
}

// A down from j: it joins, and the watch is over. Where j is not watched it is dropped.
#[tactic(auto, using(std::proofs::lemmas::Bool::Decides::nat_tests), unfolding(rules::specs::Arrive::downs))]
fn down(j: ProcessNumber, p: Process, count: u8, v: Value) -> Result<Decision, Refusal>
    ensures { told_of p result ≡ says p count (λ st. downs j.0 st v) }
{
    if !p.watches_over(j) {
        return Ok(Decision::becomes(p));
    }
    join(p.unwatching(j), count, Message::Down(j, v))
}

// What an ended process does with a signal from j: a monitor is told that there is no such process, every other is dropped.
fn answer(j: ProcessNumber, p: Process, x: Signal) -> Decision
    ensures { (k : ℕ) → told_by result ≡ says p k (λ st. answers j.0 st x) }
{
    if is_monitor(x) {
        return Decision::sends(p, j, Signal::Down(Value::NOPROC));
    }
    Decision::becomes(p)
}

fn is_monitor(x: Signal) -> bool
    ensures { result ≡ is_monitor x }
{
    matches!(x, Signal::Monitor)
}

fn is_unborn(p: Process) -> bool
    ensures { result ≡ is_unborn p.stage }
{
    matches!(p.stage, Stage::Unborn)
}
