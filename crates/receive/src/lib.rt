// Receiving: which message a clause takes, which kinds clauses can take, the search of a mailbox, what a process makes of its answer, and giving
// up. Messages and clauses are lent where they stand; all that follows is told by the answer, here.
#![tactic(auto)]

ghost use Rattle.std.specs.Prelude.{true, IfOk, ◌<◌, ◌&&◌, ◌≡◌, eqb, ltb, ◌≤◌, ◌-◌, min, take, drop};
ghost use Rattle.node.specs.Ops.{recv_op};
ghost use Rattle.node.specs.Processes.{moved};
ghost use Rattle.node.specs.Refusals.{refusal_told};
ghost use Rattle.rules.specs.Consult.{consulted};
ghost use Rattle.rules.specs.Receive.{is_value, fits, with_sender, with_message, search_number};
ghost use Rattle.receive.specs.Found.{found_of, after_search, fit_index, clauses_in, mail_in, searched_in};
ghost use Rattle.receive.specs.Kinds.{no_kinds, noted, noted_all, widened, takes};
ghost use Rattle.receive.specs.Waiting.{awaits, timeout_refusal};

use node::{
    AFTER, ANY, EXACT, Message, Op, Process, ProcessNumber, RECV, Refusal, Slot, Stage, Value,
    same_value,
};

// The first message that fits: its index in the mailbox, and the clause that takes it.
#[derive(Clone, Copy)]
pub struct Fit {
    pub index: usize,
    pub clause: Op,
    pub message: Message,
}

// Why a search gives no fit: no message is there, or none of its messages fits.
#[derive(Clone, Copy, Debug, PartialEq, Eq)]
pub enum NoFit {
    Silent,
    Unfit,
}

// What a search tells: its answer, and how many clauses it consulted.
#[derive(Clone, Copy)]
pub struct Searched {
    pub found: Result<Fit, NoFit>,
    pub consulted: usize,
}

// A set of kinds of messages: bit k for kind k. While clauses are noted, the bit of `any` stands for every kind.
#[derive(Clone, Copy)]
pub struct Kinds(pub usize);

impl Kinds {
    pub fn none() -> Kinds
        ensures { result ≡ no_kinds }
    {
        Kinds(0)
    }

    // What clause c can take is noted.
    pub fn noted(self, c: Op) -> Kinds
        ensures { result ≡ noted self c }
    {
        let kind = c.small;
        if kind == EXACT {
            return Kinds(self.0 | (1 << c.value.kind()));
        }
        if kind < 8 {
            return Kinds(self.0 | (1 << kind));
        }
        self
    }

    // All clauses are noted: where `any` is one of them, every kind can be taken.
    pub fn widened(self) -> Kinds
        ensures { result ≡ widened self }
    {
        if (self.0 >> ANY) % 2 == 1 {
            return Kinds(124);
        }
        self
    }

    // The kind of message m is one of them.
    pub fn takes(self, m: Message) -> bool
        ensures { result ≡ takes self m }
    {
        (self.0 >> m.kind()) % 2 == 1
    }
}

// The search of a mailbox that has `count` messages, from slot `first` on, by `clauses` clauses, from op `at` on; past the end of an array stand
// none.
// It takes whole arrays, as docs/PROMISES.md names it; `search_in` is lent the parts.
pub fn search(
    slots: [Slot; 256],
    first: usize,
    count: u8,
    ops: [Op; 256],
    at: usize,
    clauses: u8,
) -> Searched
    ensures answer { found_of result.found ≡ searched_in (clauses_in ops at clauses) (mail_in slots first count) }
    ensures count { result.consulted ≡ consulted (clauses_in ops at clauses) (mail_in slots first count) }
{
    search_in(
        &slots[first.min(256)..],
        count,
        &ops[at.min(256)..],
        clauses,
    )
}

// The same where the messages stand first in `slots` and the clauses first in `ops`.
pub fn search_in(slots: &[Slot], count: u8, ops: &[Op], clauses: u8) -> Searched
    ensures answer { found_of result.found ≡ searched_in (clauses_in ops.now 0 clauses) (mail_in slots.now 0 count) }
    ensures count { result.consulted ≡ consulted (clauses_in ops.now 0 clauses) (mail_in slots.now 0 count) }
    ensures within { IfOk result.found (λ f. f.index < count) }
{
    search_by::<true>(slots, count, ops, clauses)
}

// The answer alone: nothing is counted, since no step asks for the count.
pub fn first_fit(slots: &[Slot], count: u8, ops: &[Op], clauses: u8) -> Result<Fit, NoFit>
    ensures answer { found_of result ≡ searched_in (clauses_in ops.now 0 clauses) (mail_in slots.now 0 count) }
    ensures within { IfOk result (λ f. f.index < count) }
{
    search_by::<false>(slots, count, ops, clauses).found
}

// First the kinds that the clauses can take are noted; then clauses are consulted for messages of those kinds only. How many are consulted is
// told where COUNTS is set.
fn search_by<const COUNTS: bool>(slots: &[Slot], count: u8, ops: &[Op], clauses: u8) -> Searched
    ensures answer { found_of result.found ≡ searched_in (clauses_in ops.now 0 clauses) (mail_in slots.now 0 count) }
    ensures count { COUNTS ≡ true → result.consulted ≡ consulted (clauses_in ops.now 0 clauses) (mail_in slots.now 0 count) }
    ensures within { IfOk result.found (λ f. f.index < count) }
{
    let mail = &slots[..slots.len().min(count as usize)];
    let clauses = &ops[..ops.len().min(clauses as usize)];
    let kinds = kinds_of(clauses);
    let mut found = Err(NoFit::Silent);
    let mut consulted: usize = 0;
    'messages: for (index, slot) in mail.iter().enumerate() {
        let message = slot.message;
        found = Err(NoFit::Unfit);
        if kinds.takes(message) {
            for (k, clause) in clauses.iter().enumerate() {
                if fits(*clause, message) {
                    found = Ok(Fit {
                        index,
                        clause: *clause,
                        message,
                    });
                    if COUNTS {
                        consulted += k + 1;
                    }
                    break 'messages;
                }
            }
            if COUNTS {
                consulted += clauses.len();
            }
        }
    }
    Searched { found, consulted }
}

// The kinds that clauses can take.
fn kinds_of(clauses: &[Op]) -> Kinds
    ensures { result ≡ widened (noted_all no_kinds clauses.now) }
{
    let mut kinds = Kinds::none();
    for clause in clauses {
        kinds = kinds.noted(*clause);
    }
    kinds.widened()
}

// 25, 29, or none.
pub fn search_refusal(found: Result<Fit, NoFit>) -> Option<Refusal>
    ensures { refusal_told result ≡ search_number (found_of found) }
{
    match found {
        Err(NoFit::Silent) => Some(Refusal::MailboxEmpty),
        Err(NoFit::Unfit) => Some(Refusal::NoFit),
        Ok(_) => None,
    }
}

// Process p behind a recv whose search answered `found`; as it was where nothing fits.
pub fn after_search(p: Process, found: Result<Fit, NoFit>) -> Process
    ensures { result ≡ after_search p (found_of found) }
{
    match found {
        Ok(fit) => taken(p, fit.clause, fit.message),
        Err(_) => p,
    }
}

// The index of the message that leaves the mailbox; `none` where none does, since docs/PROMISES.md promises this function so.
pub fn fit_index(found: Result<Fit, NoFit>, none: usize) -> usize
    ensures { result ≡ fit_index none (found_of found) }
{
    match found {
        Ok(fit) => fit.index,
        Err(_) => none,
    }
}

// Process p behind a recv whose clause c takes message m.
fn taken(p: Process, c: Op, m: Message) -> Process
    ensures { result ≡ moved (with_message p c m) c.target }
{
    with_message(p, c, m).moved(c.target)
}

// Clause c takes message m.
pub fn fits(c: Op, m: Message) -> bool
    ensures { result ≡ fits c m }
{
    match c.small {
        EXACT => is_value(c.value, m),
        ANY => true,
        kind => kind == m.kind(),
    }
}

// Message m is value w; a note or a down is none.
fn is_value(w: Value, m: Message) -> bool
    ensures { result ≡ is_value w m }
{
    match m {
        Message::Plain(v) => same_value(v, w),
        _ => false,
    }
}

// Process p with message m in the registers that clause c names.
fn with_message(p: Process, c: Op, m: Message) -> Process
    ensures { result ≡ with_message p c m }
{
    match m {
        Message::Plain(v) => p.with_register(c.r, v),
        Message::Note(j, v) | Message::Down(j, v) => with_sender(p, c, j, v),
    }
}

// Process p with a sender and its reason in the registers that clause c names.
fn with_sender(p: Process, c: Op, j: ProcessNumber, v: Value) -> Process
    ensures { result ≡ with_sender p c j v }
{
    p.with_register(c.r, Value::Pid(j)).with_register(c.s, v)
}

// Whether a process, whose code has len ops and which is at op, is live at a recv.
#[tactic(auto, using(std::proofs::lemmas::Bool::Decides::nat_tests), unfolding(crate::specs::Waiting::awaits))]
pub fn awaits(p: Process, len: u8, op: Op) -> bool
    ensures { result ≡ awaits p len op }
{
    matches!(p.stage, Stage::Live) && p.place < len && op.number == RECV
}

// 28: the refusal of a timeout at the recv at `place` of a code of len ops, where the search of the mailbox answered `found` and `behind` is
// what stands behind its clauses, if that is within the code.
#[tactic(auto, using(std::proofs::lemmas::Bool::Decides::nat_tests), unfolding(crate::specs::Waiting::timeout_refusal))]
pub fn timeout_refusal(
    found: Result<Fit, NoFit>,
    place: u8,
    clauses: u8,
    len: u8,
    behind: Op,
) -> Option<Refusal>
    ensures { refusal_told result ≡ timeout_refusal (found_of found) place clauses len behind }
{
    if found.is_ok() {
        return Some(Refusal::NoTimeout);
    }
    let at = (place as u16) + 1 + (clauses as u16);
    if (len as u16) <= at {
        return Some(Refusal::NoTimeout);
    }
    if behind.number != AFTER {
        return Some(Refusal::NoTimeout);
    }
    None
}
