// The types of a node, the constructors of fresh processes and of the blank node, what a step makes of a record, and the tables of ops.
#![tactic(auto)]

ghost use Rattle.std.specs.Prelude.{◌&&◌, [], ◌∷◌, ◌≡◌, ◌+◌, ◌-◌, ◌<◌, min, leb, get_or};
ghost use Rattle.node.specs.declared.OperandKind.TheVariants.{NoOperand};
ghost use Rattle.node.specs.Ops.{is_part, kinds_in, kinds_of, operand_counts, operand_kind, stop_op};
ghost use Rattle.node.specs.Processes.{unborn, fresh, register, with_register, with_registers, moved, advanced, trapped, mail_count};
ghost use Rattle.node.specs.Processes.{links_to, linked, unlinked, with_links, ended, gone, with_stage};
ghost use Rattle.node.specs.Processes.{watches_over, watching, unwatching, watched_by, watched, unwatched, with_watches, with_watchers};
ghost use Rattle.node.specs.Values.{is_number, value_sound, kind_of, message_kind, number_in, same_value};
ghost use Rattle.node.specs.Sets.{no_peers, has, with_peer, without_peer, lowest_peer, peer_told};
ghost use Rattle.node.specs.Mailboxes.{no_message};
ghost use Rattle.node.specs.Rows.{no_signal};
ghost use Rattle.node.specs.Nodes.{blank_node, no_op};
ghost use Rattle.node.specs.Refusals.{refusal_number};
ghost use Rattle.node.specs.Starts.{node_behaviours, node_starts, row_of, row_with, start_of};

// A process number (process identifier), 1 to 16.
#[derive(Clone, Copy, Debug, PartialEq, Eq)]
pub struct ProcessNumber(pub u8);

// A behaviour number, 1 to 8. A behaviour is the code that a process runs.
#[derive(Clone, Copy, Debug, PartialEq, Eq)]
pub struct BehaviourNumber(pub u8);

// A value: an integer `i`, an atom `a` or a process number `p`. The types i32 and u8 hold just the limits of `i` and of `a`.
#[derive(Clone, Copy, Debug, PartialEq, Eq)]
pub enum Value {
    Int(i32),
    Atom(u8),
    Pid(ProcessNumber),
}

impl Value {
    pub const NORMAL: Value = Value::Atom(0);

    pub const KILL: Value = Value::Atom(1);

    pub const KILLED: Value = Value::Atom(2);

    pub const BADARG: Value = Value::Atom(3);

    pub const BADARITH: Value = Value::Atom(4);

    pub const NOPROC: Value = Value::Atom(5);
    // i0, the content of a fresh register.
    pub const ZERO: Value = Value::Int(0);

    pub fn kind(self) -> u8
        ensures { result ≡ kind_of self }
    {
        match self {
            Value::Int(_) => INT,
            Value::Atom(_) => ATOM,
            Value::Pid(_) => PID,
        }
    }

    // The number that the value holds.
    pub fn number(self) -> i32
        ensures { result ≡ number_in self }
    {
        match self {
            Value::Int(z) => z,
            Value::Atom(a) => a as i32,
            Value::Pid(j) => j.0 as i32,
        }
    }
}

// A message in a mailbox: a plain value, or, with its sender and the exit reason, a note (the field's 'EXIT' message) or a down (its 'DOWN').
#[derive(Clone, Copy, Debug, PartialEq, Eq)]
pub enum Message {
    Plain(Value),
    Note(ProcessNumber, Value),
    Down(ProcessNumber, Value),
}

impl Message {
    pub fn kind(self) -> u8
        ensures { result ≡ message_kind self }
    {
        match self {
            Message::Plain(v) => v.kind(),
            Message::Note(_, _) => NOTE,
            Message::Down(_, _) => DOWN,
        }
    }
}

// A signal in flight. The bool of an exit signal says that it was sent along a link.
#[derive(Clone, Copy, Debug, PartialEq, Eq)]
pub enum Signal {
    Msg(Value),
    Exit(Value, bool),
    Link,
    Unlink,
    Monitor,
    Demonitor,
    Down(Value),
}

// An op (instruction) by its number in document 01's table; the fields that it does not have as operands are not read. The value stands
// last, so that an op takes 16 bytes and not 20.
#[derive(Clone, Copy, Debug, PartialEq, Eq)]
pub struct Op {
    pub number: u8,
    pub r: u8,
    pub s: u8,
    pub target: u8,
    // A trap flag, a count of clauses or a clause's kind.
    pub small: u8,
    pub process: ProcessNumber,
    pub behaviour: BehaviourNumber,
    pub value: Value,
}

// What an operand is, with document 01's letter for it: a register, a value, a place, a behaviour number, a process number, a flag, a count of
// clauses, a clause's kind.
#[derive(Clone, Copy, Debug, PartialEq, Eq)]
pub enum OperandKind {
    NoOperand,
    RegisterR,
    RegisterS,
    ValueV,
    PlaceT,
    BehaviourB,
    ProcessQ,
    FlagF,
    CountN,
    KindK,
}

// What operands an op has, in their order; ops with the same operands share a shape.
#[derive(Clone, Copy, Debug, PartialEq, Eq)]
pub enum Shape {
    Nothing,
    R,
    RS,
    RV,
    F,
    RBQ,
    N,
    KRST,
    T,
    RVT,
    RST,
}

// A set of processes as one number: process k + 1 is in it where bit k is set.
#[derive(Clone, Copy, Debug, PartialEq, Eq)]
pub struct Peers(pub u16);

// Closing is an exiting process that has still to tell its links and its watchers.
#[derive(Clone, Copy, Debug, PartialEq, Eq)]
pub enum Stage {
    Unborn,
    Live,
    Closing,
    Gone,
}

// A process. What its stage does not hold is not read.
#[derive(Clone, Copy, Debug, PartialEq, Eq)]
pub struct Process {
    pub stage: Stage,
    pub behaviour: BehaviourNumber,
    // The program counter.
    pub place: u8,
    // Here it fills a gap: fields lie in memory as they are declared.
    pub trap: bool,
    pub r0: Value,
    pub r1: Value,
    pub r2: Value,
    pub r3: Value,
    pub links: Peers,
    // Those that it monitors, and those that monitor it.
    pub watches: Peers,
    pub watchers: Peers,
    pub reason: Value,
}

#[derive(Clone, Copy, Debug, PartialEq, Eq)]
pub struct Slot {
    pub message: Message,
}

#[derive(Clone, Copy, Debug, PartialEq, Eq)]
pub struct Cell {
    pub signal: Signal,
}

// Behaviour b (of `count`) has `lens[b - 1]` ops, from `ops[32 * (b - 1)]` on, and process i stands at `processes[i - 1]`. Mailboxes and
// rows are flat, so that a step stores single elements: of process i the first `waiting[i - 1]` slots from `slots[16 * (i - 1)]` on hold
// the messages, in order of arrival; of the pair from j to i, k being 16 * (j - 1) + (i - 1), the first `counts[k]` cells from
// `cells[4 * k]` on hold the signals, the oldest first.
#[derive(Clone, Copy)]
pub struct Node {
    pub count: u8,
    pub lens: [u8; 8],
    pub ops: [Op; 256],
    pub processes: [Process; 16],
    pub waiting: [u8; 16],
    pub slots: [Slot; 256],
    pub counts: [u8; 256],
    pub cells: [Cell; 1024],
}

// Behaviours as a node holds them: behaviour b (of `count`) has `lens[b - 1]` ops, from `ops[32 * (b - 1)]` on.
#[derive(Clone, Copy)]
pub struct Behaviours {
    pub count: u8,
    pub lens: [u8; 8],
    pub ops: [Op; 256],
}

// A process that a plan starts, and the behaviour that it starts with.
#[derive(Clone, Copy, Debug, PartialEq, Eq)]
pub struct Start {
    pub process: ProcessNumber,
    pub behaviour: BehaviourNumber,
}

// A row of starts: the first `count` of the list.
#[derive(Clone, Copy)]
pub struct Starts {
    pub count: u8,
    pub list: [Start; 16],
}

// A step by its kind: 0 is `run owner`, 1 is `arrive owner from from`, 2 is `timeout owner`. A record and no enum: the step that the definition
// `play` of the rules reads may have any kind, and one above 2 is refused with a number.
#[derive(Clone, Copy, Debug, PartialEq, Eq)]
pub struct Step {
    pub kind: u8,
    pub owner: ProcessNumber,
    pub from: ProcessNumber,
}

// What the schedule writer is told of a step that is refused, and the caller of a call (document 01, "The three hands").
#[derive(Clone, Copy, Debug, PartialEq, Eq)]
pub enum Refusal {
    BadNumber,
    OwnerUnborn,
    OwnerGone,
    NoneInFlight,
    MailboxFull,
    MailboxEmpty,
    PairFull,
    NotUnborn,
    NoTimeout,
    NoFit,
    // The output is shorter than what is to be written.
    OutputShort,
    NotSound,
    ScheduleTooLong,
}

impl Refusal {
    // The number that it is told by.
    pub fn number(self) -> u8
        ensures { result ≡ refusal_number self }
    {
        match self {
            Refusal::BadNumber => 20,
            Refusal::OwnerUnborn => 21,
            Refusal::OwnerGone => 22,
            Refusal::NoneInFlight => 23,
            Refusal::MailboxFull => 24,
            Refusal::MailboxEmpty => 25,
            Refusal::PairFull => 26,
            Refusal::NotUnborn => 27,
            Refusal::NoTimeout => 28,
            Refusal::NoFit => 29,
            Refusal::OutputShort => 30,
            Refusal::NotSound => 31,
            Refusal::ScheduleTooLong => 32,
        }
    }
}

// The number of ops, and the numbers of those that others look for.
pub const OPS: u8 = 19;

pub const RECV: u8 = 10;

pub const CLAUSE: u8 = 11;

pub const AFTER: u8 = 18;

// The kinds of a clause: one exact value, every message, then the kinds of messages. The exact value has the first number, so that a new
// kind moves none. They are numbers and no enum, since `Op` holds a clause's kind in its byte `small`, and `kind_of` and `message_kind` say numbers.
pub const EXACT: u8 = 0;

pub const ANY: u8 = 1;

pub const INT: u8 = 2;

pub const ATOM: u8 = 3;

pub const PID: u8 = 4;

pub const NOTE: u8 = 5;

pub const DOWN: u8 = 6;

// The last of them.
pub const LAST_KIND: u8 = DOWN;

// How many operands each op has, by its number.
const OPERANDS: [u8; 19] = [2, 2, 1, 2, 2, 2, 1, 1, 1, 3, 1, 4, 1, 3, 3, 1, 1, 1, 1];

// The shape of each op, by its number.
const SHAPES: [Shape; 19] = [
    Shape::RV, // set
    Shape::RS, // copy
    Shape::R, // self
    Shape::RS, // add
    Shape::RS, // send
    Shape::RS, // exit
    Shape::R, // link
    Shape::R, // unlink
    Shape::F, // trap
    Shape::RBQ, // spawn
    Shape::N, // recv
    Shape::KRST, // clause
    Shape::T, // jump
    Shape::RVT, // same
    Shape::RST, // less
    Shape::R, // stop
    Shape::R, // monitor
    Shape::R, // demonitor
    Shape::T, // after
];

// Whether an op is a part of a recv, a clause or an `after`: no process stands at one.
pub fn is_part(op: u8) -> bool
    ensures { result ≡ is_part op }
{
    op == CLAUSE || op == AFTER
}

// The number of operands of an op; 0 for a number that is no op.
pub fn operand_count(op: u8) -> u8
    ensures { result ≡ get_or operand_counts op 0 }
{
    OPERANDS.get(op as usize).copied().unwrap_or(0)
}

// What operands an op has; nothing for a number that is no op.
pub fn shape_of(op: u8) -> Shape
    ensures { kinds_in result ≡ kinds_of op }
{
    SHAPES.get(op as usize).copied().unwrap_or(Shape::Nothing)
}

// What operand k of an op is.
pub fn operand_kind(op: u8, k: u8) -> OperandKind
    ensures { result ≡ operand_kind op k }
{
    let kinds = shape_of(op).operands();
    kinds
        .get(k as usize)
        .copied()
        .unwrap_or(OperandKind::NoOperand)
}

impl Shape {
    // What operands an op of this shape has, in their order.
    fn operands(self) -> &'static [OperandKind]
        ensures { result.now ≡ kinds_in self }
    {
        match self {
            Shape::Nothing => &[],
            Shape::R => &[OperandKind::RegisterR],
            Shape::RS => &[OperandKind::RegisterR, OperandKind::RegisterS],
            Shape::RV => &[OperandKind::RegisterR, OperandKind::ValueV],
            Shape::F => &[OperandKind::FlagF],
            Shape::RBQ => &[
                OperandKind::RegisterR,
                OperandKind::BehaviourB,
                OperandKind::ProcessQ,
            ],
            Shape::N => &[OperandKind::CountN],
            Shape::KRST => &[
                OperandKind::KindK,
                OperandKind::RegisterR,
                OperandKind::RegisterS,
                OperandKind::PlaceT,
            ],
            Shape::T => &[OperandKind::PlaceT],
            Shape::RVT => &[
                OperandKind::RegisterR,
                OperandKind::ValueV,
                OperandKind::PlaceT,
            ],
            Shape::RST => &[
                OperandKind::RegisterR,
                OperandKind::RegisterS,
                OperandKind::PlaceT,
            ],
        }
    }
}

pub fn within(n: u8, least: u8, most: u8) -> bool
    ensures { result ≡ (leb least n && leb n most) }
{
    least <= n && n <= most
}

pub fn is_number(i: u8) -> bool
    ensures { result ≡ is_number i }
{
    within(i, 1, 16)
}

pub fn value_sound(v: Value) -> bool
    ensures { result ≡ value_sound v }
{
    match v {
        Value::Int(_) | Value::Atom(_) => true,
        Value::Pid(j) => is_number(j.0),
    }
}

// Equal in kind and number.
pub fn same_value(a: Value, b: Value) -> bool
    ensures { result ≡ same_value a b }
{
    a == b
}

// One more, held at the top of a byte, so that no count or place wraps.
pub fn risen(n: u8) -> u8
    ensures { result ≡ min (n + 1) 255 }
{
    n.saturating_add(1)
}

// One less, held at 0.
pub fn fallen(n: u8) -> u8
    ensures { result ≡ n - 1 }
{
    n.saturating_sub(1)
}

// Process and behaviour numbers are types of their own, so each has its `index`: a trait for this one line would be no plainer.
impl ProcessNumber {
    // Where the process stands in an array of all; number 0 is read as 1.
    pub fn index(self) -> usize
        ensures { result ≡ self.0 - 1 }
    {
        fallen(self.0) as usize
    }
}

impl BehaviourNumber {
    // Where the behaviour stands among all; number 0 is read as 1.
    pub fn index(self) -> usize
        ensures { result ≡ self.0 - 1 }
    {
        fallen(self.0) as usize
    }
}

impl Peers {
    pub fn none() -> Peers
        ensures { result ≡ no_peers }
    {
        Peers(0)
    }

    // Whether process j is in the set; number 0 is read as 1, and none above 16 is.
    pub fn has(self, j: ProcessNumber) -> bool
        ensures { result ≡ has self j.0 }
    {
        let k = j.index();
        k < 16 && (self.0 >> k) % 2 == 1
    }

    // Process j joins.
    pub fn with(self, j: ProcessNumber) -> Peers
        ensures { result ≡ with_peer self j.0 }
    {
        let k = j.index();
        if 16 <= k || self.has(j) {
            return self;
        }
        Peers(self.0 + (1 << k))
    }

    // Process j leaves.
    pub fn without(self, j: ProcessNumber) -> Peers
        ensures { result ≡ without_peer self j.0 }
    {
        if !self.has(j) {
            return self;
        }
        Peers(self.0 - (1 << j.index()))
    }

    // The lowest number in the set, where it is not empty.
    pub fn lowest(self) -> Option<ProcessNumber>
        ensures { result ≡ peer_told (lowest_peer self) }
    {
        for k in 1..=16 {
            let j = ProcessNumber(k);
            if self.has(j) {
                return Some(j);
            }
        }
        None
    }
}

impl Op {
    // What is read past the ops: all zero.
    pub fn blank() -> Op
        ensures { result ≡ no_op }
    {
        Op {
            number: 0,
            r: 0,
            s: 0,
            target: 0,
            small: 0,
            value: Value::ZERO,
            process: ProcessNumber(0),
            behaviour: BehaviourNumber(0),
        }
    }

    // The op `stop,0`.
    pub fn stop() -> Op
        ensures { result ≡ stop_op }
    {
        Op {
            number: 15,
            ..Op::blank()
        }
    }
}

impl Process {
    pub fn unborn() -> Process
        ensures { result ≡ unborn }
    {
        let none = Peers::none();
        Process {
            stage: Stage::Unborn,
            behaviour: BehaviourNumber(0),
            place: 0,
            r0: Value::ZERO,
            r1: Value::ZERO,
            r2: Value::ZERO,
            r3: Value::ZERO,
            trap: false,
            links: none,
            watches: none,
            watchers: none,
            reason: Value::ZERO,
        }
    }

    // A process that begins behaviour b with `first` in its register r0.
    pub fn fresh(b: BehaviourNumber, first: Value) -> Process
        ensures { result ≡ fresh b first }
    {
        Process {
            stage: Stage::Live,
            behaviour: b,
            r0: first,
            ..Process::unborn()
        }
    }

    // The content of register r; a number above 2 is read as 3.
    pub fn register(self, r: u8) -> Value
        ensures { result ≡ register self r }
    {
        match r {
            0 => self.r0,
            1 => self.r1,
            2 => self.r2,
            _ => self.r3,
        }
    }

    pub fn with_register(self, r: u8, v: Value) -> Process
        ensures { result ≡ with_register self r v }
    {
        match r {
            0 => Process { r0: v, ..self },
            1 => Process { r1: v, ..self },
            2 => Process { r2: v, ..self },
            _ => Process { r3: v, ..self },
        }
    }

    pub fn moved(mut self, t: u8) -> Process
        ensures { result ≡ moved self t }
    {
        self.place = t;
        self
    }

    pub fn advanced(mut self) -> Process
        ensures { result ≡ advanced self }
    {
        self.place = risen(self.place);
        self
    }

    pub fn trapped(mut self, f: bool) -> Process
        ensures { result ≡ trapped self f }
    {
        self.trap = f;
        self
    }

    // Links, watches and watchers are three fields with the same three methods each, by the names that the rules give them (`linked`, `watching`,
    // `watched` ..): one method with the field as a parameter would need a getter and a setter beside it, and be no plainer.

    // Whether j is a link.
    pub fn links_to(self, j: ProcessNumber) -> bool
        ensures { result ≡ links_to self j.0 }
    {
        self.links.has(j)
    }

    pub fn linked(mut self, j: ProcessNumber) -> Process
        ensures { result ≡ linked self j.0 }
    {
        self.links = self.links.with(j);
        self
    }

    pub fn unlinked(mut self, j: ProcessNumber) -> Process
        ensures { result ≡ unlinked self j.0 }
    {
        self.links = self.links.without(j);
        self
    }

    // Whether j is watched.
    pub fn watches_over(self, j: ProcessNumber) -> bool
        ensures { result ≡ watches_over self j.0 }
    {
        self.watches.has(j)
    }

    // The process begins to watch j.
    pub fn watching(mut self, j: ProcessNumber) -> Process
        ensures { result ≡ watching self j.0 }
    {
        self.watches = self.watches.with(j);
        self
    }

    // The watch on j is over.
    pub fn unwatching(mut self, j: ProcessNumber) -> Process
        ensures { result ≡ unwatching self j.0 }
    {
        self.watches = self.watches.without(j);
        self
    }

    // Whether j is a watcher.
    pub fn watched_by(self, j: ProcessNumber) -> bool
        ensures { result ≡ watched_by self j.0 }
    {
        self.watchers.has(j)
    }

    // j becomes a watcher.
    pub fn watched(mut self, j: ProcessNumber) -> Process
        ensures { result ≡ watched self j.0 }
    {
        self.watchers = self.watchers.with(j);
        self
    }

    // j is a watcher no longer.
    pub fn unwatched(mut self, j: ProcessNumber) -> Process
        ensures { result ≡ unwatched self j.0 }
    {
        self.watchers = self.watchers.without(j);
        self
    }

    // The process ends with reason v: it is closing, its links and watchers unchanged.
    pub fn ended(self, v: Value) -> Process
        ensures { result ≡ ended self v }
    {
        Process {
            stage: Stage::Closing,
            reason: v,
            ..self
        }
    }

    pub fn gone(mut self) -> Process
        ensures { result ≡ gone self }
    {
        self.stage = Stage::Gone;
        self
    }

    // How many messages the process holds, of those that its mailbox counts: all where it is live, none in any other stage.
    pub fn mail_count(self, waiting: u8) -> u8
        ensures { result ≡ mail_count self.stage waiting }
    {
        match self.stage {
            Stage::Live => waiting,
            Stage::Unborn | Stage::Closing | Stage::Gone => 0,
        }
    }
}

impl Slot {
    // What a slot holds in a fresh node.
    pub fn blank() -> Slot
        ensures { result ≡ no_message }
    {
        Slot {
            message: Message::Plain(Value::ZERO),
        }
    }
}

impl Cell {
    // What a cell holds in a fresh node.
    pub fn blank() -> Cell
        ensures { result ≡ no_signal }
    {
        Cell {
            signal: Signal::Msg(Value::ZERO),
        }
    }
}

impl Starts {
    // A row without starts.
    pub fn none() -> Starts
        ensures { result ≡ row_of [] }
    {
        let blank = Start {
            process: ProcessNumber(0),
            behaviour: BehaviourNumber(0),
        };
        Starts {
            count: 0,
            list: [blank; 16],
        }
    }

    // The start of process p, whose number is i, behind the others, where p is live.
    fn with_live(mut self, i: u8, p: Process) -> Starts
        requires { self.count < 16 }
        ensures { result ≡ row_with p.stage self (start_of i p) }
    {
        if p.stage == Stage::Live {
            self.list[self.count as usize] = Start {
                process: ProcessNumber(i),
                behaviour: p.behaviour,
            };
            self.count += 1;
        }
        self
    }
}

impl Node {
    pub fn behaviours(self) -> Behaviours
        ensures { result ≡ node_behaviours self }
    {
        let Node {
            count,
            lens,
            ops,
            ..
        } = self;
        Behaviours { count, lens, ops }
    }

    // Its live processes, rising, each with its behaviour: of a node that a load gave, the starts of its plan.
    pub fn starts(self) -> Starts
        ensures { result ≡ node_starts self }
    {
        let mut row = Starts::none();
        for (k, p) in self.processes.iter().enumerate() {
            row = row.with_live(k as u8 + 1, *p);
        }
        row
    }

    // The node of a refused load: its one behaviour is `stop,0`, all processes are unborn, nothing is in flight.
    pub fn blank() -> Node
        ensures { result ≡ blank_node }
    {
        Node {
            count: 1,
            lens: [1, 0, 0, 0, 0, 0, 0, 0],
            ops: [Op::stop(); 256],
            processes: [Process::unborn(); 16],
            waiting: [0; 16],
            slots: [Slot::blank(); 256],
            counts: [0; 256],
            cells: [Cell::blank(); 1024],
        }
    }
}
