// A started node, its parts, and the node with one of them put anew.
use super::show;
use node::{
    BehaviourNumber, Cell, Message, Node, Op, Process, ProcessNumber, Signal, Slot, Value, risen,
};

// The ops of the started node's one behaviour, by their places.
pub(crate) const AT_RECV: u8 = 0;

pub(crate) const AT_CLAUSE: u8 = 1;

pub(crate) const AT_JUMP: u8 = 2;

// Rows in flight.
pub(crate) const FIRST_TO_ITSELF: u8 = 0;

pub(crate) const FIRST_TO_SECOND: u8 = 1;

pub(crate) const SECOND_TO_FIRST: u8 = 16;

pub(crate) const SECOND_TO_ITSELF: u8 = 17;

pub(crate) const LAST_TO_ITSELF: u8 = 255;

// One live process, at a recv with one clause; its mailbox is empty, so that its run is refused with 25.
pub(crate) fn started() -> Node {
    show::reached(
        b"plan=1
behaviours=1
code=3
op=recv,1
op=clause,any,0,1,3
op=jump,0
starts=1
start=1,1
",
        b"",
    )
}

pub(crate) fn with_op(place: u8, o: Op) -> Node {
    let mut n = started();
    n.ops[place as usize] = o;
    n
}

pub(crate) fn with_process(p: Process) -> Node {
    let mut n = started();
    n.processes[0] = p;
    n
}

// So many messages i0 in the mailbox of process 1: a slot that nothing was put in holds one.
pub(crate) fn with_messages(mut n: Node, count: u8) -> Node {
    n.waiting[0] = count;
    n
}

// So many messages i0 in the mailbox of process 1, and m behind them.
pub(crate) fn with_message(mut n: Node, before: u8, m: Message) -> Node {
    n.slots[before as usize] = Slot { message: m };
    n.waiting[0] = risen(before);
    n
}

// So many signals msg(i0) in a row: a cell that nothing was put in holds one.
pub(crate) fn with_signals(mut n: Node, row: u8, count: u8) -> Node {
    n.counts[row as usize] = count;
    n
}

// One signal in a row.
pub(crate) fn with_signal(mut n: Node, row: u8, x: Signal) -> Node {
    let k = row as usize;
    n.cells[4 * k] = Cell { signal: x };
    n.counts[k] = 1;
    n
}

// The started node with one message in the mailbox of process 1.
pub(crate) fn holding(m: Message) -> Node {
    with_message(started(), 0, m)
}

// The started node with one signal in a row.
pub(crate) fn in_flight(row: u8, x: Signal) -> Node {
    with_signal(started(), row, x)
}

// A node whose process 1 stands past the end of its behaviour.
pub(crate) fn past_the_end() -> Node {
    with_process(first_process().moved(4))
}

pub(crate) fn pid(number: u8) -> Value {
    Value::Pid(ProcessNumber(number))
}

// Process 1 of the started node.
pub(crate) fn first_process() -> Process {
    of_behaviour(1)
}

pub(crate) fn of_behaviour(number: u8) -> Process {
    Process::fresh(BehaviourNumber(number), Value::ZERO)
}

pub(crate) fn with_register(r: u8, number: u8) -> Process {
    first_process().with_register(r, pid(number))
}

pub(crate) fn linked(number: u8) -> Process {
    first_process().linked(ProcessNumber(number))
}
