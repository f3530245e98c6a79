// A plan as it is read.

ghost use Rattle.std.specs.Prelude.{[], ◌≡◌, ◌+◌, ◌≤◌, ◌<◌};
ghost use Rattle.node.specs.Nodes.{blank_node};
ghost use Rattle.plan_line.specs.Lines.{op_line};
ghost use Rattle.plan.specs.Plans.{more, node_of, plan_lines, code_lines, start_more, start_lines};
ghost use Rattle.plan.specs.Plans.{empty_node, with_ops, with_code, with_start, with_each};
ghost use Rattle.plan.specs.Reading.{on_line, times};
ghost use Rattle.plan.specs.Rests.{coded_node, left_of, mapped, told};

use crate::fault::Refused;
use crate::rest::Rest;
use node::{Behaviours, Node, Op, Process, ProcessNumber, Value};

// What a plan says of its node: its behaviours and its processes. The node, of which most is mail and signals, is made of it once.
#[derive(Clone, Copy)]
pub(crate) struct Codes {
    pub(crate) behaviours: Behaviours,
    pub(crate) processes: [Process; 16],
}

impl Codes {
    // A plan that says nothing yet: no behaviours, no processes.
    pub(crate) fn none() -> Codes
        ensures { coded_node result ≡ empty_node }
    {
        Codes {
            behaviours: Behaviours {
                count: 0,
                lens: [0; 8],
                ops: [Op::stop(); 256],
            },
            processes: [Process::unborn(); 16],
        }
    }

    // What the blank node holds: one behaviour, `stop,0`, and no processes.
    #[tactic(auto, unfolding(node::specs::Nodes::blank_node))]
    pub(crate) fn blank() -> Codes
        ensures { coded_node result ≡ blank_node }
    {
        let mut codes = Codes::none();
        codes.behaviours.lens[0] = 1;
        codes.behaviours.count = 1;
        codes
    }

    // The node of a plan, without mail and signals. Its fields are stored one by one: `..Node::blank()` copies the node once more.
    #[tactic(auto, unfolding(node::specs::Nodes::blank_node))]
    pub(crate) fn node(&self) -> Node
        ensures { result ≡ coded_node self.now }
    {
        let Codes {
            behaviours,
            processes,
        } = *self;
        let Behaviours { count, lens, ops } = behaviours;
        let mut node = Node::blank();
        node.count = count;
        node.lens = lens;
        node.ops = ops;
        node.processes = processes;
        node
    }
}

// What is left of a plan text, and what was read of it: what a line says is stored where it stays.
#[derive(Drop)]
pub(crate) struct Loading<'a> {
    pub(crate) rest: Rest<'a>,
    pub(crate) codes: Codes,
}

impl<'a> Loading<'a> {
    // The lines of a plan.
    pub(crate) fn plan(&mut self) -> Result<(), Refused>
        requires { coded_node self.old.codes ≡ empty_node }
        ensures { told (λ x. coded_node self.new.codes) result (left_of self.new.rest) ≡ mapped node_of (plan_lines (left_of self.old.rest)) }
    {
        self.rest.header()?;
        let count = self.rest.count(b"behaviours=", 1, 8)?;
        self.codes(count)?;
        self.starts(count)?;
        self.rest.end()
    }

    // The behaviours of a plan.
    fn codes(&mut self, count: u8) -> Result<(), Refused>
        requires { self.old.codes.behaviours.count + count ≤ 8 }
        ensures { told (λ x. coded_node self.new.codes) result (left_of self.new.rest) ≡
            mapped (with_each with_code (coded_node self.old.codes)) (times count (more (code_lines count)) [] (left_of self.old.rest)) }
    {
        for _ in 0..count {
            self.code(count)?;
        }
        Ok(())
    }

    // A behaviour, behind the others.
    fn code(&mut self, count: u8) -> Result<(), Refused>
        requires { self.old.codes.behaviours.count < 8 }
        ensures { told (λ x. coded_node self.new.codes) result (left_of self.new.rest) ≡
            mapped (with_code (coded_node self.old.codes)) (code_lines count (left_of self.old.rest)) }
    {
        let len = self.rest.count(b"code=", 1, 32)?;
        self.ops(count, len)?;
        self.codes.behaviours.count += 1;
        Ok(())
    }

    // The ops of a behaviour with `len` ops, behind the others.
    fn ops(&mut self, count: u8, len: u8) -> Result<(), Refused>
        requires first { self.old.codes.behaviours.count < 8 }
        requires few { len ≤ 32 }
        ensures { told (λ x. coded_node self.new.codes) result (left_of self.new.rest) ≡
            mapped (with_ops (coded_node self.old.codes)) (times len (more (on_line (op_line count len))) [] (left_of self.old.rest)) }
    {
        let b = self.codes.behaviours.count as usize;
        self.codes.behaviours.lens[b] = len;
        for i in 0..len {
            self.codes.behaviours.ops[b * 32 + (i as usize)] = self.rest.op(count, len)?;
        }
        Ok(())
    }

    // The starts of a plan.
    #[tactic(auto, using(crate::proofs::Loops::reads), unfolding(crate::specs::Plans::start_lines))]
    fn starts(&mut self, count: u8) -> Result<(), Refused>
        ensures { told (λ x. coded_node self.new.codes) result (left_of self.new.rest) ≡
            mapped (with_each with_start (coded_node self.old.codes)) (start_lines count (left_of self.old.rest)) }
    {
        let len = self.rest.count(b"starts=", 1, 16)?;
        self.start_each(count, len)
    }

    // As many starts as `len` says.
    fn start_each(&mut self, count: u8, len: u8) -> Result<(), Refused>
        ensures { told (λ x. coded_node self.new.codes) result (left_of self.new.rest) ≡
            mapped (with_each with_start (coded_node self.old.codes)) (times len (start_more count) [] (left_of self.old.rest)) }
    {
        let mut last = ProcessNumber(0);
        for _ in 0..len {
            let start = self.rest.start(count, last)?;
            self.codes.processes[start.process.index()] = Process::fresh(
                start.behaviour,
                Value::ZERO,
            );
            last = start.process;
        }
        Ok(())
    }
}
