// Plan text into a started node.
#![tactic(auto)]

ghost use Rattle.std.specs.Prelude.{◌≡◌};
ghost use Rattle.plan.specs.Plans.{load_of};
ghost use Rattle.plan.specs.Rests.{read_told, loaded_told};

mod fault;
mod loading;
mod rest;

pub use fault::{Fault, Refused};
use loading::{Codes, Loading};
use node::Node;
use rest::Rest;

// What a load tells: why it is refused, if it is, and the node. This is no `Result`, since a refused load gives a node too, the blank one
// (document 01), which the conformance case `blank` looks at.
#[derive(Clone, Copy)]
pub struct Loaded {
    pub refused: Option<Refused>,
    pub node: Node,
}

// The node of a plan text, or a refusal with its line.
pub fn load(text: &[u8]) -> Loaded
    ensures { loaded_told result ≡ load_of text.now }
{
    let (refused, codes) = match read(text) {
        Ok(codes) => (None, codes),
        Err(refused) => (Some(refused), Codes::blank()),
    };
    Loaded {
        refused,
        node: codes.node(),
    }
}

// What a plan text says of its node, once the last line is read and every op is well placed.
fn read(text: &[u8]) -> Result<Codes, Refused>
    ensures { read_told result ≡ load_of text.now }
{
    if 16384 < text.len() {
        return Err(Refused {
            fault: Fault::TooLong,
            line: 0,
        });
    }
    let mut loading = Loading {
        rest: Rest { text, read: 0 },
        codes: Codes::none(),
    };
    // The answer has a name: a must-fail edit that changes it leaves the goals theirs.
    let told = loading.plan();
    told?;
    match placement::misplaced(
        loading.codes.behaviours.count,
        loading.codes.behaviours.lens,
        loading.codes.behaviours.ops,
    ) {
        Some(line) => Err(Refused {
            fault: Fault::IllPlaced,
            line,
        }),
        None => Ok(loading.codes),
    }
}
