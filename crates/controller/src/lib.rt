// The controller: a play and its listing in one call, and the program's bytes from a plan text and a steps text.
#![tactic(auto)]

ghost use Rattle.std.specs.Prelude.{is_err, map, ◌≡◌};
ghost use Rattle.actions.specs.Numbers.{action_of};
ghost use Rattle.engine.specs.Answers.{played_of};
ghost use Rattle.listing.specs.Answers.{listed_of, told, shown};
ghost use Rattle.controller.specs.Calls.{played_listed, played_listed_of, nothing_played, played_shown};
ghost use Rattle.controller.specs.Program.{refused_line, played_text, program_text};

use engine::Played;
use listing::{Text, fill};
use node::{Node, Refusal};
use text::{put_byte, put_bytes, put_number, put_number_line};

// What `play_and_list` tells of a play: how many steps were accepted, the refusal that ended it, if one did, the length of the listing, and the
// node then.
// A record with an `Option`, since a play that a refusal ends has a count, a listing and a node as well.
#[derive(Clone, Copy)]
pub struct PlayedListed {
    pub accepted: usize,
    pub refusal: Option<Refusal>,
    pub length: usize,
    pub node: Node,
}

// A schedule played and the node listed: 31, then 30, with nothing played; then what `engine::play` tells, and the listing. Only a node
// that is not sound is told 31 by a play.
pub fn play_and_list(n: Node, numbers: &[u32], out: &mut [u8]) -> Result<PlayedListed, Refusal>
    ensures answer { played_listed_of n result ≡ played_listed n (map action_of numbers.now) out.old }
    ensures refused { is_err result ≡ nothing_played n (map action_of numbers.now) out.old }
    ensures buffer { out.new ≡ played_shown n (map action_of numbers.now) out.old }
{
    let r = engine::play(n, numbers);
    if r.refusal == Some(Refusal::NotSound) {
        return Err(Refusal::NotSound);
    }
    let length = listing::list_sound(r.node, out)?;
    Ok(PlayedListed {
        accepted: r.accepted,
        refusal: r.refusal,
        length,
        node: r.node,
    })
}

// What the program prints for a plan text and a steps text, in the first bytes of the buffer, and its length; or 30.
pub fn simulate(plan: &[u8], steps: &[u8], out: &mut [u8]) -> Result<usize, Refusal>
    ensures answer { listed_of result ≡ told out.old (program_text plan.now steps.now) }
    ensures buffer { out.new ≡ shown out.old (program_text plan.now steps.now) }
{
    let loaded = plan::load(plan);
    if let Some(refused) = loaded.refused {
        let refused = Refused {
            key: b"load=",
            number: refused.fault.number(),
            line: refused.line,
        };
        return show(&refused, out);
    }
    let schedule = match schedule::read(steps) {
        Ok(schedule) => schedule,
        Err(refused) => {
            let refused = Refused {
                key: b"steps=",
                number: refused.number(),
                line: refused.line(),
            };
            return show(&refused, out);
        }
    };
    let played = engine::play(loaded.node, schedule.numbers());
    show(&Replayed { played: &played }, out)
}

// A text in the first bytes of the buffer, and its length; or 30.
fn show<T: Text>(t: &T, out: &mut [u8]) -> Result<usize, Refusal>
    ensures answer { listed_of result ≡ told out.old (T.text t.now) }
    ensures buffer { out.new ≡ shown out.old (T.text t.now) }
{
    fill(t, out).ok_or(Refusal::OutputShort)
}

// A text that is refused: which of the two, its number and its line.
#[derive(Clone, Copy)]
struct Refused<'a> {
    key: &'a [u8],
    number: u8,
    line: usize,
}

impl<'a> Text for Refused<'a> {
    ghost text = { λ r. refused_line r.key.now r.number r.line };

    fn put(&self, out: &mut [u8], at: usize) -> usize {
        let e = put_bytes(out, at, self.key);
        let e = put_number(out, e, self.number as u64);
        let e = put_byte(out, e, b',');
        let e = put_number(out, e, self.line as u64);
        put_byte(out, e, b'\n')
    }
}

// A play whose count, refusal and listing are printed.
#[derive(Clone, Copy)]
struct Replayed<'a> {
    played: &'a Played,
}

impl<'a> Text for Replayed<'a> {
    ghost text = { λ r. played_text (played_of r.played.now) };

    fn put(&self, out: &mut [u8], at: usize) -> usize {
        let e = put_number_line(out, at, b"accepted=", self.played.accepted as u64);
        let refused = self.played.refusal.map_or(0, Refusal::number);
        let e = put_number_line(out, e, b"refused=", refused as u64);
        self.played.node.put(out, e)
    }
}
