// Messages, signals and registers within their limits.
ghost use Rattle.std.specs.Prelude.{◌&&◌, [], ◌∷◌, ◌≡◌, ◌↔◌, IsTrue};
ghost use Rattle.std.specs.List.{AllPass};
ghost use Rattle.node.specs.Lists.{all_of};
ghost use Rattle.node.specs.Values.{is_number, message_sound, value_sound};
ghost use Rattle.rules.specs.Nodes.{signal_sound};

use node::{Cell, Message, Process, ProcessNumber, Signal, Slot, is_number, value_sound};

// The messages of a mailbox, of which each slot that is lent holds one.
pub fn mail_sound(mail: &[Slot]) -> bool
    ensures { IsTrue result ↔ AllPass (λ slot. message_sound slot.message) mail.now }
{
    mail.iter().all(|slot| message_sound(slot.message))
}

// The signals from process j to process i, of which each cell that is lent holds one.
pub fn row_sound(j: ProcessNumber, i: ProcessNumber, row: &[Cell]) -> bool
    ensures { IsTrue result ↔ AllPass (λ cell. signal_sound j.0 i.0 cell.signal) row.now }
{
    row.iter().all(|cell| signal_sound(j, i, cell.signal))
}

pub fn message_sound(m: Message) -> bool
    ensures { result ≡ message_sound m }
{
    match m {
        Message::Plain(v) => value_sound(v),
        Message::Note(j, v) | Message::Down(j, v) => is_number(j.0) && value_sound(v),
    }
}

// A signal from process j to process i.
pub fn signal_sound(j: ProcessNumber, i: ProcessNumber, x: Signal) -> bool
    ensures { result ≡ signal_sound j.0 i.0 x }
{
    match x {
        Signal::Msg(v) | Signal::Exit(v, _) | Signal::Down(v) => value_sound(v),
        Signal::Link | Signal::Unlink | Signal::Monitor | Signal::Demonitor => j != i,
    }
}

pub fn registers_sound(p: Process) -> bool
    ensures { result ≡ all_of value_sound (p.r0 ∷ p.r1 ∷ p.r2 ∷ p.r3 ∷ []) }
{
    value_sound(p.r0) && value_sound(p.r1) && value_sound(p.r2) && value_sound(p.r3)
}
