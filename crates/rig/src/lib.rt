// The rig: servers, clients and the messages in flight joined. A rig is a struct by value, and beside it four buffers are lent to
// each call: the messages in flight (80 × M), the servers' stores, the boards that clients keep to write and the elements that
// they have received, each the parties' parts joined in order of their numbers. Every function is proved, nothing is assumed,
// and no public function has a `requires`.
#![tactic(auto)]

mod fresh;
mod outcome;
mod within;

ghost use Rattle.std.specs.Prelude.{[], ◌∷◌, ◌++◌, ◌≡◌};
ghost use Rattle.config.specs.Refusal.{verdict_number};
ghost use Rattle.config.specs.Config.{rig_questions};
ghost use Rattle.config.specs.Questions.{ask as question, first_no};
ghost use Rattle.events.specs.Calls.{EventPost, called, call_of};
ghost use Rattle.events.specs.Questions.{rig_within};
ghost use Rattle.events.specs.View.{lent};
ghost use Rattle.rig.specs.Calls.{AlonePost, MakePost};

use config::{Config, Refusal};
use events::{Call, CrashOrRestart, Rig, Sizes, Turn};

// What the making of a rig leaves. The rig stands beside the verdict: `MakePost` says of a refusal too which it is.
#[derive(Clone, Copy)]
pub struct Made {
    pub verdict: Result<(), Refusal>,
    pub rig: Rig,
}

// Questions 1 to 5 and 21, and 6 of what a rig keeps: the first that is answered no is the refusal. The buffers lent to it are not asked.
pub fn ask(cfg: Config, m: usize, rig: Rig) -> Result<(), Refusal>
    ensures { verdict_number result ≡ first_no (rig_questions cfg m ++ question 6 (rig_within cfg m rig) ∷ []) }
{
    cfg.ask_rig(m)?;
    if m < rig.count {
        return Err(Refusal::Shape);
    }
    if !within::all(cfg, rig) {
        return Err(Refusal::Shape);
    }
    Ok(())
}

// A fresh rig: questions 1 to 5 and 21, and 6. The servers' elements of the starting board go into their stores. On a refusal the rig is of
// no use.
pub fn make(
    cfg: Config,
    m: usize,
    start: &[u8],
    messages: &mut [u8],
    stores: &mut [u8],
    boards: &mut [u8],
    elements: &mut [u8],
) -> Made
    ensures { MakePost cfg m start.now (lent messages.old stores.old boards.old elements.old) result (lent messages.new stores.new boards.new elements.new) }
{
    let sizes = Sizes {
        messages: messages.len(),
        stores: stores.len(),
        boards: boards.len(),
        elements: elements.len(),
    };
    if let Err(why) = events::ask(cfg, m, start.len(), sizes) {
        return Made {
            verdict: Err(why),
            rig: fresh::least(),
        };
    }
    Made {
        verdict: Ok(()),
        rig: fresh::rig(cfg, start, stores),
    }
}

// An event of the rig: questions 1 to 5, 21, 6, 19 and 7 to 13. `board` is the board handed in, of which the call has the length, `read` the buffer lent
// for a read; each has V bytes, whatever the event.
pub fn event(
    cfg: Config,
    m: usize,
    rig: Rig,
    call: Call,
    board: &[u8],
    read: &mut [u8],
    messages: &mut [u8],
    stores: &mut [u8],
    boards: &mut [u8],
    elements: &mut [u8],
) -> Turn
    ensures { EventPost cfg m rig (called call board.now) read.old (lent messages.old stores.old boards.old elements.old) result read.new (lent messages.new stores.new boards.new elements.new) }
{
    if let Err(why) = ask(cfg, m, rig) {
        return outcome::unturned(rig, why);
    }
    let places = events::names(cfg, rig.count, call, messages);
    let part = outcome::part_of(rig, places);
    let change = events::changes(
        cfg, m, part, call, board, read, messages, stores, boards, elements,
    );
    outcome::turned(rig, change)
}

// A crash or a restart alone, of the party of a number, which touches no buffer, and none is lent: questions 1 to 5 and 21, 6 of the rig, 8 and 9.
pub fn crash_or_restart(cfg: Config, m: usize, rig: Rig, which: CrashOrRestart, party: u8) -> Turn
    ensures { AlonePost cfg m rig (call_of which party) result }
{
    if let Err(refusal) = ask(cfg, m, rig) {
        return outcome::unturned(rig, refusal);
    }
    let none = [0u8; 1];
    let places = events::names(cfg, rig.count, which.call(party), &none[..0]);
    let part = outcome::part_of(rig, places);
    let change = events::crash_or_restart(cfg, m, part, which, party);
    outcome::turned(rig, change)
}
