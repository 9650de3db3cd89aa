// Questions 1 to 6 and 21 of an event, but for question 6 of what the parties keep; and all of these of a crash or a restart alone.
ghost use Rattle.std.specs.Prelude.{[], ◌∷◌, ◌++◌, ◌≡◌, ◌≤◌};
ghost use Rattle.config.specs.Refusal.{verdict_number};
ghost use Rattle.config.specs.Config.{Valid, most_messages, rig_questions};
ghost use Rattle.config.specs.Questions.{ask as question, first_no};
ghost use Rattle.events.specs.Calls.{alone_no};
ghost use Rattle.events.specs.Questions.{lent_sized};
ghost use Rattle.events.specs.inner.Questions.{sized_to_event};

use crate::{Call, Part, Sizes, named, within};
use config::{Config, RECORD, Refusal};

// Whether a board and the buffers lent to a rig have their lengths.
pub(crate) fn sized(cfg: Config, m: usize, board: usize, sizes: Sizes) -> bool
    requires { (Valid cfg) × (m ≤ most_messages) }
    ensures { result ≡ lent_sized cfg m board sizes }
{
    let v = cfg.k * cfg.e;
    if board != v {
        return false;
    }
    if sizes.messages != RECORD * m {
        return false;
    }
    let store = (cfg.d + 1) * cfg.e;
    if sizes.stores != cfg.n * store {
        return false;
    }
    if sizes.boards != cfg.c * v {
        return false;
    }
    let received = cfg.n * cfg.e;
    sizes.elements == cfg.c * received
}

// The same of an event, with the buffer lent for a read and the count of the records in flight.
fn sized_event(cfg: Config, m: usize, count: usize, board: usize, read: usize, sizes: Sizes) -> bool
    requires { (Valid cfg) × (m ≤ most_messages) }
    ensures { result ≡ sized_to_event cfg m count board read sizes }
{
    if !sized(cfg, m, board, sizes) {
        return false;
    }
    if read != board {
        return false;
    }
    count <= m
}

// The first that is answered no is the refusal.
pub(crate) fn event(
    cfg: Config,
    m: usize,
    count: usize,
    board: usize,
    read: usize,
    sizes: Sizes,
) -> Result<(), Refusal>
    ensures { verdict_number result ≡ first_no (rig_questions cfg m ++ question 6 (sized_to_event cfg m count board read sizes) ∷ []) }
{
    cfg.ask_rig(m)?;
    if !sized_event(cfg, m, count, board, read, sizes) {
        return Err(Refusal::Shape);
    }
    Ok(())
}

// Questions 1 to 5 and 21, and 6 of a part for a crash or a restart alone: the first that is answered no is the refusal.
pub(crate) fn alone(cfg: Config, m: usize, part: Part, call: Call) -> Result<(), Refusal>
    ensures { verdict_number result ≡ alone_no cfg m part call }
{
    cfg.ask_rig(m)?;
    if m < part.count {
        return Err(Refusal::Shape);
    }
    let none = [0u8; 1];
    if !named::has(cfg, part, call, &none[..0]) {
        return Err(Refusal::Shape);
    }
    if !within::part(cfg, part) {
        return Err(Refusal::Shape);
    }
    Ok(())
}
