// What a client is to do once an answer is counted.
ghost use Rattle.std.specs.Prelude.{◌≡◌, true};
ghost use Rattle.protocol.specs.Client as protocol;
ghost use Rattle.client.specs.Servers.{member, within_servers};
ghost use Rattle.client.specs.State.{phase_within};
ghost use Rattle.client.specs.inner.Next.{after_of, asked_of, is_enough, next_of};

use super::{Ended, HIGHEST_NUMBER, Phase, State, servers};
use config::{Client, Config};
use tag::Tag;

#[derive(Clone, Copy)]
pub(crate) enum Move {
    // It waits for more answers.
    Waits,
    // It goes on to a phase, and sends its messages.
    Begins(Phase),
    // Its operation ends, and is no read.
    Ends(Ended),
    // Its read ends: it shows the board of the elements that these servers sent.
    Shows { tag: Tag, sent: u32 },
}

// By the phase: without enough answers it waits.
pub(crate) fn next(cfg: Config, x: State) -> Move
    requires { phase_within cfg x.phase ≡ true }
    ensures { result ≡ next_of cfg x.me x.phase }
{
    let phase = x.phase;
    if !enough(cfg, phase) {
        return Move::Waits;
    }
    let me = x.me;
    after(me, phase)
}

// At least q servers are counted and, finalising a read, at least k sent an element.
fn enough(cfg: Config, phase: Phase) -> bool
    requires { phase_within cfg phase ≡ true }
    ensures { result ≡ is_enough cfg phase }
{
    match phase {
        Phase::Asking {
            writes: _,
            best: _,
            counted,
        } => quorum(cfg, counted),
        Phase::PreWriting { tag: _, counted } => quorum(cfg, counted),
        Phase::FinalisingWrite { tag: _, counted } => quorum(cfg, counted),
        Phase::FinalisingRead {
            tag: _,
            counted,
            sent,
        } => {
            if !quorum(cfg, counted) {
                return false;
            }
            cfg.k <= servers::size(sent) as usize
        }
        _ => false,
    }
}

// At least q servers are counted.
fn quorum(cfg: Config, counted: u32) -> bool
    requires { within_servers cfg.n counted ≡ true }
    ensures { result ≡ protocol.enough cfg (member counted) }
{
    cfg.quorum() <= servers::size(counted) as usize
}

// With enough answers.
fn after(me: Client, phase: Phase) -> Move
    ensures { result ≡ after_of me phase }
{
    match phase {
        Phase::Asking {
            writes,
            best,
            counted: _,
        } => asked(me, writes, best),
        Phase::PreWriting { tag, counted: _ } => {
            Move::Begins(Phase::FinalisingWrite { tag, counted: 0 })
        }
        Phase::FinalisingWrite { tag, counted: _ } => Move::Ends(Ended::Written(tag)),
        Phase::FinalisingRead {
            tag,
            counted: _,
            sent,
        } => Move::Shows { tag, sent },
        _ => Move::Waits,
    }
}

// The end of asking: a write takes the next number, with its own client number; a read takes the highest tag.
fn asked(me: Client, writes: bool, best: Tag) -> Move
    ensures { result ≡ asked_of me writes best }
{
    if !writes {
        return Move::Begins(Phase::FinalisingRead {
            tag: best,
            counted: 0,
            sent: 0,
        });
    }
    if best.number < HIGHEST_NUMBER {
        let own = me.number();
        let tag = Tag {
            number: best.number + 1,
            client: own,
        };
        return Move::Begins(Phase::PreWriting { tag, counted: 0 });
    }
    Move::Ends(Ended::Spent)
}
