// A rig of several boards, and one board of it.
ghost use Rattle.std.proofs.Math.Option.{some};
ghost use Rattle.std.specs.Prelude.{◌≡◌, ◌<◌};
ghost use Rattle.boards.specs.View.{rig_with};
ghost use Rattle.boards.specs.inner.Outcome.{put_at, unturned_by};

use crate::{OneBoard, Rig, Turn};
use config::Refusal;
use parties::Answer;

// A refusal, with the rig as it was.
pub(crate) fn unturned(rig: Rig, why: Refusal) -> Turn
    ensures { result ≡ unturned_by why rig }
{
    Turn {
        answer: Answer::No(why),
        rig,
    }
}

// The parties of one board as a rig of one board, with so many records in flight.
pub(crate) fn one(x: OneBoard, count: usize) -> events::Rig
    ensures { result ≡ rig_with (some x) count }
{
    let servers = x.servers;
    let clients = x.clients;
    events::Rig {
        servers,
        clients,
        count,
    }
}

// The rig with the parties of a rig of one board put in a place, and so many records in flight.
pub(crate) fn put(mut rig: Rig, i: usize, x: events::Rig, count: usize) -> Rig
    requires { i < 8 }
    ensures { result ≡ put_at rig i x count }
{
    let servers = x.servers;
    let clients = x.clients;
    let board = OneBoard { servers, clients };
    rig.boards[i] = board;
    rig.count = count;
    rig
}
