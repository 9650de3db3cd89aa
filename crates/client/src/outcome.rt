// What a call leaves of a client.
ghost use Rattle.std.specs.Prelude.{◌≡◌, ◌≤◌, ◌<◌};
ghost use Rattle.config.specs.Number.{server_number};
ghost use Rattle.config.specs.Refusal.{refusal_number};
ghost use Rattle.record.specs.Record.{highest_number};
ghost use Rattle.client.specs.Calls.{in_phase};
ghost use Rattle.client.specs.inner.Outcome.{CountedPost, RefusedPost, accepted_of, begun_of};

use super::{Ended, Moved, Phase, State};
use config::Refusal;
use record::Header;
use tag::Tag;

// A client that is as it was, with a refusal: nothing is sent and nothing ends.
pub(crate) fn refused(x: State, why: Refusal) -> Moved
    ensures { RefusedPost x (refusal_number why) result }
{
    Moved {
        verdict: Err(why),
        state: x,
        sent: 0,
        ended: Ended::Nothing,
    }
}

// A call that is not refused.
pub(crate) fn accepted(state: State, sent: usize, ended: Ended) -> Moved
    ensures { result ≡ accepted_of state sent ended }
{
    Moved {
        verdict: Ok(()),
        state,
        sent,
        ended,
    }
}

// The client in another phase of its operation.
pub(crate) fn in_phase(x: State, phase: Phase) -> State
    ensures { result ≡ in_phase x phase }
{
    let me = x.me;
    let lengths = x.lengths;
    State {
        me,
        operation: x.operation,
        phase,
        length: x.length,
        lengths,
    }
}

// The client with an answer counted: the length that came with its element, if it has one, is kept.
pub(crate) fn counted(x: State, phase: Phase, h: Header) -> State
    requires { (1 ≤ server_number h.server) × (server_number h.server ≤ 16) }
    ensures { CountedPost x phase h result }
{
    let mut after = in_phase(x, phase);
    if !h.present {
        return after;
    }
    let server = h.server;
    let at = server.number() as usize - 1;
    after.lengths[at] = h.length;
    after
}

// The client with its next operation number, asking, with the length of a board to write; nobody is counted.
pub(crate) fn begun(x: State, writes: bool, length: u16) -> State
    requires { x.operation < highest_number }
    ensures { result ≡ begun_of x writes length }
{
    let me = x.me;
    let lengths = x.lengths;
    let best = Tag {
        number: 0,
        client: 0,
    };
    let phase = Phase::Asking {
        writes,
        best,
        counted: 0,
    };
    State {
        me,
        operation: x.operation + 1,
        phase,
        length,
        lengths,
    }
}
