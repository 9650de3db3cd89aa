// What a party has done, as an event's answer.
ghost use Rattle.std.specs.Prelude.{◌≡◌};
ghost use Rattle.parties.specs.inner.Acted.{ended_by, moved_on, quietly, refusing, stepped_on};

use crate::{Acted, Answer, Node, Pair};
use client::{Ended, Moved};
use config::{Client, Refusal};
use server::Stepped;

// A refusal, with the parties as they were.
pub(crate) fn refused(pair: Pair, why: Refusal) -> Acted
    ensures { result ≡ refusing why pair }
{
    Acted {
        answer: Answer::No(why),
        pair,
        sent: 0,
    }
}

// Nothing is sent and nothing ends; the parties are these.
pub(crate) fn quiet(pair: Pair) -> Acted
    ensures { result ≡ quietly pair }
{
    Acted {
        answer: Answer::Nothing,
        pair,
        sent: 0,
    }
}

// The answer that names a client whose operation ended, if it did.
fn ended_by(me: Client, ended: Ended) -> Answer
    ensures { result ≡ ended_by me ended }
{
    match ended {
        Ended::Nothing => Answer::Nothing,
        Ended::Written(tag) => Answer::Written { client: me, tag },
        Ended::Spent => Answer::Spent { client: me },
        Ended::Read { tag, length } => Answer::Read {
            client: me,
            tag,
            length,
        },
    }
}

// The client has moved, or was refused.
pub(crate) fn moved(pair: Pair, y: Moved) -> Acted
    ensures { result ≡ moved_on y.verdict pair y }
{
    let verdict = y.verdict;
    let Err(why) = verdict else {
        let state = y.state;
        let me = state.me;
        let ended = y.ended;
        let node = pair.node;
        let pair = Pair {
            node,
            client: state,
        };
        return Acted {
            answer: ended_by(me, ended),
            pair,
            sent: y.sent,
        };
    };
    refused(pair, why)
}

// The server has done its step, or was refused; one record is its answer.
pub(crate) fn stepped(pair: Pair, y: Stepped) -> Acted
    ensures { result ≡ stepped_on y.verdict pair y }
{
    let verdict = y.verdict;
    let Err(why) = verdict else {
        let state = y.state;
        let old = pair.node;
        let client = pair.client;
        let node = Node { state, up: old.up };
        let pair = Pair { node, client };
        return Acted {
            answer: Answer::Nothing,
            pair,
            sent: 1,
        };
    };
    refused(pair, why)
}
