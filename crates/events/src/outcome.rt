// What an event makes of a part.
ghost use Rattle.std.specs.Prelude.{◌≡◌};
ghost use Rattle.events.specs.inner.Part.{acting, counting, refusing};

use crate::{Change, Part};
use config::Refusal;
use parties::{Acted, Answer};

// A refusal, with the part as it was.
pub(crate) fn refused(part: Part, why: Refusal) -> Change
    ensures { result ≡ refusing why part }
{
    Change {
        answer: Answer::No(why),
        part,
    }
}

// The parties have acted, and so many records are in flight.
pub(crate) fn acted(part: Part, acted: Acted, count: usize) -> Change
    ensures { result ≡ acting acted count part }
{
    let answer = acted.answer;
    let pair = acted.pair;
    let after = Part {
        server: part.server,
        client: part.client,
        pair,
        count,
    };
    Change {
        answer,
        part: after,
    }
}

// Nothing ended, the parties are as they were, and so many records are in flight.
pub(crate) fn counted(part: Part, count: usize) -> Change
    ensures { result ≡ counting count part }
{
    let pair = part.pair;
    let quiet = Acted {
        answer: Answer::Nothing,
        pair,
        sent: 0,
    };
    acted(part, quiet, count)
}
