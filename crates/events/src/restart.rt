// Event 8: a server that is down is started again.
ghost use Rattle.events.specs.inner.CrashOrRestart.{BarePost};

use crate::{Call, Change, Part, outcome};
use config::{Config, Refusal};

// Event 8, which "starts a crashed server again". Questions 8 and 9.
pub(crate) fn server(cfg: Config, part: Part, call: Call) -> Change
    ensures { BarePost 8 cfg part call result }
{
    if !cfg.server_exists(call.party as usize) {
        return outcome::refused(part, Refusal::Missing);
    }
    let acted = parties::restart::server(part.pair);
    outcome::acted(part, acted, part.count)
}
