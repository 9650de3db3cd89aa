// Events 6 and 7: a party crashes.
ghost use Rattle.events.specs.inner.CrashOrRestart.{BarePost};

use crate::{Call, Change, Part, outcome};
use config::{Config, Refusal};

// Event 6: "crash a server". Questions 8 and 9.
pub(crate) fn server(cfg: Config, part: Part, call: Call) -> Change
    ensures { BarePost 6 cfg part call result }
{
    if !cfg.server_exists(call.party as usize) {
        return outcome::refused(part, Refusal::Missing);
    }
    let acted = parties::crash::server(part.pair);
    outcome::acted(part, acted, part.count)
}

// Event 7: "crash a client". Questions 8 and 9.
pub(crate) fn client(cfg: Config, part: Part, call: Call) -> Change
    ensures { BarePost 7 cfg part call result }
{
    if !cfg.client_exists(call.party as usize) {
        return outcome::refused(part, Refusal::Missing);
    }
    let acted = parties::crash::client(cfg, part.pair);
    outcome::acted(part, acted, part.count)
}
