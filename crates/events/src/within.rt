// Question 6 of what a part of a rig keeps.
ghost use Rattle.std.specs.Prelude.{◌≡◌};
ghost use Rattle.config.specs.Config.{Valid};
ghost use Rattle.events.specs.Questions.{part_within};

use crate::Part;
use config::Config;

// Whether what the parties of a part keep is within its limits, and each has the number of its place.
pub(crate) fn part(cfg: Config, part: Part) -> bool
    requires { Valid cfg }
    ensures { result ≡ part_within cfg part }
{
    if parties::questions::server(cfg, part.server, part.pair.node).is_err() {
        return false;
    }
    parties::questions::client(cfg, part.client, part.pair.client).is_ok()
}
