// Question 6 of what a rig keeps, place by place.
ghost use Rattle.std.specs.Prelude.{◌&&◌, ◌≡◌, ◌≤◌};
ghost use Rattle.config.specs.Config.{Valid};
ghost use Rattle.events.specs.Questions.{parties_within};
ghost use Rattle.rig.specs.inner.Within.{client_yes, server_yes};

use config::Config;
use events::Rig;
use parties::Node;

// Whether the server of place i, if the place is in use, has the number of its place, and what it keeps is within its limits.
fn server(cfg: Config, i: usize, x: Node) -> bool
    requires { Valid cfg }
    ensures { result ≡ server_yes cfg i x }
{
    if cfg.n <= i {
        return true;
    }
    parties::questions::server(cfg, i, x).is_ok()
}

// The same of the client of place i.
fn client(cfg: Config, i: usize, x: client::State) -> bool
    requires { Valid cfg }
    ensures { result ≡ client_yes cfg i x }
{
    if cfg.c <= i {
        return true;
    }
    parties::questions::client(cfg, i, x).is_ok()
}

// The same of both parties of place i.
fn place(cfg: Config, i: usize, x: Node, y: client::State) -> bool
    requires { Valid cfg }
    ensures { result ≡ (server_yes cfg i x && client_yes cfg i y) }
{
    if !server(cfg, i, x) {
        return false;
    }
    client(cfg, i, y)
}

// How many places are in use: the greater of N and C.
fn places(cfg: Config) -> usize
    requires { Valid cfg }
    ensures { (cfg.n ≤ result) × (cfg.c ≤ result) × (result ≤ 16) }
{
    if cfg.n < cfg.c {
        return cfg.c;
    }
    cfg.n
}

// Whether what every party of a rig keeps is within its limits.
pub(crate) fn all(cfg: Config, rig: Rig) -> bool
    requires { Valid cfg }
    ensures { result ≡ parties_within cfg rig }
{
    for i in 0..places(cfg) {
        if !place(cfg, i, rig.servers[i], rig.clients[i]) {
            return false;
        }
    }
    true
}
