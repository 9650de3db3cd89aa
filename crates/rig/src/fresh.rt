// A fresh rig.
ghost use Rattle.std.specs.Prelude.{true, ◌≡◌};
ghost use Rattle.config.specs.Config.{Valid};
ghost use Rattle.config.specs.Questions.{within};
ghost use Rattle.parties.specs.Fresh.{fresh_state};
ghost use Rattle.rig.specs.Calls.{least_rig};
ghost use Rattle.rig.specs.inner.Fresh.{ClientsPost, RigPost, RigPre, ServersPost};

use config::{Config, LEAST};
use events::Rig;
use parties::Node;

// The client of a number, fresh.
fn client(cfg: Config, c: u8) -> client::State
    requires { (Valid cfg) × (within 1 cfg.c c ≡ true) }
    ensures { result ≡ fresh_state c }
{
    let made = parties::fresh::client(cfg, c);
    made.state
}

// A fresh server in each place.
fn servers(cfg: Config, mut nodes: [Node; 16], start: &[u8], stores: &mut [u8]) -> [Node; 16]
    requires { RigPre cfg start.now stores.old }
    ensures { ServersPost cfg start.now stores.old stores.new result }
{
    let long = (cfg.d + 1) * cfg.e;
    for i in 0..cfg.n {
        let at = i * long;
        let end = at + long;
        let made = parties::fresh::server(cfg, (i + 1) as u8, start, &mut stores[at..end]);
        nodes[i] = made.node;
    }
    nodes
}

// A fresh client in each place.
fn clients(cfg: Config, mut states: [client::State; 16]) -> [client::State; 16]
    requires { Valid cfg }
    ensures { ClientsPost cfg result }
{
    for i in 0..cfg.c {
        states[i] = client(cfg, (i + 1) as u8);
    }
    states
}

// Server 1 and client 1 of the least configuration in every place: what a refused making gives, and what stands past N and C.
pub(crate) fn least() -> Rig
    ensures { result ≡ least_rig }
{
    let cfg = LEAST;
    let start = [0u8; 1];
    let mut store = [0u8; 1];
    let made = parties::fresh::server(cfg, 1, &start, &mut store);
    let node = made.node;
    let state = client(cfg, 1);
    Rig {
        servers: [node; 16],
        clients: [state; 16],
        count: 0,
    }
}

// "It holds fresh servers and clients, a starting board, and the messages in flight": none.
pub(crate) fn rig(cfg: Config, start: &[u8], stores: &mut [u8]) -> Rig
    requires { RigPre cfg start.now stores.old }
    ensures { RigPost cfg start.now stores.old stores.new result }
{
    let old = least();
    let nodes = old.servers;
    let states = old.clients;
    let servers = servers(cfg, nodes, start, stores);
    let clients = clients(cfg, states);
    Rig {
        servers,
        clients,
        count: 0,
    }
}
