// Fresh parties of a rig.
ghost use Rattle.std.specs.Prelude.{true, ◌≡◌, length};
ghost use Rattle.config.specs.Refusal.{verdict_number};
ghost use Rattle.config.specs.Config.{Valid};
ghost use Rattle.config.specs.Number.{client_number, server_number};
ghost use Rattle.config.specs.Questions.{first_no, within};
ghost use Rattle.parties.specs.Fresh.{FreshClientPost, FreshServerPost, fresh_node, fresh_server_questions, fresh_state};
ghost use Rattle.parties.specs.inner.Fresh.{NodePost, NodePre};

use crate::Node;
use client::NewState;
use config::{Client, Config, LEAST, Refusal, Server};

// What the making of a server leaves. The server stands beside the verdict: `FreshServerPost` says of a refusal too which it is.
#[derive(Clone, Copy)]
pub struct NewNode {
    pub verdict: Result<(), Refusal>,
    pub node: Node,
}

// The server of a number, fresh and up: questions 1 to 5, 21, 6 and 8. Its element of the starting board goes into its store. On a refusal the
// server is of no use.
pub fn server(cfg: Config, s: u8, start: &[u8], store: &mut [u8]) -> NewNode
    ensures { FreshServerPost cfg s start.now store.old store.new result }
{
    if let Err(why) = asked(cfg, s, start.len(), store.len()) {
        return NewNode {
            verdict: Err(why),
            node: least(),
        };
    }
    NewNode {
        verdict: Ok(()),
        node: node(cfg, s, start, store),
    }
}

// The client of a number, fresh: questions 1 to 5, 21 and 8. On a refusal the client is of no use.
pub fn client(cfg: Config, c: u8) -> NewState
    ensures { FreshClientPost cfg c result }
{
    match Client::new(cfg, c) {
        Err(refusal) => NewState {
            verdict: Err(refusal),
            state: least_client(),
        },
        Ok(me) => client::fresh(cfg, me),
    }
}

// Client 1 of the least configuration.
fn least_client() -> client::State
    ensures { result ≡ fresh_state 1 }
{
    let cfg = LEAST;
    let me = client_number(cfg, 1);
    let made = client::fresh(cfg, me);
    made.state
}

// The number of a client of the configuration.
fn client_number(cfg: Config, c: u8) -> Client
    requires { (Valid cfg) × (within 1 cfg.c c ≡ true) }
    ensures { client_number result ≡ c }
{
    Client::new(cfg, c).unwrap()
}

// The questions of a server to make: the first that is answered no is the refusal.
fn asked(cfg: Config, s: u8, start: usize, store: usize) -> Result<(), Refusal>
    ensures { verdict_number result ≡ first_no (fresh_server_questions cfg s start store) }
{
    cfg.ask()?;
    if start != cfg.k * cfg.e {
        return Err(Refusal::Shape);
    }
    if store != (cfg.d + 1) * cfg.e {
        return Err(Refusal::Shape);
    }
    if !cfg.server_exists(s as usize) {
        return Err(Refusal::Missing);
    }
    Ok(())
}

// Server 1 of the least configuration.
fn least() -> Node
    ensures { result ≡ fresh_node 1 1 }
{
    let cfg = LEAST;
    let start = [0u8; 1];
    let mut store = [0u8; 1];
    node(cfg, 1, &start, &mut store)
}

// The number of a server of the configuration.
fn server_number(cfg: Config, s: u8) -> Server
    requires { (Valid cfg) × (within 1 cfg.n s ≡ true) }
    ensures { server_number result ≡ s }
{
    Server::new(cfg, s).unwrap()
}

// The server of a number, fresh and up. Its element of the starting board is encoded in a lent buffer and goes into its store.
fn node_through(cfg: Config, s: u8, start: &[u8], element: &mut [u8], store: &mut [u8]) -> Node
    requires { (NodePre cfg s start.now store.old) × (length element.old ≡ cfg.e) }
    ensures { NodePost cfg s start.now store.old store.new result }
{
    let me = server_number(cfg, s);
    let _ = code::encode(cfg, start, s, element);
    let made = server::fresh(cfg, me, element, store);
    let state = made.state;
    Node { state, up: true }
}

// The same, with a buffer of its own.
fn node(cfg: Config, s: u8, start: &[u8], store: &mut [u8]) -> Node
    requires { NodePre cfg s start.now store.old }
    ensures { NodePost cfg s start.now store.old store.new result }
{
    let mut element = [0u8; 64];
    let end = cfg.e;
    node_through(cfg, s, start, &mut element[0..end], store)
}
