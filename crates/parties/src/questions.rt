// Question 6 of a party in its place of a rig, for whoever keeps the parties in places: the first of 1 to 6 and 21 that is answered no is the
// refusal. A party's own number is that of its place: server s and client c stand in the places s - 1 and c - 1.
ghost use Rattle.std.proofs.Math.Option.{some};
ghost use Rattle.std.specs.Prelude.{◌≡◌, ◌+◌, eqb};
ghost use Rattle.config.specs.Refusal.{verdict_number};
ghost use Rattle.config.specs.Questions.{first_no};
ghost use Rattle.parties.specs.Within.{client_in_place, place_questions, server_in_place};

use crate::Node;
use config::{Config, Refusal};

// Whether a number is that of a place.
fn is_of(number: u8, place: usize) -> bool
    ensures { result ≡ eqb number (place + 1) }
{
    if number < 1 {
        return false;
    }
    (number - 1) as usize == place
}

// Of the server in a place.
pub fn server(cfg: Config, place: usize, node: Node) -> Result<(), Refusal>
    ensures { verdict_number result ≡ first_no (place_questions cfg (server_in_place cfg place (some node))) }
{
    cfg.ask()?;
    let state = node.state;
    let me = state.me;
    if !is_of(me.number(), place) {
        return Err(Refusal::Shape);
    }
    server::ask(cfg, state, (cfg.d + 1) * cfg.e)
}

// Of the client in a place.
pub fn client(cfg: Config, place: usize, state: client::State) -> Result<(), Refusal>
    ensures { verdict_number result ≡ first_no (place_questions cfg (client_in_place cfg place (some state))) }
{
    cfg.ask()?;
    let me = state.me;
    if !is_of(me.number(), place) {
        return Err(Refusal::Shape);
    }
    client::ask(cfg, state)
}
