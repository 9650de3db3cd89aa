// Event 8: a server that is down is started again.
ghost use Rattle.std.specs.Prelude.{not, true, List, [], ◌∷◌, ◌≡◌, ℕ};
ghost use Rattle.config.specs.declared.Config.{Config};
ghost use Rattle.config.specs.Questions.{ask, first_no};
ghost use Rattle.parties.specs.Acts.{ActPost, Parts, restarts_server};

use crate::{Acted, Node, Pair, outcome};
use config::Refusal;

// A server up again, with all that it keeps.
fn started(node: Node) -> Node
    ensures { result ≡ record { state = node.state; up = true } }
{
    let state = node.state;
    Node { state, up: true }
}

// The server is up again: question 9, "is the server down?" All that it keeps stays.
pub fn server(pair: Pair) -> Acted
    ensures { (cfg : Config) (l : Parts) (sends read : List ℕ) → ActPost cfg (first_no (ask 9 (not pair.node.up) ∷ [])) (restarts_server pair) pair l sends read result l sends read }
{
    let node = pair.node;
    let client = pair.client;
    if node.up {
        return outcome::refused(pair, Refusal::UpOrDown);
    }
    let up = started(node);
    outcome::quiet(Pair { node: up, client })
}
