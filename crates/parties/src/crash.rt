// Events 6 and 7: a party crashes.
ghost use Rattle.std.specs.Prelude.{List, [], ◌∷◌, ℕ};
ghost use Rattle.config.specs.declared.Config as declared;
ghost use Rattle.config.specs.Questions.{ask, first_no};
ghost use Rattle.client.specs.Questions.{crash_questions};
ghost use Rattle.parties.specs.Acts.{ActPost, Parts, crashes_client, crashes_server};

use crate::{Acted, Node, Pair, outcome};
use config::{Config, Refusal};

// The server crashes: question 9. All that it keeps stays.
pub fn server(pair: Pair) -> Acted
    ensures { (cfg : declared.Config) (l : Parts) (sends read : List ℕ) → ActPost cfg (first_no (ask 9 pair.node.up ∷ [])) (crashes_server pair) pair l sends read result l sends read }
{
    let node = pair.node;
    let client = pair.client;
    if !node.up {
        return outcome::refused(pair, Refusal::UpOrDown);
    }
    let state = node.state;
    let down = Node { state, up: false };
    outcome::quiet(Pair { node: down, client })
}

// The client crashes: questions 1 to 5, 21, 6 and 9.
pub fn client(cfg: Config, pair: Pair) -> Acted
    ensures { (l : Parts) (sends read : List ℕ) → ActPost cfg (first_no (crash_questions cfg pair.client)) (crashes_client pair) pair l sends read result l sends read }
{
    let client = pair.client;
    let y = client::crash(cfg, client);
    outcome::moved(pair, y)
}
