// Event 3: a message is handed to the server or to the client that it is for.
ghost use Rattle.std.specs.Prelude.{◌≡◌, List, ℕ, eqb, length};
ghost use Rattle.config.specs.Refusal.{verdict_number};
ghost use Rattle.config.specs.Questions.{first_no};
ghost use Rattle.parties.specs.Acts.{ActPost, ClientPost, delivers, parts, to_client_questions};
ghost use Rattle.server.specs.Calls.{step_questions};

use crate::{Acted, Pair, outcome};
use config::{Config, Refusal};

// The server is handed a record: questions 1 to 5, 21, 6, 12 and 16. Where it is down the message is gone.
pub fn server(cfg: Config, pair: Pair, handed: &[u8], store: &mut [u8], answer: &mut [u8]) -> Acted
    ensures { (kept es read : List ℕ) → ActPost cfg (first_no (step_questions cfg pair.node.state handed.now (length store.old) (length answer.old))) (delivers cfg handed.now) pair (parts store.old kept es) answer.old read result (parts store.new kept es) answer.new read }
{
    let node = pair.node;
    let state = node.state;
    if !node.up {
        if let Err(why) = server::ask_step(cfg, state, handed, store.len(), answer.len()) {
            return outcome::refused(pair, why);
        }
        return outcome::quiet(pair);
    }
    let y = server::step(cfg, state, handed, store, answer);
    outcome::stepped(pair, y)
}

// The client is handed a record: questions 1 to 5, 21, 6, 12 and 16. An answer that is not awaited, 14, changes nothing and sends nothing.
pub fn client(
    cfg: Config,
    pair: Pair,
    handed: &[u8],
    kept: &[u8],
    elements: &mut [u8],
    sends: &mut [u8],
    read: &mut [u8],
) -> Acted
    ensures { (store : List ℕ) → ClientPost cfg (first_no (to_client_questions cfg pair.client handed.now (length kept.now) (length elements.old) (length sends.old) (length read.old))) (delivers cfg handed.now) pair (parts store kept.now elements.old) sends.old read.old result (parts store kept.now elements.new) sends.new read.new }
{
    let x = pair.client;
    let y = client::step(cfg, x, handed, kept, elements, sends, read);
    let verdict = y.verdict;
    if not_awaited(verdict) {
        return outcome::quiet(pair);
    }
    outcome::moved(pair, y)
}

// Whether a step was refused with 14.
fn not_awaited(verdict: Result<(), Refusal>) -> bool
    ensures { result ≡ eqb (verdict_number verdict) 14 }
{
    let Err(why) = verdict else {
        return false;
    };
    why.number() == 14
}
