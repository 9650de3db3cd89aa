// Events 1 and 2: a client begins.
ghost use Rattle.std.specs.Prelude.{List, ℕ};
ghost use Rattle.std.proofs.Math.Option.{none, some};
ghost use Rattle.config.specs.Questions.{first_no};
ghost use Rattle.client.specs.Questions.{begin_read_questions, begin_write_questions};
ghost use Rattle.protocol.specs.Boards.{board_of};
ghost use Rattle.parties.specs.Acts.{ActPost, begins, parts};

use crate::{Acted, Pair, outcome};
use config::Config;

// The client begins to write a board of a length, which it keeps: questions 1 to 5, 21, 6, 19, 9, 10 and 11.
pub fn write(
    cfg: Config,
    pair: Pair,
    length: u16,
    board: &[u8],
    kept: &mut [u8],
    sends: &mut [u8],
) -> Acted
    ensures { (store es read : List ℕ) → ActPost cfg (first_no (begin_write_questions cfg pair.client length board.now kept.old sends.old)) (begins cfg pair (some (board_of length board.now))) pair (parts store kept.old es) sends.old read result (parts store kept.new es) sends.new read }
{
    let client = pair.client;
    let y = client::begin_write(cfg, client, length, board, kept, sends);
    outcome::moved(pair, y)
}

// The client begins to read: questions 1 to 5, 21, 6, 9, 10 and 11.
pub fn read(cfg: Config, pair: Pair, sends: &mut [u8]) -> Acted
    ensures { (store kept es read : List ℕ) → ActPost cfg (first_no (begin_read_questions cfg pair.client sends.old)) (begins cfg pair none) pair (parts store kept es) sends.old read result (parts store kept es) sends.new read }
{
    let client = pair.client;
    let y = client::begin_read(cfg, client, sends);
    outcome::moved(pair, y)
}
