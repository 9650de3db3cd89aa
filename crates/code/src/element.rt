// The element of a server, by Horner's rule over the rows of the board, in the lent part itself.
ghost use Rattle.std.specs.Prelude.{◌≡◌, length};
ghost use Rattle.code.specs.Element.{element};
ghost use Rattle.code.specs.inner.Calls.{EncodePre};

use config::Config;

// The part takes the last row, and each row before it in turn is a step.
pub(crate) fn encode(cfg: Config, board: &[u8], s: u8, part: &mut [u8])
    requires { EncodePre cfg (length board.now) s (length part.old) }
    ensures { part.new ≡ element cfg board.now s }
{
    let last = board.len() - cfg.e;
    copies::copy(&board[last..], part);
    for row in board[..last].rchunks(cfg.e) {
        crate::row::step(part, s, row);
    }
}
