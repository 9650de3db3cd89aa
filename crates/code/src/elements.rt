// The elements of all servers, each in its record of a lent buffer.
ghost use Rattle.std.specs.Prelude.{◌≡◌, length};
ghost use Rattle.code.specs.EncodeAll.{with_elements};
ghost use Rattle.code.specs.Element.{element};
ghost use Rattle.code.specs.inner.Calls.{EncodeAllPre, EncodePre, FewPre};

use crate::combine::Places;
use config::Config;

// The N × k from which a table of the sums of rows is made.
const LARGE: usize = 112;

// Fewer servers than this are few.
const FEW_SERVERS: usize = 8;

// Fewer rows than this are few.
const FEW_ROWS: usize = 5;

pub(crate) fn encode(cfg: Config, board: &[u8], offset: usize, distance: usize, buffer: &mut [u8])
    requires { EncodeAllPre cfg (length board.now) offset distance (length buffer.old) }
    ensures { buffer.new ≡ with_elements cfg board.now offset distance buffer.old }
{
    if cfg.n * cfg.k < LARGE {
        each(cfg, board, offset, distance, buffer);
        return;
    }
    let choices = crate::powers::choices();
    let places = Places {
        count: cfg.n,
        offset,
        distance,
    };
    crate::combine::all(cfg, board, &choices, places, buffer);
}

// each element by itself
fn each(cfg: Config, board: &[u8], offset: usize, distance: usize, buffer: &mut [u8])
    requires { EncodeAllPre cfg (length board.now) offset distance (length buffer.old) }
    ensures { buffer.new ≡ with_elements cfg board.now offset distance buffer.old }
{
    let e = cfg.e;
    for t in 0..cfg.n {
        let at = offset + t * distance;
        one(cfg, board, t as u8 + 1, &mut buffer[at..at + e]);
    }
}

// the element of server s: in one loop where servers and rows are few, else a row a loop
fn one(cfg: Config, board: &[u8], s: u8, part: &mut [u8])
    requires { EncodePre cfg (length board.now) s (length part.old) }
    ensures { part.new ≡ element cfg board.now s }
{
    if cfg.n < FEW_SERVERS {
        if 1 < cfg.k {
            if cfg.k < FEW_ROWS {
                few(cfg, board, s, part);
                return;
            }
        }
    }
    crate::element::encode(cfg, board, s, part);
}

// the element of server s, below 8, of a board of two to four rows
fn few(cfg: Config, board: &[u8], s: u8, part: &mut [u8])
    requires { FewPre cfg (length board.now) s (length part.old) }
    ensures { part.new ≡ element cfg board.now s }
{
    let e = cfg.e;
    let second = e + e;
    let third = second + e;
    if cfg.k == 2 {
        crate::row::two(s, &board[0..e], &board[e..second], part);
        return;
    }
    if cfg.k == 3 {
        crate::row::three(
            s,
            &board[0..e],
            &board[e..second],
            &board[second..third],
            part,
        );
        return;
    }
    crate::row::four(
        s,
        &board[0..e],
        &board[e..second],
        &board[second..third],
        &board[third..third + e],
        part,
    );
}
