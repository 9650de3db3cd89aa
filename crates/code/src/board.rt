// The board of k elements: row i is the sum over the servers of coefficient i of Lagrange's polynomial times the element.
ghost use Rattle.std.specs.Prelude.{◌≡◌, length};
ghost use Rattle.code.specs.Decoded.{decoded};
ghost use Rattle.code.specs.inner.Calls.{DecodePre};
ghost use Rattle.code.specs.inner.Rows.{RowsPre, combined};
ghost use Rattle.code.specs.inner.Table.{SpreadPost, SpreadPre};

use crate::combine::Places;
use config::Config;

// The k from which a table of the sums of elements is made.
const MANY: usize = 10;

// The E from which it is made.
const WIDE: usize = 12;

// Of one server, the board is its element.
pub(crate) fn decode(cfg: Config, servers: &[u8], elements: &[u8], buffer: &mut [u8])
    requires { DecodePre cfg servers.now (length elements.now) (length buffer.old) }
    ensures { buffer.new ≡ decoded cfg servers.now elements.now }
{
    let e = cfg.e;
    if cfg.k == 1 {
        copies::copy(&elements[0..e], buffer);
        return;
    }
    interpolate(cfg, servers, elements, buffer);
}

// By the inverse of the square of powers. One of the two ways gets a copy of it, so that the compiler makes it in place for the other.
fn interpolate(cfg: Config, servers: &[u8], elements: &[u8], buffer: &mut [u8])
    requires { DecodePre cfg servers.now (length elements.now) (length buffer.old) }
    ensures { buffer.new ≡ decoded cfg servers.now elements.now }
{
    let inverse = crate::inverse::invert(cfg.k, servers);
    if large(cfg) {
        let square = inverse;
        by_sums(cfg, &square, elements, buffer);
        return;
    }
    by_multiples(cfg, &inverse, elements, buffer);
}

// whether a table of the sums of elements is made
fn large(cfg: Config) -> bool {
    if cfg.k < MANY {
        return false;
    }
    WIDE <= cfg.e
}

// the rows that the inverse combines, by a table of the sums of elements
fn by_sums(cfg: Config, inverse: &[[u8; 16]; 16], elements: &[u8], buffer: &mut [u8])
    requires { RowsPre cfg inverse.now (length elements.now) (length buffer.old) }
    ensures { buffer.new ≡ combined cfg.k cfg.e inverse.now elements.now cfg.k }
{
    let choices = crate::choice::of(inverse);
    let v = cfg.k * cfg.e;
    let places = Places {
        count: cfg.k,
        offset: 0,
        distance: cfg.e,
    };
    crate::combine::all(cfg, &elements[0..v], &choices, places, buffer);
}

// the same, by a table of the multiples of each element in turn
fn by_multiples(cfg: Config, inverse: &[[u8; 16]; 16], elements: &[u8], buffer: &mut [u8])
    requires { RowsPre cfg inverse.now (length elements.now) (length buffer.old) }
    ensures { buffer.new ≡ combined cfg.k cfg.e inverse.now elements.now cfg.k }
{
    let k = cfg.k;
    let e = cfg.e;
    let mut table = [0u8; 1024];
    buffer.fill(0);
    for r in 0..k {
        let at = r * e;
        spread(k, r, inverse, &elements[at..at + e], &mut table, buffer);
    }
}

// adds to each row its coefficient times the element of server r
fn spread(
    k: usize,
    r: usize,
    inverse: &[[u8; 16]; 16],
    x: &[u8],
    table: &mut [u8],
    board: &mut [u8],
)
    requires { SpreadPre k r x.now table.old board.old }
    ensures { SpreadPost inverse.now r x.now board.old board.new table.new }
{
    let e = x.len();
    crate::row::multiply(x, table);
    for i in 0..k {
        let at = i * e;
        crate::row::add(&mut board[at..at + e], inverse[i][r], table);
    }
}
