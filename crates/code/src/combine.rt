// Linear combinations of rows, all of them from one table of sums: from the highest digit of the coefficients to the lowest, the combination is
// doubled, and of each group of four rows the sum of those is added whose coefficient has the digit.
ghost use Rattle.std.specs.Prelude.{◌≡◌, ◌<◌, ◌≤◌, length};
ghost use Rattle.laws.specs.Bytes.{tabulate};
ghost use Rattle.code.specs.inner.Combine.{CombinePost, CombinePre, EachPost, EachPre, OnePost, Small, Without, added, empty, last_byte, next};

use config::Config;
use std::array;

// Where combinations go: so many, the first at the offset, each a distance from the one before.
#[derive(Clone, Copy)]
pub(crate) struct Places {
    pub count: usize,
    pub offset: usize,
    pub distance: usize,
}

// the sum of no row
fn empty(table: &[u8; 4096]) -> [u8; 64]
    ensures { result ≡ empty table.now }
{
    let mut r = [0u8; 64];
    r.copy_from_slice(&table[..64]);
    r
}

// the row doubled, plus a sum of the first group and one of the second
fn next(row: [u8; 64], v: u8, w: u8, table: &[u8; 4096]) -> [u8; 64]
    requires { (v < 16) × (w < 16) }
    ensures { result ≡ next row v w table.now }
{
    let first = 64 * v as usize;
    let second = 1024 + 64 * w as usize;
    array::from_fn(|j| field::double(row[j]) ^ (table[first + j] ^ table[second + j]))
}

// the row, plus a sum of the third group and one of the fourth
fn add(row: [u8; 64], v: u8, w: u8, table: &[u8; 4096]) -> [u8; 64]
    requires { (v < 16) × (w < 16) }
    ensures { result ≡ added row v w table.now }
{
    let third = 2048 + 64 * v as usize;
    let fourth = 3072 + 64 * w as usize;
    array::from_fn(|j| row[j] ^ (table[third + j] ^ table[fourth + j]))
}

// Combination t by all digits but the last. It begins with the sum of no row.
fn upper(k: usize, t: usize, choices: &[u8; 512], table: &[u8; 4096]) -> [u8; 64]
    requires { (t < 16) × Small choices.now }
    ensures { Without k t choices.now table.now result 1 }
{
    let mut row = empty(table);
    for b in (1..8).rev() {
        let at = 64 * b + t;
        let more = next(row, choices[at], choices[at + 16], table);
        row = more;
        if 8 < k {
            let more = add(row, choices[at + 32], choices[at + 48], table);
            row = more;
        }
    }
    row
}

// the row doubled, plus a sum of each group, in the lent part
fn last(row: [u8; 64], v: u8, w: u8, y: u8, z: u8, table: &[u8; 4096], part: &mut [u8])
    requires { ((v < 16) × (w < 16)) × ((y < 16) × (z < 16)) × (length part.old ≤ 64) }
    ensures { part.new ≡ tabulate (length part.old) (last_byte row v w y z table.now) }
{
    let first = 64 * v as usize;
    let second = 1024 + 64 * w as usize;
    let third = 2048 + 64 * y as usize;
    let fourth = 3072 + 64 * z as usize;
    for j in 0..part.len() {
        let sum = table[first + j] ^ table[second + j] ^ table[third + j] ^ table[fourth + j];
        part[j] = field::double(row[j]) ^ sum;
    }
}

// combination t of k rows, in the lent part
fn one(k: usize, t: usize, choices: &[u8; 512], table: &[u8; 4096], part: &mut [u8])
    requires { (t < 16) × Small choices.now × (length part.old ≤ 64) }
    ensures { OnePost k t choices.now table.now (length part.old) part.new }
{
    let row = upper(k, t, choices, table);
    last(
        row,
        choices[t],
        choices[16 + t],
        choices[32 + t],
        choices[48 + t],
        table,
        part,
    );
}

// all combinations of k rows of e bytes, each in its place
fn each(
    k: usize,
    e: usize,
    choices: &[u8; 512],
    table: &[u8; 4096],
    places: Places,
    buffer: &mut [u8],
)
    requires { EachPre e choices.now places (length buffer.old) }
    ensures { EachPost k e choices.now table.now places buffer.old buffer.new }
{
    for t in 0..places.count {
        let at = places.offset + t * places.distance;
        one(k, t, choices, table, &mut buffer[at..at + e]);
    }
}

// All combinations of the k rows of x, each in its place.
pub(crate) fn all(cfg: Config, x: &[u8], choices: &[u8; 512], places: Places, buffer: &mut [u8])
    requires { CombinePre cfg x.now choices.now places (length buffer.old) }
    ensures { CombinePost cfg x.now choices.now places buffer.old buffer.new }
{
    let mut rows = [0u8; 1024];
    copies::copy(x, &mut rows);
    let mut table = [0u8; 4096];
    crate::subsets::fill(cfg.e, &rows, &mut table);
    each(cfg.k, cfg.e, choices, &table, places, buffer);
}
