// A table of the sums of rows, four rows a group: row v of group g is the sum of those of its rows that v chooses. A row of the table has 64
// bytes, of which the rows take E.
ghost use Rattle.std.specs.Prelude.{◌≡◌, ◌*◌, ◌<◌, ◌≤◌, length, replicate};
ghost use Rattle.code.specs.inner.Subsets.{FillPost, GroupPost, PlacePost, Ready};

// Byte j of the sums of four rows of which byte j is a, b, c and d. The sum of no row is clear already.
fn place(j: usize, a: u8, b: u8, c: u8, d: u8, table: &mut [u8])
    requires { Ready table.old × (j < 64) }
    ensures { PlacePost table.old j a b c d table.new }
{
    let ab = a ^ b;
    let cd = c ^ d;
    table[64 + j] = a;
    table[128 + j] = b;
    table[192 + j] = ab;
    table[256 + j] = c;
    table[320 + j] = a ^ c;
    table[384 + j] = b ^ c;
    table[448 + j] = ab ^ c;
    table[512 + j] = d;
    table[576 + j] = a ^ d;
    table[640 + j] = b ^ d;
    table[704 + j] = ab ^ d;
    table[768 + j] = cd;
    table[832 + j] = a ^ cd;
    table[896 + j] = b ^ cd;
    table[960 + j] = ab ^ cd;
}

// the sums of four rows of e bytes
fn group(e: usize, x: &[u8], table: &mut [u8])
    requires { Ready table.old × (e ≤ 64) × (length x.now ≡ 4 * e) }
    ensures { GroupPost e x.now table.new }
{
    for j in 0..e {
        place(j, x[j], x[e + j], x[2 * e + j], x[3 * e + j], table);
    }
}

// the sums of 16 rows, four groups
pub(crate) fn fill(e: usize, rows: &[u8], table: &mut [u8])
    requires { (e ≤ 64) × (length rows.now ≡ 1024) × (table.old ≡ replicate 4096 0) }
    ensures { FillPost e rows.now table.new }
{
    for g in 0..4 {
        let at = 4 * e * g;
        let to = 1024 * g;
        group(e, &rows[at..at + 4 * e], &mut table[to..to + 1024]);
    }
}
