// Rows of E bytes: a step of Horner's rule, the value of few rows, and the multiples of an element and their sums.
ghost use Rattle.std.specs.Prelude.{◌≡◌, ℕ, ◌<◌, ◌≤◌, List, [], ◌∷◌, length};
ghost use Rattle.laws.specs.Bytes.{tabulate};
ghost use Rattle.code.specs.inner.Row.{added, stepped, value_at};
ghost use Rattle.code.specs.inner.Table.{MultiplyPost, PlacePost, Ready};

// s times the row, plus another: one step of Horner's rule
pub(crate) fn step(row: &mut [u8], s: u8, more: &[u8])
    requires { ((1 ≤ s) × (s ≤ 16)) × (length row.old ≡ length more.now) }
    ensures { row.new ≡ stepped row.old s more.now }
{
    for (j, x) in row.iter_mut().enumerate() {
        *x = more[j] ^ crate::digit::by_server(*x, s);
    }
}

// The value at s of two rows, all steps of Horner's rule in one loop.
pub(crate) fn two(s: u8, a: &[u8], b: &[u8], part: &mut [u8])
    requires { (s < 8) × (length a.now ≡ length part.old) × (length b.now ≡ length part.old) }
    ensures { part.new ≡ tabulate (length part.old) (value_at (a.now ∷ b.now ∷ []) s) }
{
    for j in 0..part.len() {
        part[j] = a[j] ^ crate::digit::tiny(s, b[j]);
    }
}

// the same of three rows
pub(crate) fn three(s: u8, a: &[u8], b: &[u8], c: &[u8], part: &mut [u8])
    requires { (s < 8) × (length a.now ≡ length part.old) × (length b.now ≡ length part.old) × (length c.now ≡ length part.old) }
    ensures { part.new ≡ tabulate (length part.old) (value_at (a.now ∷ b.now ∷ c.now ∷ []) s) }
{
    for j in 0..part.len() {
        let top = b[j] ^ crate::digit::tiny(s, c[j]);
        part[j] = a[j] ^ crate::digit::tiny(s, top);
    }
}

// the same of four rows
pub(crate) fn four(s: u8, a: &[u8], b: &[u8], c: &[u8], d: &[u8], part: &mut [u8])
    requires { (s < 8) × (length a.now ≡ length part.old) × (length b.now ≡ length part.old) × (length c.now ≡ length part.old) × (length d.now ≡ length part.old) }
    ensures { part.new ≡ tabulate (length part.old) (value_at (a.now ∷ b.now ∷ c.now ∷ d.now ∷ []) s) }
{
    for j in 0..part.len() {
        let top = c[j] ^ crate::digit::tiny(s, d[j]);
        let mid = b[j] ^ crate::digit::tiny(s, top);
        part[j] = a[j] ^ crate::digit::tiny(s, mid);
    }
}

// Byte j of the multiples of an element whose byte j is x: x doubled none to seven times, and the sums of two. The rows of the
// number 0 are clear already.
fn place(j: usize, x: u8, table: &mut [u8])
    requires { Ready table.old × (j < 64) }
    ensures { PlacePost table.old j x table.new }
{
    let x1 = field::double(x);
    let x2 = field::double(x1);
    let x3 = field::double(x2);
    let x4 = field::double(x3);
    let x5 = field::double(x4);
    let x6 = field::double(x5);
    let x7 = field::double(x6);
    table[64 + j] = x;
    table[128 + j] = x1;
    table[192 + j] = x ^ x1;
    table[320 + j] = x2;
    table[384 + j] = x3;
    table[448 + j] = x2 ^ x3;
    table[576 + j] = x4;
    table[640 + j] = x5;
    table[704 + j] = x4 ^ x5;
    table[832 + j] = x6;
    table[896 + j] = x7;
    table[960 + j] = x6 ^ x7;
}

// the multiples of an element, row by row of a table
pub(crate) fn multiply(x: &[u8], table: &mut [u8])
    requires { Ready table.old × (length x.now ≤ 64) }
    ensures { MultiplyPost x.now table.new }
{
    for (j, byte) in x.iter().enumerate() {
        place(j, *byte, table);
    }
}

// adds c times x to a row, from the multiples of x: one row of the table for every two binary digits of c
pub(crate) fn add(row: &mut [u8], c: u8, table: &[u8])
    requires { (length row.old ≤ 64) × (length table.now ≡ 1024) }
    ensures { (x : List ℕ) → length x ≡ length row.old → MultiplyPost x table.now → row.new ≡ added row.old c x }
{
    let at0 = 64 * (c % 4) as usize;
    let at1 = 256 + 64 * (c / 4 % 4) as usize;
    let at2 = 512 + 64 * (c / 16 % 4) as usize;
    let at3 = 768 + 64 * (c / 64) as usize;
    for j in 0..row.len() {
        let sum = table[at3 + j] ^ table[at2 + j] ^ table[at1 + j] ^ table[at0 + j];
        row[j] ^= sum;
    }
}
