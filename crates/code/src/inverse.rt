// The inverse of the square of powers: column r has the coefficients of Lagrange's polynomial of server r. It is made of the
// product of all (x + s), which is divided by each (x + s) in synthetic division, all servers side by side in 16 lanes, and
// scaled.
ghost use Rattle.std.specs.Prelude.{◌≡◌, ℕ, ◌<◌, ◌≤◌, get_or, length};
ghost use Rattle.field.specs.Field.{inverse_of};
ghost use Rattle.code.specs.inner.Lanes.{InvertPost, ScalePost, AdvancePre, InvertPre, advanced, first_roots, numbers, rooted_once, scaled_lanes};

use std::array;

// in each lane s times x, plus c
fn advance(x: [u8; 16], s: [u8; 16], c: [u8; 16]) -> [u8; 16]
    requires { AdvancePre s }
    ensures { result ≡ advanced x s c }
{
    array::from_fn(|t| c[t] ^ crate::digit::small(s[t], x[t]))
}

// in each lane d times x
fn multiply(x: [u8; 16], d: [u8; 16]) -> [u8; 16]
    ensures { result ≡ scaled_lanes x d }
{
    array::from_fn(|t| crate::digit::product(d[t], x[t]))
}

// the first 16 coefficients of (x + s) p
fn root(p: [u8; 16], s: u8) -> [u8; 16]
    requires { s ≤ 16 }
    ensures { result ≡ rooted_once p s }
{
    let mut below = [0u8; 16];
    below[1..].copy_from_slice(&p[..15]);
    let each = [s; 16];
    advance(p, each, below)
}

// the first 16 coefficients of the product of all (x + s)
fn roots(k: usize, servers: &[u8]) -> [u8; 16]
    requires { InvertPre k servers.now }
    ensures { result ≡ first_roots k servers.now }
{
    let mut p = [0u8; 16];
    p[0] = servers[0];
    p[1] = 1;
    for s in &servers[1..k] {
        p = root(p, *s);
    }
    p
}

// the numbers of the servers used, one in a lane
fn lanes(k: usize, servers: &[u8]) -> [u8; 16]
    requires { InvertPre k servers.now }
    ensures { result ≡ numbers k servers.now }
{
    let mut s = [0u8; 16];
    s[..k].copy_from_slice(&servers[..k]);
    s
}

// the inverses of the first k lanes
fn inverted(k: usize, v: [u8; 16]) -> [u8; 16]
    requires { k ≤ 16 }
    ensures { (i : ℕ) → i < k → get_or result i 0 ≡ inverse_of (get_or v i 0) }
{
    let mut d = [0u8; 16];
    for r in 0..k {
        d[r] = field::inverse(v[r]);
    }
    d
}

pub(crate) fn invert(k: usize, servers: &[u8]) -> [[u8; 16]; 16]
    requires { InvertPre k servers.now }
    ensures { InvertPost k servers.now result }
{
    let s = lanes(k, servers);
    let p = roots(k, servers);
    let mut inverse = [[0u8; 16]; 16];
    let mut q = [1u8; 16];
    let mut v = [1u8; 16];
    inverse[k - 1] = q;
    for i in (0..k - 1).rev() {
        let c = [p[i + 1]; 16];
        let w = advance(q, s, c);
        q = w;
        inverse[i] = q;
        let w = advance(v, s, q);
        v = w;
    }
    scale(k, inverted(k, v), &mut inverse);
    inverse
}

// the first k rows, each lane scaled by its own
fn scale(k: usize, d: [u8; 16], rows: &mut [[u8; 16]; 16])
    requires { (k ≤ 16) × (length rows.old ≡ 16) }
    ensures { ScalePost k d rows.old rows.new }
{
    for i in 0..k {
        rows[i] = multiply(rows[i], d);
    }
}
