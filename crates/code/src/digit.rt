// Products of bytes, digit by digit of one factor: doublings and no table, so that a loop over bytes is one over vectors.
ghost use Rattle.std.specs.Prelude.{◌≡◌, ◌%◌, ◌*◌, ◌/◌, ◌<◌, ◌≤◌};
ghost use Rattle.field.specs.Field.{times};
ghost use Rattle.code.specs.inner.Doubles.{ByDoublesPre};

// x where the last digit of d is 1, else 0
fn masked(x: u8, d: u8) -> u8
    ensures { result ≡ d % 2 * x }
{
    x & ((d % 2) * 255)
}

// x times c, from x times c without its last digit
fn next(a: u8, x: u8, c: u8) -> u8
    requires { a ≡ times x (c / 2) }
    ensures { result ≡ times x c }
{
    field::double(a) ^ masked(x, c)
}

// s times x for a server number s, by at most four doublings
pub(crate) fn by_server(x: u8, s: u8) -> u8
    requires { (1 ≤ s) × (s ≤ 16) }
    ensures { result ≡ times s x }
{
    if s < 2 {
        return x;
    }
    if s < 4 {
        return next(x, x, s);
    }
    if s < 8 {
        return next(next(x, x, s / 2), x, s);
    }
    if s < 16 {
        let h = s / 2;
        return next(next(next(x, x, h / 2), x, h), x, s);
    }
    next(next(next(next(x, x, 2), x, 4), x, 8), x, 16)
}

// s times x for s below 32, which need not be the same in a loop
pub(crate) fn small(s: u8, x: u8) -> u8
    requires { s < 32 }
    ensures { result ≡ times s x }
{
    let x1 = field::double(x);
    let x2 = field::double(x1);
    let x3 = field::double(x2);
    let x4 = field::double(x3);
    masked(x, s) ^ masked(x1, s / 2) ^ masked(x2, s / 4) ^ masked(x3, s / 8) ^ masked(x4, s / 16)
}

// s times x for s below 8, which need not be the same in a loop
pub(crate) fn tiny(s: u8, x: u8) -> u8
    requires { s < 8 }
    ensures { result ≡ times s x }
{
    let x1 = field::double(x);
    let x2 = field::double(x1);
    masked(x, s) ^ masked(x1, s / 2) ^ masked(x2, s / 4)
}

// c times x, of c doubled none to seven times
pub(crate) fn by_doubles(x: u8, c: u8, c1: u8, c2: u8, c3: u8, c4: u8, c5: u8, c6: u8, c7: u8) -> u8
    requires { ByDoublesPre c c1 c2 c3 c4 c5 c6 c7 }
    ensures { result ≡ times c x }
{
    let low = masked(c, x) ^ masked(c1, x / 2) ^ masked(c2, x / 4) ^ masked(c3, x / 8);
    low ^ masked(c4, x / 16) ^ masked(c5, x / 32) ^ masked(c6, x / 64) ^ masked(c7, x / 128)
}

// c times x, neither of which need be the same in a loop
pub(crate) fn product(c: u8, x: u8) -> u8
    ensures { result ≡ times c x }
{
    let c1 = field::double(c);
    let c2 = field::double(c1);
    let c3 = field::double(c2);
    let c4 = field::double(c3);
    let c5 = field::double(c4);
    let c6 = field::double(c5);
    let c7 = field::double(c6);
    by_doubles(x, c, c1, c2, c3, c4, c5, c6, c7)
}
