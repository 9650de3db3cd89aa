// The choices of combinations whose coefficients are the rows of a square: combination t has row t.
ghost use Rattle.std.specs.Prelude.{◌≡◌, ◌<◌, length};
ghost use Rattle.code.specs.inner.Choice.{GroupPost, chosen_lanes, column, halved, square_of};
ghost use Rattle.code.specs.inner.Combine.{ChoicesOf};

use std::array;

// column r of the square
fn column(square: &[[u8; 16]; 16], r: usize) -> [u8; 16]
    requires { r < 16 }
    ensures { result ≡ column square.now r }
{
    array::from_fn(|i| square[i][r])
}

// each lane without its last digit
fn halved(a: [u8; 16]) -> [u8; 16]
    ensures { result ≡ halved a }
{
    a.map(|lane| lane / 2)
}

// in each lane the choice that the last digits of four make
fn chosen(a: [u8; 16], b: [u8; 16], c: [u8; 16], d: [u8; 16]) -> [u8; 16]
    ensures { result ≡ chosen_lanes a b c d }
{
    array::from_fn(|i| a[i] % 2 + b[i] % 2 * 2 + c[i] % 2 * 4 + d[i] % 2 * 8)
}

// the choices of group g, digit by digit
fn group(g: usize, square: &[[u8; 16]; 16], choices: &mut [u8])
    requires { (g < 4) × (length choices.old ≡ 512) }
    ensures { GroupPost g (square_of square.now) choices.old choices.new }
{
    let mut a = column(square, 4 * g);
    let mut b = column(square, 4 * g + 1);
    let mut c = column(square, 4 * g + 2);
    let mut d = column(square, 4 * g + 3);
    for digit in 0..8 {
        let lanes = chosen(a, b, c, d);
        let at = 64 * digit + 16 * g;
        copies::copy(&lanes, &mut choices[at..at + 16]);
        let half = halved(a);
        a = half;
        let half = halved(b);
        b = half;
        let half = halved(c);
        c = half;
        let half = halved(d);
        d = half;
    }
}

// the choices of all four groups
pub(crate) fn of(square: &[[u8; 16]; 16]) -> [u8; 512]
    ensures { ChoicesOf (square_of square.now) result }
{
    let mut choices = [0u8; 512];
    for g in 0..4 {
        group(g, square, &mut choices);
    }
    choices
}
