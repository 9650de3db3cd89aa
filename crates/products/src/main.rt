// Compares each of the 65,536 products of the field with that of a shift-and-add multiplier, which uses no table, and writes
// how many it compared and how many differ.
#![tactic(auto)]

ghost use Rattle.std.specs.Prelude.{◌≡◌, ◌+◌, ◌*◌, ◌<◌};
ghost use Rattle.products.specs.Multiplier.{all_differ, differ, reduced, shifted};

// How many products were compared, and how many of them differ.
#[derive(Clone, Copy)]
struct Tally {
    compared: u64,
    differ: u64,
}

// The product of two polynomials, given by their bits: b's terms each shift a, and the shifted ones are added.
fn unreduced(a: u32, b: u32) -> u32
    requires { a < 256 }
    ensures { result ≡ shifted 8 a b }
{
    let mut sum = 0;
    for i in 0..8u32 {
        if (b >> i) % 2 == 1 {
            sum = sum ^ (a << i);
        }
    }
    sum
}

// The remainder modulo hexadecimal 11D of a polynomial of degree below 15: its terms from x^14 down to x^8 are taken off.
fn remainder(p: u32) -> u32
    ensures { result ≡ reduced 7 p }
{
    let mut rest = p;
    for i in 0..7u32 {
        if (rest >> (14 - i)) % 2 == 1 {
            rest = rest ^ (0x11D << (6 - i));
        }
    }
    rest
}

// 1 where the product of a and b by the field's table and the multiplier's differ, 0 where they are equal.
fn differs(a: u32, b: u32) -> u64
    requires { (a < 256) × (b < 256) }
    ensures { result ≡ differ a b }
{
    if field::product(a as u8, b as u8) as u32 == remainder(unreduced(a, b)) {
        0
    } else {
        1
    }
}

// Compares the products of a and each byte.
fn row(t: Tally, a: u32) -> Tally
    requires a_bound { a < 256 }
    requires compared_value { (t.compared ≡ a * 256) × (t.differ ≡ all_differ a) }
    ensures { (result.compared ≡ (a + 1) * 256) × (result.differ ≡ all_differ (a + 1)) }
{
    let mut compared = t.compared;
    let mut differ = t.differ;
    for b in 0..256u32 {
        differ += differs(a, b);
        compared += 1;
    }
    Tally { compared, differ }
}

// Compares all products.
fn all() -> Tally
    ensures { (result.compared ≡ 65536) × (result.differ ≡ all_differ 256) }
{
    let mut t = Tally {
        compared: 0,
        differ: 0,
    };
    for a in 0..256u32 {
        t = row(t, a);
    }
    t
}

fn main() {
    let t = all();
    io::print_decimal(1, t.compared);
    io::write_all(1, b" products compared, ");
    io::print_decimal(1, t.differ);
    io::write_all(1, b" differ\n");
}
