// The field of 256 elements: the product by tables of the powers of 2 and of logarithms, the inverse, and doubling. Every
// function is proved and total: none that is `pub` has a `requires`, and nothing is assumed.
#![tactic(auto)]

ghost use Rattle.std.specs.Prelude.{◌≡◌};
ghost use Rattle.field.specs.Field.{double, inverse_of, times};

mod table;

// The product of a and b.
pub fn product(a: u8, b: u8) -> u8
    ensures { result ≡ times a b }
{
    if a == 0 {
        return 0;
    }
    if b == 0 {
        return 0;
    }
    table::power_of_two(table::logarithm(a) as usize + table::logarithm(b) as usize)
}

// The inverse of a; 0 gives 0.
pub fn inverse(a: u8) -> u8
    ensures { result ≡ inverse_of a }
{
    if a == 0 {
        return 0;
    }
    table::power_of_two(255 - table::logarithm(a) as usize)
}

// a doubled in the field.
pub fn double(a: u8) -> u8
    ensures { result ≡ double a }
{
    (a % 128) * 2 ^ (a / 128) * 29
}
