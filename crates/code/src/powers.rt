// The choices of the elements: combination t is the element of server t + 1, and its coefficients are the powers of t + 1.
ghost use Rattle.std.specs.Prelude.{suc};
ghost use Rattle.field.specs.Field.{power};
ghost use Rattle.code.specs.inner.Combine.{ChoicesOf};

// For each digit, the lowest first, and each group of four rows, the choices of servers 1 to 16.
const CHOICES: [u8; 512] = [
    15, // digit 0, rows 0 to 3
    1, 15, 1, 15, 1, 15, 1, 15, 1, 15, 9, 7, 9, 7, 13, 15, // digit 0, rows 4 to 7
    0, 15, 13, 4, 1, 0, 13, 4, 3, 10, 14, 9, 12, 3, 4, 15, // digit 0, rows 8 to 11
    1, 0, 2, 5, 3, 10, 9, 8, 6, 9, 11, 10, 4, 11, 3, 15, // digit 0, rows 12 to 15
    7, 9, 1, 1, 14, 11, 15, 2, 12, 8, 15, 5, 4, 3, 12, 0, // digit 1, rows 0 to 3
    2, 10, 0, 0, 2, 10, 8, 8, 10, 2, 8, 8, 10, 2, 0, 0, // digit 1, rows 4 to 7
    0, 10, 8, 8, 10, 8, 2, 2, 4, 14, 12, 12, 8, 10, 4, 0, // digit 1, rows 8 to 11
    2, 0, 8, 8, 2, 0, 9, 15, 9, 5, 5, 11, 5, 1, 12, 0, // digit 1, rows 12 to 15
    14, 14, 3, 5, 3, 7, 0, 5, 2, 3, 1, 0, 15, 8, 1, 0, // digit 2, rows 0 to 3
    4, 12, 2, 10, 6, 6, 0, 0, 4, 12, 10, 2, 14, 14, 12, 0, // digit 2, rows 4 to 7
    0, 12, 7, 3, 7, 15, 15, 1, 9, 11, 12, 6, 10, 12, 7, 0, // digit 2, rows 8 to 11
    5, 15, 7, 3, 0, 6, 11, 13, 2, 6, 14, 12, 13, 5, 11, 0, // digit 2, rows 12 to 15
    11, 2, 3, 15, 4, 3, 7, 5, 5, 2, 13, 3, 9, 0, 7, 0, // digit 3, rows 0 to 3
    8, 8, 0, 0, 8, 8, 10, 2, 2, 10, 2, 10, 10, 2, 12, 0, // digit 3, rows 4 to 7
    0, 8, 5, 3, 3, 13, 5, 1, 5, 9, 6, 12, 0, 2, 13, 0, // digit 3, rows 8 to 11
    11, 5, 11, 13, 2, 2, 3, 7, 10, 8, 2, 0, 1, 13, 13, 0, // digit 3, rows 12 to 15
    1, 10, 5, 13, 15, 6, 0, 4, 4, 7, 3, 3, 6, 11, 12, 0, // digit 4, rows 0 to 3
    0, 0, 4, 12, 12, 4, 8, 8, 8, 8, 4, 12, 12, 4, 6, 0, // digit 4, rows 4 to 7
    1, 15, 11, 1, 0, 4, 8, 0, 1, 7, 13, 7, 6, 2, 10, 0, // digit 4, rows 8 to 11
    7, 9, 4, 0, 3, 1, 0, 8, 3, 13, 10, 14, 1, 11, 1, 0, // digit 4, rows 12 to 15
    4, 10, 4, 1, 7, 8, 6, 6, 6, 4, 10, 7, 9, 10, 14, 0, // digit 5, rows 0 to 3
    0, 0, 0, 0, 8, 8, 8, 8, 0, 0, 8, 8, 8, 8, 0, 0, // digit 5, rows 4 to 7
    2, 10, 2, 10, 14, 6, 14, 6, 0, 0, 6, 14, 6, 14, 2, 0, // digit 5, rows 8 to 11
    14, 14, 14, 14, 6, 14, 12, 12, 0, 0, 14, 6, 12, 12, 14, 0, // digit 5, rows 12 to 15
    8, 12, 8, 12, 15, 1, 7, 11, 0, 0, 1, 15, 1, 5, 8, 0, // digit 6, rows 0 to 3
    0, 0, 8, 8, 8, 8, 4, 12, 4, 12, 12, 4, 12, 4, 8, 0, // digit 6, rows 4 to 7
    4, 12, 6, 14, 12, 12, 9, 11, 9, 11, 9, 3, 15, 5, 1, 0, // digit 6, rows 8 to 11
    12, 4, 9, 15, 11, 5, 4, 0, 2, 6, 3, 1, 3, 1, 12, 0, // digit 6, rows 12 to 15
    1, 7, 8, 1, 0, 1, 8, 15, 5, 2, 14, 8, 6, 6, 5, 0, // digit 7, rows 0 to 3
    0, 0, 0, 0, 0, 0, 0, 0, 8, 8, 8, 8, 0, 0, 8, 0, // digit 7, rows 4 to 7
    8, 8, 4, 12, 4, 12, 1, 15, 1, 7, 7, 1, 15, 1, 6, 0, // digit 7, rows 8 to 11
    8, 8, 12, 4, 10, 2, 1, 15, 3, 13, 9, 15, 13, 11, 9, 0, // digit 7, rows 12 to 15
    3, 5, 1, 7, 15, 15, 12, 4, 6, 4, 6, 0, 13, 1, 8,
];

// the choices of all elements
pub(crate) fn choices() -> [u8; 512]
    ensures { ChoicesOf (λ t i. power (suc t) i) result }
{
    CHOICES
}
