// Text put into a buffer from a place on. Each answers the place after it.
ghost use Rattle.std.specs.Prelude.{◌≡◌, ◌+◌, ◌*◌, ◌<◌, ◌≤◌, length};
ghost use Rattle.io.specs.Digits.{hex_digit_ascii};
ghost use Rattle.lines.specs.Line.{decimal_of, hex_of};
ghost use Rattle.lines.specs.Text.{Appended};

// The bytes of a word.
pub(crate) fn word(w: &[u8], out: &mut [u8], at: usize) -> usize
    requires { at + length w.now ≤ length out.old }
    ensures { Appended out.old at w.now out.new result }
{
    at + copies::copy(w, &mut out[at..])
}

// A number's decimal digits.
pub(crate) fn decimal(n: u64, out: &mut [u8], at: usize) -> usize
    requires { at + 20 ≤ length out.old }
    ensures { Appended out.old at (decimal_of n) out.new result × (result ≤ at + 20) }
{
    let mut digits = [0u8; 20];
    let k = io::decimal(n, &mut digits);
    word(&digits[..k], out, at)
}

// Two lower-case hexadecimal digits for each byte.
pub(crate) fn hex(board: &[u8], out: &mut [u8], at: usize) -> usize
    requires { at + 2 * length board.now ≤ length out.old }
    ensures { Appended out.old at (hex_of board.now) out.new result }
{
    for (i, &b) in board.iter().enumerate() {
        let to = at + 2 * i;
        out[to] = digit(b / 16);
        out[to + 1] = digit(b % 16);
    }
    at + 2 * board.len()
}

fn digit(d: u8) -> u8
    requires { d < 16 }
    ensures { result ≡ hex_digit_ascii d }
{
    if d < 10 { 48 + d } else { 87 + d }
}
