// Numbers as bytes, the lowest first; where things stand in a record, and its zeros.
ghost use Rattle.std.specs.Prelude.{◌≡◌, ◌+◌, ◌≤◌, length, cond};
ghost use Rattle.record.specs.inner.Parse.{RecordPre, laid_out};
ghost use Rattle.record.specs.Record.{all_zero, element_end, four_bytes, number_at, little_endian, little_two};
ghost use Rattle.config.specs.Config.{Valid};

use config::Config;

// A number of four bytes, the lowest first.
pub fn number(a: u8, b: u8, c: u8, d: u8) -> u32
    ensures { result ≡ little_endian a b c d }
{
    a as u32 + b as u32 * 256 + c as u32 * 65536 + d as u32 * 16777216
}

// The number at an offset.
pub(crate) fn number_at(at: usize, buf: &[u8]) -> u32
    requires { at + 4 ≤ length buf.now }
    ensures { result ≡ number_at at buf.now }
{
    number(buf[at], buf[at + 1], buf[at + 2], buf[at + 3])
}

// A length's two bytes, the lowest first.
pub fn length(a: u8, b: u8) -> u16
    ensures { result ≡ little_two a b }
{
    a as u16 + b as u16 * 256
}

// The four bytes of a number, the lowest first.
pub fn four_bytes(n: u32) -> [u8; 4]
    ensures { result ≡ four_bytes n }
{
    [
        (n % 256) as u8,
        (n / 256 % 256) as u8,
        (n / 65536 % 256) as u8,
        (n / 16777216 % 256) as u8,
    ]
}

// A flag's byte.
pub fn flag(present: bool) -> u8
    ensures { result ≡ cond present 1 0 }
{
    if present {
        return 1;
    }
    0
}

// Where the element ends, if one is present, and the zeros begin.
pub(crate) fn element_end(cfg: Config, present: bool) -> usize
    requires { Valid cfg }
    ensures { result ≡ element_end cfg present }
{
    if present {
        return 16 + cfg.e;
    }
    16
}

// Whether each byte is 0.
pub(crate) fn zero(part: &[u8]) -> bool
    ensures { result ≡ all_zero part.now }
{
    let mut any = 0u8;
    for byte in part {
        any |= *byte;
    }
    any == 0
}

// Whether offsets 0 and 3 hold numbers that they may hold, and zeros stand at offset 15 and past the element.
pub(crate) fn laid_out(cfg: Config, buf: &[u8]) -> bool
    requires { RecordPre cfg buf.now }
    ensures { result ≡ laid_out cfg buf.now }
{
    if buf[0] == 0 {
        return false;
    }
    if 9 < buf[0] {
        return false;
    }
    if 1 < buf[3] {
        return false;
    }
    if buf[15] != 0 {
        return false;
    }
    if buf[3] == 0 {
        return zero(&buf[16..config::RECORD]);
    }
    let end = element_end(cfg, buf[3] == 1);
    zero(&buf[end..])
}
