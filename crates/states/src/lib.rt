// The states of servers and clients as bytes of fixed layout, so that a host can keep and send them: little-endian, zeros where nothing is
// kept. Every function is proved, nothing is assumed, and no public function has a `requires`.
#![tactic(auto)]

pub mod clients;
pub mod servers;

ghost use Rattle.std.specs.Prelude.{◌≡◌, ◌+◌, ◌≤◌, length as long};
ghost use Rattle.record.specs.Record.{number_at, two_bytes};
ghost use Rattle.states.specs.Bytes.{length_from, same_bytes, tag_from, tag_row};

use record::layout;
use tag::Tag;

// The two bytes of a length, the lowest first.
pub(crate) fn two_bytes(n: u16) -> [u8; 2]
    ensures { result ≡ two_bytes n }
{
    [(n % 256) as u8, (n / 256 % 256) as u8]
}

// A tag's row: its number, its client, the length of its board, and a zero.
pub(crate) fn tag_row(t: Tag, length: u16) -> [u8; 8]
    ensures { result ≡ tag_row t length }
{
    let n = layout::four_bytes(t.number);
    let l = two_bytes(length);
    [n[0], n[1], n[2], n[3], t.client, l[0], l[1], 0]
}

// The number that begins at an offset.
pub(crate) fn number_at(at: usize, bytes: &[u8]) -> u32
    requires { at + 4 ≤ long bytes.now }
    ensures { result ≡ number_at at bytes.now }
{
    layout::number(bytes[at], bytes[at + 1], bytes[at + 2], bytes[at + 3])
}

// The length that begins at an offset.
pub(crate) fn length_at(at: usize, bytes: &[u8]) -> u16
    requires { at + 2 ≤ long bytes.now }
    ensures { result ≡ length_from bytes.now at }
{
    layout::length(bytes[at], bytes[at + 1])
}

// The tag whose row begins at an offset.
pub(crate) fn tag_at(at: usize, bytes: &[u8]) -> Tag
    requires { at + 5 ≤ long bytes.now }
    ensures { result ≡ tag_from bytes.now at }
{
    let number = number_at(at, bytes);
    Tag {
        number,
        client: bytes[at + 4],
    }
}

// Whether two parts hold the same bytes.
pub(crate) fn same(a: &[u8], b: &[u8]) -> bool
    ensures { result ≡ same_bytes a.now b.now }
{
    a == b
}
