// An event as a record of bytes: its code, party and position, 2 bytes, its board, and its length, 2 bytes; of several boards, the number of the
// board that it names stands behind the position. All that reads the record's form stands here.
ghost use Rattle.std.specs.Prelude.{◌≡◌, ◌+◌, ◌≤◌, length};
ghost use Rattle.boards.specs.Calls.{called as called_on};
ghost use Rattle.events.specs.Calls.{called as called_with};
ghost use Rattle.lines.specs.Event.{bytes_at, bytes_on_at, call_at, call_on_at, event_length, event_on_length};

use events::Call;

// The bytes of a record with a board of v bytes.
pub(crate) fn size(v: usize) -> usize
    requires { v ≤ 1024 }
    ensures { result ≡ event_length v }
{
    6 + v
}

// What the record at a place calls.
pub(crate) fn called(at: usize, v: usize, input: &[u8]) -> Call
    requires { at + event_length v ≤ length input.now }
    ensures { called_with result (bytes_at v at input.now) ≡ call_at v at input.now }
{
    let end = at + 4 + v;
    Call {
        code: input[at],
        party: input[at + 1],
        position: super::little(input[at + 2], input[at + 3]),
        length: super::little(input[end], input[end + 1]) as u16,
    }
}

// The bytes of its board.
pub(crate) fn board(at: usize, v: usize, input: &[u8]) -> &[u8]
    requires { at + event_length v ≤ length input.now }
    ensures { result.now ≡ bytes_at v at input.now }
{
    let from = at + 4;
    let to = from + v;
    &input[from..to]
}

// What the record at a place calls, where it names one of several boards.
pub(crate) fn called_on(at: usize, v: usize, input: &[u8]) -> boards::Call
    requires { at + event_on_length v ≤ length input.now }
    ensures { called_on result (bytes_on_at v at input.now) ≡ call_on_at v at input.now }
{
    let end = at + 5 + v;
    let position = super::little(input[at + 2], input[at + 3]);
    let length = super::little(input[end], input[end + 1]) as u16;
    boards::Call {
        code: input[at],
        party: input[at + 1],
        position,
        board: input[at + 4],
        length,
    }
}

// The bytes of its board: those behind the number of the board that it names.
pub(crate) fn board_on(at: usize, v: usize, input: &[u8]) -> &[u8]
    requires { at + event_on_length v ≤ length input.now }
    ensures { result.now ≡ bytes_on_at v at input.now }
{
    let from = at + 5;
    let to = from + v;
    &input[from..to]
}
