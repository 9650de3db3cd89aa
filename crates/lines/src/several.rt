// One event of several boards, which its record names. Where `block` runs a rig in place, here the whole rig goes into the event and comes back.
ghost use Rattle.std.specs.Prelude.{◌≡◌, ◌+◌, ◌≤◌, ◌&&◌, nat_le};
ghost use Rattle.boards.specs.View.{lent};
ghost use Rattle.config.specs.Lengths.{lengths_of};
ghost use Rattle.lines.specs.Block.{line_room};
ghost use Rattle.lines.specs.Event.{event_on_length};
ghost use Rattle.lines.specs.Several.{SaidPost};

use super::event;
use config::{Config, Room};

// What an event leaves: the rig, and how many bytes of the output are in use.
#[derive(Clone, Copy)]
pub struct Said {
    pub rig: boards::Rig,
    pub used: usize,
}

// The bytes of an event's record; 7 where the configuration is refused.
pub fn event_length(cfg: Config, m: usize) -> usize
    ensures { result ≡ event_on_length (lengths_of cfg m).board }
{
    7 + super::board_length(cfg, m)
}

// Runs the record at a place of the input, and writes its line behind what is in use of the output. Where no whole record stands there, or there
// is no room for a line, all is as it was.
pub fn event(
    cfg: Config,
    room: Room,
    rig: boards::Rig,
    count: u64,
    at: usize,
    input: &[u8],
    used: usize,
    output: &mut [u8],
    messages: &mut [u8],
    owners: &mut [u8],
    stores: &mut [u8],
    boards: &mut [u8],
    elements: &mut [u8],
) -> Said
    ensures { SaidPost cfg room rig (lent messages.old owners.old stores.old boards.old elements.old) count at input.now used output.old result (lent messages.new owners.new stores.new boards.new elements.new) output.new }
{
    let v = super::board_length(cfg, room.m);
    if !can_say(v, at, input.len(), used, output.len()) {
        return Said { rig, used };
    }
    let call = event::called_on(at, v, input);
    let board = event::board_on(at, v, input);
    let mut space = [0u8; 1024];
    let read: &mut [u8] = &mut space[..v];
    let turn = boards::event(
        cfg, room, rig, call, board, read, messages, owners, stores, boards, elements,
    );
    let answer = turn.answer;
    let left = turn.rig;
    Said {
        rig: left,
        used: super::answer::line(count, answer, read, output, used),
    }
}

// Whether a record of a board of v bytes is left from a place on, and room for its line.
fn can_say(v: usize, at: usize, long: usize, used: usize, most: usize) -> bool
    requires { v ≤ 1024 }
    ensures { result ≡ (nat_le (at + event_on_length v) long && nat_le (used + line_room v) most) }
{
    if long < at {
        return false;
    }
    if most < used {
        return false;
    }
    if long - at < 7 + v {
        return false;
    }
    if most - used < 84 + 2 * v {
        return false;
    }
    true
}
