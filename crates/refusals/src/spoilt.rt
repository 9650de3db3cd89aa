// A rig and buffers with what a line of the script has written in.
ghost use Rattle.std.specs.Prelude.{◌<◌};

use crate::rigs::Lent;
use crate::script::field;
use client::Phase;
use events::{Rig, Turn};
use parties::Node;
use tag::Tag;

// The tag of a field and the next.
fn tag(line: [u8; 96], j: usize) -> Tag
    requires { j < 95 }
{
    Tag {
        number: field(line, j) as u32,
        client: field(line, j + 1),
    }
}

// What the line has of a server: how many tags it stores, its highest tag, its first stored one, and the lengths in its first two places.
fn node(line: [u8; 96], old: Node) -> Node {
    let mut state = old.state;
    let highest = tag(line, 28);
    let stored = tag(line, 30);
    state.count = field(line, 27);
    state.highest = highest;
    state.tags[0] = stored;
    state.lengths[0] = field(line, 32) as u16;
    state.lengths[1] = field(line, 33) as u16;
    Node { state, up: old.up }
}

// A client's phase: 0 for asking to read, 1 for asking to write, 2 for pre-writing, 3 for finalising a write, 4 for finalising a read, 5 for
// idle, and any other number for down; then its tag, the servers that it has counted and those that sent an element.
fn phase(line: [u8; 96]) -> Phase {
    let tag = tag(line, 37);
    let counted = field(line, 39) as u32;
    match field(line, 36) {
        0 => Phase::Asking {
            writes: false,
            best: tag,
            counted,
        },
        1 => Phase::Asking {
            writes: true,
            best: tag,
            counted,
        },
        2 => Phase::PreWriting { tag, counted },
        3 => Phase::FinalisingWrite { tag, counted },
        4 => Phase::FinalisingRead {
            tag,
            counted,
            sent: field(line, 40) as u32,
        },
        5 => Phase::Idle,
        _ => Phase::Down,
    }
}

// What the line has of a client: its phase, the length of its write, and those received of servers 1, 2 and 3.
fn client(line: [u8; 96], old: client::State) -> client::State {
    let me = old.me;
    let phase = phase(line);
    let mut lengths = old.lengths;
    lengths[0] = field(line, 42) as u16;
    lengths[1] = field(line, 43) as u16;
    lengths[2] = field(line, 44) as u16;
    client::State {
        me,
        operation: 1,
        phase,
        length: field(line, 41) as u16,
        lengths,
    }
}

// The rig of a turn, with a server and a client in their first places, taken from any, and how many messages are in flight.
pub(crate) fn rig(turn: Turn, line: [u8; 96]) -> Rig {
    let mut rig = turn.rig;
    if line[0] < b'2' {
        return rig;
    }
    let s = field(line, 26) as usize % 16;
    let c = field(line, 35) as usize % 16;
    let node = node(line, rig.servers[s]);
    rig.servers[0] = node;
    let state = client(line, rig.clients[c]);
    rig.clients[0] = state;
    rig.count = field(line, 24) as usize;
    rig
}

// Where a field's offset stands in the messages: in the record at the event's position.
fn place(line: [u8; 96], j: usize) -> usize
    requires { j < 96 }
    ensures { result < 5120 }
{
    field(line, 12) as usize % 64 * 80 + field(line, j) as usize % 80
}

// The buffers, with three bytes of that record, each a field for the offset and one for the byte.
pub(crate) fn buffers(mut lent: Lent, line: [u8; 96]) -> Lent {
    if line[0] < b'2' {
        return lent;
    }
    lent.messages[place(line, 46)] = field(line, 47);
    lent.messages[place(line, 48)] = field(line, 49);
    lent.messages[place(line, 50)] = field(line, 51);
    lent
}
