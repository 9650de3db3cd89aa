// Several boards over the same servers and clients, which share the messages in flight: 1 to 8, each with its own starting board, tags, stores and
// operations. A rig is a struct by value, and beside it five buffers are lent to each call: the messages in flight (80 × M), the board of each (M),
// and the servers' stores, the boards that clients keep to write and the elements that they have received, joined board by board, and of
// each board as a rig of one board has them. An event is that of a rig of one board, on the parties of the board that it names. Every
// function is proved, nothing is assumed, and no public function has a `requires`.
#![tactic(auto)]

mod crash_or_restart;
mod fresh;
mod named;
mod outcome;
mod questions;
mod room;

ghost use Rattle.config.specs.Refusal.{verdict_number};
ghost use Rattle.std.specs.Prelude.{◌≡◌, length};
ghost use Rattle.protocol.specs.Network.{board_exists};
ghost use Rattle.protocol.specs.Rig.{code_of};
ghost use Rattle.boards.specs.Calls.{EventPost, MakePost, called};
ghost use Rattle.boards.specs.Questions.{lengths_of};
ghost use Rattle.boards.specs.View.{lent};
ghost use Rattle.boards.specs.inner.Questions.{asked_no, lengths_no, start_no};

use config::{Config, Refusal, Room};
use parties::{Answer, Node};

// The parties of one board. Server s and client c stand in the places s - 1 and c - 1; the places past N and C are not in use.
#[derive(Clone, Copy)]
pub struct OneBoard {
    pub servers: [Node; 16],
    pub clients: [client::State; 16],
}

// Board b stands in the place b - 1; the places past the number of boards are not in use. `count` records are in flight, the first of the
// messages.
#[derive(Clone, Copy)]
pub struct Rig {
    pub boards: [OneBoard; 8],
    pub count: usize,
}

// An event as it is called: its code, the party's number, a message's position among those of the board that is named, this board's number, and
// the length of the board handed in, each of any value. A crash, a restart and an unknown event don't look at the board's number, and the length
// is that of a write.
#[derive(Clone, Copy)]
pub struct Call {
    pub code: u8,
    pub party: u8,
    pub position: usize,
    pub board: u8,
    pub length: u16,
}

// What the making of a rig leaves. The rig stands beside the verdict: `MakePost` says of a refusal too which it is.
#[derive(Clone, Copy)]
pub struct Made {
    pub verdict: Result<(), Refusal>,
    pub rig: Rig,
}

// What an event leaves.
#[derive(Clone, Copy)]
pub struct Turn {
    pub answer: Answer,
    pub rig: Rig,
}

// The lengths of the buffers lent to a rig.
#[derive(Clone, Copy)]
pub struct Sizes {
    pub messages: usize,
    pub owners: usize,
    pub stores: usize,
    pub boards: usize,
    pub elements: usize,
}

// The lengths of the buffers lent to a rig; all are 0 where questions 1 to 5, 21 and 22 refuse.
pub fn lengths(cfg: Config, room: Room) -> Sizes
    ensures { result ≡ lengths_of cfg room }
{
    let Ok(()) = cfg.ask_room(room) else {
        return Sizes {
            messages: 0,
            owners: 0,
            stores: 0,
            boards: 0,
            elements: 0,
        };
    };
    let one = cfg.lengths(room.m);
    Sizes {
        messages: one.messages,
        owners: room.m,
        stores: room.boards * (cfg.n * one.store),
        boards: room.boards * (cfg.c * one.board),
        elements: room.boards * (cfg.c * one.elements),
    }
}

// Questions 1 to 5, 21 and 22, and 6 of the lengths of the starting boards and of the buffers lent to a rig.
fn ask_make(cfg: Config, room: Room, start: usize, sizes: Sizes) -> Result<(), Refusal>
    ensures { verdict_number result ≡ start_no cfg room start sizes }
{
    cfg.ask_room(room)?;
    if start != room.boards * (cfg.k * cfg.e) {
        return Err(Refusal::Shape);
    }
    if !questions::sized(sizes, lengths(cfg, room)) {
        return Err(Refusal::Shape);
    }
    Ok(())
}

// A fresh rig: questions 1 to 5, 21 and 22, and 6. Of each board the servers' elements of its starting board go into their stores. On a refusal the
// rig is of no use.
pub fn make(
    cfg: Config,
    room: Room,
    start: &[u8],
    messages: &mut [u8],
    owners: &mut [u8],
    stores: &mut [u8],
    boards: &mut [u8],
    elements: &mut [u8],
) -> Made
    ensures { MakePost cfg room start.now (lent messages.old owners.old stores.old boards.old elements.old) result (lent messages.new owners.new stores.new boards.new elements.new) }
{
    let sizes = Sizes {
        messages: messages.len(),
        owners: owners.len(),
        stores: stores.len(),
        boards: boards.len(),
        elements: elements.len(),
    };
    if let Err(why) = ask_make(cfg, room, start.len(), sizes) {
        return Made {
            verdict: Err(why),
            rig: fresh::least(),
        };
    }
    Made {
        verdict: Ok(()),
        rig: fresh::rig(cfg, room, start, messages, stores, boards, elements),
    }
}

// Whether the board that an event names exists; a crash, a restart and an unknown event name none.
fn exists(room: Room, call: Call) -> bool
    ensures { result ≡ board_exists room call.board (code_of call.code) }
{
    if call.code < 1 {
        return true;
    }
    if 5 < call.code {
        return true;
    }
    if call.board < 1 {
        return false;
    }
    call.board as usize <= room.boards
}

// Questions 1 to 5, 21 and 22, and 6 of the lengths of what is handed in.
fn ask_lengths(
    cfg: Config,
    room: Room,
    call: Call,
    board: usize,
    read: usize,
    sizes: Sizes,
) -> Result<(), Refusal>
    ensures { verdict_number result ≡ lengths_no cfg room call board read sizes }
{
    cfg.ask_room(room)?;
    if !exists(room, call) {
        return Err(Refusal::Boards);
    }
    let v = cfg.k * cfg.e;
    if board != v {
        return Err(Refusal::Shape);
    }
    if read != v {
        return Err(Refusal::Shape);
    }
    if !questions::sized(sizes, lengths(cfg, room)) {
        return Err(Refusal::Shape);
    }
    Ok(())
}

// Questions 1 to 6, 21 and 22 of an event.
fn ask(
    cfg: Config,
    room: Room,
    rig: Rig,
    call: Call,
    board: usize,
    read: usize,
    sizes: Sizes,
    owners: &[u8],
) -> Result<(), Refusal>
    requires { length owners.now ≡ sizes.owners }
    ensures { verdict_number result ≡ asked_no cfg room rig call board read sizes owners.now }
{
    ask_lengths(cfg, room, call, board, read, sizes)?;
    if room.m < rig.count {
        return Err(Refusal::Shape);
    }
    if !questions::flight(room, rig.count, owners) {
        return Err(Refusal::Shape);
    }
    if !questions::parties(cfg, room, rig) {
        return Err(Refusal::Shape);
    }
    Ok(())
}

// An event of the rig: questions 1 to 5, 21, 22, 6, 19 and 7 to 13. `board` is the board handed in, of which the call has the length, `read` the
// buffer lent for a read; each has V bytes, whatever the event.
pub fn event(
    cfg: Config,
    room: Room,
    rig: Rig,
    call: Call,
    board: &[u8],
    read: &mut [u8],
    messages: &mut [u8],
    owners: &mut [u8],
    stores: &mut [u8],
    boards: &mut [u8],
    elements: &mut [u8],
) -> Turn
    ensures { EventPost cfg room rig (called call board.now) read.old (lent messages.old owners.old stores.old boards.old elements.old) result read.new (lent messages.new owners.new stores.new boards.new elements.new) }
{
    let sizes = Sizes {
        messages: messages.len(),
        owners: owners.len(),
        stores: stores.len(),
        boards: boards.len(),
        elements: elements.len(),
    };
    if let Err(why) = ask(cfg, room, rig, call, board.len(), read.len(), sizes, owners) {
        return outcome::unturned(rig, why);
    }
    if call.code < 1 {
        return outcome::unturned(rig, Refusal::Event);
    }
    if 8 < call.code {
        return outcome::unturned(rig, Refusal::Event);
    }
    if 5 < call.code {
        return crash_or_restart::all(cfg, room, rig, call);
    }
    named::event(
        cfg, room, rig, call, board, read, messages, owners, stores, boards, elements,
    )
}
