// Events 1 to 5, on the board that they name.
ghost use Rattle.std.specs.Prelude.{◌-◌, ◌<◌, ◌≡◌, length, take};
ghost use Rattle.config.specs.Room.{kept_free};
ghost use Rattle.events.specs.View.{lent as one_lent};
ghost use Rattle.boards.specs.Calls.{EventPost, called};
ghost use Rattle.boards.specs.View.{lent};
ghost use Rattle.boards.specs.inner.Named.{LeavePost, LeavePre, LentPost, LentPre, NamedPre, SettlePost, SettlePre, at_least_one, removes as takes_away, taken};
ghost use Rattle.boards.specs.inner.Questions.{RoomAccepted};

use crate::{Call, Rig, Turn, outcome, room};
use config::{Config, RECORD, Room};
use flight::owners;

// Whether the message that an event names leaves: those of events 3 and 4 do.
fn removes(code: u8) -> bool
    ensures { result ≡ takes_away code }
{
    if code < 3 {
        return false;
    }
    code <= 4
}

// Where the message at a place leaves, its board does. Gives how many stay.
fn leave(count: usize, code: u8, place: usize, owners: &mut [u8]) -> usize
    requires { LeavePre count code place owners.old }
    ensures { LeavePost count code place owners.old result owners.new }
{
    if !removes(code) {
        return count;
    }
    owners::remove(count, place, owners);
    count - 1
}

// What an event of one board leaves is put in its place, and what is sent has that board; a refusal leaves all as it was.
fn settle(
    rig: Rig,
    i: usize,
    call: Call,
    place: usize,
    turn: events::Turn,
    owners: &mut [u8],
) -> Turn
    requires { (i < 8) × (SettlePre rig.count place call turn owners.old) }
    ensures { SettlePost rig i call place turn owners.old result owners.new }
{
    let answer = turn.answer;
    if answer.is_refusal() {
        return Turn { answer, rig };
    }
    let one = turn.rig;
    let count = one.count;
    let left = leave(rig.count, call.code, place, owners);
    owners::fill(left, count, call.board, owners);
    Turn {
        answer,
        rig: outcome::put(rig, i, one, count),
    }
}

// The event of a rig of one board, on the parts of the buffers that are the board's in a place, with room for so many messages.
fn lend(
    cfg: Config,
    room: Room,
    most: usize,
    i: usize,
    one: events::Rig,
    call: events::Call,
    board: &[u8],
    read: &mut [u8],
    messages: &mut [u8],
    stores: &mut [u8],
    boards: &mut [u8],
    elements: &mut [u8],
) -> events::Turn
    requires { LentPre cfg room most i (one_lent messages.old stores.old boards.old elements.old) }
    ensures { LentPost cfg most i one call board.now read.old (one_lent messages.old stores.old boards.old elements.old) result read.new (one_lent messages.new stores.new boards.new elements.new) }
{
    let end = RECORD * most;
    let store = cfg.n * ((cfg.d + 1) * cfg.e);
    let from_store = i * store;
    let to_store = from_store + store;
    let kept = cfg.c * (cfg.k * cfg.e);
    let from_kept = i * kept;
    let to_kept = from_kept + kept;
    let received = cfg.c * (cfg.n * cfg.e);
    let from_received = i * received;
    let to_received = from_received + received;
    rig::event(
        cfg,
        most,
        one,
        call,
        board,
        read,
        &mut messages[..end],
        &mut stores[from_store..to_store],
        &mut boards[from_kept..to_kept],
        &mut elements[from_received..to_received],
    )
}

// How many messages may be in flight after an event of a board: M less the places kept free for the others.
fn limit(room: Room, b: u8, count: usize, owners: &[u8]) -> usize
    requires { RoomAccepted room }
    ensures { result ≡ room.m - kept_free room b (take count owners.now) }
{
    room.m - room::kept_free(room, b, count, owners)
}

// So many; where there is room for none, as if there were for one.
fn at_least_one(limit: usize) -> usize
    ensures { result ≡ at_least_one limit }
{
    if limit == 0 {
        return 1;
    }
    limit
}

// And for an event that begins as if this one were in flight, so that it has no room.
fn in_flight(limit: usize, code: u8, count: usize) -> usize
    ensures { result ≡ taken limit code count }
{
    if limit != 0 {
        return count;
    }
    if 2 < code {
        return count;
    }
    1
}

// The event of the board that is named. Questions 19 and 7 to 13.
pub(crate) fn event(
    cfg: Config,
    room: Room,
    rig: Rig,
    call: Call,
    board: &[u8],
    read: &mut [u8],
    messages: &mut [u8],
    owners: &mut [u8],
    stores: &mut [u8],
    boards: &mut [u8],
    elements: &mut [u8],
) -> Turn
    requires { NamedPre cfg room rig call board.now read.old (lent messages.old owners.old stores.old boards.old elements.old) }
    ensures { EventPost cfg room rig (called call board.now) read.old (lent messages.old owners.old stores.old boards.old elements.old) result read.new (lent messages.new owners.new stores.new boards.new elements.new) }
{
    let b = call.board;
    let i = b as usize - 1;
    let place = owners::place_of(rig.count, b, call.position, owners);
    let most = limit(room, b, rig.count, owners);
    let count = in_flight(most, call.code, rig.count);
    let its = events::Call {
        code: call.code,
        party: call.party,
        position: place,
        length: call.length,
    };
    let turn = lend(
        cfg,
        room,
        at_least_one(most),
        i,
        outcome::one(rig.boards[i], count),
        its,
        board,
        read,
        messages,
        stores,
        boards,
        elements,
    );
    settle(rig, i, call, place, turn, owners)
}
