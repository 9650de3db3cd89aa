// Questions 1 to 6, 21 and 22 of a rig of several boards.
ghost use Rattle.std.specs.Prelude.{◌&&◌, ◌≡◌, ◌≤◌, ◌<◌, length, take};
ghost use Rattle.std.proofs.Math.Option.{some};
ghost use Rattle.config.specs.Config.{Valid, rig_questions};
ghost use Rattle.config.specs.Questions.{first_no};
ghost use Rattle.config.specs.Room.{fits_room, owners_within};
ghost use Rattle.events.specs.Questions.{rig_within as one_within};
ghost use Rattle.boards.specs.Questions.{clients_alike, is_up, parties_within, same as alike, same_sizes, servers_alike, up_alike};
ghost use Rattle.boards.specs.View.{rig_with};
ghost use Rattle.boards.specs.inner.Questions.{Accepted, RoomAccepted};

use crate::{OneBoard, Rig, Sizes, outcome, room};
use client::Phase;
use config::{Config, Room};
use flight::owners;

// Whether each length is that of another.
pub(crate) fn sized(x: Sizes, y: Sizes) -> bool
    ensures { result ≡ same_sizes x y }
{
    if x.messages != y.messages {
        return false;
    }
    if x.owners != y.owners {
        return false;
    }
    if x.stores != y.stores {
        return false;
    }
    if x.boards != y.boards {
        return false;
    }
    x.elements == y.elements
}

// Whether a client in this phase is up.
fn is_up(phase: Phase) -> bool
    ensures { result ≡ is_up phase }
{
    match phase {
        Phase::Idle => true,
        Phase::Asking {
            writes: _,
            best: _,
            counted: _,
        } => true,
        Phase::PreWriting { tag: _, counted: _ } => true,
        Phase::FinalisingWrite { tag: _, counted: _ } => true,
        Phase::FinalisingRead {
            tag: _,
            counted: _,
            sent: _,
        } => true,
        Phase::Down => false,
    }
}

// Whether both are so or neither is.
fn same(a: bool, b: bool) -> bool
    ensures { result ≡ alike a b }
{
    if a {
        return b;
    }
    !b
}

// Whether the servers of two boards are up alike.
fn servers_alike(cfg: Config, x: OneBoard, y: OneBoard) -> bool
    requires { Valid cfg }
    ensures { result ≡ servers_alike cfg x.servers y.servers }
{
    for i in 0..cfg.n {
        let one = x.servers[i];
        let other = y.servers[i];
        if !same(one.up, other.up) {
            return false;
        }
    }
    true
}

// Whether the clients are.
fn clients_alike(cfg: Config, x: OneBoard, y: OneBoard) -> bool
    requires { Valid cfg }
    ensures { result ≡ clients_alike cfg x.clients y.clients }
{
    for i in 0..cfg.c {
        let one = x.clients[i];
        let other = y.clients[i];
        let first = one.phase;
        let second = other.phase;
        if !same(is_up(first), is_up(second)) {
            return false;
        }
    }
    true
}

// Whether what the parties of a board keep is within its limits, and they are up as the first board's are. So many records are in flight.
fn board(cfg: Config, m: usize, first: OneBoard, x: OneBoard, count: usize) -> bool
    requires { first_no (rig_questions cfg m) ≡ 0 }
    ensures { result ≡ (one_within cfg m (rig_with (some x) count) && up_alike cfg (rig_with (some x) count) (rig_with (some first) count)) }
{
    let Ok(()) = rig::ask(cfg, m, outcome::one(x, count)) else {
        return false;
    };
    if !servers_alike(cfg, x, first) {
        return false;
    }
    clients_alike(cfg, x, first)
}

// The same of every board.
pub(crate) fn parties(cfg: Config, room: Room, rig: Rig) -> bool
    requires { Accepted cfg room }
    ensures { result ≡ parties_within cfg room rig }
{
    let first = rig.boards[0];
    for i in 0..room.boards {
        if !board(cfg, room.m, first, rig.boards[i], rig.count) {
            return false;
        }
    }
    true
}

// Whether each message's board is one that there is, and the messages are not past the room for them.
pub(crate) fn flight(room: Room, count: usize, owners: &[u8]) -> bool
    requires { (RoomAccepted room) × (count ≤ room.m) × (count ≤ length owners.now) }
    ensures { result ≡ (owners_within room (take count owners.now) && fits_room room (take count owners.now)) }
{
    if !owners::within(count, room.boards, owners) {
        return false;
    }
    count + room::kept_free(room, 0, count, owners) <= room.m
}
