// A fresh rig of several boards.
ghost use Rattle.std.specs.Prelude.{◌≡◌};
ghost use Rattle.events.specs.View.{lent as one_lent};
ghost use Rattle.boards.specs.Calls.{least_rig};
ghost use Rattle.boards.specs.inner.Fresh.{FreshPost, FreshPre, OneFreshPost, OneFreshPre};

use crate::{OneBoard, Rig, outcome};
use config::{Config, LEAST, Room};

// Server 1 and client 1 of the least configuration in every place of every board: what a refused making of one board gives.
pub(crate) fn least() -> Rig
    ensures { result ≡ least_rig }
{
    let start = [0u8; 1];
    let mut messages = [0u8; 1];
    let mut stores = [0u8; 1];
    let mut boards = [0u8; 1];
    let mut elements = [0u8; 1];
    let made = rig::make(
        LEAST,
        0,
        &start,
        &mut messages,
        &mut stores,
        &mut boards,
        &mut elements,
    );
    let one = made.rig;
    let servers = one.servers;
    let clients = one.clients;
    let board = OneBoard { servers, clients };
    Rig {
        boards: [board; 8],
        count: 0,
    }
}

// The fresh rig of one board, in the parts of the buffers that are the board's in a place.
fn one(
    cfg: Config,
    room: Room,
    i: usize,
    start: &[u8],
    messages: &mut [u8],
    stores: &mut [u8],
    boards: &mut [u8],
    elements: &mut [u8],
) -> events::Rig
    requires { OneFreshPre cfg room i start.now (one_lent messages.old stores.old boards.old elements.old) }
    ensures { OneFreshPost cfg room i start.now (one_lent messages.old stores.old boards.old elements.old) result (one_lent messages.new stores.new boards.new elements.new) }
{
    let v = cfg.k * cfg.e;
    let at = i * v;
    let to = at + v;
    let store = cfg.n * ((cfg.d + 1) * cfg.e);
    let from_store = i * store;
    let to_store = from_store + store;
    let kept = cfg.c * v;
    let from_kept = i * kept;
    let to_kept = from_kept + kept;
    let received = cfg.c * (cfg.n * cfg.e);
    let from_received = i * received;
    let to_received = from_received + received;
    let made = rig::make(
        cfg,
        room.m,
        &start[at..to],
        messages,
        &mut stores[from_store..to_store],
        &mut boards[from_kept..to_kept],
        &mut elements[from_received..to_received],
    );
    made.rig
}

// A fresh board in each place, with its own starting board.
pub(crate) fn rig(
    cfg: Config,
    room: Room,
    start: &[u8],
    messages: &mut [u8],
    stores: &mut [u8],
    boards: &mut [u8],
    elements: &mut [u8],
) -> Rig
    requires { FreshPre cfg room start.now (one_lent messages.old stores.old boards.old elements.old) }
    ensures { FreshPost cfg room start.now (one_lent messages.old stores.old boards.old elements.old) result (one_lent messages.new stores.new boards.new elements.new) }
{
    let mut rig = least();
    for i in 0..room.boards {
        let x = one(cfg, room, i, start, messages, stores, boards, elements);
        rig = outcome::put(rig, i, x, 0);
    }
    rig
}
