// A rig with the buffers that are lent to it, and an event on it.
ghost use Rattle.std.specs.Prelude.{◌≤◌};

use crate::script::Given;
use config::Config;
use events::{Rig, Turn};
use parties::Answer;

// The buffer lent for a read, and the four buffers lent to a rig. Each has one byte more than its length, so that it can be lent one byte
// too long.
#[derive(Clone, Copy, PartialEq, Eq)]
pub(crate) struct Lent {
    pub read: [u8; 2],
    pub messages: [u8; 5121],
    pub stores: [u8; 4],
    pub boards: [u8; 3],
    pub elements: [u8; 7],
}

// What an event leaves: its answer, the rig and the buffers.
#[derive(Clone, Copy)]
pub(crate) struct Left {
    pub turn: Turn,
    pub lent: Lent,
}

// The event, by `rig::event`.
pub(crate) fn event(rig: Rig, lent: Lent, given: Given) -> Left
    requires { (given.board ≤ 2) × (given.read ≤ 2) × (given.messages ≤ 5121) × (given.stores ≤ 4) × (given.boards ≤ 3) × (given.elements ≤ 7) }
{
    let board_end = given.board;
    let read_end = given.read;
    let messages_end = given.messages;
    let stores_end = given.stores;
    let boards_end = given.boards;
    let elements_end = given.elements;
    let board = [given.byte; 2];
    let mut read = lent.read;
    let mut messages = lent.messages;
    let mut stores = lent.stores;
    let mut boards = lent.boards;
    let mut elements = lent.elements;
    let turn = rig::event(
        given.cfg,
        given.m,
        rig,
        given.call,
        &board[..board_end],
        &mut read[..read_end],
        &mut messages[..messages_end],
        &mut stores[..stores_end],
        &mut boards[..boards_end],
        &mut elements[..elements_end],
    );
    let lent = Lent {
        read,
        messages,
        stores,
        boards,
        elements,
    };
    Left { turn, lent }
}

// A fresh rig of document 01's program, with buffers that hold something. A making that is refused shows in the first line.
pub(crate) fn make() -> Left {
    let cfg = Config {
        n: 3,
        k: 1,
        d: 0,
        e: 1,
        c: 2,
        ranks: [0; 16],
    };
    let start = [0u8; 1];
    let mut messages = [165u8; 5120];
    let mut stores = [165u8; 3];
    let mut boards = [165u8; 2];
    let mut elements = [165u8; 6];
    let made = rig::make(
        cfg,
        64,
        &start,
        &mut messages,
        &mut stores,
        &mut boards,
        &mut elements,
    );
    let rig = made.rig;
    let turn = Turn {
        answer: Answer::Nothing,
        rig,
    };
    let lent = Lent {
        read: [165u8; 2],
        messages: [165u8; 5121],
        stores: [stores[0], stores[1], stores[2], 165],
        boards: [165u8; 3],
        elements: [165u8; 7],
    };
    Left { turn, lent }
}
