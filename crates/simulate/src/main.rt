// Several boards over the same servers and clients, for any configuration. Standard input begins with N, k, D, E and C, a byte each, M, 2 bytes, the
// ranks of clients 1 to C, a byte each, the number of boards, a byte, the share of each board, 2 bytes, and the starting boards, V bytes each;
// then come the events, in records of 7 + V bytes: code, party, position (2 bytes), the number of the board, board, length (2 bytes). A making
// that is refused has the line of count 0, and so has a head of which a part is cut short.
#![tactic(auto)]

use config::{Config, Room};
use std::io::Stdin;

fn main(rt: HostRuntime) {
    let mut header = [0u8; 7];
    if io::read_full(0, &mut header) < 7 {
        stream::short();
        return;
    }
    let cfg = configured(header[0], header[1], header[2], header[3], header[4]);
    begin(rt.stdin(), cfg, lines::little(header[5], header[6]));
}

// The configuration of the header's first five bytes, before the ranks are read.
fn configured(n: u8, k: u8, d: u8, e: u8, c: u8) -> Config {
    Config {
        n: n as usize,
        k: k as usize,
        d: d as usize,
        e: e as usize,
        c: c as usize,
        ranks: [0; 16],
    }
}

// Questions 1 to 5 come before the ranks are read.
fn begin(stdin: Stdin, mut cfg: Config, m: usize) {
    if let Err(why) = cfg.ask_rig(m) {
        stream::refused(why.number());
        return;
    }
    let mut ranks = [0u8; 16];
    let c = cfg.c;
    if io::read_full(0, &mut ranks[..c]) < c {
        stream::short();
        return;
    }
    cfg.ranks = ranks;
    several(stdin, cfg, m);
}

// Question 21 comes before the number of boards is read.
fn several(stdin: Stdin, cfg: Config, m: usize) {
    if let Err(why) = cfg.ask_rig(m) {
        stream::refused(why.number());
        return;
    }
    let mut number = [0u8; 1];
    if io::read_full(0, &mut number) < 1 {
        stream::short();
        return;
    }
    share(stdin, cfg, counted(m, number[0]));
}

// The room of a number of boards, before the shares are read.
fn counted(m: usize, boards: u8) -> Room {
    Room {
        m,
        boards: boards as usize,
        shares: [0; 8],
    }
}

// Question 22 of the number of boards comes before the shares are read.
fn share(stdin: Stdin, cfg: Config, mut room: Room) {
    if let Err(why) = cfg.ask_room(room) {
        stream::refused(why.number());
        return;
    }
    let mut bytes = [0u8; 16];
    let long = 2 * room.boards;
    if io::read_full(0, &mut bytes[..long]) < long {
        stream::short();
        return;
    }
    let each = shares(bytes);
    room.shares = each;
    start(stdin, cfg, room);
}

// The shares of their bytes, 2 each.
fn shares(bytes: [u8; 16]) -> [usize; 8] {
    let mut all = [0; 8];
    for i in 0..8 {
        all[i] = lines::little(bytes[2 * i], bytes[2 * i + 1]);
    }
    all
}

// Question 22 of the shares comes before the starting boards are looked at.
fn start(stdin: Stdin, cfg: Config, room: Room) {
    if let Err(why) = cfg.ask_room(room) {
        stream::refused(why.number());
        return;
    }
    let mut boards = [0u8; 8192];
    let v = cfg.k * cfg.e;
    let long = room.boards * v;
    play(stdin, cfg, room, &mut boards[..long]);
}

// Reads the starting boards into a buffer of their length, and runs the events.
fn play(stdin: Stdin, cfg: Config, room: Room, boards: &mut [u8]) {
    if io::read_full(0, boards) < boards.len() {
        stream::short();
        return;
    }
    stream::several::run(stdin, cfg, room, boards);
}
