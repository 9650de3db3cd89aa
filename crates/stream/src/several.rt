// Standard input to standard output for several boards, for the program simulate: records are read in blocks, each is run by
// `lines::several::event`, and the lines of a block are written. Proved is that every function is safe and ends, but for reading and writing, whose
// C functions' contracts are assumed, and what `boards` and `lines::several::event` say of each call. That the events are those of the records in
// turn, each on the rig that the one before left, and that their lines are written, is tested.
ghost use Rattle.std.specs.Prelude.{◌≤◌, length};

use super::input;
use config::{Config, Room};
use std::io::Stdin;

// Makes a rig of starting boards and runs the events of standard input on it, one line an event. A making that is refused has the line of
// count 0.
pub fn run(stdin: Stdin, cfg: Config, room: Room, start: &[u8]) {
    let long = boards::lengths(cfg, room);
    let mut messages = io::large_buffer();
    let mut owners = [0u8; 512];
    let mut stores = io::large_buffer();
    let mut boards = [0u8; 131072];
    let mut elements = [0u8; 131072];
    let message_end = long.messages;
    let owner_end = long.owners;
    let store_end = long.stores;
    let board_end = long.boards;
    let element_end = long.elements;
    begin(
        stdin,
        cfg,
        room,
        start,
        &mut messages[..message_end],
        &mut owners[..owner_end],
        &mut stores[..store_end],
        &mut boards[..board_end],
        &mut elements[..element_end],
    );
}

// Makes the rig in buffers of its lengths, and runs the events.
fn begin(
    stdin: Stdin,
    cfg: Config,
    room: Room,
    start: &[u8],
    messages: &mut [u8],
    owners: &mut [u8],
    stores: &mut [u8],
    boards: &mut [u8],
    elements: &mut [u8],
) {
    let made = boards::make(cfg, room, start, messages, owners, stores, boards, elements);
    let verdict = made.verdict;
    if let Err(why) = verdict {
        super::refused(why.number());
        return;
    }
    let rig = made.rig;
    let mut input = io::large_buffer();
    let mut output = io::large_buffer();
    blocks(
        stdin,
        cfg,
        room,
        rig,
        &mut input,
        &mut output,
        messages,
        owners,
        stores,
        boards,
        elements,
    );
}

// Reads blocks, has their records run and writes their lines, till the input ends or a write fails.
fn blocks(
    stdin: Stdin,
    cfg: Config,
    room: Room,
    mut rig: boards::Rig,
    input: &mut [u8],
    output: &mut [u8],
    messages: &mut [u8],
    owners: &mut [u8],
    stores: &mut [u8],
    boards: &mut [u8],
    elements: &mut [u8],
) {
    let size = lines::several::event_length(cfg, room.m);
    let mut count = 1;
    let mut end = 0;
    for _ in 0..u64::MAX {
        end = input::filled(stdin, end, size, input);
        let ran = records(
            cfg,
            room,
            rig,
            count,
            &input[..end],
            output,
            messages,
            owners,
            stores,
            boards,
            elements,
        );
        rig = ran.rig;
        count = ran.count;
        if !super::wrote(end, size, count, ran.used, output) {
            break;
        }
        end = input::kept(ran.taken, end, input);
    }
}

// What the records of a block leave: the rig, the count of the next event, how many bytes of the input were taken, and how many of the output
// are in use.
#[derive(Clone, Copy)]
struct Ran {
    rig: boards::Rig,
    count: u64,
    taken: usize,
    used: usize,
}

// Runs the whole records of an input, as far as there is room for their lines in the output: till one has no line.
fn records(
    cfg: Config,
    room: Room,
    mut rig: boards::Rig,
    mut count: u64,
    input: &[u8],
    output: &mut [u8],
    messages: &mut [u8],
    owners: &mut [u8],
    stores: &mut [u8],
    boards: &mut [u8],
    elements: &mut [u8],
) -> Ran
    ensures { (result.taken ≤ length input.now) × (result.used ≤ length output.old) }
{
    let size = lines::several::event_length(cfg, room.m);
    let mut taken = 0;
    let mut used = 0;
    // Goes on by a record only where that has a line, and how far is answered.
    while taken < input.len() {
        let said = lines::several::event(
            cfg, room, rig, count, taken, input, used, output, messages, owners, stores, boards,
            elements,
        );
        if said.used == used {
            break;
        }
        rig = said.rig;
        used = said.used;
        count = std::num::wrapping_add_u64(count, 1);
        taken += size;
    }
    Ran {
        rig,
        count,
        taken,
        used,
    }
}
