// Standard input to standard output, for the program board and, in `several`, for simulate: blocks of records are read and run, for board by
// `lines::block`, and their lines written. Every function is proved to be safe and to end, but for reading and writing, whose C functions' contracts
// are assumed; no public function has a `requires`. Of what is read and written no contract can say anything. What is proved besides, for board: the
// buffers that a run leaves, from a making that is not refused, are those that some list of events leaves (`Runs`), and the bytes behind those that
// a block took are kept for the next. Which events these are, and that their lines are written, is tested.
#![tactic(auto)]

mod input;
pub mod several;

ghost use Rattle.std.specs.Prelude.{◌≡◌, ◌≤◌, length};
ghost use Rattle.config.specs.Config.{Valid, most_messages};
ghost use Rattle.rig.specs.Calls.{make_no};
ghost use Rattle.events.specs.View.{lent};
ghost use Rattle.stream.specs.inner.Went.{RunTo, WentOn};

use config::Config;
use events::Rig;
use std::io::Stdin;

// Makes a rig of a starting board and runs the events of standard input on it, one line an event. A making that is refused has the
// line of count 0.
pub fn run(stdin: Stdin, cfg: Config, m: usize, start: &[u8]) {
    if let Err(why) = cfg.ask_rig(m) {
        refused(why.number());
        return;
    }
    let mut messages = io::large_buffer();
    let mut stores = io::large_buffer();
    let mut boards = io::large_buffer();
    let mut elements = io::large_buffer();
    let long = measured(cfg, m);
    let message_end = long.messages;
    let store_end = long.stores;
    let board_end = long.boards;
    let element_end = long.elements;
    begin(
        stdin,
        cfg,
        m,
        start,
        &mut messages[..message_end],
        &mut stores[..store_end],
        &mut boards[..board_end],
        &mut elements[..element_end],
    );
}

// The lengths of the buffers lent to a rig.
#[derive(Clone, Copy)]
struct Lengths {
    messages: usize,
    stores: usize,
    boards: usize,
    elements: usize,
}

fn measured(cfg: Config, m: usize) -> Lengths
    requires { Valid cfg × (m ≤ most_messages) }
    ensures { (result.messages ≤ 40960) × (result.stores ≤ 8192) × (result.boards ≤ 16384) × (result.elements ≤ 16384) }
{
    let long = cfg.lengths(m);
    Lengths {
        messages: long.messages,
        stores: cfg.n * long.store,
        boards: cfg.c * long.board,
        elements: cfg.c * long.elements,
    }
}

// The line of a head of which a part is cut short.
pub fn short() {
    io::write_all(1, b"0 short\n");
}

// The line of a making that is refused, by its number.
pub fn refused(no: u8) {
    io::write_all(1, b"0 no ");
    io::print_decimal(1, no as u64);
    io::write_all(1, b"\n");
}

// Makes the rig in buffers of its lengths, and runs the events.
fn begin(
    stdin: Stdin,
    cfg: Config,
    m: usize,
    start: &[u8],
    messages: &mut [u8],
    stores: &mut [u8],
    boards: &mut [u8],
    elements: &mut [u8],
)
    ensures { make_no cfg m start.now (lent messages.old stores.old boards.old elements.old) ≡ 0 → RunTo cfg m start.now (lent messages.new stores.new boards.new elements.new) }
{
    let made = rig::make(cfg, m, start, messages, stores, boards, elements);
    let verdict = made.verdict;
    if let Err(why) = verdict {
        refused(why.number());
        return;
    }
    let rig = made.rig;
    let mut input = io::large_buffer();
    let mut output = io::large_buffer();
    blocks(
        stdin,
        cfg,
        m,
        rig,
        &mut input,
        &mut output,
        messages,
        stores,
        boards,
        elements,
    );
}

// Reads blocks, has their records run and writes their lines, till the input ends or a write fails. Answers the count of the next event.
fn blocks(
    stdin: Stdin,
    cfg: Config,
    m: usize,
    mut rig: Rig,
    input: &mut [u8],
    output: &mut [u8],
    messages: &mut [u8],
    stores: &mut [u8],
    boards: &mut [u8],
    elements: &mut [u8],
) -> u64
    ensures { WentOn cfg m rig (lent messages.old stores.old boards.old elements.old) result (lent messages.new stores.new boards.new elements.new) }
{
    let size = lines::event_length(cfg, m);
    let mut count = 1;
    let mut end = 0;
    for _ in 0..u64::MAX {
        end = input::filled(stdin, end, size, input);
        let ran = lines::block(
            cfg,
            m,
            rig,
            count,
            &input[..end],
            output,
            messages,
            stores,
            boards,
            elements,
        );
        rig = ran.rig;
        count = ran.count;
        if !wrote(end, size, count, ran.used, output) {
            break;
        }
        end = input::kept(ran.taken, end, input);
    }
    count
}

// Writes the lines of a block and answers whether it goes on: not where a write fails, nor where the input has ended, with a line for a
// record that is cut short.
fn wrote(end: usize, size: usize, count: u64, used: usize, output: &[u8]) -> bool
    requires { used ≤ length output.now }
{
    if size <= end {
        return io::write_all(1, &output[..used]);
    }
    if end != 0 {
        io::print_decimal(1, count);
        io::write_all(1, b" short\n");
    }
    false
}
