// Events as records of bytes, and their lines: all that the programs board and simulate do between reading a block and writing one. `block` is the
// program board's loop. Its contract says that the calls are those of the records in turn, that a list of events (`Runs`) goes on by them,
// and that the lines are those of its answers. `several::event` is one record of simulate's, which names one of several boards, and its line.
// Every function is proved, nothing is assumed, and no public function has a `requires`.
#![tactic(auto)]

mod answer;
mod event;
pub mod several;
mod text;

ghost use Rattle.std.specs.Prelude.{◌≡◌, ◌+◌, ◌-◌, ◌*◌, ◌≤◌, ◌&&◌, if◌then◌else◌, nat_eq, nat_le, nat_lt};
ghost use Rattle.config.specs.Config.{rig_questions};
ghost use Rattle.config.specs.Lengths.{lengths_of};
ghost use Rattle.config.specs.Questions.{first_no};
ghost use Rattle.events.specs.View.{lent};
ghost use Rattle.lines.specs.Block.{BlockPost, line_room};
ghost use Rattle.record.specs.Record.{little_two};
ghost use Rattle.lines.specs.Event.{event_length};

use config::Config;
use events::{Part, Rig};

// The program's configuration, the most messages that it has in flight, its starting board, and the bytes of a record of it.
pub const PROGRAM: Config = Config {
    n: 3,
    k: 1,
    d: 0,
    e: 1,
    c: 2,
    ranks: [0; 16],
};

pub const PROGRAM_MESSAGES: usize = 64;

pub const PROGRAM_START: [u8; 1] = [0];

pub const PROGRAM_RECORD: usize = 7;

// What running a block leaves: the rig, the count of the next event, how many bytes of the input were taken, and how many of the output
// are in use.
#[derive(Clone, Copy)]
pub struct Ran {
    pub rig: Rig,
    pub count: u64,
    pub taken: usize,
    pub used: usize,
}

// Runs the whole records of an input on a rig, as far as there is room for their lines in the output; `count` is that of the first. The
// rig stays in place: of each event the part that it can touch is taken and put back.
pub fn block(
    cfg: Config,
    m: usize,
    mut rig: Rig,
    mut count: u64,
    input: &[u8],
    output: &mut [u8],
    messages: &mut [u8],
    stores: &mut [u8],
    boards: &mut [u8],
    elements: &mut [u8],
) -> Ran
    ensures { BlockPost cfg m rig (lent messages.old stores.old boards.old elements.old) count input.now output.old result (lent messages.new stores.new boards.new elements.new) output.new }
{
    let v = board_length(cfg, m);
    let size = event::size(v);
    let starts = starts(cfg, m, v, output.len());
    let mut space = [0u8; 1024];
    let read: &mut [u8] = &mut space[..v];
    let mut taken = 0;
    let mut used = 0;
    // Goes on while there is room for a line too, and how far is answered.
    while goes_on(input.len(), taken, size, used, starts) {
        let call = event::called(taken, v, input);
        let places = events::names(cfg, rig.count, call, messages);
        let s = places.server;
        let c = places.client;
        let part = Part::of(places, rig.servers[s], rig.clients[c], rig.count);
        let board = event::board(taken, v, input);
        let change = events::changes(
            cfg, m, part, call, board, read, messages, stores, boards, elements,
        );
        let answer = change.answer;
        let after = change.part;
        let pair = after.pair;
        let node = pair.node;
        let client = pair.client;
        rig.servers[s] = node;
        rig.clients[c] = client;
        rig.count = after.count;
        used = answer::line(count, answer, read, output, used);
        count = std::num::wrapping_add_u64(count, 1);
        taken += size;
    }
    Ran {
        rig,
        count,
        taken,
        used,
    }
}

// The bytes of an event's record; 6 where the configuration is refused.
pub fn event_length(cfg: Config, m: usize) -> usize
    ensures { result ≡ event_length (lengths_of cfg m).board }
{
    event::size(board_length(cfg, m))
}

// The bytes of a board; 0 where the configuration is refused.
fn board_length(cfg: Config, m: usize) -> usize
    ensures { result ≡ (lengths_of cfg m).board }
{
    let long = cfg.lengths(m);
    long.board
}

// In how many places of an output, from its front on, a line may begin: none where the configuration or M is refused.
fn starts(cfg: Config, m: usize, v: usize, long: usize) -> usize
    ensures { result ≡ (if nat_eq (first_no (rig_questions cfg m)) 0 then long + 1 - line_room v else 0) }
{
    let Ok(()) = cfg.ask_rig(m) else {
        return 0;
    };
    if long < 84 {
        return 0;
    }
    let room = long - 84;
    if room / 2 < v {
        return 0;
    }
    room - 2 * v + 1
}

// Whether a whole record is left, and room for a line.
fn goes_on(long: usize, taken: usize, size: usize, used: usize, starts: usize) -> bool
    requires { taken ≤ long }
    ensures { result ≡ (nat_le size (long - taken) && nat_lt used starts) }
{
    size <= long - taken && used < starts
}

// A number of two bytes, the low one first.
pub fn little(low: u8, high: u8) -> usize
    ensures { result ≡ little_two low high }
{
    low as usize + 256 * high as usize
}
