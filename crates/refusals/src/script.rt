// A line of the script: an event, the configuration and the lengths that it is handed.
ghost use Rattle.std.specs.Prelude.{◌≤◌, ◌<◌};

use config::Config;
use events::Call;

// What an event is handed besides a rig and buffers, and how long each buffer is lent.
#[derive(Clone, Copy)]
pub(crate) struct Given {
    pub cfg: Config,
    pub m: usize,
    pub call: Call,
    pub byte: u8,
    pub board: usize,
    pub read: usize,
    pub messages: usize,
    pub stores: usize,
    pub boards: usize,
    pub elements: usize,
}

// A field: the code of its character less that of 0.
pub(crate) fn field(line: [u8; 96], j: usize) -> u8
    requires { j < 96 }
{
    let c = line[j];
    if c < 48 {
        return 0;
    }
    c - 48
}

// The ranks of clients 1 and 2, and of a third, which there is not.
fn ranks(line: [u8; 96]) -> [u8; 16] {
    let mut all = [0u8; 16];
    all[0] = field(line, 53);
    all[1] = field(line, 54);
    all[2] = field(line, 55);
    all
}

// N, k, D, E and C; M; code, party, position, the board's byte and its length in two bytes, the lowest first; and of the lengths of six
// buffers 0 for one too short, 1 for the right one, 2 for one too long; further on the ranks.
pub(crate) fn handed(line: [u8; 96]) -> Given
    ensures { (result.board ≤ 2) × (result.read ≤ 2) × (result.messages ≤ 5121) × (result.stores ≤ 4) × (result.boards ≤ 3) × (result.elements ≤ 7) }
{
    let cfg = Config {
        n: field(line, 2) as usize,
        k: field(line, 3) as usize,
        d: field(line, 4) as usize,
        e: field(line, 5) as usize,
        c: field(line, 6) as usize,
        ranks: ranks(line),
    };
    let call = Call {
        code: field(line, 10),
        party: field(line, 11),
        position: field(line, 12) as usize,
        length: field(line, 14) as u16 + field(line, 15) as u16 * 256,
    };
    Given {
        cfg,
        m: field(line, 7) as usize * 64 + field(line, 8) as usize,
        call,
        byte: field(line, 13),
        board: field(line, 17) as usize % 3,
        read: field(line, 18) as usize % 3,
        messages: 5119 + field(line, 19) as usize % 3,
        stores: 2 + field(line, 20) as usize % 3,
        boards: 1 + field(line, 21) as usize % 3,
        elements: 5 + field(line, 22) as usize % 3,
    }
}
