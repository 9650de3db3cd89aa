// A load that can be quoted (document 02, L3): event records for the program, drawn from a seed. `make` makes a stated count of them; `begin`
// and `records` make them some at a time, so that a bounded buffer is enough for any count. Every function is proved, nothing is assumed, and no
// public function has a `requires`.
#![tactic(auto)]

mod draw;
mod form;
mod step;

ghost use Rattle.std.specs.Prelude.{◌&&◌, ◌≡◌, eqb};
ghost use Rattle.config.specs.Config.{board_length};
ghost use Rattle.events.specs.Questions.{lent_sized, rig_within};
ghost use Rattle.events.specs.View.{lent};
ghost use Rattle.lines.specs.Program.{program, program_messages};
ghost use Rattle.maker.specs.Calls.{BeginPost, MakePost, RecordsPost, bytes_for};

use config::Refusal;
use draws::Generator;
use events::{Rig, Sizes};
use lines::{PROGRAM, PROGRAM_MESSAGES, PROGRAM_RECORD, PROGRAM_START};

// What the next record goes by: the generator, and the program's rig after the records made so far. Beside it the rig's four buffers are lent.
#[derive(Clone, Copy)]
pub struct Load {
    pub generator: Generator,
    pub rig: Rig,
}

// What a call leaves. The load stands beside the verdict: `RecordsPost` and `BeginPost` say of a refusal too which it is.
#[derive(Clone, Copy)]
pub struct Loaded {
    pub verdict: Result<(), Refusal>,
    pub load: Load,
}

// A load that begins with the program's fresh rig: question 6 of the buffers (messages 5,120 bytes, stores 3, boards 2, elements 6). On a refusal
// the rig is of no use.
pub fn begin(
    generator: Generator,
    messages: &mut [u8],
    stores: &mut [u8],
    boards: &mut [u8],
    elements: &mut [u8],
) -> Loaded
    ensures { BeginPost generator (lent messages.old stores.old boards.old elements.old) result (lent messages.new stores.new boards.new elements.new) }
{
    let made = rig::make(
        PROGRAM,
        PROGRAM_MESSAGES,
        &PROGRAM_START,
        messages,
        stores,
        boards,
        elements,
    );
    let verdict = made.verdict;
    let rig = made.rig;
    let load = Load { generator, rig };
    Loaded { verdict, load }
}

// The next records, as many as stated: question 6 of the bytes lent for them, 7 for each, of the buffers and of the rig.
pub fn records(
    load: Load,
    count: usize,
    out: &mut [u8],
    messages: &mut [u8],
    stores: &mut [u8],
    boards: &mut [u8],
    elements: &mut [u8],
) -> Loaded
    ensures { RecordsPost load count out.old (lent messages.old stores.old boards.old elements.old) result out.new (lent messages.new stores.new boards.new elements.new) }
{
    let sizes = Sizes {
        messages: messages.len(),
        stores: stores.len(),
        boards: boards.len(),
        elements: elements.len(),
    };
    if !fits(load.rig, count, out.len(), sizes) {
        return Loaded {
            verdict: Err(Refusal::Shape),
            load,
        };
    }
    let load = step::all(load, count, out, messages, stores, boards, elements);
    Loaded {
        verdict: Ok(()),
        load,
    }
}

// Question 6 of a rig, of the bytes lent for so many records and of the buffers lent to the rig.
fn fits(rig: Rig, count: usize, long: usize, sizes: Sizes) -> bool
    ensures { result ≡ (eqb long (bytes_for count) && lent_sized program program_messages (board_length program) sizes && rig_within program program_messages rig) }
{
    if !whole(count, long) {
        return false;
    }
    let Ok(()) = events::ask(PROGRAM, PROGRAM_MESSAGES, 1, sizes) else {
        return false;
    };
    rig::ask(PROGRAM, PROGRAM_MESSAGES, rig).is_ok()
}

// Whether there are 7 bytes for each of so many records.
fn whole(count: usize, long: usize) -> bool
    ensures { result ≡ eqb long (bytes_for count) }
{
    long % PROGRAM_RECORD == 0 && long / PROGRAM_RECORD == count
}

// The records of a count and a seed: questions 20, and 6 of the bytes lent, 7 for each. Each call starts anew.
pub fn make(seed: u32, count: usize, out: &mut [u8]) -> Result<(), Refusal>
    ensures { MakePost seed count out.old result out.new }
{
    let Ok(generator) = Generator::new(seed) else {
        return Err(Refusal::Seed);
    };
    let mut messages = [0u8; 5120];
    let mut stores = [0u8; 3];
    let mut boards = [0u8; 2];
    let mut elements = [0u8; 6];
    // These have the program's lengths, so nothing is refused.
    let begun = begin(
        generator,
        &mut messages,
        &mut stores,
        &mut boards,
        &mut elements,
    );
    let made = records(
        begun.load,
        count,
        out,
        &mut messages,
        &mut stores,
        &mut boards,
        &mut elements,
    );
    made.verdict
}
