// The records of a load, one at a time.
ghost use Rattle.std.specs.Prelude.{◌≡◌, length};
ghost use Rattle.events.specs.View.{lent};
ghost use Rattle.maker.specs.Calls.{bytes_for};
ghost use Rattle.maker.specs.Steps.{Step, Steps};

use crate::{Load, draw, form};
use lines::{PROGRAM, PROGRAM_MESSAGES, PROGRAM_RECORD};

// Draws a record, hands it to the rig as an event and puts it into its 7 bytes.
pub(crate) fn step(
    load: Load,
    out: &mut [u8],
    messages: &mut [u8],
    stores: &mut [u8],
    boards: &mut [u8],
    elements: &mut [u8],
) -> Load
    requires { length out.old ≡ 7 }
    ensures { Step load (lent messages.old stores.old boards.old elements.old) out.new result (lent messages.new stores.new boards.new elements.new) }
{
    let rig = load.rig;
    let drawn = draw::take(load.generator, rig.count);
    let call = drawn.call;
    let generator = drawn.generator;
    let board = [drawn.byte];
    let mut read = [0u8; 1];
    let turn = rig::event(
        PROGRAM,
        PROGRAM_MESSAGES,
        rig,
        call,
        &board,
        &mut read,
        messages,
        stores,
        boards,
        elements,
    );
    form::put(drawn, out);
    let rig = turn.rig;
    Load { generator, rig }
}

// So many records, one behind the other.
pub(crate) fn all(
    mut load: Load,
    count: usize,
    out: &mut [u8],
    messages: &mut [u8],
    stores: &mut [u8],
    boards: &mut [u8],
    elements: &mut [u8],
) -> Load
    requires { length out.old ≡ bytes_for count }
    ensures { Steps load (lent messages.old stores.old boards.old elements.old) count out.new result (lent messages.new stores.new boards.new elements.new) }
{
    for made in 0..count {
        let at = made * PROGRAM_RECORD;
        let end = at + PROGRAM_RECORD;
        load = step(load, &mut out[at..end], messages, stores, boards, elements);
    }
    load
}
