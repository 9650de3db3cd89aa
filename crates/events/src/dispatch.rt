// An event by its code, on the part that it can touch.
ghost use Rattle.events.specs.View.{lent};
ghost use Rattle.events.specs.inner.Turn.{OtherPost, OtherPre, TurnPost, TurnPre};

use crate::{Call, Change, Part, begin, crash, deliver, message, outcome, restart};
use config::{Config, Refusal};

// An event of any code but 3, by its own.
fn other(
    cfg: Config,
    m: usize,
    part: Part,
    call: Call,
    board: &[u8],
    messages: &mut [u8],
    boards: &mut [u8],
) -> Change
    requires { OtherPre cfg m part call messages.old boards.old }
    ensures { OtherPost cfg m part call board.now messages.old boards.old result messages.new boards.new }
{
    let code = call.code;
    match code {
        1 => begin::write(cfg, m, part, call, board, messages, boards),
        2 => begin::read(cfg, m, part, call, messages),
        4 => message::lose(part, call, messages),
        5 => message::double(m, part, call, messages),
        6 => crash::server(cfg, part, call),
        7 => crash::client(cfg, part, call),
        8 => restart::server(cfg, part, call),
        _ => outcome::refused(part, Refusal::Event),
    }
}

// Question 7: is the event 1 to 8? The others are the event's.
pub(crate) fn event(
    cfg: Config,
    m: usize,
    part: Part,
    call: Call,
    board: &[u8],
    read: &mut [u8],
    messages: &mut [u8],
    stores: &mut [u8],
    boards: &mut [u8],
    elements: &mut [u8],
) -> Change
    requires { TurnPre cfg m part (lent messages.old stores.old boards.old elements.old) }
    ensures { TurnPost cfg m part call board.now read.old (lent messages.old stores.old boards.old elements.old) result read.new (lent messages.new stores.new boards.new elements.new) }
{
    if call.code == 3 {
        return deliver::hand_over(cfg, m, part, call, read, messages, stores, boards, elements);
    }
    other(cfg, m, part, call, board, messages, boards)
}
