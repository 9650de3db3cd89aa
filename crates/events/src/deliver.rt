// Event 3: a message is handed over.
ghost use Rattle.std.specs.Prelude.{◌*◌, ◌≤◌, length};
ghost use Rattle.config.specs.Config.{record_length};
ghost use Rattle.events.specs.View.{lent};
ghost use Rattle.events.specs.inner.Deliver.{HandOverPost, SettlePost, ToClientPost, ToClientPre, ToServerPost, ToServerPre};
ghost use Rattle.events.specs.inner.Turn.{TurnPre};

use crate::{Call, Change, Part, outcome};
use config::{Config, RECORD, Refusal};
use parties::Acted;
use record::Kind;

// The message at a position leaves the list, and what the parties send is added at the end; a refusal leaves all as it was.
fn settle(part: Part, position: usize, acted: Acted, sends: &[u8], messages: &mut [u8]) -> Change
    requires { record_length * acted.sent ≤ length sends.now }
    ensures { SettlePost part position acted sends.now messages.old result messages.new }
{
    let count = part.count;
    let answer = acted.answer;
    if answer.is_refusal() {
        return outcome::acted(part, acted, count);
    }
    let left = flight::remove(count, position, messages);
    let end = RECORD * acted.sent;
    let more = flight::append(left, &sends[0..end], messages);
    outcome::acted(part, acted, more)
}

// It is for the part's server. Question 12.
fn to_server(
    cfg: Config,
    part: Part,
    call: Call,
    handed: [u8; RECORD],
    messages: &mut [u8],
    stores: &mut [u8],
) -> Change
    requires { ToServerPre cfg part call handed messages.old stores.old }
    ensures { ToServerPost cfg part call messages.old stores.old result messages.new stores.new }
{
    let long = (cfg.d + 1) * cfg.e;
    let at = part.server * long;
    let end = at + long;
    let mut answer = [0u8; RECORD];
    let acted = parties::deliver::server(
        cfg,
        part.pair,
        &handed,
        &mut stores[at..end],
        &mut answer,
    );
    settle(part, call.position, acted, &answer, messages)
}

// It is for the part's client. Questions 12 and 13.
fn to_client(
    cfg: Config,
    m: usize,
    part: Part,
    call: Call,
    handed: [u8; RECORD],
    read: &mut [u8],
    messages: &mut [u8],
    boards: &[u8],
    elements: &mut [u8],
) -> Change
    requires { ToClientPre cfg part call handed messages.old boards.now elements.old }
    ensures { ToClientPost cfg m part call read.old messages.old boards.now elements.old result read.new messages.new elements.new }
{
    let long = cfg.k * cfg.e;
    let at = part.client * long;
    let to = at + long;
    let wide = cfg.n * cfg.e;
    let start = part.client * wide;
    let stop = start + wide;
    let mut sends = [0u8; 1280];
    let end = RECORD * cfg.n;
    let acted = parties::deliver::client(
        cfg,
        part.pair,
        &handed,
        &boards[at..to],
        &mut elements[start..stop],
        &mut sends[0..end],
        read,
    );
    if m < part.count - 1 + acted.sent {
        return outcome::refused(part, Refusal::Full);
    }
    settle(part, call.position, acted, &sends, messages)
}

// Event 3: "hand over the message at a position from 0". Questions 8, 12 and 13.
pub(crate) fn hand_over(
    cfg: Config,
    m: usize,
    part: Part,
    call: Call,
    read: &mut [u8],
    messages: &mut [u8],
    stores: &mut [u8],
    boards: &[u8],
    elements: &mut [u8],
) -> Change
    requires { TurnPre cfg m part (lent messages.old stores.old boards.now elements.old) }
    ensures { HandOverPost cfg m part call read.old (lent messages.old stores.old boards.now elements.old) result read.new (lent messages.new stores.new boards.now elements.new) }
{
    let count = part.count;
    let position = call.position;
    if count <= position {
        return outcome::refused(part, Refusal::Missing);
    }
    let handed = flight::take(count, position, messages);
    let kind = Kind::of(handed[0]);
    if kind.is_for_server() {
        return to_server(cfg, part, call, handed, messages, stores);
    }
    to_client(cfg, m, part, call, handed, read, messages, boards, elements)
}
