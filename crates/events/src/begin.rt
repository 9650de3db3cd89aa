// Events 1 and 2: a client begins. What it sends is written behind the messages in flight.
ghost use Rattle.std.specs.Prelude.{◌≡◌, ◌*◌, ◌≤◌, length};
ghost use Rattle.config.specs.Refusal.{verdict_number};
ghost use Rattle.config.specs.Config.{Valid, board_length, most_messages};
ghost use Rattle.events.specs.inner.Begin.{BeginPre, ReadPost, WritePost, asked_no, asked_write_no};

use crate::{Call, Change, Part, outcome};
use config::{Config, RECORD, Refusal};

// Question 8 and, where there is no room, 9 to 11 and 13: the first that is answered no is the refusal.
fn asked(cfg: Config, m: usize, part: Part, party: u8) -> Result<(), Refusal>
    requires { (Valid cfg) × (part.count ≤ most_messages) }
    ensures { verdict_number result ≡ asked_no cfg m part party }
{
    if !cfg.client_exists(party as usize) {
        return Err(Refusal::Missing);
    }
    if part.count + cfg.n <= m {
        return Ok(());
    }
    client::ask_begin(cfg, part.pair.client)?;
    Err(Refusal::Full)
}

// Question 19, and then those.
fn write_asked(cfg: Config, m: usize, part: Part, call: Call) -> Result<(), Refusal>
    requires { (Valid cfg) × (part.count ≤ most_messages) }
    ensures { verdict_number result ≡ asked_write_no cfg m part call }
{
    if cfg.k * cfg.e < call.length as usize {
        return Err(Refusal::Length);
    }
    asked(cfg, m, part, call.party)
}

// Event 1: "begin write (client, V bytes)", with a length. Questions 19, 8 to 11, and 13.
pub(crate) fn write(
    cfg: Config,
    m: usize,
    part: Part,
    call: Call,
    board: &[u8],
    messages: &mut [u8],
    boards: &mut [u8],
) -> Change
    requires { (BeginPre cfg m part messages.old) × (length boards.old ≡ cfg.c * board_length cfg) }
    ensures { WritePost cfg m part call board.now messages.old boards.old result messages.new boards.new }
{
    if let Err(why) = write_asked(cfg, m, part, call) {
        return outcome::refused(part, why);
    }
    let count = part.count;
    let from = RECORD * count;
    let end = from + RECORD * cfg.n;
    let long = cfg.k * cfg.e;
    let at = part.client * long;
    let to = at + long;
    let acted = parties::begin::write(
        cfg,
        part.pair,
        call.length,
        board,
        &mut boards[at..to],
        &mut messages[from..end],
    );
    outcome::acted(part, acted, count + acted.sent)
}

// Event 2: "begin read (client)". Questions 8 to 11, and 13.
pub(crate) fn read(cfg: Config, m: usize, part: Part, call: Call, messages: &mut [u8]) -> Change
    requires { BeginPre cfg m part messages.old }
    ensures { ReadPost cfg m part call messages.old result messages.new }
{
    if let Err(why) = asked(cfg, m, part, call.party) {
        return outcome::refused(part, why);
    }
    let count = part.count;
    let from = RECORD * count;
    let end = from + RECORD * cfg.n;
    let acted = parties::begin::read(cfg, part.pair, &mut messages[from..end]);
    outcome::acted(part, acted, count + acted.sent)
}
