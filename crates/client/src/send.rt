// What a client sends: a message to each server, as a record.
ghost use Rattle.std.specs.Prelude.{◌≡◌, length};
ghost use Rattle.record.specs.Record.{record_of};
ghost use Rattle.protocol.specs.Boards.{cut};
ghost use Rattle.client.specs.Send.{records_of};
ghost use Rattle.client.specs.inner.Send.{AddressPre, AnnouncePost, AnnouncePre, ToEachPre, ToOnePre, addressed, broadcast, broadcast_of, filled, message_to, opening_of};

use super::outcome::accepted;
use super::{Ended, Moved, Phase, State, zeros};
use config::{Client, Config, MOST_SERVERS, MOST_WIDTH, RECORD, Server};
use record::{Header, Kind};
use tag::Tag;

// What goes to each server alike, whether each gets its element of a board, and that board's length.
#[derive(Clone, Copy)]
pub(crate) struct Broadcast {
    pub kind: Kind,
    pub me: Client,
    pub operation: u32,
    pub tag: Tag,
    pub element: bool,
    pub length: u16,
}

// A phase begins: its messages go to the servers. Pre-writes are of the board with zeros past its length.
pub(crate) fn announce(cfg: Config, x: State, board: &[u8], sends: &mut [u8]) -> Moved
    requires { AnnouncePre cfg x board.now sends.old }
    ensures { AnnouncePost cfg x board.now sends.old sends.new result }
{
    let b = opening(x);
    if !b.element {
        to_each(cfg, b, board, sends);
        return accepted(x, cfg.n, Ended::Nothing);
    }
    let mut whole = [0u8; MOST_SERVERS * MOST_WIDTH];
    let v = board.len();
    cut_to_each(cfg, b, board, &mut whole[..v], sends);
    accepted(x, cfg.n, Ended::Nothing)
}

// The message that a phase begins with; asking begins with a query. Idle and down begin with none: what is given for them is not sent.
fn opening(x: State) -> Broadcast
    ensures { result ≡ opening_of x x.phase }
{
    let start = Tag {
        number: 0,
        client: 0,
    };
    let phase = x.phase;
    match phase {
        Phase::PreWriting { tag, counted: _ } => message(x, Kind::PreWrite, tag, true, x.length),
        Phase::FinalisingWrite { tag, counted: _ } => message(
            x,
            Kind::WriteFinalise,
            tag,
            false,
            0,
        ),
        Phase::FinalisingRead {
            tag,
            counted: _,
            sent: _,
        } => message(x, Kind::ReadFinalise, tag, false, 0),
        _ => message(x, Kind::Query, start, false, 0),
    }
}

fn message(x: State, kind: Kind, tag: Tag, element: bool, length: u16) -> Broadcast
    ensures { result ≡ broadcast_of x kind tag element length }
{
    let me = x.me;
    Broadcast {
        kind,
        me,
        operation: x.operation,
        tag,
        element,
        length,
    }
}

// Sends each server its element of the board with zeros past its length, which is put into a lent buffer.
fn cut_to_each(cfg: Config, b: Broadcast, board: &[u8], whole: &mut [u8], sends: &mut [u8])
    requires { (ToEachPre cfg b board.now sends.old) × (length whole.old ≡ length board.now) }
    ensures { sends.new ≡ records_of cfg (broadcast cfg b (cut b.length board.now)) }
{
    copies::copy(board, whole);
    zeros::cut(b.length, whole);
    to_each(cfg, b, whole, sends);
}

// Sends a message to each server, 1 to N, in that order.
fn to_each(cfg: Config, b: Broadcast, board: &[u8], sends: &mut [u8])
    requires { ToEachPre cfg b board.now sends.old }
    ensures { sends.new ≡ records_of cfg (broadcast cfg b board.now) }
{
    for i in 0..cfg.n {
        let at = RECORD * i;
        let end = at + RECORD;
        to_one(cfg, b, (i + 1) as u8, board, &mut sends[at..end]);
    }
}

// Writes the record of a message to server s.
fn to_one(cfg: Config, b: Broadcast, s: u8, board: &[u8], buffer: &mut [u8])
    requires { ToOnePre cfg b s board.now buffer.old }
    ensures { buffer.new ≡ record_of cfg (message_to cfg b board.now s) }
{
    fill(cfg, b, s, board, buffer);
    address(cfg, b, s, buffer);
}

// Encodes the element of server s, if the message has one, where it stands in its record.
fn fill(cfg: Config, b: Broadcast, s: u8, board: &[u8], buffer: &mut [u8])
    requires { ToOnePre cfg b s board.now buffer.old }
    ensures { buffer.new ≡ filled cfg b.element s board.now buffer.old }
{
    if !b.element {
        return;
    }
    let end = 16 + cfg.e;
    let _ = code::encode(cfg, board, s, &mut buffer[16..end]);
}

// Writes the record of a message to server s, all but the element.
fn address(cfg: Config, b: Broadcast, s: u8, buffer: &mut [u8])
    requires { AddressPre cfg b s buffer.old }
    ensures { buffer.new ≡ record_of cfg (addressed cfg b s buffer.old) }
{
    let Ok(server) = Server::new(cfg, s) else {
        return;
    };
    let kind = b.kind;
    let client = b.me;
    let tag = b.tag;
    let h = Header {
        kind,
        client,
        server,
        operation: b.operation,
        tag,
        present: b.element,
        length: b.length,
    };
    let _ = record::write(cfg, h, buffer);
}
