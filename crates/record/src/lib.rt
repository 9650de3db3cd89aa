// The message record, 80 bytes: reading, writing, and the test whether a record is well formed. The element stays in the
// record, at 16: a header says whether one is present. Every function is proved, nothing is assumed, and no public function
// has a `requires`.
#![tactic(auto)]

pub mod layout;
mod rules;

ghost use Rattle.std.specs.Prelude.{true, ◌≡◌};
ghost use Rattle.record.specs.Calls.{ReadPost, WritePost, with_element};
ghost use Rattle.record.specs.Kinds.{is_for_server};
ghost use Rattle.record.specs.inner.Parse.{ParsePost, RecordPre};
ghost use Rattle.record.specs.Record.{kind_number, kind_of, length_fits, record_of};

use config::{Client, Config, RECORD, Refusal, Server};
use tag::Tag;

// The nine kinds of message, in the documents' order: their numbers are 1 to 9. The ninth tells a reader that the element was cleared.
#[derive(Clone, Copy, PartialEq, Eq, Debug)]
pub enum Kind {
    Query,
    QueryAnswer,
    PreWrite,
    PreWriteAnswer,
    WriteFinalise,
    WriteFinaliseAnswer,
    ReadFinalise,
    ReadFinaliseAnswer,
    Cleared,
}

// What a record says besides the element's bytes. The length is that of the board which the element is of, 0 where none is present.
#[derive(Clone, Copy, PartialEq, Eq, Debug)]
pub struct Header {
    pub kind: Kind,
    pub client: Client,
    pub server: Server,
    pub operation: u32,
    pub tag: Tag,
    pub present: bool,
    pub length: u16,
}

impl Kind {
    // The number of a kind.
    pub fn number(self) -> u8
        ensures { result ≡ kind_number self }
    {
        match self {
            Kind::Query => 1,
            Kind::QueryAnswer => 2,
            Kind::PreWrite => 3,
            Kind::PreWriteAnswer => 4,
            Kind::WriteFinalise => 5,
            Kind::WriteFinaliseAnswer => 6,
            Kind::ReadFinalise => 7,
            Kind::ReadFinaliseAnswer => 8,
            Kind::Cleared => 9,
        }
    }

    // Whether a server receives it; a client receives the other kinds.
    pub fn is_for_server(self) -> bool
        ensures { result ≡ is_for_server self }
    {
        match self {
            Kind::Query => true,
            Kind::QueryAnswer => false,
            Kind::PreWrite => true,
            Kind::PreWriteAnswer => false,
            Kind::WriteFinalise => true,
            Kind::WriteFinaliseAnswer => false,
            Kind::ReadFinalise => true,
            Kind::ReadFinaliseAnswer => false,
            Kind::Cleared => false,
        }
    }

    // The kind of a number; one that is no kind's is taken for 9.
    pub fn of(number: u8) -> Kind
        ensures { result ≡ kind_of number }
    {
        match number {
            1 => Kind::Query,
            2 => Kind::QueryAnswer,
            3 => Kind::PreWrite,
            4 => Kind::PreWriteAnswer,
            5 => Kind::WriteFinalise,
            6 => Kind::WriteFinaliseAnswer,
            7 => Kind::ReadFinalise,
            8 => Kind::ReadFinaliseAnswer,
            _ => Kind::Cleared,
        }
    }
}

// The message of a record: questions 1 to 5, 21, 6 and 12. Its element, if one is present, is the E bytes at 16.
pub fn read(cfg: Config, buf: &[u8]) -> Result<Header, Refusal>
    ensures { ReadPost cfg buf.now result }
{
    cfg.ask()?;
    if buf.len() == RECORD {
        return parse(cfg, buf);
    }
    Err(Refusal::Shape)
}

// The header of a record of 80 bytes, or 12.
fn parse(cfg: Config, buf: &[u8]) -> Result<Header, Refusal>
    requires { RecordPre cfg buf.now }
    ensures { ParsePost cfg buf.now result }
{
    if !layout::laid_out(cfg, buf) {
        return Err(Refusal::IllFormed);
    }
    let Ok(client) = Client::new(cfg, buf[1]) else {
        return Err(Refusal::IllFormed);
    };
    let Ok(server) = Server::new(cfg, buf[2]) else {
        return Err(Refusal::IllFormed);
    };
    let kind = Kind::of(buf[0]);
    let present = buf[3] == 1;
    let operation = layout::number_at(4, buf);
    let number = layout::number_at(8, buf);
    let tag = Tag {
        number,
        client: buf[12],
    };
    if !tag.allowed(cfg.c) {
        return Err(Refusal::IllFormed);
    }
    let length = layout::length(buf[13], buf[14]);
    if !rules::length_fits(cfg, present, length) {
        return Err(Refusal::IllFormed);
    }
    let h = Header {
        kind,
        client,
        server,
        operation,
        tag,
        present,
        length,
    };
    if !rules::sound(h) {
        return Err(Refusal::IllFormed);
    }
    Ok(h)
}

// The record of a message: questions 1 to 5 and 21; 6, the buffer's length; 12, a header that breaks a rule of the record. Where an
// element is present, the E bytes at 16 are it and stay; all past it is made zero. On a refusal the record holds what it held.
pub fn write(cfg: Config, h: Header, buf: &mut [u8]) -> Result<(), Refusal>
    ensures { WritePost cfg h buf.old buf.new result }
{
    cfg.ask()?;
    if buf.len() != RECORD {
        return Err(Refusal::Shape);
    }
    if !rules::limits(cfg, h) {
        return Err(Refusal::IllFormed);
    }
    if !rules::sound(h) {
        return Err(Refusal::IllFormed);
    }
    if !rules::length_fits(cfg, h.present, h.length) {
        return Err(Refusal::IllFormed);
    }
    put(cfg, h, buf);
    Ok(())
}

// Writes the first 16 bytes, and zeros past the element.
fn put(cfg: Config, h: Header, buf: &mut [u8])
    requires { (RecordPre cfg buf.old) × (length_fits cfg h.present h.length ≡ true) }
    ensures { buf.new ≡ record_of cfg (with_element cfg h buf.old) }
{
    let kind = h.kind;
    let client = h.client;
    let server = h.server;
    let tag = h.tag;
    let k = kind.number();
    let c = client.number();
    let s = server.number();
    let p = layout::flag(h.present);
    let o = layout::four_bytes(h.operation);
    let t = layout::four_bytes(tag.number);
    let n = h.length;
    let head = [
        k,
        c,
        s,
        p,
        o[0],
        o[1],
        o[2],
        o[3],
        t[0],
        t[1],
        t[2],
        t[3],
        tag.client,
        (n % 256) as u8,
        (n / 256) as u8,
        0,
    ];
    copies::copy(&head, buf);
    let end = layout::element_end(cfg, h.present);
    buf[end..].fill(0);
}
