// A server's part in each kind of request.
ghost use Rattle.std.specs.Prelude.{◌≡◌, ◌+◌};
ghost use Rattle.config.specs.Config.{Valid};
ghost use Rattle.tag.specs.Tag.{key};
ghost use Rattle.record.specs.Calls.{with_element};
ghost use Rattle.protocol.specs.Server.{at_or_below_floor};
ghost use Rattle.server.specs.Calls.{Steps};
ghost use Rattle.server.specs.inner.Keep.{AppendPost, DropSmallestPost, KeepPre, KeepPost};
ghost use Rattle.server.specs.inner.Places.{Room};
ghost use Rattle.server.specs.inner.Serve.{ReadFinalisePost, ReadFinalisePre, RespondPost, RespondPre, RequestPre, bare_of, raised, reply_of, request_number};
ghost use Rattle.server.specs.View.{floor_of};

use crate::{State, Stepped, places};
use config::{Config, Refusal};
use record::{Header, Kind};
use tag::Tag;

// H becomes the higher of H and the tag.
fn raise(cfg: Config, s: State, t: Tag) -> State
    requires { Valid cfg }
    ensures { result ≡ raised cfg s t }
{
    let me = s.me;
    let h = s.highest;
    let floor = s.floor;
    let tags = s.tags;
    let lengths = s.lengths;
    State {
        me,
        highest: h.higher(cfg, t),
        floor,
        count: s.count,
        tags,
        lengths,
    }
}

// The tag is at or below the floor.
fn at_or_below(cfg: Config, t: Tag, floor: Option<Tag>) -> bool
    requires { Valid cfg }
    ensures { result ≡ at_or_below_floor (key cfg) t (floor_of floor) }
{
    let Some(f) = floor else {
        return false;
    };
    !t.above(cfg, f)
}

// What an answer says besides what it repeats.
#[derive(Clone, Copy)]
pub(crate) struct Reply {
    pub kind: Kind,
    pub tag: Tag,
    pub present: bool,
    pub length: u16,
}

// Without an element.
fn bare(kind: Kind, tag: Tag) -> Reply
    ensures { result ≡ bare_of kind tag }
{
    Reply {
        kind,
        tag,
        present: false,
        length: 0,
    }
}

// Writes an answer: it names the server and repeats client and operation number.
fn respond(cfg: Config, s: State, h: Header, reply: Reply, answer: &mut [u8]) -> Stepped
    requires { RespondPre cfg reply (reply_of cfg s.me h reply answer.old) answer.old }
    ensures { RespondPost cfg s (reply_of cfg s.me h reply answer.old) answer.new result }
{
    let client = h.client;
    let server = s.me;
    let kind = reply.kind;
    let tag = reply.tag;
    let out = Header {
        kind,
        client,
        server,
        operation: h.operation,
        tag,
        present: reply.present,
        length: reply.length,
    };
    let verdict = record::write(cfg, out, answer);
    Stepped { verdict, state: s }
}

// Stores a tag and its element at the first free place, with the length.
fn append(cfg: Config, s: State, t: Tag, length: u16, element: &[u8], store: &mut [u8]) -> State
    requires { Room cfg (s.count + 1) element.now store.old }
    ensures { AppendPost cfg s t length element.now store.old store.new result }
{
    let me = s.me;
    let highest = s.highest;
    let floor = s.floor;
    let count = s.count as usize;
    let mut tags = s.tags;
    let mut lengths = s.lengths;
    places::put(cfg, count, element, store);
    tags[count] = t;
    lengths[count] = length;
    State {
        me,
        highest,
        floor,
        count: s.count + 1,
        tags,
        lengths,
    }
}

// Of the stored tags and this one, the smallest is dropped and becomes the floor; the others are stored.
fn drop_smallest(
    cfg: Config,
    s: State,
    t: Tag,
    length: u16,
    element: &[u8],
    store: &mut [u8],
) -> State
    requires { Room cfg s.count element.now store.old }
    ensures { DropSmallestPost cfg s t length element.now store.old store.new result }
{
    let me = s.me;
    let highest = s.highest;
    let count = s.count as usize;
    let mut tags = s.tags;
    let mut lengths = s.lengths;
    let low = places::lowest(cfg, t, count, tags);
    let smallest = low.tag;
    let place = low.place;
    let floor = Some(smallest);
    if count <= place {
        return State {
            me,
            highest,
            floor,
            count: s.count,
            tags,
            lengths,
        };
    }
    places::put(cfg, place, element, store);
    tags[place] = t;
    lengths[place] = length;
    State {
        me,
        highest,
        floor,
        count: s.count,
        tags,
        lengths,
    }
}

// A pre-write's tag and element, with its length: nothing is stored if the tag is stored or at or below the floor.
fn keep(cfg: Config, s: State, t: Tag, length: u16, element: &[u8], store: &mut [u8]) -> State
    requires { KeepPre cfg s t element.now store.old }
    ensures { KeepPost cfg s t length element.now store.old store.new result }
{
    let count = s.count as usize;
    let tags = s.tags;
    if places::place_of(t, 0, count, tags) < count {
        return s;
    }
    let floor = s.floor;
    if at_or_below(cfg, t, floor) {
        return s;
    }
    if count <= cfg.d {
        return append(cfg, s, t, length, element, store);
    }
    drop_smallest(cfg, s, t, length, element, store)
}

// Read finalise: the stored element of the tag; without one, kind 9 where the tag is at or below the floor, else kind 8.
fn read_finalise(cfg: Config, s: State, h: Header, store: &[u8], answer: &mut [u8]) -> Stepped
    requires { ReadFinalisePre cfg s h store.now answer.old }
    ensures { ReadFinalisePost cfg s h store.now answer.new result }
{
    let t = h.tag;
    let floor = s.floor;
    let count = s.count as usize;
    let tags = s.tags;
    let lengths = s.lengths;
    let after = raise(cfg, s, t);
    let place = places::place_of(t, 0, count, tags);
    if place < count {
        let from = place * cfg.e;
        let end = from + cfg.e;
        copies::copy(&store[from..end], &mut answer[16..]);
        let reply = Reply {
            kind: Kind::ReadFinaliseAnswer,
            tag: t,
            present: true,
            length: lengths[place],
        };
        return respond(cfg, after, h, reply, answer);
    }
    if at_or_below(cfg, t, floor) {
        return respond(cfg, after, h, bare(Kind::Cleared, t), answer);
    }
    respond(cfg, after, h, bare(Kind::ReadFinaliseAnswer, t), answer)
}

// A request of any kind; 16 if it is none that a server receives.
pub(crate) fn request(
    cfg: Config,
    s: State,
    h: Header,
    handed: &[u8],
    store: &mut [u8],
    answer: &mut [u8],
) -> Stepped
    requires { RequestPre cfg s h handed.now store.old answer.old }
    ensures { Steps cfg s (request_number (with_element cfg h handed.now)) (with_element cfg h handed.now) store.old answer.old store.new answer.new result }
{
    let kind = h.kind;
    let t = h.tag;
    match kind {
        Kind::Query => {
            let highest = s.highest;
            respond(cfg, s, h, bare(Kind::QueryAnswer, highest), answer)
        }
        Kind::PreWrite => {
            let end = 16 + cfg.e;
            let after = keep(cfg, s, t, h.length, &handed[16..end], store);
            respond(cfg, after, h, bare(Kind::PreWriteAnswer, t), answer)
        }
        Kind::WriteFinalise => {
            let after = raise(cfg, s, t);
            respond(cfg, after, h, bare(Kind::WriteFinaliseAnswer, t), answer)
        }
        Kind::ReadFinalise => read_finalise(cfg, s, h, store, answer),
        Kind::QueryAnswer => crate::refused(s, Refusal::Misdirected),
        Kind::PreWriteAnswer => crate::refused(s, Refusal::Misdirected),
        Kind::WriteFinaliseAnswer => crate::refused(s, Refusal::Misdirected),
        Kind::ReadFinaliseAnswer => crate::refused(s, Refusal::Misdirected),
        Kind::Cleared => crate::refused(s, Refusal::Misdirected),
    }
}
