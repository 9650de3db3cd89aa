// An answer judged, and counted unless it is of kind 9: the first half of a client's step.
ghost use Rattle.std.specs.Prelude.{◌≡◌, ◌&&◌, ◌<◌};
ghost use Rattle.config.specs.Config.{Valid};
ghost use Rattle.config.specs.Number.{server_number};
ghost use Rattle.protocol.specs.Client.{judged as judged_as};
ghost use Rattle.protocol.specs.Tags.{higher as higher_of};
ghost use Rattle.tag.specs.Tag.{key, same};
ghost use Rattle.client.specs.inner.Count.{awaits_of, count_of, counting_of, first_of};

use super::{Phase, State, servers};
use config::Config;
use record::{Header, Kind};
use tag::Tag;

// How an awaited answer is taken.
#[derive(Clone, Copy)]
pub(crate) enum Taken {
    // It tells that the element was cleared, and is not counted.
    Cleared,
    // The phase with the answer counted.
    Counted(Phase),
}

// How an answer is taken, if the client awaits it.
pub(crate) fn count(cfg: Config, x: State, h: Header) -> Option<Taken>
    requires { (Valid cfg) × (server_number h.server < 32) }
    ensures { result ≡ count_of cfg x h }
{
    if h.operation != x.operation {
        return None;
    }
    let phase = x.phase;
    if !awaits(phase, h) {
        return None;
    }
    let kind = h.kind;
    if kind.number() == 9 {
        return Some(Taken::Cleared);
    }
    Some(Taken::Counted(counting(cfg, phase, h)))
}

// Whether a phase awaits an answer: judged as of its kind, of a server not counted yet and, for kinds 4, 6 and 8, of its tag.
fn awaits(phase: Phase, h: Header) -> bool
    requires { server_number h.server < 32 }
    ensures { result ≡ awaits_of phase h }
{
    match phase {
        Phase::Asking {
            writes: _,
            best: _,
            counted,
        } => first(2, counted, h),
        Phase::PreWriting { tag, counted } => first_of_tag(4, counted, tag, h),
        Phase::FinalisingWrite { tag, counted } => first_of_tag(6, counted, tag, h),
        Phase::FinalisingRead {
            tag,
            counted,
            sent: _,
        } => first_of_tag(8, counted, tag, h),
        _ => false,
    }
}

// The number as which an answer's kind is judged: 9 is judged as 8.
fn judged(kind: Kind) -> u8
    ensures { result ≡ judged_as kind }
{
    let number = kind.number();
    if number == 9 {
        return 8;
    }
    number
}

// Whether the answer is judged as of a kind, and the first of its server.
fn first(kind: u8, counted: u32, h: Header) -> bool
    requires { server_number h.server < 32 }
    ensures { result ≡ first_of kind counted h }
{
    let k = h.kind;
    if judged(k) != kind {
        return false;
    }
    let server = h.server;
    !servers::has(counted, server.number())
}

// The same, and whether it is of the tag.
fn first_of_tag(kind: u8, counted: u32, tag: Tag, h: Header) -> bool
    requires { server_number h.server < 32 }
    ensures { result ≡ (first_of kind counted h && same h.tag tag) }
{
    if !first(kind, counted, h) {
        return false;
    }
    let t = h.tag;
    t.same(tag)
}

// The phase with the answer counted: the highest tag is kept while asking, whether the server sent an element while finalising a read.
fn counting(cfg: Config, phase: Phase, h: Header) -> Phase
    requires { (Valid cfg) × (server_number h.server < 32) }
    ensures { result ≡ counting_of cfg phase h }
{
    let server = h.server;
    let s = server.number();
    match phase {
        Phase::Asking {
            writes,
            best,
            counted,
        } => {
            let tag = h.tag;
            Phase::Asking {
                writes,
                best: higher(cfg, best, tag),
                counted: servers::put(counted, s, true),
            }
        }
        Phase::PreWriting { tag, counted } => Phase::PreWriting {
            tag,
            counted: servers::put(counted, s, true),
        },
        Phase::FinalisingWrite { tag, counted } => Phase::FinalisingWrite {
            tag,
            counted: servers::put(counted, s, true),
        },
        Phase::FinalisingRead { tag, counted, sent } => Phase::FinalisingRead {
            tag,
            counted: servers::put(counted, s, true),
            sent: servers::put(sent, s, h.present),
        },
        _ => phase,
    }
}

// The higher of two tags.
fn higher(cfg: Config, best: Tag, t: Tag) -> Tag
    requires { Valid cfg }
    ensures { result ≡ higher_of (key cfg) best t }
{
    best.higher(cfg, t)
}
