// What the section asks of a header.
ghost use Rattle.std.specs.Prelude.{◌≡◌};
ghost use Rattle.config.specs.Config.{Valid};
ghost use Rattle.record.specs.Calls.{is_sound, limits as in_limits};
ghost use Rattle.record.specs.Record.{length_fits, own_tag, presence as present_in, query_tag};

use crate::Header;
use config::Config;
use tag::Tag;

// "Kind 1 has tag (0, 0)."
fn query_tag(kind: u8, t: Tag) -> bool
    ensures { result ≡ query_tag kind t }
{
    if kind != 1 {
        return true;
    }
    t.same(Tag {
        number: 0,
        client: 0,
    })
}

// "Kinds 3 to 6 carry a tag of the record's own client."
fn own_tag(kind: u8, client: u8, t: Tag) -> bool
    ensures { result ≡ own_tag kind client t }
{
    if kind < 3 {
        return true;
    }
    if 6 < kind {
        return true;
    }
    t.client == client
}

// "Offset 3 is 1 for kind 3, either for 8, 0 otherwise."
fn presence(kind: u8, present: bool) -> bool
    ensures { result ≡ present_in kind present }
{
    if kind == 3 {
        return present;
    }
    if kind == 8 {
        return true;
    }
    !present
}

// The operation number is at least 1, and tag and presence suit the kind.
pub(crate) fn sound(h: Header) -> bool
    ensures { result ≡ is_sound h }
{
    if h.operation == 0 {
        return false;
    }
    let kind = h.kind;
    let number = kind.number();
    let tag = h.tag;
    if !query_tag(number, tag) {
        return false;
    }
    let client = h.client;
    if !own_tag(number, client.number(), tag) {
        return false;
    }
    presence(number, h.present)
}

// With an element the length is at most V; without one it is zero.
pub(crate) fn length_fits(cfg: Config, present: bool, length: u16) -> bool
    requires { Valid cfg }
    ensures { result ≡ length_fits cfg present length }
{
    if present {
        return length as usize <= cfg.k * cfg.e;
    }
    length == 0
}

// The client, the server and the tag are within their limits.
pub(crate) fn limits(cfg: Config, h: Header) -> bool
    ensures { result ≡ in_limits cfg h }
{
    let client = h.client;
    let c = client.number() as usize;
    if !cfg.client_exists(c) {
        return false;
    }
    let server = h.server;
    let s = server.number() as usize;
    if !cfg.server_exists(s) {
        return false;
    }
    let tag = h.tag;
    tag.allowed(cfg.c)
}
