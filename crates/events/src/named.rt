// Whom an event names.
ghost use Rattle.std.specs.Prelude.{◌≡◌, ◌<◌};
ghost use Rattle.config.specs.Config.{record_length};
ghost use Rattle.events.specs.Questions.{has_places, named_by, place_for, places_of};

use crate::{Call, Part};
use config::{Config, RECORD};

// The number by which an event is called: of event 3, the byte at an offset of the record at the position, or 0 where none stands there or
// the records in flight don't fit the buffer; of any other, the party's.
fn number(count: usize, call: Call, offset: usize, messages: &[u8]) -> usize
    requires { offset < record_length }
    ensures { result ≡ named_by count call.code call.party call.position offset messages.now }
{
    if call.code != 3 {
        return call.party as usize;
    }
    let position = call.position;
    if count <= position {
        return 0;
    }
    if messages.len() / RECORD < count {
        return 0;
    }
    messages[RECORD * position + offset] as usize
}

// The place of the party of a number, of 1 to n; the first place where there is none.
fn place(n: usize, number: usize) -> usize
    ensures { result ≡ place_for n number }
{
    if number < 1 {
        return 0;
    }
    if n < number {
        return 0;
    }
    number - 1
}

// The place of the server that an event can touch; offset 2 of a record is its server.
pub(crate) fn server(cfg: Config, count: usize, call: Call, messages: &[u8]) -> usize
    ensures { result ≡ place_for cfg.n (named_by count call.code call.party call.position 2 messages.now) }
{
    let s = number(count, call, 2, messages);
    place(cfg.n, s)
}

// That of the client; offset 1 of a record is its client.
pub(crate) fn client(cfg: Config, count: usize, call: Call, messages: &[u8]) -> usize
    ensures { result ≡ place_for cfg.c (named_by count call.code call.party call.position 1 messages.now) }
{
    let c = number(count, call, 1, messages);
    place(cfg.c, c)
}

// Whether a part has the places that an event names.
pub(crate) fn has(cfg: Config, part: Part, call: Call, messages: &[u8]) -> bool
    ensures { result ≡ has_places part (places_of cfg part.count call messages.now) }
{
    if part.server != server(cfg, part.count, call, messages) {
        return false;
    }
    part.client == client(cfg, part.count, call, messages)
}
