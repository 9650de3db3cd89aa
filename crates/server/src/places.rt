// The places of stored tags.
ghost use Rattle.std.specs.Prelude.{◌≡◌, ◌+◌, ◌-◌, ◌*◌, ◌≤◌};
ghost use Rattle.laws.specs.Parts.{over};
ghost use Rattle.server.specs.inner.Places.{Room, least_from};
ghost use Rattle.server.specs.View.{each, place_in, tag_at};

use config::Config;
use tag::Tag;

// A tag and its place.
#[derive(Clone, Copy)]
pub(crate) struct Least {
    pub tag: Tag,
    pub place: usize,
}

// The first place from `from` on that holds the tag, or `count`. The loop yields it by `break`: document 01 names this form.
pub(crate) fn place_of(t: Tag, from: usize, count: usize, tags: [Tag; 8]) -> usize
    requires { (from ≤ count) × (count ≤ 8) }
    ensures { result ≡ from + place_in t (each (tag_at tags) from (count - from)) }
{
    let mut i = from;
    let place = loop {
        if i == count {
            break count;
        }
        let x = tags[i];
        if x.same(t) {
            break i;
        }
        i += 1;
    };
    place
}

// The lowest of the tag, whose place is taken for `count`, and the first `count` tags.
pub(crate) fn lowest(cfg: Config, t: Tag, count: usize, tags: [Tag; 8]) -> Least
    requires { count ≤ 8 }
    ensures { result ≡ least_from cfg t count 0 (each (tag_at tags) 0 count) }
{
    let mut tag = t;
    let mut place = count;
    for (i, x) in tags[..count].iter().enumerate() {
        if tag.above(cfg, *x) {
            tag = *x;
            place = i;
        }
    }
    Least { tag, place }
}

// Writes an element to its place in the store.
pub(crate) fn put(cfg: Config, place: usize, element: &[u8], store: &mut [u8])
    requires { Room cfg (place + 1) element.now store.old }
    ensures { store.new ≡ over (place * cfg.e) cfg.e element.now store.old }
{
    let from = place * cfg.e;
    let end = from + cfg.e;
    copies::copy(element, &mut store[from..end]);
}
