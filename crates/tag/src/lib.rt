// Tags: which are allowed, and their order, by number, rank and client. Every function is proved, nothing is assumed, and no public function
// has a `requires`.
#![tactic(auto)]

ghost use Rattle.std.specs.Prelude.{◌≡◌};
ghost use Rattle.tag.specs.Tag.{above, allowed, higher, same};

use config::Config;

// A tag: a number, and a client number.
#[derive(Clone, Copy, PartialEq, Eq, Debug)]
pub struct Tag {
    pub number: u32,
    pub client: u8,
}

impl Tag {
    // Whether the tag is above the other: the number decides, then the rank of the tag's client, then the client number.
    pub fn above(self, cfg: Config, other: Tag) -> bool
        ensures { result ≡ above cfg self other }
    {
        if self.number != other.number {
            return other.number < self.number;
        }
        let mine = cfg.rank(self.client);
        let its = cfg.rank(other.client);
        if mine != its {
            return its < mine;
        }
        other.client < self.client
    }

    // The higher of the two.
    pub fn higher(self, cfg: Config, other: Tag) -> Tag
        ensures { result ≡ higher cfg self other }
    {
        if other.above(cfg, self) {
            return other;
        }
        self
    }

    // Whether the two are one tag.
    pub fn same(self, other: Tag) -> bool
        ensures { result ≡ same self other }
    {
        self == other
    }

    // Whether the tag is allowed where there are `clients` clients.
    pub fn allowed(self, clients: usize) -> bool
        ensures { result ≡ allowed clients self }
    {
        if self.number == 0 {
            return self.client == 0;
        }
        if self.client == 0 {
            return false;
        }
        self.client as usize <= clients
    }
}
