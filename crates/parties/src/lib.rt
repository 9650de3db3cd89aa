// The parties of a rig that one event can touch, a server and a client: their making, what they do in an event, and question 6 of each in its
// place. Their parts of the buffers are lent, and what they send goes to a lent buffer: of the messages in flight nothing is known here. Every
// function is proved, nothing is assumed, and no public function has a `requires`.
#![tactic(auto)]

pub mod begin;
pub mod crash;
pub mod deliver;
pub mod fresh;
mod outcome;
pub mod questions;
pub mod restart;

ghost use Rattle.std.specs.Prelude.{◌≡◌};
ghost use Rattle.parties.specs.Acts.{is_refusal};

use config::{Client, Refusal};
use tag::Tag;

// A server, and whether it is up. A crash keeps the state.
#[derive(Clone, Copy, PartialEq, Eq)]
pub struct Node {
    pub state: server::State,
    pub up: bool,
}

// The parties that one event can touch.
#[derive(Clone, Copy, PartialEq, Eq)]
pub struct Pair {
    pub node: Node,
    pub client: client::State,
}

// An event's answer. The bytes of a board that is read stand in the lent buffer: so many, zeros after.
#[derive(Clone, Copy)]
pub enum Answer {
    // No operation ended.
    Nothing,
    // The client whose operation ended, and the tag.
    Written {
        client: Client,
        tag: Tag,
    },
    Spent {
        client: Client,
    },
    Read {
        client: Client,
        tag: Tag,
        length: u16,
    },
    No(Refusal),
}

impl Answer {
    // Whether it is a refusal.
    pub fn is_refusal(self) -> bool
        ensures { result ≡ is_refusal self }
    {
        match self {
            Answer::Nothing => false,
            Answer::Written { client: _, tag: _ } => false,
            Answer::Spent { client: _ } => false,
            Answer::Read {
                client: _,
                tag: _,
                length: _,
            } => false,
            Answer::No(_) => true,
        }
    }
}

// What an event leaves: its answer, the parties, and how many records stand at the front of the lent buffer for sends.
#[derive(Clone, Copy)]
pub struct Acted {
    pub answer: Answer,
    pub pair: Pair,
    pub sent: usize,
}
