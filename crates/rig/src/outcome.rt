// A rig and a part of it.
ghost use Rattle.std.specs.Prelude.{◌≡◌, ◌<◌};
ghost use Rattle.events.specs.Calls.{turned as turned_by};
ghost use Rattle.rig.specs.inner.Turn.{PartAtPost, unturned_by};

use config::Refusal;
use events::{Change, Part, Places, Rig, Turn};
use parties::Answer;

// A refusal, with the rig as it was.
pub(crate) fn unturned(rig: Rig, why: Refusal) -> Turn
    ensures { result ≡ unturned_by why rig }
{
    Turn {
        answer: Answer::No(why),
        rig,
    }
}

// What stands in two places of a rig.
pub(crate) fn part_of(rig: Rig, places: Places) -> Part
    requires { (places.server < 16) × (places.client < 16) }
    ensures { PartAtPost rig places result }
{
    let s = places.server;
    let c = places.client;
    Part::of(places, rig.servers[s], rig.clients[c], rig.count)
}

// A rig with what an event leaves of a part of it put in its places.
pub(crate) fn turned(mut rig: Rig, change: Change) -> Turn
    requires { (change.part.server < 16) × (change.part.client < 16) }
    ensures { result ≡ turned_by rig change }
{
    let answer = change.answer;
    let part = change.part;
    let s = part.server;
    let c = part.client;
    let pair = part.pair;
    let node = pair.node;
    let state = pair.client;
    rig.servers[s] = node;
    rig.clients[c] = state;
    rig.count = part.count;
    Turn { answer, rig }
}
