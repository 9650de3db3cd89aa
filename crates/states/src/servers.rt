// A server's state as 88 bytes, in rows of 8: its number, how many tags it stores and whether there is a floor; the highest finalised tag; the
// floor; and the stored tags with their boards' lengths.
ghost use Rattle.std.specs.Prelude.{◌≡◌, ◌<◌, length as long};
ghost use Rattle.states.specs.Servers.{PackPost, UnpackPost, floor_flag, floor_row, head_row, packed_length, state_of, stored_row};
ghost use Rattle.states.specs.inner.Servers.{RefusedPost, ToldPre, row_at};

use config::{Config, FIRST_SERVER, Refusal, Server};
use server::State;
use tag::Tag;

// The bytes of a state.
pub const LENGTH: usize = 88;

// What unpacking gives: its verdict and the state, which stands beside it, for `UnpackPost` says of a refusal too which it is: that of zeros.
#[derive(Clone, Copy)]
pub struct Unpacked {
    pub verdict: Result<(), Refusal>,
    pub state: State,
}

// The bytes of a state.
pub fn pack(state: State) -> [u8; 88]
    ensures { PackPost state result }
{
    let mut out = [0u8; LENGTH];
    for i in 0..11 {
        let from = 8 * i;
        let end = from + 8;
        let r = row(state, i);
        copies::copy(&r, &mut out[from..end]);
    }
    out
}

// Row i of a state.
fn row(state: State, i: usize) -> [u8; 8]
    requires { i < 11 }
    ensures { result ≡ row_at state i }
{
    if i == 0 {
        return head(state);
    }
    if i == 1 {
        let highest = state.highest;
        return crate::tag_row(highest, 0);
    }
    if i == 2 {
        let floor = state.floor;
        return floor_row(floor);
    }
    stored_row(state, i - 3)
}

// The first row.
fn head(state: State) -> [u8; 8]
    ensures { result ≡ head_row state }
{
    let me = state.me;
    let floor = state.floor;
    [me.number(), state.count, floor_flag(floor), 0, 0, 0, 0, 0]
}

// Whether there is a floor, as a number.
fn floor_flag(floor: Option<Tag>) -> u8
    ensures { result ≡ floor_flag floor }
{
    match floor {
        None => 0,
        Some(_t) => 1,
    }
}

// The floor's row.
fn floor_row(floor: Option<Tag>) -> [u8; 8]
    ensures { result ≡ floor_row floor }
{
    match floor {
        None => [0; 8],
        Some(t) => crate::tag_row(t, 0),
    }
}

// The row of the stored tag at place i; zeros where nothing is stored.
fn stored_row(state: State, i: usize) -> [u8; 8]
    requires { i < 8 }
    ensures { result ≡ stored_row state i }
{
    if state.count as usize <= i {
        return [0; 8];
    }
    let tags = state.tags;
    let lengths = state.lengths;
    let t = tags[i];
    crate::tag_row(t, lengths[i])
}

// The state of bytes: questions 1 to 5 and 21; 6, whether they are what packing the state that they tell gives.
pub fn unpack(cfg: Config, bytes: &[u8]) -> Unpacked
    ensures { UnpackPost cfg bytes.now result }
{
    if let Err(why) = cfg.ask() {
        return refused(why);
    }
    if bytes.len() != LENGTH {
        return refused(Refusal::Shape);
    }
    let Ok(me) = Server::new(cfg, bytes[0]) else {
        return refused(Refusal::Shape);
    };
    let state = told(me, bytes);
    let again = pack(state);
    if !crate::same(&again, bytes) {
        return refused(Refusal::Shape);
    }
    Unpacked {
        verdict: Ok(()),
        state,
    }
}

// A refusal, with the state that zeros tell, of server 1.
fn refused(why: Refusal) -> Unpacked
    ensures { RefusedPost why result }
{
    let mut zeros = [0u8; LENGTH];
    zeros[0] = 1;
    let state = told(FIRST_SERVER, &zeros);
    Unpacked {
        verdict: Err(why),
        state,
    }
}

// The state that 88 bytes tell, of the server of the first.
fn told(me: Server, bytes: &[u8]) -> State
    requires { ToldPre me bytes.now }
    ensures { result ≡ state_of bytes.now }
{
    let mut tags = [Tag {
        number: 0,
        client: 0,
    }; 8];
    let mut lengths = [0u16; 8];
    for i in 0..8 {
        let at = 24 + 8 * i;
        tags[i] = crate::tag_at(at, bytes);
        lengths[i] = crate::length_at(at + 5, bytes);
    }
    State {
        me,
        count: bytes[1],
        highest: crate::tag_at(8, bytes),
        floor: floor_at(bytes),
        tags,
        lengths,
    }
}

// The floor that 88 bytes tell.
fn floor_at(bytes: &[u8]) -> Option<Tag>
    requires { long bytes.now ≡ packed_length }
    ensures { result ≡ (state_of bytes.now).floor }
{
    if bytes[2] != 1 {
        return None;
    }
    Some(crate::tag_at(16, bytes))
}
