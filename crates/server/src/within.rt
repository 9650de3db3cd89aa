// Question 6 of a server.
ghost use Rattle.std.specs.Prelude.{◌≡◌, ◌+◌, ◌*◌, ◌%◌, ◌^◌, ◌≤◌, true, nat_le};
ghost use Rattle.std.proofs.Math.Option.{none};
ghost use Rattle.config.specs.Config.{Valid, store_length};
ghost use Rattle.config.specs.Number.{server_number};
ghost use Rattle.config.specs.Questions.{within};
ghost use Rattle.tag.specs.Tag.{above, allowed};
ghost use Rattle.server.specs.inner.Spread.{RisenPost, SpreadPost, floor_full, spot_of};
ghost use Rattle.server.specs.Within.{every, floor_within, lengths_within, numbers_within, once as once_in};
ghost use Rattle.server.specs.View.{each, floor_of, lengths_used, stored_length, tag_at};

use crate::{State, places};
use config::{Config, Server};
use tag::Tag;

// (D + 1) × E
pub(crate) fn store_length(cfg: Config) -> usize
    requires { Valid cfg }
    ensures { result ≡ store_length cfg }
{
    (cfg.d + 1) * cfg.e
}

// The server's number is 1 to N.
pub(crate) fn server_within(cfg: Config, me: Server) -> bool
    ensures { result ≡ within 1 cfg.n (server_number me) }
{
    let s = me.number();
    if s == 0 {
        return false;
    }
    s as usize <= cfg.n
}

// Each of the first `count` tags is within its limit.
fn each_allowed(clients: usize, count: usize, tags: [Tag; 8]) -> bool
    requires { count ≤ 8 }
    ensures { result ≡ every (allowed clients) (each (tag_at tags) 0 count) }
{
    tags[..count].iter().all(|t| t.allowed(clients))
}

// Each of the first `count` tags is there once.
fn once(count: usize, tags: [Tag; 8]) -> bool
    requires { count ≤ 8 }
    ensures { result ≡ once_in (each (tag_at tags) 0 count) }
{
    for i in 0..count {
        let t = tags[i];
        if places::place_of(t, i + 1, count, tags) < count {
            return false;
        }
    }
    true
}

// Each of the first `count` tags is above the floor.
fn each_above(cfg: Config, floor: Tag, count: usize, tags: [Tag; 8]) -> bool
    requires { count ≤ 8 }
    ensures { result ≡ every (λ t. above cfg t floor) (each (tag_at tags) 0 count) }
{
    tags[..count].iter().all(|t| t.above(cfg, floor))
}

// Where there is a floor, it is within its limit, D + 1 tags are stored, and each is above it.
fn floor_within(cfg: Config, floor: Option<Tag>, count: usize, tags: [Tag; 8]) -> bool
    requires { (Valid cfg) × (count ≤ 8) }
    ensures { result ≡ floor_within cfg (floor_of floor) (each (tag_at tags) 0 count) }
{
    let Some(f) = floor else {
        return true;
    };
    if !f.allowed(cfg.c) {
        return false;
    }
    if count != cfg.d + 1 {
        return false;
    }
    each_above(cfg, f, count, tags)
}

// Where there is a floor, it is within its limit, and D + 1 tags are stored.
fn floor_full(cfg: Config, floor: Option<Tag>, count: usize) -> bool
    requires { Valid cfg }
    ensures { result ≡ floor_full cfg (floor_of floor) count }
{
    let Some(f) = floor else {
        return true;
    };
    if !f.allowed(cfg.c) {
        return false;
    }
    count == cfg.d + 1
}

// A number below 64; tags that are near each other have different ones.
fn spot(t: Tag) -> u64
    ensures { result ≡ spot_of t }
{
    packed(t.number, t.client) % 64
}

// Each of the first `count` tags is within its limit, and they have different spots, so each is there once. A no shows nothing.
fn spread(clients: usize, count: usize, tags: [Tag; 8]) -> bool
    requires { count ≤ 8 }
    ensures { SpreadPost clients none (each (tag_at tags) 0 count) result }
{
    let mut seen = 0u64;
    for t in &tags[..count] {
        if !t.allowed(clients) {
            return false;
        }
        let next = seen | 1 << spot(*t);
        if next == seen {
            return false;
        }
        seen = next;
    }
    true
}

// A tag's number and client in one number, in which the number decides where the client is 1 to 16.
fn packed(number: u32, client: u8) -> u64
    ensures { result ≡ number * 16 + client }
{
    number as u64 * 16 + client as u64
}

// Of a floor's number: a tag that is packed above this has a higher number, and so is above the floor, whatever the ranks are.
fn past(number: u32) -> u64
    ensures { result ≡ number * 16 + 16 }
{
    packed(number, 16)
}

// A client's number less 1; 0 gives the highest number.
fn less(client: u8) -> usize
    ensures { (result + 1) % 2 ^ 64 ≡ client }
{
    std::num::wrapping_sub_usize(client as usize, 1)
}

// Each of the first `count` tags is within its limit and packed above `low`, and they have different spots. A no shows nothing.
fn risen(clients: usize, low: u64, count: usize, tags: [Tag; 8]) -> bool
    requires { (clients ≤ 16) × (count ≤ 8) }
    ensures { RisenPost clients low (each (tag_at tags) 0 count) result }
{
    let mut seen = 0u64;
    for t in &tags[..count] {
        if clients <= less(t.client) {
            return false;
        }
        let r = packed(t.number, t.client);
        if r <= low {
            return false;
        }
        let next = seen | 1 << r % 64;
        if seen == next {
            return false;
        }
        seen = next;
    }
    true
}

// A yes shows that the server's number and its tags are within their limits. A no shows nothing.
fn quick(cfg: Config, s: State) -> bool
    requires { Valid cfg }
    ensures { result ≡ true → numbers_within cfg s ≡ true }
{
    let me = s.me;
    if !server_within(cfg, me) {
        return false;
    }
    let highest = s.highest;
    if !highest.allowed(cfg.c) {
        return false;
    }
    let count = s.count as usize;
    if cfg.d + 1 < count {
        return false;
    }
    let floor = s.floor;
    let tags = s.tags;
    if !floor_full(cfg, floor, count) {
        return false;
    }
    let Some(f) = floor else {
        return spread(cfg.c, count, tags);
    };
    risen(cfg.c, past(f.number), count, tags)
}

// Whether the server's number and its tags are within their limits, one by one.
fn each_number(cfg: Config, s: State) -> bool
    requires { Valid cfg }
    ensures { result ≡ numbers_within cfg s }
{
    let me = s.me;
    if !server_within(cfg, me) {
        return false;
    }
    let highest = s.highest;
    if !highest.allowed(cfg.c) {
        return false;
    }
    let count = s.count as usize;
    if cfg.d + 1 < count {
        return false;
    }
    let tags = s.tags;
    if !each_allowed(cfg.c, count, tags) {
        return false;
    }
    if !once(count, tags) {
        return false;
    }
    let floor = s.floor;
    floor_within(cfg, floor, count, tags)
}

// The same: the quick test comes first.
pub(crate) fn numbers(cfg: Config, s: State) -> bool
    requires { Valid cfg }
    ensures { result ≡ numbers_within cfg s }
{
    if quick(cfg, s) {
        return true;
    }
    each_number(cfg, s)
}

// Whether each of the first `count` lengths is at most V.
fn each_length(most: usize, count: usize, lengths: [u16; 8]) -> bool
    requires { count ≤ 8 }
    ensures { result ≡ every (λ n. nat_le n most) (each (stored_length lengths) 0 count) }
{
    lengths[..count].iter().all(|n| *n as usize <= most)
}

// Whether the lengths beside the stored elements are at most V.
pub(crate) fn lengths(cfg: Config, s: State) -> bool
    requires { (Valid cfg) × (s.count ≤ 8) }
    ensures { result ≡ lengths_within cfg (lengths_used s) }
{
    let lengths = s.lengths;
    each_length(cfg.k * cfg.e, s.count as usize, lengths)
}
