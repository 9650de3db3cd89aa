// A set of servers as the bits of a number: bit s is server s.
ghost use Rattle.std.specs.Prelude.{◌≡◌, ◌<◌};
ghost use Rattle.client.specs.Servers.{member, within_servers};
ghost use Rattle.client.specs.inner.Count.{put_of};
ghost use Rattle.std.specs.Int.Count.{ones};

// Whether server s is in the set.
pub(crate) fn has(set: u32, s: u8) -> bool
    requires { s < 32 }
    ensures { result ≡ member set s }
{
    (set >> s) % 2 == 1
}

// The set with server s in it or out of it, as told.
pub(crate) fn put(set: u32, s: u8, there: bool) -> u32
    requires { s < 32 }
    ensures { result ≡ put_of set s there }
{
    let bit: u32 = 1 << s;
    if has(set, s) {
        if there {
            return set;
        }
        return set - bit;
    }
    if there {
        return set + bit;
    }
    set
}

// How many servers are in the set.
pub(crate) fn size(set: u32) -> u32
    ensures { result ≡ ones set }
{
    u32::count_ones(set)
}

// Whether every server of the set is one of 1 to n.
pub(crate) fn within(n: usize, set: u32) -> bool
    requires { n < 31 }
    ensures { result ≡ within_servers n set }
{
    if set % 2 != 0 {
        return false;
    }
    set >> (n + 1) == 0
}
