// Records of 80 bytes, one behind the other in a lent buffer, of which so many are in use. The crate knows no party and no meaning of
// the bytes. Every function is proved, nothing is assumed, and no public function has a `requires`: where there is no such record, or
// no room for those that come, all is as it was.
// Records can also be written in place, into `&mut messages[80 * count..]`: proofs/Laws says what the records then are (`records_written`).
// `owners` is of the records' boards, which stand beside them.
#![tactic(auto)]

pub mod owners;

ghost use Rattle.flight.specs.Flight.{AppendPost, DoublePost, RemovePost, TakePost};

// A record's bytes.
const RECORD: usize = 80;

// The record at a position; 80 zeros where there is none.
pub fn take(count: usize, position: usize, messages: &[u8]) -> [u8; RECORD]
    ensures { TakePost count position messages.now result }
{
    let mut bytes = [0u8; RECORD];
    if position >= count {
        return bytes;
    }
    if messages.len() / RECORD < count {
        return bytes;
    }
    let from = RECORD * position;
    let end = from + RECORD;
    copies::copy(&messages[from..end], &mut bytes);
    bytes
}

// The record at a position leaves the messages, and those behind it move up. Gives the new count.
pub fn remove(count: usize, position: usize, messages: &mut [u8]) -> usize
    ensures { RemovePost count position messages.old result messages.new }
{
    if count <= position {
        return count;
    }
    if messages.len() / RECORD < count {
        return count;
    }
    let from = RECORD * position;
    let end = RECORD * count;
    messages.copy_within(from + RECORD..end, from);
    count - 1
}

// Whole records go to the end of the messages, where there is room. Gives the new count.
pub fn append(count: usize, records: &[u8], messages: &mut [u8]) -> usize
    ensures { AppendPost count records.now messages.old result messages.new }
{
    let most = messages.len() / RECORD;
    let more = records.len() / RECORD;
    if records.len() % RECORD != 0 {
        return count;
    }
    if most < count {
        return count;
    }
    if most - count < more {
        return count;
    }
    let from = RECORD * count;
    copies::copy(records, &mut messages[from..]);
    count + more
}

// A copy of the record at a position goes to the end of the messages, where there is room. Gives the new count.
pub fn double(count: usize, position: usize, messages: &mut [u8]) -> usize
    ensures { DoublePost count position messages.old result messages.new }
{
    if count <= position {
        return count;
    }
    let copy = take(count, position, messages);
    append(count, &copy, messages)
}
