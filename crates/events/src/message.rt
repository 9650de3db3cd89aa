// Events 4 and 5: a message in flight is lost or doubled.
ghost use Rattle.events.specs.inner.Message.{DoublePost, LosePost};

use crate::{Call, Change, Part, outcome};
use config::Refusal;

// Event 4: "lose it". Question 8.
pub(crate) fn lose(part: Part, call: Call, messages: &mut [u8]) -> Change
    ensures { LosePost part call messages.old result messages.new }
{
    let count = part.count;
    let position = call.position;
    if count <= position {
        return outcome::refused(part, Refusal::Missing);
    }
    let left = flight::remove(count, position, messages);
    outcome::counted(part, left)
}

// Event 5: "double it (a copy goes to the end)". Questions 8 and 13.
pub(crate) fn double(m: usize, part: Part, call: Call, messages: &mut [u8]) -> Change
    ensures { DoublePost m part call messages.old result messages.new }
{
    let count = part.count;
    let position = call.position;
    if count <= position {
        return outcome::refused(part, Refusal::Missing);
    }
    if m <= count {
        return outcome::refused(part, Refusal::Full);
    }
    let more = flight::double(count, position, messages);
    outcome::counted(part, more)
}
