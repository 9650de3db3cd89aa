// `rig::event` run on a script: document 01's ten events, events that must be refused, events beside them that must not, and events that show
// that the rig still works. Each line of the script, of 96 bytes, is an event. One that begins with 2 is handed to a copy of the rig and of
// its buffers, with what the line says written in; printed are what is special about it, and whether the event has left all as it was.
#![tactic(auto)]

mod answer;
mod rigs;
mod script;
mod spoilt;

use parties::Answer;
use rigs::Left;

// Prints what is special about an event, and whether all is as it was.
fn held(line: [u8; 96], same: bool) {
    io::write_all(1, &line[56..95]);
    if same {
        io::write_all(1, b"as it was ");
        return;
    }
    io::write_all(1, b"changed ");
}

// Prints an event's line; before it, unless the event is of the list, what is special about it.
fn say(line: [u8; 96], count: u64, answer: Answer, read: [u8; 2], same: bool) {
    if line[0] != b'0' {
        held(line, same);
    }
    io::print_decimal(1, count);
    answer::print(answer, read);
}

// A line's event. What is spoilt for it is a copy.
fn step(old: Left, line: [u8; 96], count: u64) -> Left {
    let turn = old.turn;
    let kept = old.lent;
    let rig = spoilt::rig(turn, line);
    let lent = spoilt::buffers(kept, line);
    let left = rigs::event(rig, lent, script::handed(line));
    let done = left.turn;
    let rest = left.lent;
    let answer = done.answer;
    let read = rest.read;
    let same = rig == done.rig && lent == rest;
    say(line, count, answer, read, same);
    if line[0] < b'2' {
        return left;
    }
    old
}

fn main() {
    let mut left = rigs::make();
    let mut line = [0u8; 96];
    for count in 1..=1000 {
        if io::read_full(0, &mut line) < 96 {
            return;
        }
        left = step(left, line, count);
    }
}
