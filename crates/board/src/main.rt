// The documents' program: events from standard input with N 3, k 1, D 0, E 1, C 2, M 64 and starting board 0, in records of 7 bytes: code,
// party, position (2 bytes), board byte, length (2 bytes). One line an event.
#![tactic(auto)]

use lines::{PROGRAM, PROGRAM_MESSAGES, PROGRAM_START};

fn main(rt: HostRuntime) {
    stream::run(rt.stdin(), PROGRAM, PROGRAM_MESSAGES, &PROGRAM_START);
}
