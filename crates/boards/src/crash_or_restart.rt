// Events 6, 7 and 8: a party crashes, or a server is started again, on every board.
ghost use Rattle.std.specs.Prelude.{◌≤◌, ◌≡◌};
ghost use Rattle.events.specs.Calls.{code_in};
ghost use Rattle.boards.specs.inner.CrashOrRestart.{AllPost};

use crate::{Call, Rig, Turn, outcome};
use config::{Config, Room};
use events::CrashOrRestart;

// The event of a code from 6 to 8.
fn which(code: u8) -> CrashOrRestart
    requires { (6 ≤ code) × (code ≤ 8) }
    ensures { code_in result ≡ code }
{
    match code {
        6 => CrashOrRestart::CrashServer,
        7 => CrashOrRestart::CrashClient,
        _ => CrashOrRestart::RestartServer,
    }
}

// The event on the board in each place; its answer is the first board's.
pub(crate) fn all(cfg: Config, room: Room, rig: Rig, call: Call) -> Turn
    requires { (1 ≤ room.boards) × (room.boards ≤ 8) × (6 ≤ call.code) × (call.code ≤ 8) }
    ensures { AllPost cfg room rig call result }
{
    let count = rig.count;
    let its = which(call.code);
    let first = rig::crash_or_restart(
        cfg,
        room.m,
        outcome::one(rig.boards[0], count),
        its,
        call.party,
    );
    let answer = first.answer;
    let mut left = outcome::put(rig, 0, first.rig, count);
    for i in 1..room.boards {
        let turn = rig::crash_or_restart(
            cfg,
            room.m,
            outcome::one(rig.boards[i], count),
            its,
            call.party,
        );
        left = outcome::put(left, i, turn.rig, count);
    }
    Turn { answer, rig: left }
}
