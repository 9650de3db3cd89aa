// The messages in flight and the shares of the boards.
ghost use Rattle.std.specs.Prelude.{◌≡◌, ◌+◌, ◌-◌, ◌≤◌, ◌<◌, take};
ghost use Rattle.config.specs.Room.{kept_free, lacking, most_boards, shares_sum};

use config::Room;
use flight::owners;

// What the board in a place lacks to its share; nothing if it is board b.
fn lacks(room: Room, b: u8, i: usize, count: usize, owners: &[u8]) -> usize
    requires { i < most_boards }
    ensures { result ≡ lacking room b (take count owners.now) i }
{
    let board = (i + 1) as u8;
    if board == b {
        return 0;
    }
    let has = owners::count_of(count, board, owners);
    let share = room.shares[i];
    if share <= has {
        return 0;
    }
    share - has
}

// The places kept free for the boards other than b.
pub(crate) fn kept_free(room: Room, b: u8, count: usize, owners: &[u8]) -> usize
    requires { (room.boards ≤ most_boards) × (shares_sum room ≤ 512) }
    ensures { result ≡ kept_free room b (take count owners.now) }
{
    let mut free = 0;
    for i in 0..room.boards {
        free += lacks(room, b, i, count, owners);
    }
    free
}
