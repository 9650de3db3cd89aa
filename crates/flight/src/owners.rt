// The board of each record, a byte, beside the records: in a lent buffer of its own, of which so many are in use. Numbers and lengths may have
// any value.
ghost use Rattle.std.specs.Prelude.{◌≡◌, take as first};
ghost use Rattle.config.specs.Questions.{within as inside};
ghost use Rattle.laws.specs.Owners.{count_of, place_of};
ghost use Rattle.config.specs.Room.{all_within};
ghost use Rattle.flight.specs.Owners.{FilledPost, RemovedPost};

// Those in use: no more than there are.
fn used(count: usize, owners: &[u8]) -> &[u8]
    ensures { result.now ≡ first count owners.now }
{
    if owners.len() < count {
        return owners;
    }
    &owners[..count]
}

// How many are of a board.
pub fn count_of(count: usize, board: u8, owners: &[u8]) -> usize
    ensures { result ≡ count_of board (first count owners.now) }
{
    let used = used(count, owners);
    let mut n = 0;
    for owner in used {
        if board == *owner {
            n += 1;
        }
    }
    n
}

// The place of the record at a position of a board's, both from 0; behind the last where the board has no such.
pub fn place_of(count: usize, board: u8, position: usize, owners: &[u8]) -> usize
    ensures { result ≡ place_of board position (first count owners.now) }
{
    let used = used(count, owners);
    let mut left = position;
    for (place, owner) in used.iter().enumerate() {
        if *owner == board {
            if left == 0 {
                return place;
            }
            left -= 1;
        }
    }
    used.len()
}

// 1 ≤ board ≤ boards
fn is_board(boards: usize, board: u8) -> bool
    ensures { result ≡ inside 1 boards board }
{
    if board == 0 {
        return false;
    }
    board as usize <= boards
}

// Whether each is one of so many boards, numbered from 1.
pub fn within(count: usize, boards: usize, owners: &[u8]) -> bool
    ensures { result ≡ all_within boards (first count owners.now) }
{
    used(count, owners)
        .iter()
        .all(|owner| is_board(boards, *owner))
}

// The board at a place leaves with its record: those behind it move up.
pub fn remove(count: usize, place: usize, owners: &mut [u8])
    ensures { RemovedPost count place owners.old owners.new }
{
    if count <= place {
        return;
    }
    if owners.len() < count {
        return;
    }
    owners.copy_within(place + 1..count, place);
}

// The records from one place up to another are a board's.
pub fn fill(from: usize, to: usize, board: u8, owners: &mut [u8])
    ensures { FilledPost from to board owners.old owners.new }
{
    if to < from {
        return;
    }
    if owners.len() < to {
        return;
    }
    owners[from..to].fill(board);
}
