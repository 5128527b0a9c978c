#![tactic(auto)]
// Judging Q, the acceptors' votes: row 4 of "Refusals by place" (document 01).
//
//     gather                      what two bytes leave where they are not in order, without a branch
//     gather_lanes, is_clear      the same for 16 bytes together, whichever of them are bal and val; then the lanes that count
//     after_blocks                16 places of Q at a time
//     is_vote_state, are_votes    the rest place by place
//
// What it means stands in specs/. No public function has a `requires`.
ghost use Rattle.std.specs.Prelude.{true, ◌≡◌, ◌+◌, ◌≤◌, ◌<◌, length};
ghost use Rattle.votes.specs.Votes.{is_vote_state, are_votes};
ghost use Rattle.votes.specs.Votes.Laws.Lanes.{Gathered, Clear};

// The bytes of a place: mbal, bal and val.
const PLACE: usize = 3;

// Bytes that are looked at together.
const LANES: usize = 16;

// The bytes of 16 places, which are looked at by three rows of lanes.
const BLOCK: usize = 48;

// What a lane then holds: 0 only where it held 0 and the two bytes, taken for bal and val, are in order.
fn gather(any: u8, bal: u8, val: u8) -> u8
    ensures { result ≡ 0 → (any ≡ 0) × (is_vote_state bal val ≡ true) }
{
    let least = bal.min(1);
    any | val.saturating_sub(2) | least.saturating_sub(val)
}

// Each of 16 bytes and the one after it, into a lane of their own.
fn gather_lanes(lanes: &mut [u8; LANES], votes: &[u8], at: usize)
    requires { (length lanes.old ≡ 16) × (at + 16 < length votes.now) }
    ensures { Gathered 16 votes.now at lanes.old lanes.new }
{
    for j in 0..LANES {
        lanes[j] = gather(lanes[j], votes[at + j], votes[at + j + 1]);
    }
}

// Whether every third lane is 0. The others hold what bytes left that are not bal and val.
fn is_clear(lanes: &[u8; LANES]) -> bool
    ensures { result ≡ true → Clear 6 lanes.now }
{
    let mut any = 0;
    for k in 0..6 {
        any |= lanes[PLACE * k];
    }
    any == 0
}

// What is left of Q after blocks of 16 places that are in order; all of it where one place is not.
fn after_blocks(votes: &[u8]) -> &[u8]
    ensures { are_votes result.now ≡ are_votes votes.now }
{
    let mut rows = [[0u8; LANES]; 3];
    let mut left = votes;
    // A `for` over a count of blocks takes a division, and 1.1 times as long on a Q of one block.
    while BLOCK <= left.len() {
        for (k, row) in rows.iter_mut().enumerate() {
            gather_lanes(row, left, 1 + 15 * k);
        }
        left = &left[BLOCK..];
    }
    let clear = rows.iter().all(|row| is_clear(row));
    if clear { left } else { votes }
}

// With early returns: as one expression or a `match` the compiler tests both bytes of each place, and takes 1.4 times as long.
#[tactic(auto, unfolding(crate::specs::Votes::is_vote_state))]
fn is_vote_state(bal: u8, val: u8) -> bool
    ensures { result ≡ is_vote_state bal val }
{
    if 2 < val {
        return false;
    }
    if 1 <= val {
        return true;
    }
    bal == 0
}

// Whether every place of Q is in order: val 1, 2, or 0 with bal 0. Where one is not, 4.
pub fn are_votes(votes: &[u8]) -> bool
    ensures { result ≡ are_votes votes.now }
{
    after_blocks(votes)
        .chunks_exact(PLACE)
        .all(|place| is_vote_state(place[1], place[2]))
}
