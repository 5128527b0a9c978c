#![tactic(auto)]
// The states of a resource manager as numbers (document 01: a weight's state), for the table W and for Transaction Commit.
// The machine itself is in specs/TCommit.antt.
ghost use Rattle.std.specs.Prelude.{◌≡◌, [], ◌∷◌};
ghost use Rattle.tcommit.specs.RmState.{working, prepared, committed, aborted};

// A resource manager's state, by its number.
#[derive(Clone, Copy, PartialEq, Eq, Debug)]
pub enum RmState {
    Working = 0,
    Prepared = 1,
    Committed = 2,
    Aborted = 3,
}

impl RmState {
    pub const WORKING: u8 = RmState::Working as u8;

    pub const PREPARED: u8 = RmState::Prepared as u8;

    pub const COMMITTED: u8 = RmState::Committed as u8;

    pub const ABORTED: u8 = RmState::Aborted as u8;
}

// The numbers of the four states are the four numbers of specs/RmState.antt, in order.
pub fn rm_states() -> [u8; 4]
    ensures { result ≡ working ∷ prepared ∷ committed ∷ aborted ∷ [] }
{
    [
        RmState::WORKING,
        RmState::PREPARED,
        RmState::COMMITTED,
        RmState::ABORTED,
    ]
}
