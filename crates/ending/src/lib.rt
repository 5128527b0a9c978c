#![tactic(auto)]
// How an order stands: every resource manager (document 01: weight) committed, every one aborted, or open. For the last line of the
// rehearsal (document 01, "The rehearsal").
//
//     are_all        whether every byte of W is the state
//     ending_of      how the order stands
//
// What it means stands in specs/. No function has a `requires`.
ghost use Rattle.std.specs.Prelude.{◌≡◌};
ghost use Rattle.ending.specs.Ending.{are_all, ending_of};

use tcommit::RmState;

// How an order stands.
#[derive(Clone, Copy, PartialEq, Eq, Debug)]
pub enum Ending {
    Committed,
    Aborted,
    Open,
}

// Whether every byte of W is the state. By index: `iter().all(..)` has two branches a byte, and takes up to 1.7 times as long where the linker lays
// the loop badly; a `fold` has no way out at the first other byte (`docs/SPEED.md`).
fn are_all(states: &[u8], state: u8) -> bool
    ensures { result ≡ are_all state states.now }
{
    let mut i: usize = 0;
    while i < states.len() {
        if states[i] != state {
            return false;
        }
        i += 1;
    }
    true
}

// How the order stands whose W is lent.
pub fn ending_of(states: &[u8]) -> Ending
    ensures { result ≡ ending_of states.now }
{
    if are_all(states, RmState::COMMITTED) {
        return Ending::Committed;
    }
    if are_all(states, RmState::ABORTED) {
        return Ending::Aborted;
    }
    Ending::Open
}
