#![tactic(auto)]
// What the steps of all roles come to: the answer, and the change that an accepted event makes to a role's own table (W, Q or one inbox)
// and to N. A step is decided first, from tables that it only reads, and stored afterwards, so a refusal changes no byte.
//
//     Sent                                what an accepted event returns: a slot, or quiet
//     Update, apply_update                what an accepted event changes in the role's own table
//     Change                              what an accepted event comes to
//     apply                               stores the change and answers
//
// What each of them means stands in specs/Change.antt. A role has four functions over these, `evaluate` and `perform` in its own crate and
// the other two in that of its own call (`rm_call`, `acceptor_call`, `leader_call`). There is no trait for them: each role is lent other tables,
// and each contract names definitions of its own.
//     judge       the rows of "Refusals by place" that judge the plan and the tables
//     evaluate    what an event comes to, from tables that are only read
//     perform     `evaluate`, and its change stored
//     step        the role's own call: `judge`, then `perform`
// `evaluate` and `perform` judge the plan and the event, but no table: a record judges its tables once and then calls them. On tables that
// nobody judged they meet the same equations, over the view of the bytes (slots/specs/View/Bytes.antt): they read and write within the
// tables, end, and change nothing where they refuse; only then the slots need not hold messages.
ghost use Rattle.std.specs.Prelude.{◌≡◌, ◌+◌, set};
ghost use Rattle.message.specs.Outcome.{outcome};
ghost use Rattle.change.specs.Change.{updated, step_of, applied};

use message::{Plan, Refusal};
use slots::Put;

// What an accepted event returns: the first slot of N where the sent message stands, or quiet for kinds 2 and 4. An Option would say that
// no slot was found; these are document 01's two answers, and the theorems' words (`accepted Quiet`).
#[derive(Clone, Copy, Debug, PartialEq, Eq)]
pub enum Sent {
    Slot(usize),
    Quiet,
}

// What an accepted event changes in the role's own table: a state in W, an acceptor's three bytes of an instance in Q from `at` on, or
// what is stored in an inbox. A state is a byte of W, of which a table that nobody judged has any.
#[derive(Clone, Copy, Debug, PartialEq, Eq)]
pub enum Update {
    State {
        who: usize,
        state: u8,
    },
    Vote {
        at: usize,
        mbal: u8,
        bal: u8,
        val: u8,
    },
    Inbox(Option<Put>),
}

// What an accepted event changes, and what it returns.
#[derive(Clone, Copy, Debug, PartialEq, Eq)]
pub struct Change {
    pub table: Update,
    pub network: Option<Put>,
    pub sent: Sent,
}

// Sets mbal, bal and val, three bytes of Q from `at` on. Past the table's end nothing changes.
pub fn set_vote(votes: &mut [u8], at: usize, mbal: u8, bal: u8, val: u8)
    ensures { votes.new ≡ set (set (set votes.old at mbal) (at + 1) bal) (at + 2) val }
{
    if votes.len() <= at {
        return;
    }
    slots::set_byte(votes, at, mbal);
    slots::set_byte(votes, at + 1, bal);
    slots::set_byte(votes, at + 2, val);
}

// Changes a role's own table. Past the table's end nothing changes.
fn apply_update(plan: Plan, table: &mut [u8], update: Update)
    ensures { table.new ≡ updated plan update table.old }
{
    match update {
        Update::State { who, state } => slots::set_byte(table, who, state),
        Update::Vote { at, mbal, bal, val } => set_vote(table, at, mbal, bal, val),
        Update::Inbox(put) => slots::apply_store(plan, table, put),
    }
}

// Stores what a verdict accepts and answers; a refusal changes no byte.
pub fn apply(
    plan: Plan,
    table: &mut [u8],
    network: &mut [u8],
    verdict: Result<Change, Refusal>,
) -> Result<Sent, Refusal>
    ensures { step_of result table.new network.new ≡
        applied plan table.old network.old (outcome verdict) }
{
    let change = verdict?;
    apply_update(plan, table, change.table);
    slots::apply_store(plan, network, change.network);
    Ok(change.sent)
}
