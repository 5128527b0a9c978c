#![tactic(auto)]
// The tables of an order record: their lengths, and opening them (document 01, "The plan and four tables"; document 02, Paper 5).
//
//     Lent                           what is lent of a record to be read
//     are_lengths, judge_lengths     rows 1 and 2 of "Refusals by place"
//     clear, open                    the four tables and the summary zeroed
//
// What each of them means stands in specs/.
ghost use Rattle.std.specs.Prelude.{true, ◌≡◌};
ghost use Rattle.message.specs.Outcome.{outcome};
ghost use Rattle.message.specs.Plan.{is_plan};
ghost use Rattle.opening.specs.Opening.{tables_of, lent, are_lengths, lengths_judged, zeroed, opening_of, record_open};

use message::{Plan, Refusal};

// The tables of a record, lent to be read: W, Q, N, I and the summary, of any content and length. What is lent to be written stays five slices in
// each function that writes: a struct of `&mut` would cost its contract a clause on the ghost name of each.
#[derive(Clone, Copy)]
pub struct Lent<'a> {
    pub states: &'a [u8],
    pub votes: &'a [u8],
    pub network: &'a [u8],
    pub inboxes: &'a [u8],
    pub summary: &'a [u8],
}

// Whether the four tables have the lengths that the plan asks for; where they have not, 2.
#[tactic(auto, unfolding(crate::specs::Opening::are_lengths, crate::specs::Opening::inbox_size))]
fn are_lengths(plan: Plan, tables: Lent) -> bool
    requires { is_plan plan ≡ true }
    ensures { result ≡ are_lengths plan (lent tables.entry) }
{
    if tables.states.len() != plan.rms as usize {
        return false;
    }
    if tables.votes.len() != 3 * (plan.rms as usize * plan.acceptors as usize) {
        return false;
    }
    if !slots::is_table_length(tables.network.len()) {
        return false;
    }
    let leaders = plan.leaders as usize;
    if tables.inboxes.len() % leaders != 0 {
        return false;
    }
    slots::is_table_length(tables.inboxes.len() / leaders)
}

// The plan and the lengths of the four tables: 1 or 2.
#[tactic(auto, unfolding(crate::specs::Opening::lengths_judged, message::specs::Outcome::refuse_if))]
pub fn judge_lengths(plan: Plan, tables: Lent) -> Result<(), Refusal>
    ensures { outcome result ≡ lengths_judged plan (lent tables.entry) }
{
    if !message::is_plan(plan) {
        return Err(Refusal::Plan);
    }
    if !are_lengths(plan, tables) {
        return Err(Refusal::Length);
    }
    Ok(())
}

// Every byte 0.
#[tactic(auto, unfolding(crate::specs::Opening::zeroed))]
fn clear(bytes: &mut [u8])
    ensures { bytes.new ≡ zeroed bytes.old }
{
    bytes.fill(0);
}

// Opens a record: every byte of the four tables and of the summary 0. A plan out of range is 1, a wrong length 2, one of the summary 20, and none of
// these changes a byte.
pub fn open(
    plan: Plan,
    states: &mut [u8],
    votes: &mut [u8],
    network: &mut [u8],
    inboxes: &mut [u8],
    summary: &mut [u8],
) -> Result<(), Refusal>
    ensures { opening_of result (tables_of states.new votes.new network.new inboxes.new summary.new) ≡
        record_open plan (tables_of states.old votes.old network.old inboxes.old summary.old) }
{
    let tables = Lent {
        states,
        votes,
        network,
        inboxes,
        summary,
    };
    judge_lengths(plan, tables)?;
    if summary.len() != plan.rms as usize * plan.leaders as usize {
        return Err(Refusal::Summary);
    }
    clear(states);
    clear(votes);
    clear(network);
    clear(inboxes);
    clear(summary);
    Ok(())
}
