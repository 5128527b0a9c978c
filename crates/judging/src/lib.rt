#![tactic(auto)]
// Judging an order record: rows 1 to 6 of "Refusals by place" (document 01), whatever the event.
ghost use Rattle.std.specs.Prelude.{◌≡◌};
ghost use Rattle.message.specs.Outcome.{outcome};
ghost use Rattle.opening.specs.Opening.{lent};
ghost use Rattle.judging.specs.Judging.{record_judged};

use message::{Plan, Refusal};
use opening::Lent;

// The plan, the lengths and the content of the four tables, each inbox by itself: 1 to 6.
pub fn judge(plan: Plan, tables: Lent) -> Result<(), Refusal>
    ensures { outcome result ≡ record_judged plan (lent tables.entry) }
{
    opening::judge_lengths(plan, tables)?;
    if !rm::are_states(tables.states) {
        return Err(Refusal::State);
    }
    if !votes::are_votes(tables.votes) {
        return Err(Refusal::Vote);
    }
    tables::judge(plan, tables.network, plan.leaders as usize, tables.inboxes)
}
