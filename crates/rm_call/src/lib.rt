#![tactic(auto)]
// The step of a resource manager (document 01: a weight), kinds 0, 1 and 2, as a call by itself, on tables that nobody has judged. It is
// lent W and N.
//
//     judge      the plan and both tables: rows 1, 2, 3 and 5 of "Refusals by place"
//     step       the whole call: `judge`, and then `rm::perform`
ghost use Rattle.std.specs.Prelude.{◌≡◌};
ghost use Rattle.message.specs.Outcome.{outcome};
ghost use Rattle.change.specs.Change.{step_of};
ghost use Rattle.rm.specs.Rm.{rm_judged, rm_step};

use change::Sent;
use message::{Plan, Refusal};

// The plan, the lengths, W and N: 1, 2, 3 or 5.
#[tactic(auto, unfolding(rm::specs::Rm::rm_judged, message::specs::Outcome::refuse_if))]
fn judge(plan: Plan, states: &[u8], network: &[u8]) -> Result<(), Refusal>
    ensures { outcome result ≡ rm_judged plan states.now network.now }
{
    if !message::is_plan(plan) {
        return Err(Refusal::Plan);
    }
    if states.len() != plan.rms as usize {
        return Err(Refusal::Length);
    }
    if !slots::is_table_length(network.len()) {
        return Err(Refusal::Length);
    }
    if !rm::are_states(states) {
        return Err(Refusal::State);
    }
    if !tables::is_table(plan, network) {
        return Err(Refusal::Network);
    }
    Ok(())
}

// The step: what `judge` refuses, and then as `rm::perform`; a refusal changes no byte.
#[tactic(auto, using(rm::proofs::Judging::step_sound), unfolding(rm::specs::Rm::rm_step, message::specs::Outcome::and_then))]
pub fn step(
    plan: Plan,
    states: &mut [u8],
    network: &mut [u8],
    event: &[u8],
) -> Result<Sent, Refusal>
    ensures { step_of result states.new network.new ≡
        rm_step plan states.old network.old event.now }
{
    judge(plan, states, network)?;
    rm::perform(plan, states, network, event)
}
