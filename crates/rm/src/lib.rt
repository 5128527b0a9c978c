#![tactic(auto)]
// The step of a resource manager (document 01: a weight), kinds 0, 1 and 2, on tables that were judged: RMPrepare, RMChooseToAbort,
// RMRcvCommitMsg and RMRcvAbortMsg of document 001. It is lent W and N. The call by itself, which judges the tables first, is the crate
// rm_call.
//
//     are_states             row 3 of "Refusals by place"
//     evaluate, perform      what an event comes to, and that stored (see the crate change)
ghost use Rattle.std.specs.Prelude.{◌≡◌};
ghost use Rattle.message.specs.Outcome.{and_then, outcome};
ghost use Rattle.slots.specs.Table.Scan.{peek_at};
ghost use Rattle.slots.specs.View.Bytes.{view_bytes};
ghost use Rattle.change.specs.Change.{step_of, applied};
ghost use Rattle.rm.specs.Rm.{are_states, rm_choose, rm_decided, rm_receive_decision, rm_receive, rm_verdict};

use change::{Change, Sent, Update};
use event::Kind;
use message::{Message, Plan, Refusal};
use tcommit::RmState;

// A resource manager, by its number and its state, a byte here: W has any where nobody judged it.
#[derive(Clone, Copy)]
struct Rm {
    who: u8,
    state: u8,
}

impl Rm {
    // Kinds 0 and 1: from working to `next`, sending the 2a at ballot 0 with the value. 12 where not working, 13 without room in N.
    #[tactic(auto, unfolding(crate::specs::Rm::rm_choose, message::specs::Outcome::refuse_if, slots::specs::View::sending))]
    fn choose(self, plan: Plan, network: &[u8], next: u8, val: u8) -> Result<Change, Refusal>
        ensures { outcome result ≡ rm_choose (view_bytes plan network.now) self.who self.state next val }
    {
        if self.state != RmState::WORKING {
            return Err(Refusal::NotEnabled);
        }
        let m = Message::Phase2a {
            ins: self.who,
            bal: 0,
            val,
        };
        let sending = search::send_message(plan, network, m).ok_or(Refusal::NetworkFull)?;
        Ok(Change {
            table: Update::State {
                who: self.who as usize,
                state: next,
            },
            network: sending.put,
            sent: Sent::Slot(sending.slot),
        })
    }

    fn decided(self, next: u8) -> Result<Change, Refusal>
        ensures { outcome result ≡ rm_decided self.who next }
    {
        Ok(Change {
            table: Update::State {
                who: self.who as usize,
                state: next,
            },
            network: None,
            sent: Sent::Quiet,
        })
    }

    // A decision: Commit while working or aborted, and Abort while committed, is 11.
    #[tactic(auto, unfolding(crate::specs::Rm::rm_receive_decision, message::specs::Outcome::refuse_if))]
    fn receive_decision(self, val: u8) -> Result<Change, Refusal>
        ensures { outcome result ≡ rm_receive_decision self.who self.state val }
    {
        if val == 1 {
            if self.state == RmState::WORKING {
                return Err(Refusal::Contradiction);
            }
            if self.state == RmState::ABORTED {
                return Err(Refusal::Contradiction);
            }
            return self.decided(RmState::COMMITTED);
        }
        if self.state == RmState::COMMITTED {
            return Err(Refusal::Contradiction);
        }
        self.decided(RmState::ABORTED)
    }

    // 9 where the message is no decision.
    #[tactic(auto, unfolding(crate::specs::Rm::rm_receive))]
    fn receive(self, m: Message) -> Result<Change, Refusal>
        ensures { outcome result ≡ rm_receive self.who self.state m }
    {
        match m {
            Message::Decision { val } => self.receive_decision(val),
            _ => Err(Refusal::Role),
        }
    }

    // Kind 2: 8 where the slot has no message.
    #[tactic(auto, unfolding(message::specs::Outcome::and_then))]
    fn receive_at(self, network: &[u8], slot: usize) -> Result<Change, Refusal>
        ensures { outcome result ≡ and_then (peek_at network.now slot) (rm_receive self.who self.state) }
    {
        let m = slots::message_at(network, slot)?;
        self.receive(m)
    }
}

// What the event comes to: 1 for the plan, 7 where it is no event of a resource manager, then 8, 9, 11, 12 or 13. It judges no
// table: in one that nobody judged it takes the slot's bytes for a message.
#[tactic(auto, using(event::proofs::Reading::unread), unfolding(crate::specs::Rm::rm_verdict, message::specs::Outcome::refuse_if))]
pub fn evaluate(plan: Plan, states: &[u8], network: &[u8], event: &[u8]) -> Result<Change, Refusal>
    ensures { outcome result ≡ rm_verdict plan states.now (view_bytes plan network.now) event.now }
{
    if !message::is_plan(plan) {
        return Err(Refusal::Plan);
    }
    let Some(event) = event::read_event(plan, event) else {
        return Err(Refusal::Event);
    };
    let rm = Rm {
        who: event.who,
        state: message::byte_at(states, event.who as usize),
    };
    let (next, val) = match event.kind {
        Kind::Prepare => (RmState::PREPARED, 1),
        Kind::ChooseToAbort => (RmState::ABORTED, 2),
        Kind::TakeDecision => return rm.receive_at(network, event.slot()),
        _ => return Err(Refusal::Event),
    };
    rm.choose(plan, network, next, val)
}

// Evaluates and stores; a refusal changes no byte. It judges no table.
pub fn perform(
    plan: Plan,
    states: &mut [u8],
    network: &mut [u8],
    event: &[u8],
) -> Result<Sent, Refusal>
    ensures { step_of result states.new network.new ≡
        applied plan states.old network.old (rm_verdict plan states.old (view_bytes plan network.old) event.now) }
{
    let verdict = evaluate(plan, states, network, event);
    change::apply(plan, states, network, verdict)
}

// Whether every byte of W is a state; where one is not, 3. The states are the numbers of two bits.
#[tactic(auto, unfolding(crate::specs::Rm::are_states))]
pub fn are_states(states: &[u8]) -> bool
    ensures { result ≡ are_states states.now }
{
    slots::are_two_bits(states)
}
