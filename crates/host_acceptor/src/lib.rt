#![tactic(auto)]
// The step of an acceptor, kind 3, for other languages: numbers and byte slices in, one number out. It is lent
// Q (`votes`) and N (`network`). Its static library has no other role's code.
// The counts and the order number come one by one, as hosts/c/paxos_commit.h declares them.
ghost use Rattle.std.specs.Prelude.{◌≡◌};
ghost use Rattle.acceptor.specs.Acceptor.{acceptor_step};
ghost use Rattle.host_code.specs.Code.{plan_of, host_step, host_step_of};

use message::Plan;

// The step. Accepted: the slot of N where the sent message stands. Refused: 65536 and the number, which is 1, 2, 4, 5, 7, 8, 9, 12 or
// 13; then no byte changes.
#[unsafe(no_mangle)]
pub extern "C" fn paxos_commit_acceptor_step(
    rms: u8,
    acceptors: u8,
    leaders: u8,
    order: u16,
    votes: &mut [u8],
    network: &mut [u8],
    event: &[u8],
) -> u32
    ensures { host_step result votes.new network.new ≡
        host_step_of (acceptor_step (plan_of rms acceptors leaders order) votes.old network.old event.now) }
{
    let plan = Plan {
        rms,
        acceptors,
        leaders,
        order,
    };
    host_code::answer_code(acceptor_call::step(plan, votes, network, event))
}
