#![tactic(auto)]
// The step of a leader, kinds 4 to 8, for other languages: numbers and byte slices in, one number out. It is lent
// its inbox, its part of the summary and N (`network`). Its static library has no other role's code.
// The counts and the order number come one by one, as hosts/c/paxos_commit.h declares them.
ghost use Rattle.std.specs.Prelude.{◌≡◌};
ghost use Rattle.leader.specs.Leader.{leader_step};
ghost use Rattle.host_code.specs.Code.{plan_of};
ghost use Rattle.host_leader.specs.Code.{host_leader, host_leader_of};

use message::Plan;

// The step. Accepted: the slot of N where the sent message stands, or 65535 for quiet (kind 4). Refused: 65536 and the number, which
// is 1, 2, 5, 6, 20, 7, 8, 9, 10, 12, 13 or 14, the first of them in this order; then no byte changes.
#[unsafe(no_mangle)]
pub extern "C" fn paxos_commit_leader_step(
    rms: u8,
    acceptors: u8,
    leaders: u8,
    order: u16,
    inbox: &mut [u8],
    summary: &mut [u8],
    network: &mut [u8],
    event: &[u8],
) -> u32
    ensures { host_leader result inbox.new summary.new network.new ≡
        host_leader_of (leader_step (plan_of rms acceptors leaders order)
        inbox.old summary.old network.old event.now) }
{
    let plan = Plan {
        rms,
        acceptors,
        leaders,
        order,
    };
    host_code::answer_code(leader_call::step(plan, inbox, summary, network, event))
}
