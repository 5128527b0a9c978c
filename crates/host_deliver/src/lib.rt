#![tactic(auto)]
// A delivery for other languages: what comes from the wire goes into a host's N. Numbers and byte slices in, one number out.
//
//     paxos_commit_deliver     what came to a host, put into its N
//
// What the number means stands in specs/Code.antt.
// The counts and the order number come one by one, as hosts/c/paxos_commit.h declares them.
ghost use Rattle.std.specs.Prelude.{◌≡◌};
ghost use Rattle.deliver.specs.Deliver.{deliver_step};
ghost use Rattle.host_code.specs.Code.{plan_of};
ghost use Rattle.host_deliver.specs.Code.{host_delivery, host_delivery_of};

use message::Plan;

// What came to a host: the message that the bytes are, put into the first unused slot of N (`network`) unless it stands there. Accepted:
// the first slot where it stands. Refused: 65536 and the number, which is 1, 2, 5, 13 or 15 to 18; then no byte changes.
#[unsafe(no_mangle)]
pub extern "C" fn paxos_commit_deliver(
    rms: u8,
    acceptors: u8,
    leaders: u8,
    order: u16,
    network: &mut [u8],
    bytes: &[u8],
) -> u32
    ensures { host_delivery result network.new ≡
        host_delivery_of (deliver_step (plan_of rms acceptors leaders order) network.old bytes.now) }
{
    let plan = Plan {
        rms,
        acceptors,
        leaders,
        order,
    };
    host_code::answer_code(deliver::deliver(plan, network, bytes))
}
