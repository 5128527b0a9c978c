#![tactic(auto)]
// The numbers that the calls for other languages (the crates host_*) answer. It depends on no role, so each role's library has them
// without another role's code.
//
//     answer_code     a step's answer as a number
//     pack            eight bytes as a number
//
// What each of them means stands in specs/Code.antt.
ghost use Rattle.std.specs.Prelude.{◌≡◌};
ghost use Rattle.message.specs.Outcome.{outcome};
ghost use Rattle.host_code.specs.Code.{sent_code, answer_code, packed};

use change::Sent;
use message::Refusal;

// The slot's number, or 65535 for quiet. A slot of N is below 1,024; past it, which no call reaches, it is 65534.
fn sent_code(sent: Sent) -> u32
    ensures { result ≡ sent_code sent }
{
    match sent {
        Sent::Slot(slot) => {
            if slots::MAX_SLOTS <= slot {
                return 65534;
            }
            slot as u32
        }
        Sent::Quiet => 65535,
    }
}

// The number of an acceptance, below 65536; or 65536 and the refusal's number.
pub fn answer_code(answer: Result<Sent, Refusal>) -> u32
    ensures { result ≡ answer_code (outcome answer) }
{
    match answer {
        Ok(sent) => sent_code(sent),
        Err(refusal) => 65536 + refusal.number() as u32,
    }
}

// Eight bytes as one number, the first the lowest.
pub fn pack(bytes: [u8; 8]) -> u64
    ensures { result ≡ packed bytes }
{
    u64::from_le_bytes(bytes)
}
