#![tactic(auto)]
// The reader and the writer for other languages: numbers and a byte slice in, one number out.
//
//     paxos_commit_read       the message that a slice is
//     paxos_commit_write      the byte form of a message, given by its map and its fields
//     paxos_commit_length     how many bytes the form with this map has
//
// What the numbers mean stands in specs/Code.antt.
// The counts and the order number come one by one, as hosts/c/paxos_commit.h declares them.
ghost use Rattle.std.specs.Prelude.{◌*◌, ◌∷◌, ◌≡◌, length, get_or};
ghost use Rattle.message.specs.Outcome.{outcome, refusal_number};
ghost use Rattle.message.specs.Form.{map_length, decode};
ghost use Rattle.message.specs.Codec.{read_message, write_message};
ghost use Rattle.host_code.specs.Code.{plan_of, packed};
ghost use Rattle.host_message.specs.Code.{fields_of, message_of, read_code, host_write, written_code};

use host_code::pack;
use message::{
    ACC, BAL_1A, BAL_1B, BAL_2A, BAL_2B, INS, MAP_1A, MAP_1B, MAP_1B_VOTE, MAP_2A, MAP_2B,
    MAP_DECISION, MBAL_1B, Message, Plan, Refusal, VAL_1B, VAL_2A, VAL_2B, VAL_DECISION, Vote,
    Written,
};

// The number of a message's bytes: 0, the map, and ins, acc, mbal, bal and val, 0 for one that the message does not have. Each field is
// read straight from its place.
fn message_code(bytes: &[u8]) -> u64
    requires { length bytes.now ≡ map_length (get_or bytes.now 0 0) }
    ensures { result ≡ packed (0 ∷ fields_of (decode bytes.now)) }
{
    match message::byte_at(bytes, 0) {
        MAP_1A => pack([0, MAP_1A, bytes[INS], 0, 0, bytes[BAL_1A], 0, 0]),
        MAP_1B => pack([0, MAP_1B, bytes[INS], bytes[ACC], bytes[MBAL_1B], 0, 0, 0]),
        MAP_1B_VOTE => pack([
            0,
            MAP_1B_VOTE,
            bytes[INS],
            bytes[ACC],
            bytes[MBAL_1B],
            bytes[BAL_1B],
            bytes[VAL_1B],
            0,
        ]),
        MAP_2A => pack([0, MAP_2A, bytes[INS], 0, 0, bytes[BAL_2A], bytes[VAL_2A], 0]),
        MAP_2B => pack([
            0,
            MAP_2B,
            bytes[INS],
            bytes[ACC],
            0,
            bytes[BAL_2B],
            bytes[VAL_2B],
            0,
        ]),
        _ => pack([
            0,
            MAP_DECISION,
            0,
            0,
            0,
            0,
            message::byte_at(bytes, VAL_DECISION),
            0,
        ]),
    }
}

// The reader. Byte 0 of the number, the lowest, is 0 where the slice is exactly one message; byte 1 is then its map, and bytes 2 to 6
// are ins, acc, mbal, bal and val, 0 for one that it does not have. Else the number is the refusal: 1, 15, 16, 17 or 18.
#[unsafe(no_mangle)]
pub extern "C" fn paxos_commit_read(
    rms: u8,
    acceptors: u8,
    leaders: u8,
    order: u16,
    bytes: &[u8],
) -> u64
    ensures { result ≡ read_code (read_message (plan_of rms acceptors leaders order) bytes.now) }
{
    let plan = Plan {
        rms,
        acceptors,
        leaders,
        order,
    };
    match refusal::message_refusal(plan, bytes) {
        Ok(()) => message_code(bytes),
        Err(refusal) => refusal.number() as u64,
    }
}

// The number of a writer's refusal.
fn refusal_code(refusal: Refusal) -> u64
    ensures { result ≡ 256 * refusal_number refusal }
{
    256 * (refusal.number() as u64)
}

// The number of a writer's answer.
fn written_code(written: Written) -> u64
    ensures { result ≡ written_code written }
{
    if written.number != 0 {
        return 256 * (written.number as u64);
    }
    pack(written.bytes)
}

// The number of what the writer answers for a message.
fn write_code(plan: Plan, m: Message) -> u64
    ensures { result ≡ written_code (write_message plan m) }
{
    written_code(codec::write_message(plan, m))
}

// The message with a map and fields, of which those that it does not have are not looked at; 15 for another map.
fn message_of(map: u8, ins: u8, acc: u8, mbal: u8, bal: u8, val: u8) -> Result<Message, Refusal>
    ensures { outcome result ≡ message_of map ins acc mbal bal val }
{
    match map {
        MAP_1A => Ok(Message::Phase1a { ins, bal }),
        MAP_1B => Ok(Message::Phase1b {
            ins,
            acc,
            mbal,
            vote: None,
        }),
        MAP_1B_VOTE => Ok(Message::Phase1b {
            ins,
            acc,
            mbal,
            vote: Some(Vote { bal, val }),
        }),
        MAP_2A => Ok(Message::Phase2a { ins, bal, val }),
        MAP_2B => Ok(Message::Phase2b { ins, acc, bal, val }),
        MAP_DECISION => Ok(Message::Decision { val }),
        _ => Err(Refusal::Map),
    }
}

// The writer, of the message with a map and fields. The number's bytes, the lowest first, are the message followed by zeros; its first
// byte is the map, which is never 0 and stands for the length (paxos_commit_length). Else byte 0 is 0 and byte 1 the refusal: 1, 15 for
// another map, or 17. Document 01's writer has no 15, since it is given a message, which has a kind.
#[unsafe(no_mangle)]
pub extern "C" fn paxos_commit_write(
    rms: u8,
    acceptors: u8,
    leaders: u8,
    order: u16,
    map: u8,
    ins: u8,
    acc: u8,
    mbal: u8,
    bal: u8,
    val: u8,
) -> u64
    ensures { result ≡ written_code (host_write (plan_of rms acceptors leaders order) map ins acc mbal bal val) }
{
    let plan = Plan {
        rms,
        acceptors,
        leaders,
        order,
    };
    if !message::is_plan(plan) {
        return refusal_code(Refusal::Plan);
    }
    match message_of(map, ins, acc, mbal, bal, val) {
        Ok(m) => write_code(plan, m),
        Err(refusal) => refusal_code(refusal),
    }
}

// How many bytes the message has that begins with this map; 0 for what is no map, as the 0 that a refusal of the writer begins with.
#[unsafe(no_mangle)]
pub extern "C" fn paxos_commit_length(map: u8) -> u32
    ensures { result ≡ map_length map }
{
    message::map_length(map) as u32
}
