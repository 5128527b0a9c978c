#![tactic(auto)]
// The reader and the writer (document 01, "Message bytes"; document 02, Paper 1): from a slice to the message that it is, and back.
//
//     decode_message                 the message that the bytes of a known map make
//     read_message                   the reader
//     write_message                  the writer
//
// What each of them means stands in message/specs/, with the byte form and its theorems. The number that a slice is refused with is told by
// the crate refusal.
ghost use Rattle.std.specs.Prelude.{◌≡◌};
ghost use Rattle.message.specs.Outcome.{accepted, and_then, outcome};
ghost use Rattle.message.specs.Form.{fields_message, decode};
ghost use Rattle.message.specs.Codec.{read_message, written, write_message};

use message::{
    MAP_1A, MAP_1B, MAP_1B_VOTE, MAP_2A, MAP_2B, Message, Plan, Refusal, SLOT_SIZE, Vote, Written,
};

// The message that a known map and the five bytes after it make.
fn fields_message(map: u8, b1: u8, b2: u8, b3: u8, b4: u8, b5: u8) -> Message
    ensures { result ≡ fields_message map b1 b2 b3 b4 b5 }
{
    match map {
        MAP_1A => Message::Phase1a { ins: b1, bal: b2 },
        MAP_1B => Message::Phase1b {
            ins: b1,
            acc: b2,
            mbal: b3,
            vote: None,
        },
        MAP_1B_VOTE => Message::Phase1b {
            ins: b1,
            acc: b2,
            mbal: b3,
            vote: Some(Vote { bal: b4, val: b5 }),
        },
        MAP_2A => Message::Phase2a {
            ins: b1,
            bal: b2,
            val: b3,
        },
        MAP_2B => Message::Phase2b {
            ins: b1,
            acc: b2,
            bal: b3,
            val: b4,
        },
        _ => Message::Decision { val: b1 },
    }
}

// The message that the bytes make where their map is known; a byte that is no map is taken for a decision's. It judges nothing.
pub fn decode_message(bytes: &[u8]) -> Message
    ensures { result ≡ decode bytes.now }
{
    fields_message(
        message::byte_at(bytes, 0),
        message::byte_at(bytes, 1),
        message::byte_at(bytes, 2),
        message::byte_at(bytes, 3),
        message::byte_at(bytes, 4),
        message::byte_at(bytes, 5),
    )
}

// The reader. The slice is exactly one message: that message, or its refusal.
pub fn read_message(plan: Plan, bytes: &[u8]) -> Result<Message, Refusal>
    ensures { outcome result ≡ read_message plan bytes.now }
{
    // Not by `?`, which names no refusal: so an edit of the refusal alone is refused by the contract, and by nothing else.
    if let Err(refusal) = refusal::message_refusal(plan, bytes) {
        return Err(refusal);
    }
    Ok(decode_message(bytes))
}

// Whether the writer takes a message: 1, or 17 (a field out of range).
fn judge_fields(plan: Plan, m: Message) -> Result<(), Refusal>
    ensures { written plan (and_then (outcome result) (λ _. accepted m)) ≡ write_message plan m }
{
    if !message::is_plan(plan) {
        return Err(Refusal::Plan);
    }
    if !message::in_range(plan, m) {
        return Err(Refusal::Field);
    }
    Ok(())
}

// The writer: the byte form of a message, or 1 or 17.
#[tactic(auto, unfolding(message::specs::Outcome::and_then))]
pub fn write_message(plan: Plan, m: Message) -> Written
    ensures { result ≡ write_message plan m }
{
    if let Err(refusal) = judge_fields(plan, m) {
        return Written {
            number: refusal.number(),
            bytes: [0; SLOT_SIZE],
            len: 0,
        };
    }
    let bytes = message::encode(plan, m);
    Written {
        number: 0,
        bytes,
        len: message::map_length(bytes[0]),
    }
}
