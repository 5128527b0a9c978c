#![tactic(auto)]
// The plan of an order, the messages, and their one byte form (document 01, "The plan and four tables" and "Message bytes").
//
//     Plan, is_plan                  the three counts, and refusal 1; the order number
//     Message, Vote                  the messages of the protocol; the vote that a 1b reports
//     MAP_1A ..                      the six bit maps
//     INS ..                         where a message's fields stand
//     SLOT_SIZE                      the bytes of a slot
//     is_known, map_length           whether a byte is one of the six maps; the length that it stands for
//     is_value, in_range             the ranges of the fields, and refusal 17
//     Refusal, number_of             the refusals and their numbers; the number of an answer
//     Written                        the answer of the writer, which is the crate `codec`
//     byte_at                        a byte, or 0 past the end
//     order_of                       the order number of two bytes
//     encode                         the byte form by itself
//
// What each of them means stands in specs/, where the reader and the writer are defined too.
ghost use Rattle.std.specs.Prelude.{◌≡◌, ◌+◌, ◌*◌, get_or};
ghost use Rattle.message.specs.Outcome.{number_of, refusal_number, outcome};
ghost use Rattle.message.specs.Plan.{is_plan};
ghost use Rattle.message.specs.Form.{is_value, is_vote, is_in_range, slot_of, is_known, map_length};

// The plan of an order: how many resource managers (document 01: weights), acceptors and leaders it has, and its number (document 02, Paper 1).
#[derive(Clone, Copy, Debug, PartialEq, Eq)]
pub struct Plan {
    pub rms: u8,
    pub acceptors: u8,
    pub leaders: u8,
    pub order: u16,
}

// Whether the plan is in range: 1 to 16 resource managers, 1 to 7 acceptors, 1 to 4 leaders. Where it is not, every call refuses 1. A plan in
// range has no type of its own: its fact would be a ghost field or a model, which tests/contracts.sh refuses, so inner functions require it.
pub fn is_plan(plan: Plan) -> bool
    ensures { result ≡ is_plan plan }
{
    let rms = (1 <= plan.rms) & (plan.rms <= 16);
    let acceptors = (1 <= plan.acceptors) & (plan.acceptors <= 7);
    let leaders = (1 <= plan.leaders) & (plan.leaders <= 4);
    rms & acceptors & leaders
}

// A vote: a ballot and a value. A 1b reports the acceptor's last one, or none (document 01: the vote report).
#[derive(Clone, Copy, Debug, PartialEq, Eq)]
pub struct Vote {
    pub bal: u8,
    pub val: u8,
}

// A message, with raw bytes in its fields: instance, acceptor, ballots, value. A value is a byte, since the writer refuses 17 for one that is
// none, and a table that nobody judged has any (`slots::message_at`).
#[derive(Clone, Copy, Debug, PartialEq, Eq)]
pub enum Message {
    Phase1a {
        ins: u8,
        bal: u8,
    },
    Phase1b {
        ins: u8,
        acc: u8,
        mbal: u8,
        vote: Option<Vote>,
    },
    Phase2a {
        ins: u8,
        bal: u8,
        val: u8,
    },
    Phase2b {
        ins: u8,
        acc: u8,
        bal: u8,
        val: u8,
    },
    Decision {
        val: u8,
    },
}

// The bit maps, as bytes, since they are compared with bytes of slots: bits 0 to 4 stand for ins, acc, mbal, bal and val; bit 5 always
// stands, for the order number.
pub const MAP_1A: u8 = 0x29;

pub const MAP_1B: u8 = 0x27;

pub const MAP_1B_VOTE: u8 = 0x3F;

pub const MAP_2A: u8 = 0x39;

pub const MAP_2B: u8 = 0x3B;

pub const MAP_DECISION: u8 = 0x30;

// Where the fields stand: after the map, in the order of its bits. An instance is in all messages but a decision, an acceptor in a 1b and a
// 2b.
pub const INS: usize = 1;

pub const ACC: usize = 2;

pub const BAL_1A: usize = 2;

pub const MBAL_1B: usize = 3;

pub const BAL_1B: usize = 4;

pub const VAL_1B: usize = 5;

pub const BAL_2A: usize = 2;

pub const VAL_2A: usize = 3;

pub const BAL_2B: usize = 3;

pub const VAL_2B: usize = 4;

pub const VAL_DECISION: usize = 1;

// The bytes of a slot, and of the writer's answer: the longest message fits.
pub const SLOT_SIZE: usize = 8;

// Whether a first byte is one of the six maps.
pub fn is_known(map: u8) -> bool
    ensures { result ≡ is_known map }
{
    (map == MAP_1A)
        | (map == MAP_1B)
        | (map == MAP_1B_VOTE)
        | (map == MAP_2A)
        | (map == MAP_2B)
        | (map == MAP_DECISION)
}

// The length that a first byte stands for: 2 and the count of its ones, or 0 for an unknown map (document 02, Paper 3).
pub fn map_length(map: u8) -> usize
    ensures { result ≡ map_length map }
{
    if !is_known(map) {
        return 0;
    }
    2 + u32::count_ones(map as u32) as usize
}

// Whether a byte is a value: 1 prepared or 2 aborted.
pub fn is_value(val: u8) -> bool
    ensures { result ≡ is_value val }
{
    (1 <= val) & (val <= 2)
}

fn is_vote(vote: Option<Vote>) -> bool
    ensures { result ≡ is_vote vote }
{
    match vote {
        None => true,
        Some(vote) => is_value(vote.val),
    }
}

// Whether every field is in its range under the plan; where one is not, reader and writer refuse 17.
pub fn in_range(plan: Plan, m: Message) -> bool
    ensures { result ≡ is_in_range plan m }
{
    match m {
        Message::Phase1a { ins, bal } => (ins < plan.rms) & (1 <= bal),
        Message::Phase1b {
            ins,
            acc,
            mbal: _,
            vote,
        } => (ins < plan.rms) & (acc < plan.acceptors) & is_vote(vote),
        Message::Phase2a { ins, bal: _, val } => (ins < plan.rms) & is_value(val),
        Message::Phase2b {
            ins,
            acc,
            bal: _,
            val,
        } => (ins < plan.rms) & (acc < plan.acceptors) & is_value(val),
        Message::Decision { val } => is_value(val),
    }
}

// Why a call refuses (document 01, "Refusals by place"; 18 to 20 are document 02's, Papers 1, 2 and 5). Its number is what hosts are told.
#[derive(Clone, Copy, Debug, PartialEq, Eq)]
pub enum Refusal {
    // A count of the plan out of range.
    Plan = 1,
    // A table of another length than the plan's.
    Length = 2,
    // A byte of W that is no state; in Q a vote that is none.
    State = 3,
    Vote = 4,
    // N, and an inbox, that is no table of slots.
    Network = 5,
    Inbox = 6,
    // No event of this role.
    Event = 7,
    // A slot that is unused or beyond N, and one with a message that is not for this role.
    Slot = 8,
    Role = 9,
    // A ballot that the leader doesn't own.
    Ballot = 10,
    // A decision that contradicts the state.
    Contradiction = 11,
    // A guard that does not hold.
    NotEnabled = 12,
    // No room in N, and in the inbox.
    NetworkFull = 13,
    InboxFull = 14,
    // Bytes that are no message: an unknown map, another length than the map's, a field out of range, another order's number.
    Map = 15,
    MessageLength = 16,
    Field = 17,
    Order = 18,
    // A list that is no whole events, or has not an answer for each.
    Events = 19,
    // Bytes that are no summary.
    Summary = 20,
}

impl Refusal {
    // The number of "Refusals by place".
    pub fn number(self) -> u8
        ensures { result ≡ refusal_number self }
    {
        self as u8
    }
}

// The number of an answer: 0 where it is accepted, else the refusal's.
pub fn number_of<T: Copy>(answer: Result<T, Refusal>) -> u8
    ensures { result ≡ number_of (outcome answer) }
{
    match answer {
        Ok(_) => 0,
        Err(refusal) => refusal.number(),
    }
}

// The byte at an index, or 0 past the end.
pub fn byte_at(bytes: &[u8], at: usize) -> u8
    ensures { result ≡ get_or bytes.now at 0 }
{
    bytes.get(at).copied().unwrap_or(0)
}

// The order number of two bytes, the higher first.
pub fn order_of(high: u8, low: u8) -> u16
    ensures { result ≡ 256 * high + low }
{
    u16::from_be_bytes([high, low])
}

fn encode_1b(plan: Plan, ins: u8, acc: u8, mbal: u8, vote: Option<Vote>) -> [u8; SLOT_SIZE]
    ensures { result ≡ slot_of plan (Message.Phase1b ins acc mbal vote) }
{
    let [high, low] = plan.order.to_be_bytes();
    match vote {
        None => [MAP_1B, ins, acc, mbal, high, low, 0, 0],
        Some(vote) => [MAP_1B_VOTE, ins, acc, mbal, vote.bal, vote.val, high, low],
    }
}

// A message followed by zeros, as it stands in a slot of the plan's record. It judges nothing.
pub fn encode(plan: Plan, m: Message) -> [u8; SLOT_SIZE]
    ensures { result ≡ slot_of plan m }
{
    let [high, low] = plan.order.to_be_bytes();
    match m {
        Message::Phase1a { ins, bal } => [MAP_1A, ins, bal, high, low, 0, 0, 0],
        Message::Phase1b {
            ins,
            acc,
            mbal,
            vote,
        } => encode_1b(plan, ins, acc, mbal, vote),
        Message::Phase2a { ins, bal, val } => [MAP_2A, ins, bal, val, high, low, 0, 0],
        Message::Phase2b { ins, acc, bal, val } => [MAP_2B, ins, acc, bal, val, high, low, 0],
        Message::Decision { val } => [MAP_DECISION, val, high, low, 0, 0, 0, 0],
    }
}

// The writer's answer: number 0, a message followed by zeros and its length; or the refusal's number, zeros and 0. It is no Result, since
// document 01's writer gives bytes and a length, all zero, where it refuses too (`written` in specs/Codec.antt).
#[derive(Clone, Copy)]
pub struct Written {
    pub number: u8,
    pub bytes: [u8; SLOT_SIZE],
    pub len: usize,
}
