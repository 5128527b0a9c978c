#![tactic(auto)]
// Slot tables: the network N, or one inbox, as a slice of bytes (document 01, "The plan and four tables").
//
//     is_table_length                  row 2 of "Refusals by place": whole slots, at most 1,024
//     message_at                       the message in a slot of a judged table
//     near_edge, edge                  where the used slots of a judged table end
//     Place, store_message             where a message stands or may be appended, and putting it there
//     Put, Sending, apply_store        what sending a message comes to, decided before anything is stored, and storing it
//     set_byte                         a byte of a table
//     are_two_bits                     whether every byte is at most 3
//
// Looking for a message is the crate `search`, judging whole tables the crate `tables`.
// What each of them means stands in specs/. No public function has a `requires`, and none looks past its table.
ghost use Rattle.std.specs.Prelude.{◌≡◌, ◌/◌, ◌≤◌, ◌<◌, leb, length, set};
ghost use Rattle.slots.specs.All.{all};
ghost use Rattle.slots.specs.Table.{slot_size, is_table_length, store_at};
ghost use Rattle.message.specs.Form.{slot_of};
ghost use Rattle.message.specs.Outcome.{outcome};
ghost use Rattle.slots.specs.Table.Scan.{peek_slot, slot_message, peek_at, steps_from, near_edge, edge};
ghost use Rattle.slots.specs.View.{store_bytes};

use message::{Message, Plan, Refusal, SLOT_SIZE};

// The most slots that a table may have.
pub const MAX_SLOTS: usize = 1024;

// Whether a table may have this many bytes: whole slots, at most MAX_SLOTS. Where it may not, events and opening refuse 2.
#[tactic(auto, unfolding(crate::specs::Table::is_table_length))]
pub fn is_table_length(len: usize) -> bool
    ensures { result ≡ is_table_length len }
{
    len % SLOT_SIZE == 0 && len / SLOT_SIZE <= MAX_SLOTS
}

// The message that a slot's bytes make, or 8 in an unused slot.
fn slot_message(slot: &[u8]) -> Result<Message, Refusal>
    ensures { outcome result ≡ slot_message (peek_slot slot.now) }
{
    if message::byte_at(slot, 0) == 0 {
        return Err(Refusal::Slot);
    }
    Ok(codec::decode_message(slot))
}

// The message in the slot at a place of a table that was judged before: 8 where the slot is unused or beyond the table. In one that nobody
// judged every first byte but 0 is taken for a map.
pub fn message_at(table: &[u8], place: usize) -> Result<Message, Refusal>
    ensures { outcome result ≡ peek_at table.now place }
{
    let count = table.len() / SLOT_SIZE;
    if count <= place {
        return Err(Refusal::Slot);
    }
    let from = place * SLOT_SIZE;
    let to = from + SLOT_SIZE;
    slot_message(&table[from..to])
}

// From a place on by steps of so many slots, as long as the last slot of each is used. A `while`, since the answer is where it stops: a chain
// would count the steps and multiply.
fn next_edge(table: &[u8], from: usize, step: usize) -> usize
    requires { (from ≤ length table.now / slot_size) × (0 < step) }
    ensures { (result ≡ steps_from table.now step (length table.now / slot_size) from) × (result ≤ length table.now / slot_size) }
{
    let count = table.len() / SLOT_SIZE;
    let mut place = from;
    while step <= count - place {
        let last = place + step - 1;
        if table[last * SLOT_SIZE] == 0 {
            return place;
        }
        place += step;
    }
    place
}

// A place before which all slots of a judged table are used, and after which less than 16 are.
pub fn near_edge(table: &[u8]) -> usize
    ensures { result ≡ near_edge table.now }
{
    next_edge(table, next_edge(table, 0, 128), 16)
}

// Where the used slots of a judged table end, by the first bytes of some of them.
pub fn edge(table: &[u8]) -> usize
    ensures { result ≡ edge table.now }
{
    next_edge(table, near_edge(table), 1)
}

// Where a message stands in a table that was judged before, where it may be appended, or that there is no room.
#[derive(Clone, Copy, Debug, PartialEq, Eq)]
pub enum Place {
    At(usize),
    Free(usize),
    Full,
}

// Byte by byte: `copy_from_slice` also tests whether the two lie apart, which makes a store longer by a fifth.
fn copy_form(slot: &mut [u8], form: &[u8])
    requires { (length slot.old ≡ slot_size) × (length form.now ≡ slot_size) }
    ensures { slot.new ≡ form.now }
{
    for i in 0..SLOT_SIZE {
        slot[i] = form[i];
    }
}

// Puts a message, followed by zeros, into the slot at a place. Past the table's end nothing changes.
fn store_message(plan: Plan, table: &mut [u8], place: usize, m: Message)
    ensures { table.new ≡ store_at table.old place (slot_of plan m) }
{
    let count = table.len() / SLOT_SIZE;
    if count <= place {
        return;
    }
    let form = message::encode(plan, m);
    let from = place * SLOT_SIZE;
    let to = from + SLOT_SIZE;
    copy_form(&mut table[from..to], &form);
}

// A message that a step puts into the slot at a place of a table; a step that stores none there has `None`.
#[derive(Clone, Copy, Debug, PartialEq, Eq)]
pub struct Put {
    pub place: usize,
    pub m: Message,
}

// A message sent: the first slot where it then stands, and what is put there for it. Where there is no room nothing is sent: `None`.
#[derive(Clone, Copy, Debug, PartialEq, Eq)]
pub struct Sending {
    pub slot: usize,
    pub put: Option<Put>,
}

// Stores what a step decided to store.
pub fn apply_store(plan: Plan, table: &mut [u8], put: Option<Put>)
    ensures { table.new ≡ store_bytes plan put table.old }
{
    if let Some(put) = put {
        store_message(plan, table, put.place, put.m);
    }
}

// Sets the byte at an index. Past the table's end nothing changes.
pub fn set_byte(table: &mut [u8], at: usize, byte: u8)
    ensures { table.new ≡ set table.old at byte }
{
    if at < table.len() {
        table[at] = byte;
    }
}

// Whether every byte is a number of two bits, which it is exactly where all bits together are.
pub fn are_two_bits(bytes: &[u8]) -> bool
    ensures { result ≡ all (λ b. leb b 3) bytes.now }
{
    bytes.iter().fold(0, |bits, byte| bits | *byte) <= 3
}
