#![tactic(auto)]
// Looking for a message in a table, and what sending one comes to. In a table that nobody judged it looks at the slots before the edge,
// whatever they hold.
//
//     eight_from              a slot's bytes as one number, so that it is compared in one step
//     hits                    whether one of so many slots begins as the form does, without a branch
//     passed_to, find_from    past so many slots at a time, and slot by slot
//     find_before             the first slot that is the form
//     locate_form             that slot before the edge, or the one there
//     form_of                 the eight bytes of a message as one number, its form
//     locate_message          where a message stands or goes
//     send_message            the same, with what is to be stored, decided before anything is stored
//
// What each of them means stands in the specs/ of `slots`; how bytes are taken as numbers, and blocks, in specs/. No public function has
// a `requires`, and none looks past its table.
ghost use Rattle.std.specs.Prelude.{false, ◌≡◌, ◌+◌, ◌/◌, ◌≤◌, ◌<◌, length};
ghost use Rattle.message.specs.Form.{slot_of};
ghost use Rattle.slots.specs.Table.{slot_size};
ghost use Rattle.slots.specs.Table.Scan.{locate};
ghost use Rattle.slots.specs.View.Bytes.{view_bytes};
ghost use Rattle.search.specs.Words.{EightFrom};
ghost use Rattle.search.specs.Blocks.{NoneBegins, Passed, Found, Located};

use message::{Message, Plan, SLOT_SIZE};
use slots::{Place, Put, Sending};

// So many slots are looked at together without a branch: a block, and then a row. The compiler takes all but the last of a block in vector
// steps, since it does not load past it.
const BLOCK_SLOTS: usize = 73;

const ROW_SLOTS: usize = 16;

// The lowest byte of a number is what it leaves when divided by this.
const BYTE: u64 = 0x100;

// And its lower word.
const WORD: u64 = 0x1_0000_0000;

// Eight bytes from an index on as one number, the first of them the lowest, so that a slot is compared in one step.
fn eight_from(bytes: &[u8], at: usize) -> u64
    requires { at + slot_size ≤ length bytes.now }
    ensures { EightFrom bytes.now at result }
{
    u64::from_le_bytes([
        bytes[at],
        bytes[at + 1],
        bytes[at + 2],
        bytes[at + 3],
        bytes[at + 4],
        bytes[at + 5],
        bytes[at + 6],
        bytes[at + 7],
    ])
}

// Whether one of so many slots begins with `head`. No branch depends on a slot, so that many are looked at in one step; its word is read by
// itself, since of numbers of eight bytes the compiler takes two in a step and not four.
fn hits(table: &[u8], place: usize, slots: usize, head: u32) -> bool
    requires { place + slots ≤ length table.now / slot_size }
    ensures { result ≡ false → NoneBegins table.now head place (place + slots) }
{
    let mut any = false;
    for i in 0..slots {
        let at = (place + i) * SLOT_SIZE;
        let word = u32::from_le_bytes([table[at], table[at + 1], table[at + 2], table[at + 3]]);
        any |= word == head;
    }
    any
}

// From a place on, so many slots at a time, up to those of which one may be the form, or fewer than so many before `end`.
fn passed_to(table: &[u8], from: usize, end: usize, slots: usize, form: u64) -> usize
    requires { (from ≤ end) × (end ≤ length table.now / slot_size) × (1 ≤ slots) }
    ensures { Passed table.now form from end result }
{
    let head = (form % WORD) as u32;
    // A `while`: `(from..end).step_by(slots)` also begins at the place of a part that is shorter. `passed_blocks` of `inbox` walks alike with another
    // test, and stays apart: a walk that both call would be public, and could not require that the test may look at the table up to `end`.
    let mut place = from;
    while slots <= end - place {
        if hits(table, place, slots, head) {
            return place;
        }
        place += slots;
    }
    place
}

// The first slot from a place on that is the form, slot by slot, or `end`, from where the search goes on.
fn find_from(table: &[u8], from: usize, end: usize, form: u64) -> usize
    requires { (from ≤ end) × (end ≤ length table.now / slot_size) }
    ensures { Found table.now form from end result }
{
    for place in from..end {
        if eight_from(table, place * SLOT_SIZE) == form {
            return place;
        }
    }
    end
}

// The first slot that is the form, or `end`: past blocks, then past rows, and in a row that may have it slot by slot.
fn find_before(table: &[u8], end: usize, form: u64) -> usize
    requires { end ≤ length table.now / slot_size }
    ensures { Found table.now form 0 end result }
{
    let mut place = passed_to(table, 0, end, BLOCK_SLOTS, form);
    // A `while`, since a row begins where `passed_to` ends.
    while place < end {
        let from = passed_to(table, place, end, ROW_SLOTS, form);
        let row = ROW_SLOTS.min(end - from);
        let to = from + row;
        let found = find_from(table, from, to, form);
        if found < to {
            return found;
        }
        place = to;
    }
    place
}

// The first slot that is the form before the edge of the table, else the slot there, else none. Up to the place near the edge no slot is
// looked at for being unused, and from there on each is.
fn locate_form(table: &[u8], form: u64) -> Place
    ensures { Located table.now form result }
{
    let near = slots::near_edge(table);
    let found = find_before(table, near, form);
    if found < near {
        return Place::At(found);
    }
    for place in near..table.len() / SLOT_SIZE {
        let slot = eight_from(table, place * SLOT_SIZE);
        if slot % BYTE == 0 {
            return Place::Free(place);
        }
        if slot == form {
            return Place::At(place);
        }
    }
    Place::Full
}

// The eight bytes of a message's slot as one number.
fn form_of(plan: Plan, m: Message) -> u64
    ensures { EightFrom (slot_of plan m) 0 result }
{
    u64::from_le_bytes(message::encode(plan, m))
}

// The first slot before the edge where an equal message stands, else the slot there; or that there is no room.
pub fn locate_message(plan: Plan, table: &[u8], m: Message) -> Place
    ensures { result ≡ locate table.now (slot_of plan m) }
{
    locate_form(table, form_of(plan, m))
}

// Looks where the message stands or may be appended; `None` where there is no room. It stores nothing yet, and nothing is to be
// put where an equal one stands. It calls
// `locate_form` itself, as `locate_message` does: a function with two callers stays out of line, so the search is compiled once and this
// goes into its callers.
pub fn send_message(plan: Plan, table: &[u8], m: Message) -> Option<Sending>
    ensures { result ≡ (view_bytes plan table.now).send m }
{
    match locate_form(table, form_of(plan, m)) {
        Place::At(slot) => Some(Sending { slot, put: None }),
        Place::Free(slot) => Some(Sending {
            slot,
            put: Some(Put { place: slot, m }),
        }),
        Place::Full => None,
    }
}
