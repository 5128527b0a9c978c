#![tactic(auto)]
// Judging tables: N, or N and so many inboxes. Every slot is unused or a readable message with zeros after it, and used slots come first.
//
//     zeros::is_zero         whether a part is zeros alone, in one pass without a branch (zeros.rt)
//     put_row, put_bounds    for each map the lowest byte at each place of a slot, and how far above it a byte may lie
//     beyond                 a byte beside its bounds
//     add_slot               a slot's eight bytes beside the bounds of its map
//     are_forms              whether each of the used slots holds a message
//     is_unused              whether no slot is used
//     is_table_within, are_tables     a table, and so many equal parts, by bounds that were made
//     is_table               row 5 of "Refusals by place" for N alone
//     judge                  rows 5 and 6 for N and the inboxes, and row 1 before them
//
// The reader judges a single message. Tables are judged by bounds instead, made once for all slots of all tables; what they answer is proved
// to be what the reader says. The bounds are forms of messages, so where a field stands is message's knowledge alone. No public function has
// a `requires`, and none looks past its tables.
ghost use Rattle.std.specs.Prelude.{true, ◌&&◌, ◌≡◌, ◌*◌, ◌/◌, ◌%◌, ◌≤◌, eqb, length, get_or, set, take};
ghost use Rattle.message.specs.Plan.{is_plan};
ghost use Rattle.message.specs.Form.{slot_of};
ghost use Rattle.slots.specs.Table.{slot_size, is_zero, is_table};
ghost use Rattle.message.specs.Outcome.{outcome};
ghost use Rattle.tables.specs.Tables.{are_tables, tables_judged};
ghost use Rattle.tables.specs.Tables.Bounds.{is_within, no_order, set_rows, put_bounds, Bounded, is_form};
ghost use Rattle.tables.specs.Tables.Edge.{are_used};

mod zeros;

use message::{Message, Plan, Refusal, SLOT_SIZE, Vote};
use zeros::is_zero;

// A row for each first byte of a slot, and one more. A map's lowest bytes are in its row, and how far above them a byte may lie in the next:
// no known map follows another. With a row for each byte no remainder is taken, and both rows are found by one index. Pairs of rows would be
// four kilobytes, and calls with few messages took up to 1.05 times as long.
const ROWS: usize = 256;

const BOUNDS: usize = 257;

// Spans are written as the fields of a message, and the order number has none.
const NO_ORDER: Plan = Plan {
    rms: 0,
    acceptors: 0,
    leaders: 0,
    order: 0,
};

// The rows of a map: its lowest message of the plan, and one whose fields are the spans. The map needs no bound, since it has the row.
// Inlined, so that the compiler knows the two messages' variants.
#[inline(always)]
fn put_row(bounds: &mut [[u8; SLOT_SIZE]; BOUNDS], plan: Plan, low: Message, span: Message)
    ensures { bounds.new ≡
        set_rows bounds.old (get_or (slot_of plan low) 0 0 % 256) (set (slot_of plan low) 0 0) (set (slot_of no_order span) 0 254) }
{
    let mut lowest = message::encode(plan, low);
    let mut spans = message::encode(NO_ORDER, span);
    let row = lowest[0] as usize % ROWS;
    lowest[0] = 0;
    spans[0] = 254;
    bounds[row] = lowest;
    bounds[row + 1] = spans;
}

// The bounds of a plan, where all were zeros. The lowest fields: 1 for a value and for the ballot of a 1a, else 0. How far above them: up to
// the last instance and acceptor of the plan, 1 for a value, 255 for a ballot (254 in a 1a), and not at all for the order number and the
// zeros after it. In the rows of an unknown map the first byte is bounded to another one.
fn put_bounds(bounds: &mut [[u8; SLOT_SIZE]; BOUNDS], plan: Plan)
    requires { is_plan plan ≡ true }
    ensures { bounds.new ≡ put_bounds plan bounds.old }
{
    let ins = plan.rms - 1;
    let acc = plan.acceptors - 1;
    bounds[0] = [1, 0, 0, 0, 0, 0, 0, 0];
    put_row(
        bounds,
        plan,
        Message::Phase1a { ins: 0, bal: 1 },
        Message::Phase1a { ins, bal: 254 },
    );
    put_row(
        bounds,
        plan,
        Message::Phase1b {
            ins: 0,
            acc: 0,
            mbal: 0,
            vote: None,
        },
        Message::Phase1b {
            ins,
            acc,
            mbal: 255,
            vote: None,
        },
    );
    put_row(
        bounds,
        plan,
        Message::Phase1b {
            ins: 0,
            acc: 0,
            mbal: 0,
            vote: Some(Vote { bal: 0, val: 1 }),
        },
        Message::Phase1b {
            ins,
            acc,
            mbal: 255,
            vote: Some(Vote { bal: 255, val: 1 }),
        },
    );
    put_row(
        bounds,
        plan,
        Message::Phase2a {
            ins: 0,
            bal: 0,
            val: 1,
        },
        Message::Phase2a {
            ins,
            bal: 255,
            val: 1,
        },
    );
    put_row(
        bounds,
        plan,
        Message::Phase2b {
            ins: 0,
            acc: 0,
            bal: 0,
            val: 1,
        },
        Message::Phase2b {
            ins,
            acc,
            bal: 255,
            val: 1,
        },
    );
    let decision = Message::Decision { val: 1 };
    put_row(bounds, plan, decision, decision);
}

// By how much a byte lies beyond its bounds: how far above the lowest one, round past 255, and how far above the span.
fn beyond(low: u8, byte: u8, span: u8) -> u8
    ensures { eqb result 0 ≡ is_within low byte span }
{
    byte.wrapping_sub(low).saturating_sub(span)
}

// One slot further. What the slots passed so far have shown at each place: zeros while all of their bytes lay within their bounds.
fn add_slot(seen: &mut [u8; SLOT_SIZE], bounds: &[[u8; SLOT_SIZE]; BOUNDS], slot: &[u8; SLOT_SIZE])
    ensures { is_zero seen.new ≡ (is_zero seen.old && is_form bounds.now slot.now) }
{
    let row = slot[0] as usize % ROWS;
    let low = &bounds[row];
    let span = &bounds[row + 1];
    for (place, any) in seen.iter_mut().enumerate() {
        *any |= beyond(low[place], slot[place], span[place]);
    }
}

// Whether the first slots, this many, hold messages, by the bounds of the plan. That the bounds are the plan's is required here and below:
// as the fact of a type it would be a ghost field or a model, which tests/contracts.sh refuses.
fn are_forms(plan: Plan, bounds: &[[u8; SLOT_SIZE]; BOUNDS], table: &[u8], used: usize) -> bool
    requires { Bounded plan bounds.now × (used ≤ length table.now / slot_size) }
    ensures { result ≡ are_used plan table.now used }
{
    let mut seen = [0u8; SLOT_SIZE];
    let (slots, _) = table.as_chunks::<SLOT_SIZE>();
    for slot in &slots[..used] {
        add_slot(&mut seen, bounds, slot);
    }
    is_zero(&seen)
}

// Whether no slot is used.
fn is_unused(table: &[u8]) -> bool
    ensures { result ≡ is_zero (take (length table.now / slot_size * slot_size) table.now) }
{
    is_zero(&table[..table.len() / SLOT_SIZE * SLOT_SIZE])
}

// Whether every slot is unused or holds a message, and used slots come first, in one pass. Where the first byte is 0 no slot is used.
fn is_table_within(plan: Plan, bounds: &[[u8; SLOT_SIZE]; BOUNDS], table: &[u8]) -> bool
    requires { Bounded plan bounds.now }
    ensures { result ≡ is_table plan table.now }
{
    if message::byte_at(table, 0) == 0 {
        return is_unused(table);
    }
    let used = slots::edge(table);
    if !are_forms(plan, bounds, table, used) {
        return false;
    }
    is_zero(&table[used * SLOT_SIZE..table.len() / SLOT_SIZE * SLOT_SIZE])
}

// Whether one table, N, is well formed; where it is not, refusal 5. Where its first byte is 0 no slot is used, and no bounds are made.
pub fn is_table(plan: Plan, table: &[u8]) -> bool
    ensures { result ≡ is_table plan table.now }
{
    if message::byte_at(table, 0) == 0 {
        return is_unused(table);
    }
    if !message::is_plan(plan) {
        return is_unused(table);
    }
    let mut bounds = [[0u8; SLOT_SIZE]; BOUNDS];
    put_bounds(&mut bounds, plan);
    is_table_within(plan, &bounds, table)
}

// Whether each of so many equal parts is a table by itself.
fn are_tables(plan: Plan, bounds: &[[u8; SLOT_SIZE]; BOUNDS], parts: usize, tables: &[u8]) -> bool
    requires { Bounded plan bounds.now }
    ensures { result ≡ are_tables plan parts tables.now }
{
    if parts == 0 {
        return true;
    }
    let size = tables.len() / parts;
    for part in 0..parts {
        let from = part * size;
        let to = from + size;
        if !is_table_within(plan, bounds, &tables[from..to]) {
            return false;
        }
    }
    true
}

// The plan, N, and the inboxes as so many equal parts: 1, 5 or 6. All share the same bounds. Lengths are the caller's to judge: bytes
// after the last whole slot or part are not looked at, and of no parts none is.
#[tactic(auto, unfolding(crate::specs::Tables::tables_judged, message::specs::Outcome::refuse_if))]
pub fn judge(plan: Plan, network: &[u8], parts: usize, inboxes: &[u8]) -> Result<(), Refusal>
    ensures { outcome result ≡ tables_judged plan network.now parts inboxes.now }
{
    if !message::is_plan(plan) {
        return Err(Refusal::Plan);
    }
    let mut bounds = [[0u8; SLOT_SIZE]; BOUNDS];
    put_bounds(&mut bounds, plan);
    if !is_table_within(plan, &bounds, network) {
        return Err(Refusal::Network);
    }
    if !are_tables(plan, &bounds, parts, inboxes) {
        return Err(Refusal::Inbox);
    }
    Ok(())
}
