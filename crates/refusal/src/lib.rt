#![tactic(auto)]
// What a slice is refused with by the reader (document 01, "Message bytes"; document 02, Paper 1: 18), map by map.
//
//     refusal_1a, ..         a slice whose map is known: 16 or 17
//     shape_refusal          a slice that is not empty, under a plan in range: 15 too
//     is_order, has_order, map_refusal     and its order number: 18 too
//     message_refusal        any slice
//
// What it means stands in message/specs/.
ghost use Rattle.std.specs.Prelude.{◌/◌, ◌%◌, ◌≤◌, true, ◌&&◌, ◌≡◌, eqb, length, get_or};
ghost use Rattle.message.specs.Outcome.{number_of, outcome};
ghost use Rattle.message.specs.Plan.{is_count, is_plan};
ghost use Rattle.message.specs.Form.{map1a, map1b, map1b_vote, map2a, map2b, map_decision, has_order};
ghost use Rattle.message.specs.Codec.{read_message};
ghost use Rattle.message.specs.Codec.Laws.{shape_number, Begins};

use message::{
    ACC, BAL_1A, INS, MAP_1A, MAP_1B, MAP_1B_VOTE, MAP_2A, MAP_2B, MAP_DECISION, Plan, Refusal,
    VAL_1B, VAL_2A, VAL_2B, VAL_DECISION,
};

// The refusal of a slice whose map is a 1a's, by all but its order number: 16 (another length than the map's) or 17 (a field out of range).
// Likewise below for the other maps. Where the map is known, so is its length, and the fields are read straight from their places. As one
// function with a match on the map, the fields took 1.1 to 1.2 times as long to read.
fn refusal_1a(plan: Plan, map: u8, bytes: &[u8]) -> Result<(), Refusal>
    requires { (map ≡ map1a) × Begins plan map1a bytes.now }
    ensures { number_of (outcome result) ≡ shape_number plan bytes.now }
{
    if bytes.len() != message::map_length(map) {
        return Err(Refusal::MessageLength);
    }
    if plan.rms <= bytes[INS] {
        return Err(Refusal::Field);
    }
    if bytes[BAL_1A] < 1 {
        return Err(Refusal::Field);
    }
    Ok(())
}

fn refusal_1b(plan: Plan, map: u8, bytes: &[u8]) -> Result<(), Refusal>
    requires { (map ≡ map1b) × Begins plan map1b bytes.now }
    ensures { number_of (outcome result) ≡ shape_number plan bytes.now }
{
    if bytes.len() != message::map_length(map) {
        return Err(Refusal::MessageLength);
    }
    if plan.rms <= bytes[INS] {
        return Err(Refusal::Field);
    }
    if plan.acceptors <= bytes[ACC] {
        return Err(Refusal::Field);
    }
    Ok(())
}

fn refusal_1b_vote(plan: Plan, map: u8, bytes: &[u8]) -> Result<(), Refusal>
    requires { (map ≡ map1b_vote) × Begins plan map1b_vote bytes.now }
    ensures { number_of (outcome result) ≡ shape_number plan bytes.now }
{
    if bytes.len() != message::map_length(map) {
        return Err(Refusal::MessageLength);
    }
    if plan.rms <= bytes[INS] {
        return Err(Refusal::Field);
    }
    if plan.acceptors <= bytes[ACC] {
        return Err(Refusal::Field);
    }
    if !message::is_value(bytes[VAL_1B]) {
        return Err(Refusal::Field);
    }
    Ok(())
}

fn refusal_2a(plan: Plan, map: u8, bytes: &[u8]) -> Result<(), Refusal>
    requires { (map ≡ map2a) × Begins plan map2a bytes.now }
    ensures { number_of (outcome result) ≡ shape_number plan bytes.now }
{
    if bytes.len() != message::map_length(map) {
        return Err(Refusal::MessageLength);
    }
    if plan.rms <= bytes[INS] {
        return Err(Refusal::Field);
    }
    if !message::is_value(bytes[VAL_2A]) {
        return Err(Refusal::Field);
    }
    Ok(())
}

fn refusal_2b(plan: Plan, map: u8, bytes: &[u8]) -> Result<(), Refusal>
    requires { (map ≡ map2b) × Begins plan map2b bytes.now }
    ensures { number_of (outcome result) ≡ shape_number plan bytes.now }
{
    if bytes.len() != message::map_length(map) {
        return Err(Refusal::MessageLength);
    }
    if plan.rms <= bytes[INS] {
        return Err(Refusal::Field);
    }
    if plan.acceptors <= bytes[ACC] {
        return Err(Refusal::Field);
    }
    if !message::is_value(bytes[VAL_2B]) {
        return Err(Refusal::Field);
    }
    Ok(())
}

fn refusal_decision(plan: Plan, map: u8, bytes: &[u8]) -> Result<(), Refusal>
    requires { (map ≡ map_decision) × Begins plan map_decision bytes.now }
    ensures { number_of (outcome result) ≡ shape_number plan bytes.now }
{
    if bytes.len() != message::map_length(map) {
        return Err(Refusal::MessageLength);
    }
    if !message::is_value(bytes[VAL_DECISION]) {
        return Err(Refusal::Field);
    }
    Ok(())
}

// The refusal of a slice under a plan in range, by all but its order number: 15 (unknown map), 16 or 17. The maps are in two groups of
// three: of more tests of one byte the compiler makes a jump by a table, which takes longer.
fn shape_refusal(plan: Plan, map: u8, bytes: &[u8]) -> Result<(), Refusal>
    requires { (is_plan plan ≡ true) × (map ≡ get_or bytes.now 0 0) }
    ensures { number_of (outcome result) ≡ shape_number plan bytes.now }
{
    if map < MAP_2A {
        if map == MAP_1A {
            return refusal_1a(plan, map, bytes);
        }
        if map == MAP_1B {
            return refusal_1b(plan, map, bytes);
        }
        if map == MAP_DECISION {
            return refusal_decision(plan, map, bytes);
        }
        return Err(Refusal::Map);
    }
    if map == MAP_2A {
        return refusal_2a(plan, map, bytes);
    }
    if map == MAP_2B {
        return refusal_2b(plan, map, bytes);
    }
    if map == MAP_1B_VOTE {
        return refusal_1b_vote(plan, map, bytes);
    }
    Err(Refusal::Map)
}

// Whether two bytes are the plan's order number.
fn is_order(plan: Plan, high: u8, low: u8) -> bool
    ensures { result ≡ (eqb high (plan.order / 256) && eqb low (plan.order % 256)) }
{
    message::order_of(high, low) == plan.order
}

// Whether the last two are.
fn has_order(plan: Plan, bytes: &[u8]) -> bool
    requires { 4 ≤ length bytes.now }
    ensures { result ≡ has_order plan (length bytes.now) bytes.now }
{
    let high = bytes.len() - 2;
    let low = bytes.len() - 1;
    is_order(plan, bytes[high], bytes[low])
}

// The same with the order number behind it: 15, 16, 17 or 18.
fn map_refusal(plan: Plan, map: u8, bytes: &[u8]) -> Result<(), Refusal>
    requires { (is_plan plan ≡ true) × (map ≡ get_or bytes.now 0 0) }
    ensures { number_of (outcome result) ≡ number_of (read_message plan bytes.now) }
{
    shape_refusal(plan, map, bytes)?;
    if !has_order(plan, bytes) {
        return Err(Refusal::Order);
    }
    Ok(())
}

// Whether a count of the plan is from 1 to `most`.
fn is_count(most: u8, count: u8) -> bool
    ensures { result ≡ is_count most count }
{
    (1 <= count) & (count <= most)
}

// The refusal of a slice: 1, 15 (empty slice or unknown map), 16 (another length than the map's), 17 (a field out of range) or 18 (another
// order number); accepted is exactly one message. The plan's counts are tested apart, with the slice's length and first byte
// between them: side by side the compiler joins them into one test, which takes twice the steps.
pub fn message_refusal(plan: Plan, bytes: &[u8]) -> Result<(), Refusal>
    ensures { number_of (outcome result) ≡ number_of (read_message plan bytes.now) }
{
    if !is_count(16, plan.rms) {
        return Err(Refusal::Plan);
    }
    if bytes.len() == 0 {
        if !message::is_plan(plan) {
            return Err(Refusal::Plan);
        }
        return Err(Refusal::Map);
    }
    if !is_count(7, plan.acceptors) {
        return Err(Refusal::Plan);
    }
    let map = bytes[0];
    if !is_count(4, plan.leaders) {
        return Err(Refusal::Plan);
    }
    map_refusal(plan, map, bytes)
}
