// WKB out: chains of a table as records of one type, in the byte order that the caller chooses, with the table of their lengths.
// All records and rooms are looked at before anything is stored.
#![tactic(auto)]

ghost use Rattle.std.specs.Prelude.{◌+◌, ◌-◌, ◌*◌, ◌≤◌, ◌<◌, ◌≡◌, ltb, length};
ghost use mathlib.Core.List.{flat_map};
ghost use Rattle.point_slices.specs.Holds.{HoldsFrom};
ghost use Rattle.rules.specs.Answers.{answered};
ghost use Rattle.rules.specs.Wkb.{bytes_by, record_by, any_missing, chains_as, Wrote};
ghost use Rattle.wkb_records.specs.Orders.{byte_of};
ghost use Rattle.wkb_writing.specs.Writing.{bytes_from, RecordPut, chain_bytes, Chain, Writable, Written};
ghost use Rattle.rules.specs.Refusals.{record_size};

use rules::{Answer, RECORD, Refusal};
use wkb_records::Order;

// The bytes of a record before its numbers, and of each number there.
const HEADER: usize = 9;

const EIGHT: usize = 8;

// The four bytes of n, in an order.
#[tactic(auto, using(wkb_records::proofs::Bytes::four_big, wkb_records::proofs::Bytes::four_little))]
fn four_of(order: Order, n: u32) -> [u8; 4]
    ensures { result ≡ bytes_by (byte_of order) 4 n }
{
    match order {
        Order::Big => n.to_be_bytes(),
        Order::Little => n.to_le_bytes(),
    }
}

// The eight bytes of n, in an order.
#[tactic(auto, using(wkb_records::proofs::Bytes::eight_big, wkb_records::proofs::Bytes::eight_little))]
fn eight_of(order: Order, n: u64) -> [u8; 8]
    ensures { result ≡ bytes_by (byte_of order) 8 n }
{
    match order {
        Order::Big => n.to_be_bytes(),
        Order::Little => n.to_le_bytes(),
    }
}

// Bytes from `at` on.
fn put<const N: usize>(run: &mut [u8], at: usize, bytes: [u8; N])
    requires { at + N ≤ length run.old }
    ensures { HoldsFrom run.new run.old at N bytes.entry }
{
    run[at..at + N].copy_from_slice(&bytes);
}

// The bytes of all numbers from `at` on, one number after another.
fn put_each(run: &mut [u8], at: usize, order: Order, numbers: &[u64])
    requires { at + length numbers.now * 8 ≤ length run.old }
    ensures { HoldsFrom run.new run.old at (length numbers.now * 8)
        (flat_map (bytes_by (byte_of order) 8) numbers.now) }
{
    for (i, n) in numbers.iter().enumerate() {
        put(run, at + i * EIGHT, eight_of(order, *n));
    }
}

// The bytes of all numbers from `at` on, two numbers a turn: both are read before the first is written, so that they can be moved at once.
fn put_numbers(run: &mut [u8], at: usize, order: Order, numbers: &[u64])
    requires { at + length numbers.now * 8 ≤ length run.old }
    ensures { HoldsFrom run.new run.old at (length numbers.now * 8)
        (flat_map (bytes_by (byte_of order) 8) numbers.now) }
{
    let pairs = numbers.len() / 2;
    for j in 0..pairs {
        put_each(
            run,
            at + j * 2 * EIGHT,
            order,
            &[numbers[j * 2], numbers[j * 2 + 1]],
        );
    }
    put_each(run, at + pairs * 2 * EIGHT, order, &numbers[pairs * 2..]);
}

// One record from `at` on, by its order. Returns where it ends.
fn put_ordered(
    run: &mut [u8],
    at: usize,
    order: Order,
    wkb_type: u32,
    count: u32,
    numbers: &[u64],
) -> usize
    requires { at + (9 + length numbers.now * 8) ≤ length run.old }
    ensures { RecordPut run.new run.old at result (record_by (byte_of order) wkb_type count numbers.now) }
{
    run[at] = order as u8;
    put(run, at + 1, four_of(order, wkb_type));
    put(run, at + 5, four_of(order, count));
    put_numbers(run, at + HEADER, order, numbers);
    at + (HEADER + numbers.len() * EIGHT)
}

// One record from `at` on. Returns where it ends. The orders are told apart here, once a record, and not at each of its numbers.
fn put_record(
    run: &mut [u8],
    at: usize,
    order: Order,
    wkb_type: u32,
    count: u32,
    numbers: &[u64],
) -> usize
    requires { at + (9 + length numbers.now * 8) ≤ length run.old }
    ensures { RecordPut run.new run.old at result (record_by (byte_of order) wkb_type count numbers.now) }
{
    match order {
        Order::Big => put_ordered(run, at, Order::Big, wkb_type, count, numbers),
        Order::Little => put_ordered(run, at, Order::Little, wkb_type, count, numbers),
    }
}

// Whether one of the first k records is no chain.
fn any_missing(input: &[u64], merged: &[u64], table: &[u32], width: usize, k: u64) -> bool
    requires { width ≤ 4 }
    ensures { result ≡ any_missing width input.now merged.now table.now 0 k }
{
    (0..k).any(|j| build_question::no_chain(input, merged, table, width, j as usize))
}

// Whether the first k chains take more bytes than there is room. The sum is taken from the room, and stops where it would pass it.
fn run_short(table: &[u32], width: usize, k: usize, room: usize) -> bool
    requires { (width ≤ 4) × (k * record_size ≤ length table.now) }
    ensures { result ≡ ltb room (bytes_from width table.now 0 k) }
{
    let mut left = room;
    for j in 0..k {
        let size = HEADER + table[j * RECORD + 4] as usize * width * EIGHT;
        if left < size {
            return true;
        }
        left -= size;
    }
    false
}

// Chain k's record from `at` on. Returns where it ends.
fn put_chain<'a>(
    run: &mut [u8],
    at: usize,
    order: Order,
    wkb_type: u32,
    width: usize,
    input: &'a [u64],
    merged: &'a [u64],
    table: &[u32],
    k: usize,
) -> usize
    requires { Chain run.old at wkb_type width input.now merged.now table.now k }
    ensures { RecordPut run.new run.old at result
        (chain_bytes (byte_of order) wkb_type input.now merged.now table.now k) }
{
    let count = table[k * RECORD + 4];
    let numbers = build_question::known_part(input, merged, table, width, k);
    put_record(run, at, order, wkb_type, count, numbers)
}

// The records of the first n chains, one behind another, and their lengths. Returns how many bytes there are.
fn write_chains<'a>(
    wkb_type: u32,
    width: usize,
    coordinates: &'a [u64],
    merged: &'a [u64],
    table: &[u32],
    n: usize,
    order: Order,
    run: &mut [u8],
    lengths: &mut [u64],
) -> usize
    requires { Writable width (chains_as wkb_type coordinates.now merged.now table.now n (byte_of order) run.old lengths.old) }
    ensures { Written (chains_as wkb_type coordinates.now merged.now table.now n (byte_of order)
        run.old lengths.old) result run.new lengths.new }
{
    let mut at: usize = 0;
    for j in 0..n {
        let end = put_chain(
            run,
            at,
            order,
            wkb_type,
            width,
            coordinates,
            merged,
            table,
            j,
        );
        lengths[j] = (end - at) as u64;
        at = end;
    }
    at
}

// Writes the first k chains of a table as records of a type, in the byte order that is given: the number of bytes. A refused call changes no slice.
pub fn write<'a>(
    wkb_type: u32,
    coordinates: &'a [u64],
    merged: &'a [u64],
    table: &[u32],
    k: u64,
    order: u8,
    run: &mut [u8],
    lengths: &mut [u64],
) -> Answer
    ensures { Wrote (chains_as wkb_type coordinates.now merged.now table.now k order
        run.old lengths.old) (answered result) run.new lengths.new }
{
    let width = point_numbers::width_of(wkb_type);
    if width == 0 {
        return Err(Refusal::BadType);
    }
    if 1 < order {
        return Err(Refusal::UnknownOrder);
    }
    if any_missing(coordinates, merged, table, width, k) {
        return Err(Refusal::NoSuchChain);
    }
    let n = k as usize;
    if run_short(table, width, n, run.len()) || lengths.len() < n {
        return Err(Refusal::RecordRoomTooShort);
    }
    let bytes = write_chains(
        wkb_type,
        width,
        coordinates,
        merged,
        table,
        n,
        Order::of(order),
        run,
        lengths,
    );
    Ok(bytes as u64)
}
