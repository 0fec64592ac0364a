// WKB in: a run of records and the table of their lengths, to coordinates and counts. All records are looked at before anything is stored.
#![tactic(auto)]

ghost use Rattle.std.specs.Prelude.{◌+◌, ◌-◌, ◌*◌, ◌/◌, ◌≤◌, ◌≡◌, ◌||◌, eqb, ltb, length, take, drop};
ghost use Rattle.rules.specs.Answers.{answered, found};
ghost use Rattle.rules.specs.Lists.{total};
ghost use Rattle.wkb_records.specs.Orders.{number_in};
ghost use Rattle.rules.specs.Wkb.{number_by, byte_order, records_of, run_type, record_refusal, records_refusal, run_refusal, run_as, Read};
ghost use Rattle.wkb_reading.specs.Storing.{Storable, RunStored, RecordStored};

use rules::{Answer, Refusal};
use wkb_records::Order;

// The bytes of a record before its coordinates, and of each number there.
const HEADER: usize = 9;

const EIGHT: usize = 8;

// Four bytes of a record as a number, in the record's own order.
fn word(bytes: &[u8], at: usize) -> u32
    requires { at + 4 ≤ length bytes.now }
    ensures { result ≡ number_by (byte_order bytes.now) (take 4 (drop at bytes.now)) }
{
    let four = [bytes[at], bytes[at + 1], bytes[at + 2], bytes[at + 3]];
    match Order::of(bytes[0]) {
        Order::Big => u32::from_be_bytes(four),
        Order::Little => u32::from_le_bytes(four),
    }
}

// Eight bytes as a number, in an order.
#[tactic(auto, using(wkb_records::proofs::Bytes::eight_le, wkb_records::proofs::Bytes::eight_be), unfolding(wkb_records::specs::Orders::number_in))]
fn number(eight: [u8; 8], order: Order) -> u64
    ensures { result ≡ number_in order eight }
{
    match order {
        Order::Big => u64::from_be_bytes(eight),
        Order::Little => u64::from_le_bytes(eight),
    }
}

// Why one record is refused in a run of a type.
fn record_refusal(bytes: &[u8], wkb_type: u32) -> Result<(), Refusal>
    ensures { found result ≡ record_refusal wkb_type bytes.now }
{
    if bytes.len() < HEADER {
        return Err(Refusal::BadLength);
    }
    if 1 < bytes[0] {
        return Err(Refusal::BadByteOrder);
    }
    let own = word(bytes, 1);
    let width = point_numbers::width_of(own);
    if width == 0 {
        return Err(Refusal::BadType);
    }
    if own != wkb_type {
        return Err(Refusal::MixedTypes);
    }
    if bytes.len() as u64 != 9 + word(bytes, 5) as u64 * width as u64 * 8 {
        return Err(Refusal::BadLength);
    }
    Ok(())
}

// Whether the lengths add up to n. The sum is taken from n, and stops where it would pass it.
fn adds_up(lengths: &[u64], n: u64) -> bool
    ensures { result ≡ eqb (total lengths.now) n }
{
    let mut left = n;
    for next in lengths {
        if left < *next {
            return false;
        }
        left -= *next;
    }
    left == 0
}

// The type of a run: that of its first record.
fn run_type(run: &[u8], lengths: &[u64]) -> u32
    requires { total lengths.now ≡ length run.now }
    ensures { result ≡ run_type (records_of lengths.now run.now) }
{
    let Some(first) = lengths.first() else {
        return 2;
    };
    let to = *first as usize;
    if to < HEADER {
        return 2;
    }
    word(&run[..to], 1)
}

// Why the first bad record of a run is refused.
fn records_refusal(run: &[u8], lengths: &[u64], wkb_type: u32) -> Result<(), Refusal>
    requires { total lengths.now ≡ length run.now }
    ensures { found result ≡ records_refusal wkb_type (records_of lengths.now run.now) }
{
    let mut at: usize = 0;
    for next in lengths {
        let to = at + *next as usize;
        record_refusal(&run[at..to], wkb_type)?;
        at = to;
    }
    Ok(())
}

// The numbers of a record, from `at` on. Returns where they end.
fn store_record(bytes: &[u8], coordinates: &mut [u64], at: usize) -> usize
    requires { (9 ≤ length bytes.now) × (at + (length bytes.now - 9) / 8 ≤ length coordinates.old) }
    ensures { RecordStored bytes.now coordinates.new coordinates.old at result }
{
    let order = Order::of(bytes[0]);
    let (eights, _) = bytes[HEADER..].as_chunks();
    for (k, eight) in eights.iter().enumerate() {
        coordinates[at + k] = number(*eight, order);
    }
    at + eights.len()
}

// The coordinates and counts of a run's records.
fn store(run: &[u8], lengths: &[u64], coordinates: &mut [u64], counts: &mut [u32])
    requires { Storable run.now lengths.now coordinates.old counts.old }
    ensures { RunStored run.now lengths.now
        coordinates.new coordinates.old counts.new counts.old }
{
    let mut at: usize = 0;
    let mut have: usize = 0;
    for (i, next) in lengths.iter().enumerate() {
        let to = at + *next as usize;
        counts[i] = word(&run[at..to], 5);
        have = store_record(&run[at..to], coordinates, have);
        at = to;
    }
}

// Why a run is refused: the lengths before any record.
fn run_refusal(run: &[u8], lengths: &[u64]) -> Result<(), Refusal>
    ensures { found result ≡ run_refusal run.now lengths.now }
{
    if !adds_up(lengths, run.len() as u64) {
        return Err(Refusal::BadLength);
    }
    let wkb_type = run_type(run, lengths);
    records_refusal(run, lengths, wkb_type)
}

// Whether the room for coordinates, counts or the type is shorter than so many records in a run of so many bytes need.
fn room_short(
    run: usize,
    records: usize,
    coordinates: usize,
    counts: usize,
    wkb_type: usize,
) -> bool
    requires { records * 9 ≤ run }
    ensures { result ≡ ltb coordinates ((run - records * 9) / 8) || (ltb counts records || ltb wkb_type 1) }
{
    coordinates < (run - records * HEADER) / EIGHT || (counts < records || wkb_type < 1)
}

// Reads a run of records of one type, in the byte orders that they have: the number of records. A refused call changes no slice.
pub fn read(
    run: &[u8],
    lengths: &[u64],
    coordinates: &mut [u64],
    counts: &mut [u32],
    wkb_type: &mut [u32],
) -> Answer
    ensures { Read (run_as run.now lengths.now coordinates.old counts.old wkb_type.old)
        (answered result) coordinates.new counts.new wkb_type.new }
{
    run_refusal(run, lengths)?;
    if room_short(
        run.len(),
        lengths.len(),
        coordinates.len(),
        counts.len(),
        wkb_type.len(),
    ) {
        return Err(Refusal::RecordRoomTooShort);
    }
    store(run, lengths, coordinates, counts);
    wkb_type[0] = run_type(run, lengths);
    Ok(lengths.len() as u64)
}
