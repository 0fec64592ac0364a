// WKB: lines in, and chains out.
ghost use Rattle.rules.specs.Calls.{Numbered};
ghost use Rattle.rules.specs.Wkb.{Read, run_as, Wrote, chains_as};

use crate::number;

// WKB in: the number of records.
#[unsafe(no_mangle)]
pub extern "C" fn lovasuku_read_wkb(
    run: &[u8],
    lengths: &[u64],
    coordinates: &mut [u64],
    counts: &mut [u32],
    wkb_type: &mut [u32],
) -> u64
    ensures { Numbered (λ a. Read (run_as run.now lengths.now coordinates.old counts.old
        wkb_type.old)
        a coordinates.new counts.new wkb_type.new) result }
{
    number(wkb_reading::read(run, lengths, coordinates, counts, wkb_type))
}

// WKB out: the number of bytes.
#[unsafe(no_mangle)]
pub extern "C" fn lovasuku_write_wkb<'a>(
    wkb_type: u32,
    coordinates: &'a [u64],
    merged: &'a [u64],
    table: &[u32],
    k: u64,
    order: u8,
    run: &mut [u8],
    lengths: &mut [u64],
) -> u64
    ensures { Numbered (λ a. Wrote (chains_as wkb_type coordinates.now merged.now table.now k order
        run.old lengths.old) a run.new lengths.new) result }
{
    number(wkb_writing::write(wkb_type, coordinates, merged, table, k, order, run, lengths))
}
