// What is asked of chains: whether the table has one, which lie in a window, and whether those of another hand are acceptable.
ghost use Rattle.std.specs.Prelude.{◌≡◌};
ghost use Rattle.rules.specs.Layout.{lent};
ghost use Rattle.rules.specs.Calls.{number_of, Numbered, asked};
ghost use Rattle.rules.specs.Windows.{boxes_as, Windowed};
ghost use Rattle.rules.specs.Check.{delivery, Checked};

use crate::number;
use rules::{Meeting, Window};

// The chain question: 0, -12 for a number that is no type, or -10 where the table has no chain k in these coordinates.
#[unsafe(no_mangle)]
pub extern "C" fn lovasuku_chain(
    wkb_type: u32,
    coordinates: &[u64],
    merged: &[u64],
    table: &[u32],
    k: u64,
) -> u64
    ensures { result ≡ number_of (asked wkb_type coordinates.now merged.now table.now k) }
{
    number(build_question::chain(wkb_type, coordinates, merged, table, k as usize))
}

// What lies in a window: the number of chains found.
#[unsafe(no_mangle)]
pub extern "C" fn lovasuku_window(
    boxes: &[u64],
    k: u64,
    least_x: f64,
    least_y: f64,
    greatest_x: f64,
    greatest_y: f64,
    found: &mut [u32],
) -> u64
    ensures { Numbered (λ a. Windowed (boxes_as boxes.now k
        (record { least_x = least_x; least_y = least_y; greatest_x = greatest_x; greatest_y = greatest_y }) found.old)
        a found.new) result }
{
    number(box_window::chains_in(
        boxes,
        k as usize,
        Window {
            least_x,
            least_y,
            greatest_x,
            greatest_y,
        },
        found,
    ))
}

// Chains made elsewhere: 0 where they are acceptable.
#[unsafe(no_mangle)]
pub extern "C" fn lovasuku_check<'a>(
    wkb_type: u32,
    coordinates: &'a [u64],
    counts: &[u32],
    groups: &[u32],
    kinds: &[u8],
    tolerance: f64,
    origin_x: f64,
    origin_y: f64,
    table: &[u32],
    k: u64,
    listing: &[u32],
    merged: &'a [u64],
    workspace: &mut [u64],
) -> u64
    ensures { Numbered (λ a. Checked (delivery wkb_type
        (lent coordinates.now counts.now groups.now kinds.now)
        (record { tolerance = tolerance; origin_x = origin_x; origin_y = origin_y })
        table.now k listing.now merged.now workspace.old)
        a workspace.new) result }
{
    number(check_calls::check(
        wkb_type,
        coordinates,
        counts,
        groups,
        kinds,
        Meeting {
            tolerance,
            origin_x,
            origin_y,
        },
        table,
        k,
        listing,
        merged,
        workspace,
    ))
}
