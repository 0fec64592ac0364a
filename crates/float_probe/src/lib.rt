// Doors to the float leaves, for runs against the processor's own operations. They are no part of the library that a host links.
#![tactic(auto)]

ghost use Rattle.std.specs.Prelude.{◌≡◌};
ghost use Rattle.std.specs.Float.{binary64};
ghost use Rattle.std.specs.Float.Ieee.{of_bits, eq};
ghost use Rattle.rules.specs.Root.{root as root_of};
ghost use Rattle.rules.specs.Cell.{floor64, cell as cell_of};
ghost use Rattle.rules.specs.Plane.{points, direction_of};
ghost use Rattle.float_bits.specs.Bits.{bits_of};
ghost use Rattle.float_cell.specs.Lifted.{lifted};
ghost use Rattle.float_order.specs.Key.{key as key_of};
ghost use Rattle.point_direction.specs.Seen.{seen};
ghost use Rattle.float_probe.specs.Parts.{present_of, x_of, y_of};

#[unsafe(no_mangle)]
pub extern "C" fn lovasuku_probe_root(x: f64) -> f64
    ensures { result ≡ root_of binary64 x }
{
    float_root::root(x)
}

#[unsafe(no_mangle)]
pub extern "C" fn lovasuku_probe_floor(x: f64) -> i64
    ensures { result ≡ floor64 x }
{
    float_cell::floor(x)
}

#[unsafe(no_mangle)]
pub extern "C" fn lovasuku_probe_cell(n: u64, origin: f64, tolerance: f64) -> u64
    ensures { result ≡ lifted (cell_of tolerance origin n) }
{
    float_cell::cell_key(n, origin, tolerance)
}

#[unsafe(no_mangle)]
pub extern "C" fn lovasuku_probe_of_bits(n: u64) -> f64
    ensures { result ≡ of_bits binary64 n }
{
    float_bits::of_bits(n)
}

#[unsafe(no_mangle)]
pub extern "C" fn lovasuku_probe_bits_of(x: f64) -> u64
    ensures { result ≡ bits_of x }
{
    float_bits::bits_of(x)
}

#[unsafe(no_mangle)]
pub extern "C" fn lovasuku_probe_same(a: u64, b: u64) -> bool
    ensures { result ≡ eq (of_bits binary64 a) (of_bits binary64 b) }
{
    float_bits::same(a, b)
}

#[unsafe(no_mangle)]
pub extern "C" fn lovasuku_probe_key(x: f64) -> u64
    ensures { result ≡ key_of x }
{
    float_order::key(x)
}

// The direction at a side of the points x, y of c; a number that is left over is passed over.
fn direction_of(c: &[u64], side: u64) -> rules::Direction
    ensures { result ≡ direction_of (seen side (points 2 c.now)) }
{
    let whole = c.len() / 2 * 2;
    point_direction::piece_direction(&c[..whole], 2, side)
}

#[unsafe(no_mangle)]
pub extern "C" fn lovasuku_probe_present(c: &[u64], side: u64) -> bool
    ensures { result ≡ present_of (direction_of (seen side (points 2 c.now))) }
{
    direction_of(c, side).is_some()
}

#[unsafe(no_mangle)]
pub extern "C" fn lovasuku_probe_direction_x(c: &[u64], side: u64) -> f64
    ensures { result ≡ x_of (direction_of (seen side (points 2 c.now))) }
{
    match direction_of(c, side) {
        Some((x, _)) => x,
        None => f64::NAN,
    }
}

#[unsafe(no_mangle)]
pub extern "C" fn lovasuku_probe_direction_y(c: &[u64], side: u64) -> f64
    ensures { result ≡ y_of (direction_of (seen side (points 2 c.now))) }
{
    match direction_of(c, side) {
        Some((_, y)) => y,
        None => f64::NAN,
    }
}
