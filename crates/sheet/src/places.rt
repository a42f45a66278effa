// Where the records of a sheet start. A procedure's place is a u32: 64 procedures of any size end far below 2^32.
ghost use Rattle.std.specs.Prelude.{◌≡◌, ◌+◌, ◌<◌, ◌≤◌};
ghost use Rattle.sheet.specs.Layout.{type_at, qual_at, is_bounded, bound_size, start_from, variable_at, instruction_from};

use crate::bytes::{byte, marked};
use crate::edition::Encoded;

// Where the TY of a type stands.
pub fn type_at(t: u8) -> usize
    ensures { result ≡ type_at t }
{
    if t < 2 {
        return 6;
    }
    6 + 12 * ((t - 2) as usize)
}

// Where a QT stands.
pub fn qual_at(e: Encoded, j: u8) -> usize
    ensures value { result ≡ qual_at e.entry.bytes.now j }
    ensures upper_bound { result < 6000 }
{
    let first = 6 + 12 * (byte(e.bytes, 0, 3) as usize);
    if e.rights == 4 {
        return first + 8 * (j as usize);
    }
    first + 6 * (j as usize)
}

// Whether a GN is due after the PR of procedure p at a place.
pub fn is_bounded(s: &[u8], p: usize, pr: u32) -> bool
    ensures { result ≡ is_bounded s.now p pr }
{
    (0 < p) & marked(s, (pr as usize) + 8, b'G', b'N')
}

// The bytes of that GN, 0 where there is none.
pub fn bound_size(e: Encoded, p: usize, pr: u32) -> u8
    ensures value { result ≡ bound_size e.entry.bytes.now p pr }
    ensures upper_bound { result < 8 }
{
    if is_bounded(e.bytes, p, pr) {
        return 3 + e.rights;
    }
    0
}

// Where the VRs of procedure p start, whose PR stands at a place.
pub fn start_from(e: Encoded, p: usize, pr: u32) -> usize
    ensures value { result ≡ start_from e.entry.bytes.now p pr }
    ensures upper_bound { result ≤ pr + 15 }
{
    (pr as usize) + 8 + (bound_size(e, p, pr) as usize)
}

// Where the VR of a variable stands, in a procedure whose VRs start at a place.
pub fn variable_at(start: u32, x: u8) -> usize
    ensures { result ≡ variable_at start x }
{
    (start as usize) + 4 * (x as usize)
}

// Where an IN stands, in a procedure with v variables whose VRs start at a place.
pub fn instruction_from(start: u32, v: u8, i: u16) -> usize
    ensures value { result ≡ instruction_from start v i }
    ensures upper_bound { result < start + 600000 }
{
    (start as usize) + 4 * (v as usize) + 8 * (i as usize)
}
