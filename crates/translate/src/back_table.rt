ghost use Rattle.std.specs.Prelude.{◌≡◌, ℕ, ◌^◌, ◌<◌, ◌≤◌, slice_index};

use walk::cells::MOST_PLACES;

pub mod entries;

// For each cell of a program frame the guest address of its CCW. A rule of the project: a plain array of 64 entries with its
// length, in fixed memory, so that the table is `Copy`. No `PartialEq`: entries past the length would count.
#[derive(Clone, Copy, Debug)]
pub struct BackTable {
    addresses: [u32; MOST_PLACES],
    len: usize,
    ghost short: { len ≤ 64 },
    ghost inside: { (i : ℕ) → slice_index addresses i < 2 ^ 31 },
}
