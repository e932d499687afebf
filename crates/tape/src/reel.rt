#![tactic(auto, using(crate::proofs::Cuts::cuts, crate::proofs::Bounds::bounds))]

ghost use Rattle.std.specs.Prelude.{◌≡◌, ◌-◌, ◌^◌, ◌<◌, ◌≤◌, min, [], ◌∷◌, ◌++◌, length, take, sum, MatchOption, slice_index, slice_index_or};
ghost use Rattle.short_list.specs.Lists.{items};
ghost use Rattle.tape.specs.Cutting.{Holdable, LengthsFit, cut};
ghost use Rattle.tape.specs.ReelState.{lengths_of};
ghost use Rattle.tape.specs.TapeMachine.{bytes_in, room_after};

use short_list::list::ShortList;
use std::marker::Model;

// How many blocks a tape holds.
pub(crate) const BLOCKS: usize = 64;

// The places where a block starts or the last one ends.
const BOUNDS: usize = BLOCKS + 1;

// How many bytes its blocks may have in all.
pub(crate) const CAPACITY: usize = 8192;

// How many bytes one block may have.
const LONGEST: usize = 4096;

// The blocks of a tape, one after the other, and behind them the bytes of a block that is being written.
// Block k is the bytes from bound k up to bound k + 1, so no call goes over the blocks before it. The bounds stand
// beside the bytes since there is no heap: all blocks share one fixed memory of 8,192 bytes, where 64 blocks with
// a memory of their own would each need the longest one's 4,096.
#[derive(Debug, Drop)]
pub(crate) struct Reel {
    bytes: ShortList<u8, CAPACITY>,
    bounds: ShortList<usize, BOUNDS>,
}

impl Model for Reel {
    ghost use Rattle.short_list.specs.Lists.{items};
    ghost use Rattle.tape.specs.ReelState.{ReelState, BoundsFit, lengths_of, stored};

    ghost Value = { ReelState };

    ghost view = { λ r. stored (lengths_of (items r.bounds)) (items r.bytes) };

    ghost invariant = { λ r. BoundsFit (items r.bounds) (items r.bytes) };
}

// How many bytes blocks of these lengths have in all.
fn total(lengths: &[usize]) -> usize
    requires { sum lengths.now < 2 ^ 64 }
    ensures { result ≡ sum lengths.now }
{
    lengths.iter().sum()
}

// The bounds of blocks of these lengths, one after the other.
fn bounds_of(lengths: &[usize]) -> ShortList<usize, BOUNDS>
    requires { LengthsFit lengths.now }
    ensures begun { 0 < length (items result) }
    ensures from_zero { slice_index (items result) 0 ≡ 0 }
    ensures long { lengths_of (items result) ≡ lengths.now }
{
    let mut bounds = ShortList::new();
    bounds.push(0);
    let mut end = 0;
    for length in lengths {
        end += *length;
        bounds.push(end);
    }
    bounds
}

impl Reel {
    // The blocks of these lengths that the bytes are cut into, or none if they do not fit a tape.
    pub(crate) fn new(bytes: &[u8], lengths: &[usize]) -> Option<Reel>
        ensures { MatchOption result (Holdable bytes.now lengths.now → ⊥) (λ made. Holdable bytes.now lengths.now × (made ≡ record { blocks = cut lengths.now bytes.now; written = [] })) }
    {
        if lengths.len() > BLOCKS {
            return None;
        }
        let bytes: ShortList<u8, CAPACITY> = ShortList::try_from(bytes).ok()?;
        let each_fits = lengths
            .iter()
            .all(|length| 0 < *length && *length <= LONGEST);
        if !each_fits || total(lengths) != bytes.len() {
            return None;
        }
        Some(Reel {
            bytes,
            bounds: bounds_of(lengths),
        })
    }

    // How many blocks there are.
    pub(crate) fn len(&self) -> usize
        ensures counts { result ≡ length self.now.blocks }
        ensures few { result ≤ 64 }
    {
        self.bounds.len() - 1
    }

    // How many bytes the blocks before this index have.
    pub(crate) fn start_of(&self, index: usize) -> usize
        requires { index ≤ length self.now.blocks }
        ensures before { result ≡ bytes_in (take index self.now.blocks) }
        ensures fits { result ≤ 8192 }
    {
        self.bounds[index]
    }

    // The block at this index, the first of them at 0.
    pub(crate) fn block(&self, index: usize) -> Option<&[u8]>
        ensures { MatchOption result (length self.now.blocks ≤ index) (λ found. (index < length self.now.blocks) × (found.now ≡ slice_index_or self.now.blocks index []) × (0 < length found.now) × (length found.now ≤ 8192)) }
    {
        if index >= self.len() {
            return None;
        }
        let start = self.start_of(index);
        let end = self.start_of(index + 1);
        Some(&self.bytes[start..end])
    }

    // Where the last block ends.
    fn end(&self) -> usize
        ensures before { result ≡ bytes_in self.now.blocks }
        ensures fits { result ≤ 8192 }
    {
        self.start_of(self.len())
    }

    // How many bytes stand behind the last block.
    pub(crate) fn written(&self) -> usize
        ensures { result ≡ length self.now.written }
    {
        self.bytes.len() - self.end()
    }

    // How many more bytes a block may have whose first bytes stand behind the last block.
    pub(crate) fn room(&self) -> usize
        ensures { result ≡ room_after self.now.blocks - length self.now.written }
    {
        LONGEST
            .min(CAPACITY - self.end())
            .saturating_sub(self.written())
    }

    // Drops what stands past the first blocks.
    pub(crate) fn truncate(&mut self, blocks: usize)
        requires { blocks ≤ length self.old.blocks }
        ensures { self.new ≡ record { blocks = take blocks self.old.blocks; written = [] } }
    {
        let end = self.start_of(blocks);
        self.bytes.truncate(end);
        self.bounds.truncate(blocks + 1);
    }

    // Writes the bytes behind what is written, as many as there is room for, and says how many.
    pub(crate) fn append(&mut self, bytes: &[u8]) -> usize
        ensures count { result ≡ min (length bytes.now) (room_after self.old.blocks - length self.old.written) }
        ensures became { self.new ≡ record { blocks = self.old.blocks; written = self.old.written ++ take (room_after self.old.blocks - length self.old.written) bytes.now } }
    {
        let n = bytes.len().min(self.room());
        self.bytes.append(&bytes[..n])
    }

    // Makes what is written a block.
    pub(crate) fn close(&mut self)
        requires room { length self.old.blocks < 64 }
        requires some { 0 < length self.old.written }
        ensures { self.new ≡ record { blocks = self.old.blocks ++ self.old.written ∷ []; written = [] } }
    {
        let end = self.bytes.len();
        self.bounds.push(end);
    }
}
