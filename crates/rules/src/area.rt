ghost use Rattle.std.specs.Prelude.{◌≡◌, ℕ, ◌+◌, ◌^◌, ◌<◌, ◌≤◌, min, Bool, true, false, List, [], ◌∷◌, ◌++◌, IfOk, Ok};
ghost use Rattle.format.specs.Bytes.{reader};
ghost use Rattle.rules.specs.Rules.{unless};
ghost use Rattle.rules.specs.Areas.{listed, serves, enters, onward, outside, first_outside, cut, word_serves, one_word, by_words};
ghost use Rattle.rules.specs.TakingUp.{answered, reach, pieces_of};

use super::pieces::{BLOCK, Piece, Pieces};
use super::place::{Broken, refuse_if};
use super::storage::{Storage, addressable, read_word};
use format::ccw::Ccw;
use format::placed::Placed;
use format::refusal::Refusal;

// The bytes of an indirect word.
const WORD: u32 = 4;

// The area of a CCW in a storage, which goes up from its address, or down for read backward.
#[derive_where(Clone, Copy)]
pub(crate) struct Area<'a, S> {
    pub(crate) storage: &'a S,
    pub(crate) ccw: Placed<Ccw>,
    pub(crate) backward: bool,
}

impl<'a, S: Storage> Area<'a, S> {
    // How many bytes the block holds from an address on.
    fn serves(&self, first: usize) -> usize
        ensures { result ≡ serves self.now.backward first }
    {
        if self.backward {
            first % BLOCK + 1
        } else {
            BLOCK - first % BLOCK
        }
    }

    fn enters_block(&self, first: usize) -> bool
        ensures { result ≡ enters self.now.backward first }
    {
        if self.backward {
            first % BLOCK == BLOCK - 1
        } else {
            first % BLOCK == 0
        }
    }

    fn step_on(&self, first: usize, size: usize) -> usize
        requires { (first ≤ 2 ^ 33) × (size ≤ 2 ^ 16) }
        ensures { result ≡ onward self.now.backward first size }
    {
        if self.backward {
            first.saturating_sub(size)
        } else {
            first + size
        }
    }

    // Whether some of the bytes lie outside storage.
    fn is_outside(&self, first: u32, size: usize) -> bool
        requires { size ≤ 2 ^ 16 }
        ensures { result ≡ outside self.now.backward (reach (S.bytes self.now.storage.now)) first size }
    {
        let limit = addressable(self.storage);
        let at = first as usize;
        if self.backward {
            at >= limit || at + 1 < size
        } else {
            limit < at + size
        }
    }

    // The first byte outside, as a refusal names it.
    fn outside_at(&self, first: u32) -> u32
        ensures { result ≡ first_outside self.now.backward (reach (S.bytes self.now.storage.now)) first }
    {
        let limit = addressable(self.storage);
        let at = first as usize;
        if !self.backward {
            at.max(limit) as u32
        } else if at < limit {
            0xFFFF_FFFF
        } else {
            first
        }
    }

    // Rule 10: the bytes from an address on lie inside storage.
    fn check_inside(&self, first: u32, size: usize) -> Result<(), Broken>
        requires { size ≤ 2 ^ 16 }
        ensures { result ≡ unless (outside self.now.backward (reach (S.bytes self.now.storage.now)) first size)
            (Refusal.AreaOutside (first_outside self.now.backward (reach (S.bytes self.now.storage.now)) first)) self.now.ccw.address (Ok tt) }
    {
        let refusal = Refusal::AreaOutside(self.outside_at(first));
        refuse_if(self.is_outside(first, size), refusal, self.ccw.address)
    }

    // A direct area, cut where blocks end. No `for`: the size of each piece says where the next begins.
    fn cut(&self) -> Pieces
        requires { self.now.backward ≡ true → self.now.ccw.value.count ≤ self.now.ccw.value.address + 1 }
        ensures { listed result ≡ cut self.now.backward self.now.ccw.value.count self.now.ccw.value.address self.now.ccw.value.count }
    {
        let mut pieces = Pieces::new();
        let Ccw { address, count, .. } = self.ccw.value;
        let mut at = address as usize;
        let mut left = usize::from(count);
        while left > 0 {
            let size = left.min(self.serves(at));
            pieces.push(Piece { first: at, size });
            at = self.step_on(at, size);
            left -= size;
        }
        pieces
    }

    // Rules 9 and 10: the piece that an indirect word serves.
    fn served_piece(&self, later: bool, word: Placed<u32>, left: usize) -> Result<Piece, Broken>
        requires { left ≤ 2 ^ 16 }
        ensures { result ≡ word_serves self.now.backward (reach (S.bytes self.now.storage.now)) self.now.ccw.address later word.address word.value left }
    {
        let first = word.value as usize;
        let off_boundary = later && !self.enters_block(first);
        let refusal = Refusal::WordOffBoundary(word.address);
        refuse_if(off_boundary, refusal, self.ccw.address)?;
        let size = left.min(self.serves(first));
        self.check_inside(word.value, size)?;
        Ok(Piece { first, size })
    }

    // Rules 8 to 10 for one indirect word.
    fn word_piece(&self, later: bool, at: u32, left: usize) -> Result<Piece, Broken>
        requires { (0 < left) × (left ≤ 2 ^ 16) }
        ensures is { result ≡ one_word self.now.backward (reach (S.bytes self.now.storage.now)) (reader (S.bytes self.now.storage.now)) self.now.ccw.address later at left }
        ensures size { IfOk result (λ p. (0 < p.size) × (p.size ≤ left) × (later ≡ true → p.size ≡ min left 2048) × (at + 4 ≤ reach (S.bytes self.now.storage.now))) }
    {
        let outside = addressable(self.storage) < at as usize + WORD as usize;
        refuse_if(outside, Refusal::WordOutside(at), self.ccw.address)?;
        self.served_piece(later, read_word(self.storage, at), left)
    }

    // Rules 8 to 10: an area by a list of indirect words. No `for`: what a word serves says whether another is read.
    fn by_words(&self) -> Result<Pieces, Broken>
        ensures { answered listed result ≡ by_words self.now.backward (reach (S.bytes self.now.storage.now)) (reader (S.bytes self.now.storage.now)) self.now.ccw.address
            self.now.ccw.value.count false self.now.ccw.value.address self.now.ccw.value.count }
    {
        let mut pieces = Pieces::new();
        let mut later = false;
        let mut at = self.ccw.value.address;
        let mut left = usize::from(self.ccw.value.count);
        while left > 0 {
            let piece = self.word_piece(later, at, left)?;
            pieces.push(piece);
            at += WORD;
            left -= piece.size;
            later = true;
        }
        Ok(pieces)
    }

    // Rules 7 to 10.
    pub(crate) fn pieces(&self) -> Result<Pieces, Broken>
        ensures { answered listed result ≡ pieces_of (reach (S.bytes self.now.storage.now)) (reader (S.bytes self.now.storage.now)) self.now.ccw.address self.now.ccw.value self.now.backward self.now.ccw.value.flags.ida }
    {
        let Ccw {
            address,
            count,
            flags,
            ..
        } = self.ccw.value;
        if flags.ida {
            let refusal = Refusal::ListMisaligned(self.ccw.address);
            refuse_if(address % WORD != 0, refusal, self.ccw.address)?;
            return self.by_words();
        }
        self.check_inside(address, usize::from(count))?;
        Ok(self.cut())
    }
}
