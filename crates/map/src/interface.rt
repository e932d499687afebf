ghost use Rattle.std.specs.Prelude.{◌≡◌, ℕ, Bool, List, length, MatchResult, slice_index};
ghost use Rattle.map.specs.Law.{Lawful, PutDone, PutRefused};

use format::refusal::Refusal;

// The most pages that a map may have.
pub const MOST_PAGES: usize = 128;

// The most frames that a host may have, frame 0 among them.
pub const MOST_FRAMES: usize = 256;

// A frame for each page from 0 on, and a set of free frames.
pub trait Map {
    ghost frames: { Self → List ℕ };

    ghost free: { Self → ℕ → Bool };

    fn page_count(&self) -> usize
        ensures { result ≡ length (frames self.now) };

    // The frame of a page; 0, which serves no page, past the last page, as docs/RULES.md has it: so no Option.
    fn frame_of(&self, page: usize) -> u8
        ensures { result ≡ slice_index (frames self.now) page };

    fn is_free(&self, frame: u8) -> bool
        ensures { result ≡ free self.now frame };

    // Gives a page a free frame, and frees the frame that it had.
    fn put(&mut self, page: usize, frame: u8) -> Result<(), Refusal>
        ensures answer { MatchResult result
            (λ _. PutDone (frames self.old) (free self.old) page frame (frames self.new) (free self.new))
            (λ e. PutRefused (frames self.old) (free self.old) page frame e × (self.new ≡ self.old)) }
        ensures lawful { Lawful (frames self.new) (free self.new) };

    ghost lawful: { (m : Self) → Lawful (frames m) (free m) };
}
