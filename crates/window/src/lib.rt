// A window on a part of any map, itself a map: a window on a window is one too.
#![tactic(auto)]

ghost use Rattle.std.specs.Prelude.{◌≡◌, ℕ, ◌+◌, ◌-◌, ◌≤◌, min, length, take, drop, if◌then◌else◌, MatchResult, OnOk, nat_lt, slice_index};
ghost use Rattle.map.specs.Law.{Lawful, PutDone, PutRefused};
ghost use Rattle.window.specs.Windows.{Inside, start_of, shown, PutThrough};
ghost use Rattle.window.specs.Showing.{shown_lawful};

use format::refusal::Refusal;
use map::interface::Map;

// Some pages of another map, the map below, as pages from 0 on, with its free frames. The type asks nothing of `M`, so it
// cannot state what holds of the map below: each method asks that map for its page count.
#[derive(Debug, PartialEq, Eq, Drop)]
pub struct Window<M> {
    below: M,
    span: Span,
}

// Which pages a window shows.
#[derive(Clone, Copy, Debug, PartialEq, Eq)]
struct Span {
    first: usize,
    count: usize,
    ghost sized: { (1 ≤ count) × (count ≤ 128) },
}

// A window that was not made, and the map that it was to show.
#[derive(Debug, PartialEq, Eq, Drop)]
pub struct WindowRefused<M> {
    pub refusal: Refusal,
    pub below: M,
}

impl<M: Map> Window<M> {
    // Shows `count` pages of a map, from its page `first` on.
    pub fn new(below: M, first: usize, count: usize) -> Result<Window<M>, WindowRefused<M>>
        ensures answer { MatchResult result
            (λ w. Inside first count (M.frames below) × (w.below ≡ below) × (w.span.first ≡ first) × (w.span.count ≡ count)
            × (start_of first (M.frames below) ≡ first) × (shown first count (M.frames below) ≡ take count (drop first (M.frames below))))
            (λ e. (Inside first count (M.frames below) → ⊥) × (e.refusal ≡ Refusal.MapUnlawful) × (e.below ≡ below)) }
        ensures lawful { OnOk result (Lawful (take count (drop first (M.frames below))) (M.free below)) }
    {
        let pages = below.page_count();
        if count == 0 || first > pages || count > pages - first {
            return Err(WindowRefused {
                refusal: Refusal::MapUnlawful,
                below,
            });
        }
        Ok(Window {
            below,
            span: Span { first, count },
        })
    }

    // The page of the map below that is page 0, and what the window shows from there on.
    fn start(&self) -> usize
        ensures is { result ≡ start_of self.now.span.first (M.frames self.now.below) }
        ensures pages { length (shown self.now.span.first self.now.span.count (M.frames self.now.below))
            ≡ min self.now.span.count (length (M.frames self.now.below) - result) }
        ensures each { (i : ℕ) → slice_index (shown self.now.span.first self.now.span.count (M.frames self.now.below)) i
            ≡ (if nat_lt i self.now.span.count then slice_index (M.frames self.now.below) (result + i) else 0) }
        ensures lawful { Lawful (shown self.now.span.first self.now.span.count (M.frames self.now.below)) (M.free self.now.below) }
    {
        self.span.first.min(self.below.page_count() - 1)
    }

    // Gives a page that the window shows a free frame: that page of the map below changes, and no other.
    pub fn put_through(&mut self, page: usize, frame: u8) -> Result<(), Refusal>
        ensures answer { MatchResult result
            (λ _. PutDone (shown self.old.span.first self.old.span.count (M.frames self.old.below)) (M.free self.old.below) page frame
            (shown self.new.span.first self.new.span.count (M.frames self.new.below)) (M.free self.new.below))
            (λ e. PutRefused (shown self.old.span.first self.old.span.count (M.frames self.old.below))
            (M.free self.old.below) page frame e × (self.new ≡ self.old)) }
        ensures below { OnOk result (PutThrough self.old.span.first self.old.span.count
            (M.frames self.old.below) (M.free self.old.below) page frame (M.frames self.new.below) (M.free self.new.below)) }
        ensures shows { self.new.span ≡ self.old.span }
        ensures lawful { Lawful (shown self.new.span.first self.new.span.count (M.frames self.new.below)) (M.free self.new.below) }
    {
        let start = self.start();
        if page < self.span.count {
            self.below.put(start + page, frame)
        } else {
            Err(Refusal::FrameTaken)
        }
    }

    // Takes the window off the map below.
    pub fn into_below(self) -> M
        ensures { result ≡ self.below }
    {
        let Window { below, span: _ } = self;
        below
    }
}

impl<M: Map> Map for Window<M> {
    ghost frames = { λ w. shown w.span.first w.span.count (M.Map.frames w.below) };

    ghost free = { λ w. M.Map.free w.below };

    ghost lawful = { λ m. shown_lawful m.span.first m.span.count _ _ m.span.sized.0 (M.Map.lawful m.below) };

    // In one question to the map below: a second one would double at each window on a window.
    fn page_count(&self) -> usize {
        let pages = self.below.page_count();
        self.span.count.min(pages - self.span.first.min(pages - 1))
    }

    fn frame_of(&self, page: usize) -> u8 {
        let start = self.start();
        if page < self.span.count {
            self.below.frame_of(start + page)
        } else {
            0
        }
    }

    fn is_free(&self, frame: u8) -> bool {
        self.below.is_free(frame)
    }

    fn put(&mut self, page: usize, frame: u8) -> Result<(), Refusal> {
        self.put_through(page, frame)
    }
}
