ghost use Rattle.std.specs.Prelude.{◌≡◌, ℕ, length, Decides, MatchResult};
ghost use Rattle.map.specs.Law.{Lawful};
ghost use Rattle.frame_maps.specs.FrameSets.{among, flagged};
ghost use Rattle.short_list.specs.Lists.{items};
ghost use Rattle.std.proofs.Common.{rules};

use format::refusal::Refusal;
use map::interface::{MOST_FRAMES, MOST_PAGES, Map};
use short_list::list::ShortList;

// A frame for each page, and for each frame whether it is free.
#[derive(Clone, Copy, Debug, PartialEq, Eq)]
pub struct PageTable {
    listed: ShortList<u8, MOST_PAGES>,
    flags: [bool; MOST_FRAMES],
    ghost sized: { length flags ≡ 256 },
    ghost lawful: { Lawful (items listed) (flagged flags) },
}

// Whether the listed frames, and the flags of the free ones, keep the law of a map.
fn keeps_law(listed: &[u8], flags: &[bool; MOST_FRAMES]) -> bool
    ensures { Decides result (Lawful listed.now (flagged flags.now)) }
{
    if listed.is_empty() || listed.len() > MOST_PAGES || flags[0] {
        return false;
    }
    // A loop, whose invariant is the whole proof; tried by `.iter().enumerate().all(..)`, and the goal `returns-then-not-flags`
    // stayed open.
    for (page, frame) in listed.iter().enumerate() {
        if *frame == 0 || flags[usize::from(*frame)] || listed[..page].contains(frame) {
            return false;
        }
    }
    true
}

// The flags of a list of frames.
fn flags_of(frames: &[u8]) -> [bool; MOST_FRAMES]
    ensures { (f : ℕ) → flagged result f ≡ among frames.now f }
{
    let mut flags = [false; MOST_FRAMES];
    for frame in frames {
        flags[usize::from(*frame)] = true;
    }
    flags
}

impl PageTable {
    // From the frame of each page, and the free frames in any order.
    pub fn new(listed: &[u8], free: &[u8]) -> Result<PageTable, Refusal>
        ensures { MatchResult result
            (λ t. Lawful listed.now (among free.now)
            × (items t.listed ≡ listed.now) × ((f : ℕ) → flagged t.flags f ≡ among free.now f))
            (λ e. (e ≡ Refusal.MapUnlawful) × (Lawful listed.now (among free.now) → ⊥)) }
    {
        let flags = flags_of(free);
        if !keeps_law(listed, &flags) {
            return Err(Refusal::MapUnlawful);
        }
        let listed = ShortList::try_from(listed).map_err(|_| Refusal::MapUnlawful)?;
        Ok(PageTable { listed, flags })
    }
}

impl Map for PageTable {
    ghost frames = { λ t. items t.listed };

    ghost free = { λ t. flagged t.flags };

    ghost lawful = { Prim.search rules };

    fn page_count(&self) -> usize {
        self.listed.len()
    }

    fn frame_of(&self, page: usize) -> u8 {
        self.listed.get(page).copied().unwrap_or(0)
    }

    fn is_free(&self, frame: u8) -> bool {
        self.flags[usize::from(frame)]
    }

    fn put(&mut self, page: usize, frame: u8) -> Result<(), Refusal> {
        if page < self.listed.len() && self.flags[usize::from(frame)] {
            let old = self.listed[page];
            self.listed.set(page, frame);
            self.flags[usize::from(frame)] = false;
            self.flags[usize::from(old)] = true;
            Ok(())
        } else {
            Err(Refusal::FrameTaken)
        }
    }
}
