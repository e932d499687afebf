ghost use Rattle.std.specs.Prelude.{◌≡◌, MatchResult};
ghost use Rattle.std.specs.List.{range_with_len};
ghost use Rattle.map.specs.Law.{Lawful};
ghost use Rattle.frame_maps.specs.FrameSets.{none};
ghost use Rattle.std.proofs.Common.{rules};

use format::refusal::Refusal;
use map::interface::{MOST_FRAMES, MOST_PAGES, Map};

// The frames first, first + 1, and so on, `count` of them; none is free.
#[derive(Clone, Copy, Debug, PartialEq, Eq)]
pub struct Run {
    first: u8,
    count: usize,
    ghost lawful: { Lawful (range_with_len first count) none },
}

impl Run {
    #[tactic(auto, using(crate::proofs::Runs::run_lawful, crate::proofs::Runs::run_bounds))]
    pub fn new(first: u8, count: usize) -> Result<Run, Refusal>
        ensures { MatchResult result
            (λ m. Lawful (range_with_len first count) none × (m.first ≡ first) × (m.count ≡ count))
            (λ e. (e ≡ Refusal.MapUnlawful) × (Lawful (range_with_len first count) none → ⊥)) }
    {
        if first == 0
            || count == 0
            || count > MOST_PAGES
            || usize::from(first) + count > MOST_FRAMES
        {
            return Err(Refusal::MapUnlawful);
        }
        Ok(Run { first, count })
    }
}

impl Map for Run {
    ghost frames = { λ m. range_with_len m.first m.count };

    ghost free = { λ _. none };

    ghost lawful = { Prim.search rules };

    #[tactic(auto, using(crate::proofs::Runs::run_long))]
    fn page_count(&self) -> usize {
        self.count
    }

    #[tactic(auto, using(crate::proofs::Runs::run_each, crate::proofs::Runs::run_bounds))]
    fn frame_of(&self, page: usize) -> u8 {
        if page < self.count {
            self.first + page as u8
        } else {
            0
        }
    }

    fn is_free(&self, _frame: u8) -> bool {
        false
    }

    fn put(&mut self, _page: usize, _frame: u8) -> Result<(), Refusal> {
        Err(Refusal::FrameTaken)
    }
}
