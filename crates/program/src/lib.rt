// A channel program under way on the channel: started, stepped, run for up to k CCWs, halted, and asked for its
// status word.
#![tactic(auto)]

ghost use Rattle.std.specs.Prelude.{◌≡◌, ℕ, not, List};
ghost use Rattle.device.specs.Machine.{Machine};
ghost use Rattle.channel.specs.Steps.{World, started, stepped, ChangesOnlyArea, advanced, is_ended, Counted, halted, word_of};

use channel::run::Run;
use channel::step::{close, step_run};
use device::interface::Device;
use format::ccw::Format;
use format::status::StatusWord;
use rules::place::Place;

// A channel program under way: how its CCWs are laid out, and where it stands. Callers go on with the format, and no type
// says that a call through `&mut` keeps a field: so `step`, `advance` and `halt` have a clause each that it stays.
#[derive(Clone, Copy, Debug, PartialEq, Eq)]
pub struct Program {
    pub format: Format,
    pub run: Run,
}

// What up to k steps came to.
#[derive(Clone, Copy, Debug, Default, PartialEq, Eq)]
pub struct Progress {
    pub count: u64,
    pub ended: bool,
}

impl Program {
    // A program at its start address.
    pub fn start(format: Format, address: u32) -> Program
        ensures { (result.format ≡ format) × (result.run ≡ started address) }
    {
        let place = Place {
            address,
            first: true,
            command: None,
        };
        Program {
            format,
            run: Run::Running { place, owed: 0 },
        }
    }

    // One CCW. A program that has ended stays as it is.
    pub fn step<D: Device>(&mut self, storage: &mut [u8], device: &mut D)
        ensures format { self.new.format ≡ self.old.format }
        ensures world { ◌≡◌ {A = World D.machine}
            (record { storage = storage.new; state = D.state device.new; run = self.new.run })
            (stepped D.machine self.old.format (record { storage = storage.old; state = D.state device.old; run = self.old.run })) }
        ensures area { ChangesOnlyArea self.old.format self.old.run storage.old storage.new }
    {
        self.run = step_run(storage, self.format, self.run, device);
    }

    // Whether it has not ended.
    pub fn is_running(&self) -> bool
        ensures { result ≡ not (is_ended self.now.run) }
    {
        matches!(self.run, Run::Running { .. })
    }

    // Up to `limit` CCWs, or fewer if the program ends.
    pub fn advance<D: Device>(&mut self, storage: &mut [u8], device: &mut D, limit: u64) -> Progress
        ensures format { self.new.format ≡ self.old.format }
        ensures world { ◌≡◌ {A = ℕ × World D.machine}
            (result.count, record { storage = storage.new; state = D.state device.new; run = self.new.run })
            (advanced D.machine self.old.format limit (record { storage = storage.old; state = D.state device.old; run = self.old.run })) }
        ensures ended { result.ended ≡ is_ended self.new.run }
        ensures counted { Counted D.machine self.old.format limit
            (record { storage = storage.old; state = D.state device.old; run = self.old.run })
            result.count
            (record { storage = storage.new; state = D.state device.new; run = self.new.run }) }
    {
        for count in 0..limit {
            if !self.is_running() {
                return Progress { count, ended: true };
            }
            self.step(storage, device);
        }
        Progress {
            count: limit,
            ended: !self.is_running(),
        }
    }

    // Ends a program that is still running.
    pub fn halt<D: Device>(&mut self, device: &mut D)
        ensures format { self.new.format ≡ self.old.format }
        ensures world { (storage : List ℕ) → ◌≡◌ {A = World D.machine}
            (record { storage = storage; state = D.state device.new; run = self.new.run })
            (halted D.machine (record { storage = storage; state = D.state device.old; run = self.old.run })) }
    {
        if let Run::Running { place, .. } = self.run {
            let status = StatusWord {
                ccw_address: if place.first { 0 } else { place.address },
                device_status: close(place.command, device),
                ..StatusWord::default()
            };
            self.run = Run::Ended { status };
        }
    }

    // The status word of a program that has ended.
    pub fn status(&self) -> Option<StatusWord>
        ensures { result ≡ word_of self.now.run }
    {
        match self.run {
            Run::Running { .. } => None,
            Run::Ended { status } => Some(status),
        }
    }
}
