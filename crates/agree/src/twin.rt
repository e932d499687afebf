ghost use Rattle.std.specs.Prelude.{◌≡◌, ℕ, List};
ghost use Rattle.format.specs.declared.ccw.Format.TheVariants.{Zero as format_zero, One as format_one};
ghost use Rattle.device.specs.Machine.{Machine};
ghost use Rattle.channel.specs.Steps.{World, started, stepped, advanced, halted, is_ended};
ghost use Rattle.agree.specs.Correspondence.{world as whole};
ghost use Rattle.agree.specs.Agreement.{CellsAgree, StartsAgree, StepsAgree, AdvancesAgree, HaltsAgree, NeverChecked, StepsKeep, Together};

use channel::run::Run;
use device::interface::Device;
use format::ccw::Format;
use map::interface::Map;
use program::{Program, Progress};

// Where two runs of one program stand: the host's, on the program frame, and the direct one, on the guest's own bytes.
#[derive(Clone, Copy, Debug, PartialEq, Eq)]
pub struct Twin {
    pub host: Run,
    pub direct: Run,
}

// What up to k CCWs came to on each side.
#[derive(Clone, Copy, Debug, Default, PartialEq, Eq)]
pub struct Progresses {
    pub host: Progress,
    pub direct: Progress,
}

// `map` and `device` are named by the clauses alone: they say of which map and of which kind of device a clause speaks.
impl Twin {
    // Both at their start, for this map and a device of this kind: the host's channel at cell 0, the direct one at the
    // program's start address.
    #[tactic(auto, using(crate::proofs::Whole::cells_agree, crate::proofs::Whole::starts_agree))]
    pub fn start<M: Map, D: Device>(map: &M, device: &D, address: u32) -> Twin
        ensures is { (result.host ≡ started 0) × (result.direct ≡ started address) }
        ensures cells { CellsAgree (M.frames map.now) (M.free map.now) }
        ensures agree { StartsAgree D.machine (M.frames map.now) (M.free map.now) }
    {
        Twin {
            host: Program::start(Format::One, 0).run,
            direct: Program::start(Format::Zero, address).run,
        }
    }

    // The two as programs: the host's in format 1, the direct one in format 0.
    fn programs(&self) -> (Program, Program)
        ensures { result ≡ (record { format = format_one; run = self.now.host }, record { format = format_zero; run = self.now.direct }) }
    {
        let host = Program {
            format: Format::One,
            run: self.host,
        };
        let direct = Program {
            format: Format::Zero,
            run: self.direct,
        };
        (host, direct)
    }

    // One CCW on each side. A side's storage and device stay two parameters: a struct that held both `&mut` would need a
    // clause in each contract that it still holds the same references.
    #[tactic(auto, using(crate::proofs::Whole::one_step_agrees, crate::proofs::Whole::stepped_together))]
    pub fn step<M: Map, D: Device>(
        &mut self,
        map: &M,
        host: &mut [u8],
        host_device: &mut D,
        direct: &mut [u8],
        direct_device: &mut D,
    )
        ensures host { whole D.machine host.new (D.state host_device.new) self.new.host
            ≡ stepped D.machine format_one (whole D.machine host.old (D.state host_device.old) self.old.host) }
        ensures direct { whole D.machine direct.new (D.state direct_device.new) self.new.direct
            ≡ stepped D.machine format_zero (whole D.machine direct.old (D.state direct_device.old) self.old.direct) }
        ensures agree { StepsAgree D.machine (M.frames map.now) (M.free map.now) }
        ensures together { Together D.machine (M.frames map.now) (M.free map.now)
            (whole D.machine host.old (D.state host_device.old) self.old.host)
            (whole D.machine direct.old (D.state direct_device.old) self.old.direct)
            (whole D.machine host.new (D.state host_device.new) self.new.host)
            (whole D.machine direct.new (D.state direct_device.new) self.new.direct) }
    {
        let (mut on_host, mut on_direct) = self.programs();
        on_host.step(host, host_device);
        on_direct.step(direct, direct_device);
        *self = Twin {
            host: on_host.run,
            direct: on_direct.run,
        };
    }

    // Up to `limit` CCWs on each side, or fewer if the program ends.
    #[tactic(auto, using(crate::proofs::Whole::advances_agree, crate::proofs::Whole::never_checked, crate::proofs::Whole::all_steps_keep))]
    pub fn advance<M: Map, D: Device>(
        &mut self,
        map: &M,
        host: &mut [u8],
        host_device: &mut D,
        direct: &mut [u8],
        direct_device: &mut D,
        limit: u64,
    ) -> Progresses
        ensures host { ◌≡◌ {A = ℕ × World D.machine}
            (result.host.count, whole D.machine host.new (D.state host_device.new) self.new.host)
            (advanced D.machine format_one limit (whole D.machine host.old (D.state host_device.old) self.old.host)) }
        ensures direct { ◌≡◌ {A = ℕ × World D.machine}
            (result.direct.count, whole D.machine direct.new (D.state direct_device.new) self.new.direct)
            (advanced D.machine format_zero limit (whole D.machine direct.old (D.state direct_device.old) self.old.direct)) }
        ensures ended { (result.host.ended ≡ is_ended self.new.host) × (result.direct.ended ≡ is_ended self.new.direct) }
        ensures agree { AdvancesAgree D.machine (M.frames map.now) (M.free map.now) }
        ensures unchecked { NeverChecked D.machine (M.frames map.now) (M.free map.now) }
        ensures keep { StepsKeep D.machine (M.frames map.now) (M.free map.now) }
        ensures together { Together D.machine (M.frames map.now) (M.free map.now)
            (whole D.machine host.old (D.state host_device.old) self.old.host)
            (whole D.machine direct.old (D.state direct_device.old) self.old.direct)
            (whole D.machine host.new (D.state host_device.new) self.new.host)
            (whole D.machine direct.new (D.state direct_device.new) self.new.direct) }
    {
        let (mut on_host, mut on_direct) = self.programs();
        let host_progress = on_host.advance(host, host_device, limit);
        let direct_progress = on_direct.advance(direct, direct_device, limit);
        *self = Twin {
            host: on_host.run,
            direct: on_direct.run,
        };
        Progresses {
            host: host_progress,
            direct: direct_progress,
        }
    }

    // Ends both runs if they have not ended; storage stays.
    #[tactic(auto, using(crate::proofs::Whole::halts_agree, crate::proofs::Whole::halted_together))]
    pub fn halt<M: Map, D: Device>(&mut self, map: &M, host_device: &mut D, direct_device: &mut D)
        ensures host { (storage : List ℕ) → whole D.machine storage (D.state host_device.new) self.new.host
            ≡ halted D.machine (whole D.machine storage (D.state host_device.old) self.old.host) }
        ensures direct { (storage : List ℕ) → whole D.machine storage (D.state direct_device.new) self.new.direct
            ≡ halted D.machine (whole D.machine storage (D.state direct_device.old) self.old.direct) }
        ensures agree { HaltsAgree D.machine (M.frames map.now) (M.free map.now) }
        ensures together { (host direct : List ℕ) → Together D.machine (M.frames map.now) (M.free map.now)
            (whole D.machine host (D.state host_device.old) self.old.host)
            (whole D.machine direct (D.state direct_device.old) self.old.direct)
            (whole D.machine host (D.state host_device.new) self.new.host)
            (whole D.machine direct (D.state direct_device.new) self.new.direct) }
    {
        let (mut on_host, mut on_direct) = self.programs();
        on_host.halt(host_device);
        on_direct.halt(direct_device);
        *self = Twin {
            host: on_host.run,
            direct: on_direct.run,
        };
    }
}
