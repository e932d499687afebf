ghost use Rattle.std.specs.Prelude.{◌≡◌, ℕ, ◌^◌, ◌≤◌, Result as Outcome};
ghost use Rattle.format.specs.Bytes.{reader};
ghost use Rattle.rules.specs.Rules.{past};
ghost use Rattle.rules.specs.TakingUp.{reach, is_transfer, aligned, transfer_rules, transfer_at, target, found};
ghost use Rattle.rules.specs.declared.place.Broken.{Broken as Fault};

use super::place::{Broken, Place, refuse_if};
use super::storage::{CCW_SIZE, Ccws, Storage, addressable};
use format::ccw::Format;
use format::class::Class;
use format::refusal::Refusal;

// Rules 1 and 2.
fn check_address(limit: usize, address: u32) -> Result<(), Broken>
    ensures { (rest : Outcome ℕ Fault) → past result rest ≡ aligned limit address rest }
{
    let misaligned = address % CCW_SIZE != 0;
    refuse_if(misaligned, Refusal::Misaligned(address), address)?;
    let outside = limit < address as usize + CCW_SIZE as usize;
    refuse_if(outside, Refusal::CcwOutside(address), address)
}

impl<'a, S: Storage> Ccws<'a, S> {
    // Whether a code with the low half of a TIC stands there.
    fn transfers(&self, address: u32) -> bool
        ensures { result ≡ transfer_at self.now.format (reader (S.bytes self.now.storage.now)) address }
    {
        Class::from(self.read(address).value.code) == Class::TransferInChannel
    }

    // Rule 3, and in format 1 that a TIC is 08 and has neither a flag nor a count.
    fn check_transfer(&self, address: u32, barred: bool) -> Result<(), Broken>
        ensures { (rest : Outcome ℕ Fault) → past result rest ≡ transfer_rules self.now.format (reader (S.bytes self.now.storage.now)) address barred rest }
    {
        let misplaced = Refusal::TransferMisplaced(address);
        match self.format {
            Format::Zero => refuse_if(barred, misplaced, address),
            Format::One => {
                let ccw = self.read(address).value;
                refuse_if(ccw.code != 8, Refusal::CodeInvalid(address), address)?;
                refuse_if(barred, misplaced, address)?;
                let burdened = ccw.flags.any() || ccw.count != 0;
                refuse_if(burdened, Refusal::FlagRefused(address), address)
            }
        }
    }

    // Rules 1 to 3 at the target of a TIC.
    fn reach_target(&self, address: u32) -> Result<u32, Broken>
        ensures { result ≡ target self.now.format (reach (S.bytes self.now.storage.now)) (reader (S.bytes self.now.storage.now)) address }
    {
        check_address(addressable(self.storage), address)?;
        if self.transfers(address) {
            self.check_transfer(address, true)?;
        }
        Ok(address)
    }

    // Rules 1 to 3 at an address, at which a program begins where `first` says so.
    fn find(&self, address: u32, first: bool) -> Result<u32, Broken>
        ensures { result ≡ found self.now.format (reach (S.bytes self.now.storage.now)) (reader (S.bytes self.now.storage.now)) address first }
    {
        check_address(addressable(self.storage), address)?;
        if !self.transfers(address) {
            return Ok(address);
        }
        self.check_transfer(address, first)?;
        self.reach_target(self.read(address).value.address)
    }
}

// Rules 1 to 3: the address of the CCW that a place leads to, through at most one TIC.
pub fn find_ccw<S: Storage>(storage: &S, format: Format, place: Place) -> Result<u32, Broken>
    ensures { result ≡ found format (reach (S.bytes storage.now)) (reader (S.bytes storage.now)) place.address place.first }
{
    Ccws { storage, format }.find(place.address, place.first)
}
