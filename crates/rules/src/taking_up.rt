ghost use Rattle.std.specs.Prelude.{◌≡◌, ◌&&◌, IfOk};
ghost use Rattle.rules.specs.Soundness.{Sound};
ghost use Rattle.format.specs.Bytes.{reader};
ghost use Rattle.rules.specs.TakingUp.{reach, cell_of, answered, backward, in_force, none_in_force, is_invalid, refused_flag, pieces_of, cell_at, read_up, taken_up};
ghost use Rattle.rules.specs.Rules.{bind};
ghost use Rattle.format.specs.Classes.{class_in};

use super::area::Area;
use super::finding::find_ccw;
use super::place::{Broken, Place, Taken, refuse_if};
use super::storage::{Ccws, Storage};
use format::ccw::{Ccw, Format};
use format::class::Class;
use format::flags::Flags;
use format::placed::Placed;
use format::refusal::Refusal;

// Rule 4: a code is invalid only where no command is in force.
fn is_invalid_command(format: Format, command: Option<u8>, code: u8) -> bool
    ensures { result ≡ (none_in_force command && is_invalid (class_in format code)) }
{
    command.is_none() && Class::in_format(format, code) == Class::Invalid
}

fn has_refused_flag(flags: Flags) -> bool
    ensures { result ≡ refused_flag flags }
{
    flags.pci || flags.suspend || flags.mida
}

// Rules 7 to 10: a CCW that keeps the rules before, with its area.
fn with_area<S: Storage>(
    storage: &S,
    ccw: Placed<Ccw>,
    command: Option<u8>,
) -> Result<Taken, Broken>
    ensures { answered cell_of result ≡ bind
        (pieces_of (reach (S.bytes storage.now)) (reader (S.bytes storage.now)) ccw.address ccw.value (backward (in_force command ccw.value.code)) ccw.value.flags.ida)
        (λ pieces. Ok (cell_at command ccw.address ccw.value pieces)) }
{
    let code = command.unwrap_or(ccw.value.code);
    let area = Area {
        storage,
        ccw,
        backward: Class::from(code).backward(),
    };
    let pieces = area.pieces()?;
    Ok(Taken {
        ccw,
        before: command,
        code,
        pieces,
    })
}

// Rules 4 to 10: the CCW at an address, with the command in force before it.
pub fn read_up<S: Storage>(
    storage: &S,
    format: Format,
    address: u32,
    command: Option<u8>,
) -> Result<Taken, Broken>
    ensures { answered cell_of result ≡ read_up format (reach (S.bytes storage.now)) (reader (S.bytes storage.now)) address command }
{
    let ccw = Ccws { storage, format }.read(address);
    let invalid = is_invalid_command(format, command, ccw.value.code);
    refuse_if(invalid, Refusal::CodeInvalid(address), address)?;
    let flagged = has_refused_flag(ccw.value.flags);
    refuse_if(flagged, Refusal::FlagRefused(address), address)?;
    refuse_if(ccw.value.count == 0, Refusal::CountZero(address), address)?;
    with_area(storage, ccw, command)
}

// Rules 1 to 10.
pub fn take_up<S: Storage>(storage: &S, format: Format, place: Place) -> Result<Taken, Broken>
    ensures is { answered cell_of result ≡ taken_up format (S.bytes storage.now) place }
    ensures sound { IfOk result (λ t. Sound (reach (S.bytes storage.now)) (cell_of t)) }
{
    let address = find_ccw(storage, format, place)?;
    read_up(storage, format, address, place.command)
}
