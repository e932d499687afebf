ghost use Rattle.std.specs.Prelude.{◌≡◌, ℕ, ◌+◌, ◌^◌, ◌≤◌, min, Bool, true, false, List, [], length, take as front};
ghost use Rattle.device.specs.Machine.{Machine, due, room};
ghost use Rattle.rules.specs.Soundness.{Sound};
ghost use Rattle.rules.specs.TakingUp.{cell_of, reading, backward, reach};
ghost use Rattle.channel.specs.Moves.{lay, addresses_of, gathered, Outcome, finished, settled, moved_count, moved_bytes, moved_state, moved as moved_whole, done};
ghost use Rattle.channel.specs.Steps.{World, onwards, closed, checked, stepped_from};

use super::moving::{read_pieces, write_pieces};
use super::run::{Next, Run};
use device::interface::{Begun, Device};
use device::skipping::skip;
use format::ccw::{Ccw, Format};
use format::class::Class;
use format::status::StatusWord;
use rules::place::{Place, Taken};
use rules::storage::{CCW_SIZE, Plain};
use rules::taking_up::take_up;

// The statuses are constants and no enum: each is a byte of a status word, and a device may answer any byte. `unit` has
// names for what devices answer, but the channel does not know it.

// Device status: a command is done; none is begun.
const CHANNEL_END_DEVICE_END: u8 = 0x0C;

const NO_STATUS: u8 = 0;

// Subchannel status: nothing is wrong; the count and the bytes moved differ; a rule is broken.
const NOTHING_WRONG: u8 = 0;

const INCORRECT_LENGTH: u8 = 0x40;

const PROGRAM_CHECK: u8 = 0x20;

// Storage, CCW and device stay three parameters. Tried as a struct: it asks a lifetime for each of them and a clause of
// each method that both `&mut` stay its caller's, and `Sound` as its ghost field is no proposition, so that each use opens it.

// A reading CCW without SKIP.
fn read_area<D: Device>(storage: &mut [u8], taken: &Taken, device: &mut D) -> usize
    requires { Sound (reach storage.old) (cell_of taken.now) }
    ensures count { result ≡ length (front taken.now.ccw.value.count (due (D.machine.pending (D.state device.old)))) }
    ensures bytes { storage.new ≡ lay (addresses_of (cell_of taken.now)) (front taken.now.ccw.value.count (due (D.machine.pending (D.state device.old)))) storage.old }
    ensures became { D.state device.new ≡ D.machine.given taken.now.ccw.value.count (D.state device.old) }
{
    let backward = Class::from(taken.code).backward();
    let count = taken.ccw.value.count;
    read_pieces(storage, backward, &taken.pieces, count, device)
}

// A reading CCW with SKIP.
fn skip_area<D: Device>(taken: &Taken, device: &mut D) -> usize
    ensures count { result ≡ length (front taken.now.ccw.value.count (due (D.machine.pending (D.state device.old)))) }
    ensures became { D.state device.new ≡ D.machine.given taken.now.ccw.value.count (D.state device.old) }
{
    skip(usize::from(taken.ccw.value.count), device)
}

// A writing CCW.
fn write_area<D: Device>(storage: &[u8], taken: &Taken, device: &mut D) -> usize
    requires { (Sound (reach storage.now) (cell_of taken.now)) × (reading taken.now.code ≡ false) }
    ensures count { result ≡ min (length (gathered (cell_of taken.now) storage.now)) (room (D.machine.pending (D.state device.old))) }
    ensures became { D.state device.new ≡ D.machine.taken (gathered (cell_of taken.now) storage.now) (D.state device.old) }
{
    write_pieces(storage, &taken.pieces, taken.ccw.value.count, device)
}

// Moves the bytes of one CCW, and answers how many.
fn move_area<D: Device>(storage: &mut [u8], taken: &Taken, device: &mut D) -> usize
    requires { Sound (reach storage.old) (cell_of taken.now) }
    ensures count { result ≡ moved_count D.machine (cell_of taken.now) (gathered (cell_of taken.now) storage.old) (D.state device.old) }
    ensures bytes { storage.new ≡ lay (addresses_of (cell_of taken.now)) (moved_bytes D.machine (cell_of taken.now) (D.state device.old)) storage.old }
    ensures became { D.state device.new ≡ moved_state D.machine (cell_of taken.now) (gathered (cell_of taken.now) storage.old) (D.state device.old) }
{
    if !Class::from(taken.code).reads() {
        write_area(storage, taken, device)
    } else if taken.ccw.value.flags.skip {
        skip_area(taken, device)
    } else {
        read_area(storage, taken, device)
    }
}

fn finish(ccw: Ccw, status: u8, residual: u16, incorrect: bool) -> Next
    ensures { result ≡ finished ccw status residual incorrect }
{
    if ccw.flags.cc && !ccw.flags.cd && status == CHANNEL_END_DEVICE_END && !incorrect {
        return Next::Command;
    }
    let subchannel_status = if incorrect {
        INCORRECT_LENGTH
    } else {
        NOTHING_WRONG
    };
    Next::End {
        device_status: status,
        subchannel_status,
        residual,
    }
}

// What follows a move of `moved` bytes.
fn settle<D: Device>(ccw: Ccw, owed: u32, moved: usize, device: &mut D) -> Next
    requires { moved ≤ ccw.count }
    ensures next { (bytes : List ℕ) → result ≡ (settled D.machine ccw owed moved bytes (D.state device.old)).next }
    ensures became { (bytes : List ℕ) → D.state device.new ≡ (settled D.machine ccw owed moved bytes (D.state device.old)).state }
{
    let still = owed.saturating_sub(moved as u32);
    let residual = ccw.count - moved as u16;
    if moved == usize::from(ccw.count) && ccw.flags.cd {
        return Next::Data { owed: still };
    }
    let incorrect = (residual != 0 || still != 0) && !(ccw.flags.sli && !ccw.flags.cd);
    let status = device.end();
    finish(ccw, status, residual, incorrect)
}

// The move of an open command and what follows it.
fn move_and_settle<D: Device>(storage: &mut [u8], taken: &Taken, owed: u32, device: &mut D) -> Next
    requires { Sound (reach storage.old) (cell_of taken.now) }
    ensures next { result ≡ (moved_whole D.machine (cell_of taken.now) owed (gathered (cell_of taken.now) storage.old) (D.state device.old)).next }
    ensures bytes { storage.new ≡ lay (addresses_of (cell_of taken.now)) (moved_whole D.machine (cell_of taken.now) owed (gathered (cell_of taken.now) storage.old) (D.state device.old)).stored storage.old }
    ensures became { D.state device.new ≡ (moved_whole D.machine (cell_of taken.now) owed (gathered (cell_of taken.now) storage.old) (D.state device.old)).state }
{
    let moved = move_area(storage, taken, device);
    settle(taken.ccw.value, owed, moved, device)
}

// One CCW that was taken up.
fn run_ccw<D: Device>(storage: &mut [u8], taken: &Taken, owed: u32, device: &mut D) -> Next
    requires { Sound (reach storage.old) (cell_of taken.now) }
    ensures next { result ≡ (done D.machine (cell_of taken.now) owed (gathered (cell_of taken.now) storage.old) (D.state device.old)).next }
    ensures bytes { storage.new ≡ lay (addresses_of (cell_of taken.now)) (done D.machine (cell_of taken.now) owed (gathered (cell_of taken.now) storage.old) (D.state device.old)).stored storage.old }
    ensures became { D.state device.new ≡ (done D.machine (cell_of taken.now) owed (gathered (cell_of taken.now) storage.old) (D.state device.old)).state }
{
    match taken.before {
        Some(_) => move_and_settle(storage, taken, owed, device),
        None => match device.begin(taken.code) {
            Begun::Immediate(status) => finish(
                taken.ccw.value,
                status,
                taken.ccw.value.count,
                false,
            ),
            Begun::Open { least, .. } => move_and_settle(storage, taken, least, device),
        },
    }
}

// A run at a later place than its first.
fn later(address: u32, command: Option<u8>, owed: u32) -> Run
    ensures { result ≡ Run.Running (record { address = address; first = false; command = command }) owed }
{
    let place = Place {
        address,
        first: false,
        command,
    };
    Run::Running { place, owed }
}

// The run after the CCW at an address, with this code in force.
fn go_on(address: u32, code: u8, next: Next) -> Run
    requires { address + 8 ≤ 2 ^ 31 }
    ensures { result ≡ onwards address code next }
{
    let ccw_address = address + CCW_SIZE;
    match next {
        Next::Data { owed } => later(ccw_address, Some(code), owed),
        Next::Command => later(ccw_address, None, 0),
        Next::End {
            device_status,
            subchannel_status,
            residual,
        } => Run::Ended {
            status: StatusWord {
                ccw_address,
                device_status,
                subchannel_status,
                residual,
            },
        },
    }
}

// Ends a command that this program began, and answers its status, 00 if there is none. Tried `map_or` with a closure that ends
// the command: what `device` became through it stays open.
pub fn close<D: Device>(command: Option<u8>, device: &mut D) -> u8
    ensures answer { result ≡ (closed D.machine command (D.state device.old)).0 }
    ensures became { D.state device.new ≡ (closed D.machine command (D.state device.old)).1 }
{
    match command {
        Some(_) => device.end(),
        None => NO_STATUS,
    }
}

// A program check, counted from the CCW or TIC that was being taken up.
fn check_program<D: Device>(command: Option<u8>, ccw: u32, device: &mut D) -> Run
    ensures run { result ≡ (checked D.machine command ccw [] (D.state device.old)).run }
    ensures became { D.state device.new ≡ (checked D.machine command ccw [] (D.state device.old)).state }
{
    let status = StatusWord {
        ccw_address: ccw.wrapping_add(CCW_SIZE),
        device_status: close(command, device),
        subchannel_status: PROGRAM_CHECK,
        residual: 0,
    };
    Run::Ended { status }
}

// One step of a run.
pub fn step_run<D: Device>(storage: &mut [u8], format: Format, run: Run, device: &mut D) -> Run
    ensures run { result ≡ (stepped_from D.machine format storage.old (D.state device.old) run).run }
    ensures bytes { storage.new ≡ (stepped_from D.machine format storage.old (D.state device.old) run).storage }
    ensures became { D.state device.new ≡ (stepped_from D.machine format storage.old (D.state device.old) run).state }
{
    let Run::Running { place, owed } = run else {
        return run;
    };
    match take_up(&Plain { storage }, format, place) {
        Err(broken) => check_program(place.command, broken.ccw, device),
        Ok(taken) => go_on(
            taken.ccw.address,
            taken.code,
            run_ccw(storage, &taken, owed, device),
        ),
    }
}
