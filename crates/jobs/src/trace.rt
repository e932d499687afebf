use super::ebcdic::Hex;
use super::names::{Bits, DEVICE_STATUS, FLAGS, Rule};
use super::watched::{Notes, Watched};
use channel::run::Run;
use device::interface::{Begun, Device};
use format::class::Class;
use program::Program;
use rules::place::{Broken, Place, Taken};
use rules::storage::Plain;
use rules::taking_up::take_up;
use std::io;

// A program that loops is left after so many CCWs.
const MOST_STEPS: u32 = 100;

// Runs a program to its end, and tells what each CCW did.
pub(crate) fn trace<D: Device>(
    rt: &HostRuntime,
    program: &mut Program,
    storage: &mut [u8],
    device: &mut Watched<D>,
) -> io::Result<()> {
    for _ in 0..MOST_STEPS {
        let Run::Running { place, owed: _ } = program.run else {
            break;
        };
        trace_step(rt, program, place, storage, device)?;
    }
    Ok(())
}

fn trace_step<D: Device>(
    rt: &HostRuntime,
    program: &mut Program,
    place: Place,
    storage: &mut [u8],
    device: &mut Watched<D>,
) -> io::Result<()> {
    device.forget();
    match take_up(&Plain { storage }, program.format, place) {
        Ok(taken) => {
            show_ccw(rt, place, storage, &taken)?;
            show_area(rt, &taken)?;
            program.step(storage, device);
            show_move(rt, &taken, device.notes)?;
        }
        Err(broken) => {
            show_broken(rt, place, broken)?;
            program.step(storage, device);
        }
    }
    show_end(rt, device.notes)?;
    show_next(rt, program.run)
}

fn show_ccw(rt: &HostRuntime, place: Place, storage: &[u8], taken: &Taken) -> io::Result<()> {
    let address = taken.ccw.address;
    print!(rt; "CCW {address:06X}")?;
    if place.address != address {
        print!(rt; ", through the TIC at {:06X}", place.address)?;
    }
    let first = address as usize;
    if let Some(bytes) = storage.get(first..first + 8) {
        print!(rt; ":{}", Hex(bytes))?;
    }
    println!(rt)?;
    let ccw = taken.ccw.value;
    let class = Class::from(taken.code);
    let state = if taken.before.is_some() {
        " still in force"
    } else {
        ""
    };
    let flags = Bits(u8::from(ccw.flags), &FLAGS);
    println!(rt;
        "  code    {:02X} {class}{state}, flags {flags}, count {}",
        taken.code, ccw.count
    )
}

fn show_area(rt: &HostRuntime, taken: &Taken) -> io::Result<()> {
    print!(rt; "  area    ")?;
    for (index, piece) in taken.pieces.iter().enumerate() {
        if index > 0 {
            print!(rt; ", ")?;
        }
        print!(rt; "{:06X} length {}", piece.first, piece.size)?;
    }
    println!(rt)
}

// What the device answered to begin, and what moved.
fn show_move(rt: &HostRuntime, taken: &Taken, notes: Notes) -> io::Result<()> {
    match notes.begun {
        Some(Begun::Immediate(status)) => {
            let status = Bits(status, &DEVICE_STATUS);
            return println!(rt; "  begin   immediate, {status}");
        }
        Some(Begun::Open { least, most }) => println!(rt;
            "  begin   open, least {least}, most {most}"
        )?,
        None => {}
    }
    let ccw = taken.ccw.value;
    let reads = Class::from(taken.code).reads();
    let moved = if reads { notes.given } else { notes.taken };
    let way = match (reads, ccw.flags.skip) {
        (false, _) => "from storage to the device",
        (true, false) => "from the device to storage",
        (true, true) => "from the device, not stored",
    };
    println!(rt; "  moved   {moved} of {} {way}", ccw.count)
}

fn show_broken(rt: &HostRuntime, place: Place, broken: Broken) -> io::Result<()> {
    let number = broken.refusal.number();
    let rule = Rule(broken.refusal);
    println!(rt; "CCW {:06X}: refused", place.address)?;
    println!(rt; "  broken  rule {number}: {rule}")?;
    println!(rt; "  names   {:08X}", broken.refusal.address())
}

fn show_end(rt: &HostRuntime, notes: Notes) -> io::Result<()> {
    if let Some(status) = notes.ended {
        let status = Bits(status, &DEVICE_STATUS);
        println!(rt; "  end     {status}")?;
    }
    Ok(())
}

fn show_next(rt: &HostRuntime, run: Run) -> io::Result<()> {
    match run {
        Run::Running { place, owed } => match place.command {
            Some(_) => println!(rt;
                "  next    chains data to {:06X}, {owed} still owed",
                place.address
            ),
            None => println!(rt; "  next    chains command to {:06X}", place.address),
        },
        Run::Ended { status: _ } => println!(rt; "  next    none, the program has ended"),
    }
}
