// Runs channel programs with CCWs of format 0 on the channel itself. It prints what each CCW did, how each
// program ended, how the device stands and what changed in storage. First come programs on a console, then
// some that are halted, a damaged one for each rule, and programs on a tape and on a disk.
#![tactic(auto)]

mod ebcdic;
mod job;
mod names;
mod programs;
mod report;
mod running;
#[cfg(test)]
mod tests;
mod trace;
mod units;
mod watched;

use disk::state::access::zero_disk;
use programs::console_jobs::{CONSOLE_JOBS, DAMAGED, HALTS};
use programs::disk_jobs::DISK_JOBS;
use programs::tape_jobs::TAPE_JOBS;
use running::{halt_job, run_console_job, run_damaged, run_jobs};
use units::empty_tape;
use watched::Watched;

const LEGEND: [&str; 7] = [
    "Channel programs on a console, a tape and a disk.",
    "A program is a chain of channel command words (CCWs) in storage.",
    "Addresses, codes, flags, bytes and status are hexadecimal, all other numbers are decimal.",
    "A device answers begin at once, or opens the command with the least and the most bytes to move.",
    "Flags: CD goes on with more data, CC with another command, SLI suppresses the length check,",
    "SKIP stores nothing, IDA takes the area from a list of addresses.",
    "A TIC leads on to the CCW at its address.",
];

fn run_all(rt: &HostRuntime) -> anyhow::Result<()> {
    for line in LEGEND {
        println!(rt; "{line}")?;
    }
    for job in &CONSOLE_JOBS {
        run_console_job(rt, job)?;
    }
    for halt in &HALTS {
        halt_job(rt, halt)?;
    }
    for job in &DAMAGED {
        run_damaged(rt, job)?;
    }
    run_jobs(rt, &TAPE_JOBS, &mut empty_tape()?)?;
    run_jobs(rt, &DISK_JOBS, &mut Watched::new(zero_disk()))
}

fn main(rt: HostRuntime) -> anyhow::Result<()> {
    run_all(&rt)
}
