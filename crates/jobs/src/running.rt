use super::job::{ConsoleJob, Halt, Job};
use super::report::{show_changes, show_status, show_unit, show_word};
use super::trace::trace;
use super::units::{Shown, console_with};
use super::watched::Watched;
use format::ccw::Format;
use program::Program;
use std::io;
use unit::model::Model;
use unit::state::Unit;

fn show_title(rt: &HostRuntime, job: &Job) -> io::Result<()> {
    println!(rt)?;
    println!(rt; "== {}: {} ==", job.title, job.about)
}

// Runs a job on a device and tells everything about it.
fn run_job<M: Model + Shown>(
    rt: &HostRuntime,
    job: &Job,
    device: &mut Watched<Unit<M>>,
) -> anyhow::Result<()> {
    let mut storage = job.storage(rt.alloc())?;
    let before = storage.clone()?;
    let mut program = Program::start(Format::Zero, job.start);
    trace(rt, &mut program, &mut storage, device)?;
    show_status(rt, &program)?;
    show_unit(rt, &device.device)?;
    show_changes(rt, &before, &storage)?;
    Ok(())
}

// Runs jobs on one device, one after the other, each with a storage of its own.
pub(crate) fn run_jobs<M: Model + Shown>(
    rt: &HostRuntime,
    jobs: &[Job],
    device: &mut Watched<Unit<M>>,
) -> anyhow::Result<()> {
    for job in jobs {
        show_title(rt, job)?;
        run_job(rt, job, device)?;
    }
    Ok(())
}

// Runs a job on a console of its own.
pub(crate) fn run_console_job(rt: &HostRuntime, job: &ConsoleJob) -> anyhow::Result<()> {
    show_title(rt, &job.job)?;
    println!(rt; "The line \"{}\" waits at the console.", job.line)?;
    let mut device = console_with(rt.alloc(), job.line)?;
    run_job(rt, &job.job, &mut device)
}

// Runs a job for some steps, halts it, and tells how it stood then.
pub(crate) fn halt_job(rt: &HostRuntime, halt: &Halt) -> anyhow::Result<()> {
    let job = &halt.job.job;
    show_title(rt, job)?;
    let mut storage = job.storage(rt.alloc())?;
    let mut device = console_with(rt.alloc(), halt.job.line)?;
    let mut program = Program::start(Format::Zero, job.start);
    let progress = program.advance(&mut storage, &mut device, halt.steps);
    let state = if progress.ended {
        "has ended"
    } else {
        "is still running"
    };
    println!(rt;
        "Steps: up to {} asked for, {} taken; the program {state}. Now it is halted.",
        halt.steps, progress.count
    )?;
    program.halt(&mut device);
    show_status(rt, &program)?;
    show_unit(rt, &device.device)?;
    Ok(())
}

// Runs a damaged program and tells which rule it breaks.
pub(crate) fn run_damaged(rt: &HostRuntime, job: &Job) -> anyhow::Result<()> {
    show_title(rt, job)?;
    let mut storage = job.storage(rt.alloc())?;
    let mut device = console_with(rt.alloc(), "")?;
    let mut program = Program::start(Format::Zero, job.start);
    trace(rt, &mut program, &mut storage, &mut device)?;
    show_word(rt, &program)?;
    Ok(())
}
