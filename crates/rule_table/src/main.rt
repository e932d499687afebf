// Checks taking up a place against a table of rules 1 to 10. For each rule the table has places that
// keep it and near neighbours that break it, in both formats, each with the answer that the rule
// demands. The program prints a line for each row and ends with status 1 if any answer is another one.
#![tactic(auto)]

mod answer;
mod row;
mod storage;
mod table;
mod tally;

use anyhow::ensure;
use table::SECTIONS;
use tally::Tally;

fn check_all(rt: &HostRuntime) -> anyhow::Result<()> {
    let mut tally = Tally::default();
    for section in &SECTIONS {
        tally.check(rt, section)?;
    }
    println!(rt;
        "{} rows in format 0, {} in format 1, {} wrong",
        tally.format_0, tally.format_1, tally.wrong
    )?;
    ensure!(tally.wrong == 0, "rows are wrong");
    Ok(())
}

fn main(rt: HostRuntime) -> anyhow::Result<()> {
    check_all(&rt)
}
