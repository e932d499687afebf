use super::row::{Accepted, Refused, Row, Section};
use super::storage::build;
use format::ccw::Format;
use rules::place::Place;
use rules::storage::Plain;
use rules::taking_up::take_up;

// How many rows were checked, and how many of them were answered wrongly.
#[derive(Clone, Copy, Debug, Default)]
pub struct Tally {
    pub format_0: u32,
    pub format_1: u32,
    pub wrong: u32,
}

impl Tally {
    // Checks one row in one format, and prints a line.
    fn check_row(&mut self, rt: &HostRuntime, format: Format, row: &Row) -> anyhow::Result<()> {
        let storage = build(rt.alloc(), format, row)?;
        let taken = take_up(&Plain { storage: &storage }, format, Place::from(row.place));
        self.count(format);
        print!(rt; "  format {format}  {:<54} ", row.name)?;
        match row.expected {
            Ok(accepted) => print!(rt; "{accepted}: ")?,
            Err(refused) => print!(rt; "{refused}: ")?,
        }
        let answer = taken.as_ref().map(Accepted::from).map_err(Refused::from);
        if row.expected == answer {
            println!(rt; "as expected")?;
        } else {
            self.wrong = self.wrong.saturating_add(1);
            match taken {
                Ok(taken) => println!(rt; "WRONG: got {taken:08}")?,
                Err(broken) => println!(rt; "WRONG: got {broken:08}")?,
            }
        }
        Ok(())
    }

    fn count(&mut self, format: Format) {
        let rows = match format {
            Format::Zero => &mut self.format_0,
            Format::One => &mut self.format_1,
        };
        *rows = rows.saturating_add(1);
    }

    // Checks the rows of a rule, each in its formats.
    pub(crate) fn check(&mut self, rt: &HostRuntime, section: &Section) -> anyhow::Result<()> {
        println!(rt; "Rule {}: {}", section.rule, section.title)?;
        for row in section.rows {
            for format in row.formats {
                self.check_row(rt, *format, row)?;
            }
        }
        Ok(())
    }
}
