use super::row::{Accepted, Refused};
use rules::pieces::Piece;
use rules::place::{Broken, Taken};
use std::fmt;

impl<'a> From<&'a Taken> for Accepted<'a> {
    fn from(taken: &'a Taken) -> Accepted<'a> {
        Accepted {
            ccw: taken.ccw.address,
            code: taken.code,
            area: taken.pieces.as_slice(),
        }
    }
}

impl<'a> From<&'a Broken> for Refused {
    fn from(broken: &'a Broken) -> Refused {
        Refused {
            rule: broken.refusal.number(),
            names: broken.refusal.address(),
            counts_from: broken.ccw,
        }
    }
}

// The pieces of an area as they are printed.
#[derive(Clone, Copy, Debug)]
struct Area<'a>(&'a [Piece]);

impl<'a> fmt::Display for Area<'a> {
    fn fmt<W: fmt::Write>(&self, f: &mut fmt::Formatter<W>) -> fmt::Result {
        for piece in self.0 {
            write!(f, " {piece:08}")?;
        }
        Ok(())
    }
}

impl<'a> fmt::Display for Accepted<'a> {
    fn fmt<W: fmt::Write>(&self, f: &mut fmt::Formatter<W>) -> fmt::Result {
        let area = Area(self.area);
        write!(
            f,
            "CCW {:08X}, code {:02X}, area{area}",
            self.ccw, self.code
        )
    }
}

impl fmt::Display for Refused {
    fn fmt<W: fmt::Write>(&self, f: &mut fmt::Formatter<W>) -> fmt::Result {
        write!(
            f,
            "rule {} names {:08X}, counts from {:08X}",
            self.rule, self.names, self.counts_from
        )
    }
}
