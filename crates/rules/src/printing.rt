use super::pieces::Piece;
use super::place::{Broken, Taken};
use std::error::Error;
use std::fmt;

// Addresses are printed in hexadecimal, in the width that is asked for: `{taken:08}`, `{broken:05}`.
// The implementations are of `Display`, since a format string takes its `X` for numbers alone.
impl fmt::Display for Piece {
    fn fmt<W: fmt::Write>(&self, f: &mut fmt::Formatter<W>) -> fmt::Result {
        f.write_str("(")?;
        fmt::UpperHex::fmt(&self.first, f)?;
        write!(f, ", {})", self.size)
    }
}

impl fmt::Display for Taken {
    fn fmt<W: fmt::Write>(&self, f: &mut fmt::Formatter<W>) -> fmt::Result {
        f.write_str("CCW ")?;
        fmt::UpperHex::fmt(&self.ccw.address, f)?;
        write!(f, ", code {:02X}, area", self.code)?;
        for piece in &self.pieces {
            f.write_str(" ")?;
            fmt::Display::fmt(piece, f)?;
        }
        Ok(())
    }
}

impl fmt::Display for Broken {
    fn fmt<W: fmt::Write>(&self, f: &mut fmt::Formatter<W>) -> fmt::Result {
        write!(f, "rule {} names ", self.refusal.number())?;
        fmt::UpperHex::fmt(&self.refusal.address(), f)?;
        f.write_str(", counts from ")?;
        fmt::UpperHex::fmt(&self.ccw, f)
    }
}

impl Error for Broken {}
