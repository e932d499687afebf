ghost use Rattle.std.specs.Prelude.{◌≡◌, IfOk};
ghost use Rattle.map.specs.Views.{guest_bytes};
ghost use Rattle.translate.specs.Kept.{keeping_in};
ghost use Rattle.translate.specs.Theorems.{LeadsHome};
ghost use Rattle.translate.specs.Translations.{accepted, translated};

use super::frame::{FRAME_SIZE, write_frame};
use super::kept::Kept;
use format::refusal::Refusal;
use map::address::GuestAddress;
use map::interface::Map;
use map::view::GuestView;
use walk::own_bytes::asking::{first_overwriting_ccw, own_bytes_of};
use walk::walking::walk_program;

// Translates the guest's program that starts at an address: fills the frame and what is kept, and answers the number of
// cells and of words (a rule of the project: a pair of counts). A refusal changes nothing.
pub fn translate<'a, M: Map>(
    map: &'a M,
    host: &'a [u8],
    start: GuestAddress,
    frame: &mut [u8; FRAME_SIZE],
    kept: &mut Kept,
) -> Result<(usize, usize), Refusal>
    ensures is { record { answer = result; frame = frame.new; kept = keeping_in kept.new }
        ≡ translated (M.frames map.now) host.now start.0 frame.old (keeping_in kept.old) }
    ensures home { IfOk (accepted (guest_bytes (M.frames map.now) host.now) start.0) (LeadsHome (M.frames map.now) frame.new) }
{
    let walked = walk_program(&GuestView { map, host }, start.0)?;
    let own = own_bytes_of(&walked.cells);
    if let Some(ccw) = first_overwriting_ccw(&own, &walked.cells) {
        return Err(Refusal::ReadsOverProgram(ccw));
    }
    let words = write_frame(map, &walked, frame);
    *kept = Kept::of(&walked.cells, own);
    Ok((walked.cells.len(), words))
}
