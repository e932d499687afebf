ghost use Rattle.std.specs.Prelude.{◌≡◌};
ghost use Rattle.format.specs.Refusals.{number_of, address_of};

use std::error::Error;
use std::fmt;

// Why a call was refused. Each case has a number, and an address where one helps.
#[derive(Clone, Copy, Debug, PartialEq, Eq)]
pub enum Refusal {
    // A CCW address is no multiple of 8.
    Misaligned(u32),
    // The eight bytes of a CCW do not lie inside storage.
    CcwOutside(u32),
    // A TIC is the first CCW, or is reached by a TIC.
    TransferMisplaced(u32),
    // The command code is invalid.
    CodeInvalid(u32),
    // A flag is on that is not accepted; in a format 1 TIC, any flag or a count.
    FlagRefused(u32),
    // The count is 0.
    CountZero(u32),
    // The address of an indirect list is no multiple of 4.
    ListMisaligned(u32),
    // An indirect word does not lie inside storage.
    WordOutside(u32),
    // A later indirect word does not start its block (end it, for read backward).
    WordOffBoundary(u32),
    // A byte to be moved does not lie inside storage.
    AreaOutside(u32),
    // The program has a 65th place.
    TooManyPlaces(u32),
    // The translated program needs over 768 words.
    TooManyWords(u32),
    // A reading CCW without SKIP has an area that touches the program itself.
    ReadsOverProgram(u32),
    // An earlier program is not collected yet.
    ProgramUncollected,
    // A store touches the program that is not collected yet.
    StoreOverProgram(u32),
    // Address and length reach past the guest's end.
    PastGuestEnd(u32),
    // The numbers or the stage of a ticket or receipt are not those of the uncollected program.
    TokenStale,
    // The number of host frames, or a frame of the map, is out of range.
    HostSize,
    // There is no such page, or the frame is not free.
    FrameTaken,
    // The page is pinned.
    PagePinned,
    // The host storage has not the length that was set up.
    HostLength,
    // The map was made wrongly.
    MapUnlawful,
}

impl Refusal {
    pub fn number(self) -> u8
        ensures { result ≡ number_of self }
    {
        match self {
            Refusal::Misaligned(_) => 1,
            Refusal::CcwOutside(_) => 2,
            Refusal::TransferMisplaced(_) => 3,
            Refusal::CodeInvalid(_) => 4,
            Refusal::FlagRefused(_) => 5,
            Refusal::CountZero(_) => 6,
            Refusal::ListMisaligned(_) => 7,
            Refusal::WordOutside(_) => 8,
            Refusal::WordOffBoundary(_) => 9,
            Refusal::AreaOutside(_) => 10,
            Refusal::TooManyPlaces(_) => 11,
            Refusal::TooManyWords(_) => 12,
            Refusal::ReadsOverProgram(_) => 13,
            Refusal::ProgramUncollected => 14,
            Refusal::StoreOverProgram(_) => 15,
            Refusal::PastGuestEnd(_) => 16,
            Refusal::TokenStale => 17,
            Refusal::HostSize => 18,
            Refusal::FrameTaken => 19,
            Refusal::PagePinned => 20,
            Refusal::HostLength => 21,
            Refusal::MapUnlawful => 22,
        }
    }

    // The address that the case gives; 0 stands for none, by the rules of docs/REFUSALS.md: so no Option.
    pub fn address(self) -> u32
        ensures { result ≡ address_of self }
    {
        match self {
            Refusal::Misaligned(address)
            | Refusal::CcwOutside(address)
            | Refusal::TransferMisplaced(address)
            | Refusal::CodeInvalid(address)
            | Refusal::FlagRefused(address)
            | Refusal::CountZero(address)
            | Refusal::ListMisaligned(address)
            | Refusal::WordOutside(address)
            | Refusal::WordOffBoundary(address)
            | Refusal::AreaOutside(address)
            | Refusal::TooManyPlaces(address)
            | Refusal::TooManyWords(address)
            | Refusal::ReadsOverProgram(address)
            | Refusal::StoreOverProgram(address)
            | Refusal::PastGuestEnd(address) => address,
            _ => 0,
        }
    }
}

impl fmt::Display for Refusal {
    fn fmt<W: fmt::Write>(&self, f: &mut fmt::Formatter<W>) -> fmt::Result {
        let number = self.number();
        let address = self.address();
        write!(f, "refusal {number}, address {address:08X}")
    }
}

impl Error for Refusal {}
