ghost use Rattle.std.specs.Prelude.{◌≡◌, ℕ, ◌<◌};
ghost use Rattle.format.specs.FlagBits.{on, flags_of, flags_byte, any_flag, weight_if};

// The flag byte of a CCW, a name for each bit from 80 down to 01. No bit set by `bitflags`, since definitions and callers
// name each flag.
#[derive(Clone, Copy, Debug, Default, PartialEq, Eq)]
pub struct Flags {
    // chain data
    pub cd: bool,
    // chain command
    pub cc: bool,
    // suppress length indication
    pub sli: bool,
    pub skip: bool,
    // program-controlled interruption
    pub pci: bool,
    // indirect data addressing
    pub ida: bool,
    pub suspend: bool,
    // modified indirect data addressing
    pub mida: bool,
}

fn bit(byte: u8, weight: u8) -> bool
    requires { 0 < weight }
    ensures { result ≡ on weight byte }
{
    byte / weight % 2 == 1
}

fn weighted(flag: bool, weight: u8) -> u8
    ensures { result ≡ weight_if flag weight }
{
    if flag { weight } else { 0 }
}

impl From<u8> for Flags {
    ghost from_gives = { λ byte flags. flags ≡ flags_of byte };

    fn from(byte: u8) -> Flags {
        Flags {
            cd: bit(byte, 0x80),
            cc: bit(byte, 0x40),
            sli: bit(byte, 0x20),
            skip: bit(byte, 0x10),
            pci: bit(byte, 0x08),
            ida: bit(byte, 0x04),
            suspend: bit(byte, 0x02),
            mida: bit(byte, 0x01),
        }
    }
}

// The byte, from which the flags come back.
impl From<Flags> for u8 {
    ghost from_gives = { λ flags byte. (byte ≡ flags_byte flags) × (flags_of byte ≡ flags) };

    #[tactic(auto, using(crate::proofs::ReadBack::flags_back_from))]
    fn from(flags: Flags) -> u8 {
        let high = weighted(flags.cd, 0x80)
            + weighted(flags.cc, 0x40)
            + weighted(flags.sli, 0x20)
            + weighted(flags.skip, 0x10);
        let low = weighted(flags.pci, 0x08)
            + weighted(flags.ida, 0x04)
            + weighted(flags.suspend, 0x02)
            + weighted(flags.mida, 0x01);
        high + low
    }
}

impl Flags {
    // Whether any bit is on.
    pub fn any(self) -> bool
        ensures { result ≡ any_flag self }
    {
        self != Flags::default()
    }
}
