ghost use Rattle.std.specs.Prelude.{◌≡◌};
ghost use Rattle.format.specs.StatusWords.{status_bytes};

// How a channel program ended.
#[derive(Clone, Copy, Debug, Default, PartialEq, Eq)]
pub struct StatusWord {
    // 8 above the last CCW taken up
    pub ccw_address: u32,
    pub device_status: u8,
    pub subchannel_status: u8,
    // the count not moved
    pub residual: u16,
}

impl From<StatusWord> for [u8; 8] {
    ghost from_gives = { λ word bytes. bytes ≡ status_bytes word };

    fn from(word: StatusWord) -> [u8; 8] {
        let [a0, a1, a2, a3] = word.ccw_address.to_be_bytes();
        let [r0, r1] = word.residual.to_be_bytes();
        [
            a0,
            a1,
            a2,
            a3,
            word.device_status,
            word.subchannel_status,
            r0,
            r1,
        ]
    }
}
