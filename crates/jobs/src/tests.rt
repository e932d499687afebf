use format::refusal::Refusal;
use rules::pieces::Piece;
use rules::place::{Broken, Taken};
use std::test::Fail;
use unit::model::NOTHING_LEFT;

// What no clause says: the text of refusals, faults and answers, in the widths that are asked for.
#[test]
fn refusals_and_faults_print(rt: HostRuntime) -> Result<(), Fail> {
    let refusal = Refusal::ListMisaligned(0x402);
    let printed = format!(in rt.alloc(); "{refusal}")?;
    assert_eq!(rt; printed.as_str(), "refusal 7, address 00000402");
    let printed = format!(in rt.alloc(); "{}", Refusal::HostSize)?;
    assert_eq!(rt; printed.as_str(), "refusal 18, address 00000000");
    let printed = format!(in rt.alloc(); "{NOTHING_LEFT}")?;
    assert_eq!(rt; printed.as_str(), "status 0E, sense 40");
    Ok(())
}

#[test]
fn answers_print(rt: HostRuntime) -> Result<(), Fail> {
    let broken = Broken {
        refusal: Refusal::AreaOutside(0x2000),
        ccw: 0x100,
    };
    let printed = format!(in rt.alloc(); "{broken:08}")?;
    assert_eq!(rt;
        printed.as_str(),
        "rule 10 names 00002000, counts from 00000100"
    );
    let mut taken = Taken::default();
    taken.ccw.address = 0x100;
    taken.code = 0x0C;
    taken.pieces.push(Piece {
        first: 0x1FFF,
        size: 1,
    });
    let printed = format!(in rt.alloc(); "{taken:08}")?;
    assert_eq!(rt;
        printed.as_str(),
        "CCW 00000100, code 0C, area (00001FFF, 1)"
    );
    Ok(())
}
