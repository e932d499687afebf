use format::ccw::{Ccw, Format};
use format::flags::Flags;
use format::laying::put_at;
use frame_maps::page_table::PageTable;
use map::address::PAGE_SIZE;
use map::interface::Map;
use map::view::GuestView;
use rules::place::{Broken, Place, Taken};
use rules::storage::Plain;
use rules::taking_up::take_up;

const GUEST_SIZE: usize = 8192;

const HOST_SIZE: usize = 16384;

// The addresses that are taken up: a direct area over both pages, a TIC to a CCW on the other page whose
// list lies on both, an invalid code, an address inside a CCW, and the guest's end.
const TAKEN_UP: [u32; 5] = [0x0000, 0x0008, 0x0010, 0x0004, 0x2000];

// A CCW at 0000 for the area over both pages, a TIC at 0008, and at 1010 a CCW with IDA whose list starts at 0FFC.
fn write_program(guest: &mut [u8]) {
    let direct = Ccw {
        code: 0x01,
        flags: Flags::default(),
        count: 16,
        address: 0x0FF8,
    };
    let transfer = Ccw {
        code: 0x08,
        address: 0x1010,
        ..Ccw::default()
    };
    let indirect = Ccw {
        code: 0x02,
        flags: Flags {
            ida: true,
            ..Flags::default()
        },
        count: 3000,
        address: 0x0FFC,
    };
    put_at(guest, 0x0000, &direct.encode());
    put_at(guest, 0x0008, &transfer.encode());
    put_at(guest, 0x1010, &indirect.encode());
    put_at(
        guest,
        0x0FFC,
        &[0x00, 0x00, 0x09, 0x00, 0x00, 0x00, 0x18, 0x00],
    );
}

// Lays each page of the guest into its frame.
fn lay(table: &PageTable, guest: &[u8], host: &mut [u8]) {
    let size = PAGE_SIZE as usize;
    for (page, bytes) in guest.chunks(size).enumerate() {
        put_at(host, usize::from(table.frame_of(page)) * size, bytes);
    }
}

fn print_answer(rt: &HostRuntime, answer: &Result<Taken, Broken>) -> anyhow::Result<()> {
    match answer {
        Ok(taken) => print!(rt; "{taken:05}")?,
        Err(broken) => print!(rt; "{broken:05}")?,
    }
    Ok(())
}

fn print_agreement(
    rt: &HostRuntime,
    view: &GuestView<PageTable>,
    copy: &Plain,
    address: u32,
) -> anyhow::Result<()> {
    let at = Place {
        address,
        first: address == 0,
        command: None,
    };
    let through = view.take_up(Format::One, at);
    let plain = take_up(copy, Format::One, at);
    print!(rt; "  take up {address:05X}: ")?;
    print_answer(rt, &through)?;
    if through == plain {
        println!(rt; "; the same on a plain copy")?;
    } else {
        print!(rt; "; on a plain copy ")?;
        print_answer(rt, &plain)?;
        println!(rt; "")?;
    }
    Ok(())
}

pub(crate) fn tour(rt: &HostRuntime) -> anyhow::Result<()> {
    let table = PageTable::new(&[3, 1], &[])?;
    let mut guest = vec![in rt.alloc(); 0u8; GUEST_SIZE]?;
    let mut host = vec![in rt.alloc(); 0u8; HOST_SIZE]?;
    write_program(&mut guest);
    lay(&table, &guest, &mut host);
    let copy = Plain { storage: &guest };
    let view = GuestView {
        map: &table,
        host: &host,
    };
    println!(rt; "a program in frames 3 and 1")?;
    for address in TAKEN_UP {
        print_agreement(rt, &view, &copy, address)?;
    }
    Ok(())
}
