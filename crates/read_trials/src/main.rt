// Runs what document 01's "Run:" line says of reading, and prints the number and the place that each gives (0 0: accepted):
// level 32 and 33; 256 and 257 sheets; 65,535 and 65,536 bytes; id 127 and 128; a sheet that ends inside an item, and one
// with a byte behind it; two sheets, of which the second is broken.
#![tactic(auto)]

ghost use Rattle.std.specs.Prelude.{◌≤◌};

use buffer::{Outcome, Refusal};
use std::io;

// Reads a sheet of one column with a name of so many bytes: it has 7 more. Where the name has 65,529, the code ends past byte 65,535.
fn read_long_name(bytes: u16) -> Result<usize, Refusal>
    requires { bytes ≤ 65529 }
{
    let mut sheet = [0u8; 65536];
    let [low, high] = bytes.to_le_bytes();
    sheet[..6].copy_from_slice(&[2, 1, 0, 4, low, high]);
    let end = usize::from(bytes) + 7;
    sheet::read_sheet(&sheet[..end])
}

// A line: what was read, number, space, place.
fn show(rt: &impl Print, what: &str, read: Result<usize, Refusal>) -> io::Result<()> {
    let outcome = Outcome::from(read);
    println!(rt; "{what}: {} {}", outcome.number, outcome.place)
}

fn main(rt: HostRuntime) -> io::Result<()> {
    for (what, read) in [
        // lists in lists, a Null in the last
        (
            "level 32",
            sheet::read_sheet(
                b"\x02\x01\x00\x00\x1b\x00\x1b\x00\x1b\x00\x1b\x00\x1b\x00\x1b\x00\x1b\x00\x1b\x00\x1b\x00\x1b\x00\x1b\x00\x1b\x00\x1b\x00\x1b\x00\x1b\x00\x1b\x00\x1b\x00\x1b\x00\x1b\x00\x1b\x00\x1b\x00\x1b\x00\x1b\x00\x1b\x00\x1b\x00\x1b\x00\x1b\x00\x1b\x00\x1b\x00\x1b\x00\x1b\x00\x00",
            ),
        ),
        (
            "level 33",
            sheet::read_sheet(
                b"\x02\x01\x00\x00\x1b\x00\x1b\x00\x1b\x00\x1b\x00\x1b\x00\x1b\x00\x1b\x00\x1b\x00\x1b\x00\x1b\x00\x1b\x00\x1b\x00\x1b\x00\x1b\x00\x1b\x00\x1b\x00\x1b\x00\x1b\x00\x1b\x00\x1b\x00\x1b\x00\x1b\x00\x1b\x00\x1b\x00\x1b\x00\x1b\x00\x1b\x00\x1b\x00\x1b\x00\x1b\x00\x1b\x00\x1b\x00\x00",
            ),
        ),
        // the sheet 00 so many times
        ("256 sheets", sheet::read_train(&[0u8; 256])),
        ("257 sheets", sheet::read_train(&[0u8; 257])),
        ("65535 bytes", read_long_name(65528)),
        ("65536 bytes", read_long_name(65529)),
        (
            "id 127",
            sheet::read_sheet(b"\x02\x01\x00\x00\x21\x00\x01\x00\x7f\x00\x00"),
        ),
        (
            "id 128",
            sheet::read_sheet(b"\x02\x01\x00\x00\x21\x00\x01\x00\x80\x00\x00"),
        ),
        ("no bytes", sheet::read_sheet(b"")),
        ("no sheets", sheet::read_train(b"")),
        ("a byte behind", sheet::read_sheet(b"\x00\x00")),
        ("two sheets", sheet::read_two(b"\x00", b"\x00")),
        ("second broken", sheet::read_two(b"\x00", b"\x04")),
    ] {
        show(&rt, what, read)?;
    }
    Ok(())
}
