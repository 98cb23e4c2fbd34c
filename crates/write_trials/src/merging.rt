// What document 01's bench trials say of the merge: P1 to P8; from the "Run:" line 256 and 257 sheets, answers of 65,535 and 65,536 bytes,
// and Struct{a:Int8, a:Int16} once and twice; and what document 02, Item 6, says of P5 parked log first. A struct that has more than 65,535
// children on the way takes buffers that no function here can hold: rust/sheets/tests/counts.rs tries it.
ghost use Rattle.std.specs.Prelude.{◌≤◌};

use crate::showing::{show, show_length};
use std::io;

// The trains of the merge as the Rust merges.
const TRIALS: [(&str, &[u8]); 10] = [
    ("P1", b""),
    ("P2", b"\x02\x01\x00\x04\x01\x00v\x00"),
    (
        "P3",
        b"\x02\x01\x00\x04\x01\x00v\x00\x02\x01\x00\x04\x01\x00v\x04",
    ),
    (
        "P4",
        b"\x02\x01\x00\x04\x01\x00v\x00\x02\x01\x00\x04\x01\x00v\x00",
    ),
    (
        "P5",
        b"\x02\x01\x00\x04\x01\x00v\x00\x02\x01\x00\x06\x01\x00v\x22\x02\x18",
    ),
    (
        "P6",
        b"\x02\x01\x00\x04\x01\x00v\x21\x00\x02\x00\x00\x04\x01\x00x\x02\x01\x04\x01\x00x\x02\x02\x01\x00\x04\x01\x00v\x21\x00\x02\x00\x00\x04\x01\x00x\x02\x01\x04\x01\x00x\x02",
    ),
    (
        "P7",
        b"\x02\x01\x00\x04\x01\x00v\x21\x00\x01\x00\x00\x04\x01\x00x\x02\x02\x01\x00\x04\x01\x00v\x21\x01\x01\x00\x01\x04\x01\x00y\x02",
    ),
    (
        "P8",
        b"\x02\x01\x00\x04\x01\x00v\x1b\x04\x04\x00item\x02\x02\x01\x00\x04\x01\x00v\x1b\x04\x07\x00element\x02",
    ),
    (
        "Struct{a:Int8, a:Int16} once",
        b"\x02\x01\x00\x04\x01\x00v\x20\x02\x00\x04\x01\x00a\x02\x04\x01\x00a\x03",
    ),
    (
        "Struct{a:Int8, a:Int16} twice",
        b"\x02\x01\x00\x04\x01\x00v\x20\x02\x00\x04\x01\x00a\x02\x04\x01\x00a\x03\x02\x01\x00\x04\x01\x00v\x20\x02\x00\x04\x01\x00a\x02\x04\x01\x00a\x03",
    ),
];

// Those of the mode "Parked log first": Dictionary(Int8, Utf8) is 22 02 18.
const PARKED_TRIALS: [(&str, &[u8]); 5] = [
    (
        "P5 parked log first",
        b"\x02\x01\x00\x04\x01\x00v\x00\x02\x01\x00\x06\x01\x00v\x22\x02\x18",
    ),
    (
        "P5 turned round, parked log first",
        b"\x02\x01\x00\x06\x01\x00v\x22\x02\x18\x02\x01\x00\x04\x01\x00v\x00",
    ),
    (
        "Struct{x:Null, y:List(x:Null)}, then with ordered dictionaries, parked log first",
        b"\x02\x01\x00\x04\x01\x00v\x20\x02\x00\x04\x01\x00x\x00\x04\x01\x00y\x1b\x04\x01\x00x\x00\x02\x01\x00\x04\x01\x00v\x20\x02\x00\x06\x01\x00x\x22\x02\x18\x04\x01\x00y\x1b\x06\x01\x00x\x22\x02\x18",
    ),
    (
        "ordered, Null, unordered, parked log first",
        b"\x02\x01\x00\x06\x01\x00v\x22\x02\x18\x02\x01\x00\x04\x01\x00v\x00\x02\x01\x00\x04\x01\x00v\x22\x02\x18",
    ),
    (
        "an ordered dictionary, then Utf8, parked log first",
        b"\x02\x01\x00\x06\x01\x00v\x22\x02\x18\x02\x01\x00\x04\x01\x00v\x18",
    ),
];

fn show_merges(rt: &impl Print, trials: &[(&str, &[u8])], parked: bool) -> io::Result<()> {
    for (what, train) in trials {
        show(rt, what, |work, answer| {
            try_merge::merge(train, work, answer, parked)
        })?;
    }
    Ok(())
}

// Two sheets of one Int8 column each, with names of 32,762 bytes, and of so many. The merged sheet has a map, a count, and for each column
// a map, a length, the name and a code: 11 bytes and the names.
fn long_names(rt: &impl Print, what: &str, second: u16) -> io::Result<()>
    requires { second ≤ 32763 }
{
    let mut letters = [b'a'; 65539];
    let mut work = [0u8; 262156];
    let mut answer = [0u8; 65535];
    let [low, high] = second.to_le_bytes();
    let last = 32775 + usize::from(second);
    let train = &mut letters[..last + 1];
    train[last] = 2;
    train[..6].copy_from_slice(b"\x02\x01\x00\x04\xfa\x7f");
    train[32768..32776].copy_from_slice(&[2, 2, 1, 0, 4, low, high, b'b']);
    let answered = try_merge::merge(train, &mut work, &mut answer, false);
    show_length(rt, what, answered)
}

pub fn merges(rt: &impl Print) -> io::Result<()> {
    show_merges(rt, &TRIALS, false)?;
    // the sheet 00 so many times
    let sheets = [0u8; 257];
    show_merges(
        rt,
        &[("256 sheets", &sheets[..256]), ("257 sheets", &sheets)],
        false,
    )?;
    long_names(rt, "an answer of 65535 bytes", 32762)?;
    long_names(rt, "an answer of 65536 bytes", 32763)
}

pub fn parked_merges(rt: &impl Print) -> io::Result<()> {
    show_merges(rt, &PARKED_TRIALS, true)
}
