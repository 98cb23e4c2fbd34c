// Runs what the bench trials say of the calls that write a sheet: the merge (merging.rt); P9 (normalising), P10 (projection),
// index 0 of no columns, P11 (the leaf filter: one leaf).
#![tactic(auto)]

mod merging;
mod showing;

use merging::{merges, parked_merges};
use showing::show;
use std::io;

fn main(rt: HostRuntime) -> io::Result<()> {
    merges(&rt)?;
    parked_merges(&rt)?;
    // s:Struct{a:Int32, e:Struct{}}
    let s = b"\x02\x01\x00\x04\x01\x00s\x20\x02\x00\x04\x01\x00a\x04\x04\x01\x00e\x20\x00\x00";
    for (what, level) in [("P9 level 0", 0), ("P9 level 1", 1)] {
        show(&rt, what, |work, answer| {
            normalize::normalize(s, b".", level, work, answer)
        })?;
    }
    // v:Int8, and the list 0, 0
    let v = b"\x02\x01\x00\x04\x01\x00v\x02";
    let twice = b"\x00\x00\x00\x00";
    show(&rt, "P10", |work, answer| {
        project::project(v, twice, work, answer)
    })?;
    show(&rt, "P10 strict", |work, answer| {
        project::project_strict(v, twice, work, answer)
    })?;
    show(&rt, "index 0 of no columns", |work, answer| {
        project::project(b"\x00", b"\x00\x00", work, answer)
    })?;
    show(&rt, "index 0 of no columns, strict", |work, answer| {
        project::project_strict(b"\x00", b"\x00\x00", work, answer)
    })?;
    // Dictionary(Int8, Dictionary(Int8, Struct{a:Int8, b:Int8}))
    let d = b"\x02\x01\x00\x00\x22\x02\x22\x02\x20\x02\x00\x04\x01\x00a\x02\x04\x01\x00b\x02";
    for (what, mask) in [
        ("P11 kept", b"\x01".as_slice()),
        ("P11 dropped", b"\x00"),
        ("P11 two bytes", b"\x01\x01"),
    ] {
        show(&rt, what, |work, answer| {
            filter::filter(d, mask, work, answer)
        })?;
    }
    Ok(())
}
