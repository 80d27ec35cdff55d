//! Rasters that are loaded by bands of rows.

use crate::runs::{Devices, SOUND, check_row, check_run};
use outside_io::MemShelf;
use std::alloc::Global;
use std::process::Abort;
use std::thread::Threads;

/// A raster over four rows of tiles is loaded into the middle of a buffer, and grabbed, whole and in part.
const SCRIPT: &[u8] = b"buffer a Y8 -1 -71 5 142\n\
    load a 0 -70 3 140 in.raw\n\
    grab a 0 NONE 0 -70 3 140 whole.raw\n\
    grab a 0 NONE -1 -2 5 4 part.raw\n";

const TEXT: &str = "grab 3 bytes 420\ngrab 4 bytes 20\nreport applied 0 reused 0\n";

/// Words of runs with one worker, for whom each row of tiles is a band.
const ONE_WORKER: &str = "run script.txt --workers 1";

const ONE_RESIDENT: &str = "run script.txt --workers 1 --resident 1";

/// The rows of the part: rows 68 to 71 of the raster, between zeros.
const PART: &[u8] = &[
    0, 204, 205, 206, 0, 0, 207, 208, 209, 0, 0, 210, 211, 212, 0, 0, 213, 214, 215, 0,
];

/// Returns a raster of so many bytes, which count up from 0 to 250 and begin again.
fn raster_of(rt: &impl Abort, alloc: Global, count: u32) -> Vec<u8> {
    let mut bytes = Vec::new(alloc);
    for index in 0..count {
        bytes.push((index % 251) as u8).expect(rt, "memory");
    }
    bytes
}

/// Runs a line over a raster of so many bytes, and checks status and text. Returns the shelf.
fn check_raster(
    rt: &(impl Abort + Threads + Sync),
    alloc: Global,
    line: &str,
    count: u32,
    devices: Devices,
    wanted: (u8, &str),
) -> MemShelf {
    let raster = raster_of(rt, alloc, count);
    let files = [("script.txt", SCRIPT), ("in.raw", raster.as_slice())];
    check_run(rt, alloc, line, &files, devices, wanted)
}

const LINES: [&str; 3] = [
    ONE_WORKER,
    ONE_RESIDENT,
    "run script.txt --workers 3 --resident 1",
];

#[test]
fn a_raster_of_four_bands_is_loaded(rt: HostRuntime) {
    let alloc = rt.alloc();
    let raster = raster_of(&rt, alloc, 420);
    for line in &LINES {
        let shelf = check_raster(&rt, alloc, line, 420, SOUND, (0, TEXT));
        check_row(&rt, line, &shelf.get("whole.raw"), &Some(raster.as_slice()));
        check_row(&rt, line, &shelf.get("part.raw"), &Some(PART));
    }
}

/// Checks that a file of another size is refused before a tile is made, so also where the swap has no room for the tiles.
#[test]
fn a_raster_of_four_bands_has_its_size(rt: HostRuntime) {
    let alloc = rt.alloc();
    let devices = Devices { blocks: 1, ..SOUND };
    for count in [0, 18, 210, 402, 419, 421, 840] {
        let wanted = (2, "line 2: WrongSize\n");
        let shelf = check_raster(&rt, alloc, ONE_WORKER, count, SOUND, wanted);
        assert!(rt; shelf.get("whole.raw").is_none());
        check_raster(&rt, alloc, ONE_RESIDENT, count, devices, wanted);
    }
    check_raster(&rt, alloc, ONE_RESIDENT, 420, devices, (8, ""));
    let files = [("script.txt", SCRIPT)];
    check_run(
        &rt,
        alloc,
        ONE_WORKER,
        &files,
        SOUND,
        (2, "line 2: Absent\n"),
    );
}

/// Checks that the script is the first file that is read, and each band is one call more.
#[test]
fn a_band_that_fails_ends_the_run(rt: HostRuntime) {
    let alloc = rt.alloc();
    for read in 2..6 {
        let devices = Devices { read, ..SOUND };
        let shelf = check_raster(&rt, alloc, ONE_WORKER, 420, devices, (3, ""));
        assert!(rt; shelf.get("whole.raw").is_none());
    }
    let devices = Devices { read: 6, ..SOUND };
    check_raster(&rt, alloc, ONE_WORKER, 420, devices, (0, TEXT));
}

/// A raster of one band.
const ONE_BAND: &[u8] = b"buffer a Y8 0 0 2 2\nload a 0 0 2 2 in.raw\n";

/// The read that fails, how many bytes the raster has, and how the run ends. The script is the first file that is read.
const READS: [(u64, u32, (u8, &str)); 4] = [
    (2, 4, (3, "")),
    (3, 4, (0, "report applied 0 reused 0\n")),
    (3, 3, (2, "line 2: WrongSize\n")),
    (3, 5, (2, "line 2: WrongSize\n")),
];

#[test]
fn a_raster_of_one_band_is_read_once(rt: HostRuntime) {
    let alloc = rt.alloc();
    for (read, count, wanted) in READS {
        let raster = raster_of(&rt, alloc, count);
        let files = [("script.txt", ONE_BAND), ("in.raw", raster.as_slice())];
        let devices = Devices { read, ..SOUND };
        check_run(&rt, alloc, ONE_WORKER, &files, devices, wanted);
    }
}
