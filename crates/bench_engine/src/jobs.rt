//! Jobs of sessions, as lines of scripts: buffers, graphs and renders.

use crate::bench::{Bench, Host, Times};
use crate::bytes::noise;
use crate::plain::PlainWork;
use crate::rows::{Kernel, RowWork};
use crate::sessions::{Job, Room, Row, time_job};
use crate::store::time_blocks;
use outside_io::{SureSwap, SwapDisk};
use pixel_formats::Format;

/// One image of RGBA8, its duplicates, and its level 3.
const BUFFERS: Job = Job {
    setup: &[Row {
        label: "buffers: made",
        rounds: 1,
        before: "",
        timed: "buffer a RGBA8 0 0 %3 %4",
    }],
    timed: &[
        Row {
            label: "buffers: load of a blank image",
            rounds: 1,
            before: "",
            timed: "load a 0 0 %3 %4 raw",
        },
        Row {
            label: "buffers: load over it",
            rounds: 3,
            before: "",
            timed: "load a 0 0 %3 %4 raw",
        },
        Row {
            label: "buffers: grab of all",
            rounds: 3,
            before: "",
            timed: "grab a 0 NONE 0 0 %3 %4 raw",
        },
        Row {
            label: "buffers: grab of a part",
            rounds: 20,
            before: "",
            timed: "grab a 0 NONE 0 0 %7 %7 raw",
        },
        Row {
            label: "buffers: grab of a part off the tiles",
            rounds: 20,
            before: "",
            timed: "grab a 0 NONE 32 32 %7 %7 raw",
        },
        Row {
            label: "buffers: dup",
            rounds: 3,
            before: "",
            timed: "dup b%0 a",
        },
        Row {
            label: "buffers: fill of 32 by 32 in a shared tile",
            rounds: 64,
            before: "",
            timed: "fill b0 %2 8 32 32 1 2 3 255",
        },
        Row {
            label: "buffers: fill of 32 by 32",
            rounds: 64,
            before: "",
            timed: "fill b0 %2 8 32 32 3 2 1 255",
        },
        Row {
            label: "buffers: level 3",
            rounds: 1,
            before: "",
            timed: "grab a 3 NONE 0 0 %5 %6 raw",
        },
        Row {
            label: "buffers: level 3 that is held",
            rounds: 10,
            before: "",
            timed: "grab a 3 NONE 0 0 %5 %6 raw",
        },
        Row {
            label: "buffers: level 3 after a fill",
            rounds: 64,
            before: "fill a %2 8 32 32 1 2 3 255",
            timed: "grab a 3 NONE 0 0 %5 %6 raw",
        },
    ],
};

/// Two images of RGBA16 that are written and read row of tiles by row of tiles.
const BANDS: Job = Job {
    setup: &[Row {
        label: "bands: made",
        rounds: 1,
        before: "",
        timed: "buffer a RGBA16 0 0 %3 %4\nbuffer b RGBA16 0 0 %3 %4",
    }],
    timed: &[
        Row {
            label: "bands: loads of the first",
            rounds: 64,
            before: "",
            timed: "load a 0 %2 %3 64 raw",
        },
        Row {
            label: "bands: loads of the second",
            rounds: 64,
            before: "",
            timed: "load b 0 %2 %3 64 raw",
        },
        Row {
            label: "bands: grabs of the first",
            rounds: 64,
            before: "",
            timed: "grab a 0 NONE 0 %2 %3 64 raw",
        },
        Row {
            label: "bands: grabs of the second",
            rounds: 64,
            before: "",
            timed: "grab b 0 NONE 0 %2 %3 64 raw",
        },
    ],
};

/// A graph of 256 nodes, of which every other one has two inputs.
const GRAPHS: Job = Job {
    setup: &[
        Row {
            label: "graphs: first node",
            rounds: 1,
            before: "",
            timed: "buffer a Y8 0 0 4096 4096\nnode a0 source a",
        },
        Row {
            label: "graphs: two nodes more",
            rounds: 127,
            before: "",
            timed: "node m%1 box 1 CLAMP a%0\nnode a%1 add a0 m%1",
        },
        Row {
            label: "graphs: last node",
            rounds: 1,
            before: "",
            timed: "node z box 1 CLAMP a127\ncommit",
        },
    ],
    timed: &[
        Row {
            label: "graphs: commit of one edit",
            rounds: 1000,
            before: "node m64 box 1 CLAMP a63\ncommit",
            timed: "node m64 invert a63\ncommit",
        },
        Row {
            label: "graphs: commit of a write",
            rounds: 1000,
            before: "fill a 100 100 3 3 7",
            timed: "commit",
        },
        Row {
            label: "graphs: undo and redo",
            rounds: 1000,
            before: "",
            timed: "undo\nredo",
        },
    ],
};

/// One node of an operation over an image.
const ONE_GAIN: Job = Job {
    setup: &[Row {
        label: "renders: one gain made",
        rounds: 1,
        before: "",
        timed: "buffer a RGB8 0 0 %7 %7\nnode g0 source a\nnode g1 gain 5 4 g0",
    }],
    timed: &[
        Row {
            label: "renders: one gain evaluated",
            rounds: 20,
            before: "fill a 0 0 %7 %7 10 100 200\ncommit",
            timed: "render g1 0 0 0 %7 %7 raw",
        },
        Row {
            label: "renders: one gain cached",
            rounds: 10000,
            before: "",
            timed: "render g1 0 0 0 %7 %7 raw",
        },
    ],
};

/// 21 nodes of an operation, each on the one before it: what each more costs is that of its tiles.
const MANY_GAINS: Job = Job {
    setup: &[
        Row {
            label: "renders: 21 gains begun",
            rounds: 1,
            before: "",
            timed: "buffer a RGB8 0 0 %7 %7\nnode g0 source a",
        },
        Row {
            label: "renders: a gain more",
            rounds: 21,
            before: "",
            timed: "node g%1 gain 5 4 g%0",
        },
    ],
    timed: &[
        Row {
            label: "renders: 21 gains evaluated",
            rounds: 20,
            before: "fill a 0 0 %7 %7 10 100 200\ncommit",
            timed: "render g21 0 0 0 %7 %7 raw",
        },
        Row {
            label: "renders: 21 gains cached",
            rounds: 10000,
            before: "",
            timed: "render g21 0 0 0 %7 %7 raw",
        },
    ],
};

/// A part of a gain's mean in another format: evaluated, cached, and after a small edit.
const REQUEST: Job = Job {
    setup: &[Row {
        label: "renders: request made",
        rounds: 1,
        before: "",
        timed: "buffer a RGB8 0 0 %3 %4\nfill a 0 0 %3 %4 10 100 200\nnode s source a\nnode g gain 5 4 s\nnode b box 3 CLAMP g\nnode c convert RGBA8 b",
    }],
    timed: &[
        Row {
            label: "renders: request evaluated",
            rounds: 20,
            before: "fill a 0 0 %3 %4 10 100 200\ncommit",
            timed: "render c 0 64 64 %7 %7 raw",
        },
        Row {
            label: "renders: request cached",
            rounds: 10000,
            before: "",
            timed: "render c 0 64 64 %7 %7 raw",
        },
        Row {
            label: "renders: request after an edit",
            rounds: 10000,
            before: "fill a 100 80 32 32 7 100 200\ncommit",
            timed: "render c 0 64 64 %7 %7 raw",
        },
    ],
};

/// How much memory a job over one image takes, all of whose tiles are in memory.
fn resident(columns: u32) -> Room {
    let columns = columns.min(8_192);
    Room {
        blocks: 16,
        resident: 1 << 16,
        columns,
        load: columns as usize * (columns / 2) as usize * 4,
    }
}

/// Times an image of so many columns and half as many rows of tiles, beside plain copies and plain averages.
pub fn time_buffers<R: Host>(bench: &Bench<'_, R>) -> Option<()> {
    let alloc = bench.rt.alloc();
    let room = resident(bench.size.clamp(1, 128) * 64);
    let mut plain = PlainWork {
        alloc,
        format: Format::RGBA8,
        image: noise(alloc, room.load)?,
        row_bytes: room.columns as usize * 4,
        is_averaged: false,
    };
    let times = Times {
        rounds: bench.rounds.min(3),
        calls: 1,
        units: 1,
        bytes: room.load as u64,
    };
    bench.time("buffers: plain copy afresh", times, &mut plain)?;
    plain.is_averaged = true;
    bench.time("buffers: level 3 of plain rows", times, &mut plain)?;
    time_job(bench, &mut SureSwap::new(alloc, 16).ok()?, room, &BUFFERS)
}

/// Times two images of so many columns and half as many rows of tiles, of which a quarter of the tiles is in memory and
/// the rest in a file, beside the plain blocks of another.
pub fn time_bands<R: Host, D: SwapDisk>(
    bench: &Bench<'_, R>,
    file: &mut D,
    other: &mut D,
) -> Option<()> {
    let size = bench.size.clamp(1, 128);
    let blocks = size * size * 8;
    let room = Room {
        blocks,
        resident: blocks / 32,
        columns: size * 64,
        load: size as usize * 32_768,
    };
    time_blocks(bench, "bands", other, blocks)?;
    let bands = Bench {
        rounds: size / 2,
        ..*bench
    };
    time_job(&bands, file, room, &BANDS)
}

/// Times commits, undos and redos.
pub fn time_graphs<R: Host>(bench: &Bench<'_, R>) -> Option<()> {
    time_job(
        bench,
        &mut SureSwap::new(bench.rt.alloc(), 16).ok()?,
        resident(64),
        &GRAPHS,
    )
}

/// Times renders of images of so many columns and half as many rows of tiles, beside plain copies of as many bytes as a
/// part of 512 by 512 pixels has.
pub fn time_renders<R: Host>(bench: &Bench<'_, R>) -> Option<()> {
    let alloc = bench.rt.alloc();
    let room = resident(bench.size.clamp(1, 128) * 64);
    RowWork::new(alloc, Kernel::Copy, Format::RGBA8, 1 << 18)?.time(
        bench,
        "renders: plain copy of 1 MiB",
        1,
    )?;
    time_job(bench, &mut SureSwap::new(alloc, 16).ok()?, room, &ONE_GAIN)?;
    time_job(
        bench,
        &mut SureSwap::new(alloc, 16).ok()?,
        room,
        &MANY_GAINS,
    )?;
    time_job(bench, &mut SureSwap::new(alloc, 16).ok()?, room, &REQUEST)
}
