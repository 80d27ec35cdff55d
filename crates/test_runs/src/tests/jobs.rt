//! A made job.

use crate::runs::{PLAIN, SOUND, check_row, check_run};
use made_jobs::make_script;
use std::alloc::Global;
use std::process::Abort;

/// What is printed after the renders: the sum of all bytes of the 28 rasters, computed apart from whole images, and how
/// many tiles were evaluated and found, counted apart from the rectangles of the fills.
const END: &str = "sum 1812403766\nreport applied 512 reused 22896\n";

/// Appends the text of a render.
fn push_render(rt: &impl Abort, alloc: Global, text: &mut String, line: u32, commit: u32) {
    let render = format!(in alloc; "render {line} commit {commit} bytes 589824\n");
    text.push_str(&render.expect(rt, "memory"))
        .expect(rt, "memory");
}

/// Returns what the run of the job of 0 prints: a render after each of 25 commits, two undos and a redo.
fn text_of_job(rt: &impl Abort, alloc: Global) -> String {
    let mut text = String::new(alloc);
    push_render(rt, alloc, &mut text, 10, 1);
    for edit in 1..=24_u32 {
        push_render(rt, alloc, &mut text, 10 + 3 * edit, 1 + edit);
    }
    for step in 1..=3_u32 {
        push_render(rt, alloc, &mut text, 82 + 2 * step, 25 + step);
    }
    text.push_str(END).expect(rt, "memory");
    text
}

#[test]
fn a_made_job_prints_its_renders_their_sum_and_the_report(rt: HostRuntime) {
    let alloc = rt.alloc();
    let text = text_of_job(&rt, alloc);
    let files = [("g.raw", b"mine".as_slice())];
    let shelf = check_run(&rt, alloc, "make 0", &files, SOUND, (0, &text));
    check_row(&rt, "g.raw", &shelf.get("g.raw"), &Some(b"mine".as_slice()));
    assert!(rt; shelf.get("job.txt").is_none());
}

/// The first lines of the job of 0, up to a render.
const FIRST_RENDER: &[u8] = b"buffer a RGB8 0 0 512 384\n\
    load a 0 0 512 384 g.raw\n\
    node s source a\n\
    node k checker RGB8 -32 -32 576 448 32 0 64\n\
    node d add s k\n\
    node b box 3 CLAMP d\n\
    node e erode 1 NONE b\n\
    node i invert e\n\
    commit\n\
    render i 0 0 0 512 384 r0.raw\n";

/// The line after them.
const FIRST_FILL: &[u8] = b"fill a 60 71 18 11 98 159 87\n";

/// What these lines print by themselves: of the 836 tiles that six strips need, 336 are different ones.
const FIRST_TEXT: &str = "render 10 commit 1 bytes 589824\nreport applied 336 reused 500\n";

#[test]
fn the_first_render_of_a_made_job_evaluates_each_tile_once(rt: HostRuntime) {
    let alloc = rt.alloc();
    let job = make_script(alloc, 0).expect(&rt, "memory");
    let next = job.script.get(FIRST_RENDER.len()..).unwrap_or(&[]);
    assert!(rt; job.script.starts_with(FIRST_RENDER) && next.starts_with(FIRST_FILL));
    let files = [
        ("script.txt", FIRST_RENDER),
        ("g.raw", job.raster.as_slice()),
    ];
    let shelf = check_run(&rt, alloc, PLAIN, &files, SOUND, (0, FIRST_TEXT));
    let bytes = shelf.get("r0.raw").unwrap_or(&[]);
    check_row(&rt, "r0.raw", &bytes.len(), &589_824);
}
