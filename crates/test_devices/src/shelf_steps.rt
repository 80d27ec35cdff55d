//! Lists of calls on a file of a shelf, each with what it returns.

ghost use Rattle.std.specs.Prelude.{IsTrue};
ghost use Rattle.outside_io.specs.FileName.{is_file_name};

use crate::check::check;
use crate::pieces::Pieces;
use outside_io::{BandsAnswer, Shelf, ShelfAnswer};
use std::alloc::Global;
use std::process::Abort;
use std::thread::Threads;
use worker_pieces::Workers;

/// What a read gives.
pub type Read<'a> = Result<&'a [u8], ShelfAnswer>;

/// A call on a file, and what it returns.
#[derive(Clone, Copy)]
pub enum Step {
    /// Writes bytes.
    Write(&'static [u8], Result<(), ShelfAnswer>),

    /// Writes bytes that come in bands of three. None is made where so many bytes are left.
    WriteBands(&'static [u8], Option<usize>, Result<(), BandsAnswer<usize>>),

    /// Reads a file that has at most so many bytes.
    Read(u64, Read<'static>),

    /// Reads from a position on, into room for so many bytes.
    ReadPart(u64, usize, Read<'static>),
}

/// Returns what a read gives.
pub fn bytes_of(answer: &Result<Vec<u8>, ShelfAnswer>) -> Read<'_> {
    match answer {
        Ok(bytes) => Ok(bytes.as_slice()),
        Err(refused) => Err(*refused),
    }
}

/// Reads a part of a file into room for so many bytes, and checks what it gives.
fn check_part<S: Shelf>(
    rt: &(impl Abort + Threads + Sync),
    shelf: &mut S,
    name: &str,
    row: usize,
    start: u64,
    room: usize,
    wanted: Read<'_>,
)
    requires { IsTrue (is_file_name name.now) }
{
    let mut into = [0; 16];
    let part = into.get_mut(..room).expect(rt, "at most sixteen bytes");
    let read = shelf.read_part(name, start, part, Workers::new(rt, 4));
    let found = match read {
        Ok(count) => Ok(
            into.get(..count)
                .expect(rt, "as many bytes as there is room for"),
        ),
        Err(refused) => Err(refused),
    };
    check(rt, row, found, wanted);
}

/// Makes one step.
fn make_step<S: Shelf>(
    rt: &(impl Abort + Threads + Sync),
    alloc: Global,
    shelf: &mut S,
    name: &str,
    row: usize,
    step: &Step,
)
    requires { IsTrue (is_file_name name.now) }
{
    match *step {
        Step::Write(bytes, wanted) => check(rt, row, shelf.write(name, bytes), wanted),
        Step::WriteBands(bytes, refused, wanted) => {
            let mut bands = Pieces::new(bytes, refused);
            let answer = shelf.write_bands(alloc, name, &mut bands);
            check(rt, row, answer, wanted);
        }
        Step::Read(limit, wanted) => check(rt, row, bytes_of(&shelf.read(name, limit)), wanted),
        Step::ReadPart(start, room, wanted) => {
            check_part(rt, shelf, name, row, start, room, wanted);
        }
    }
}

/// Makes steps on a file, in their order.
pub fn make<S: Shelf>(
    rt: &(impl Abort + Threads + Sync + AllocGlobal),
    shelf: &mut S,
    name: &str,
    steps: &[Step],
) {
    assert!(rt; outside_io::is_file_name(name.as_bytes()));
    for (row, step) in steps.iter().enumerate() {
        make_step(rt, rt.alloc(), shelf, name, row, step);
    }
}
