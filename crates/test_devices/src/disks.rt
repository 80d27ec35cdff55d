//! Swap disks in memory, lent, and in a file.

ghost use Rattle.std.specs.Prelude.{◌≡◌, ◌<◌, length, IsErrOf};
ghost use Rattle.outside_io.specs.Swap.{WritesBlock};
ghost use Rattle.chain_owners.specs.Counts.{Rose};

use crate::disk_steps::Step::{self, Read, ReadTwo, Write, WriteTwo};
use crate::disk_steps::{make, read};
use outside_io::{FileSwap, Lent, MemSwap, SureSwap, SwapAnswer, SwapDisk};
use std::fs;

/// One block of two is written.
const ONE: [Step; 3] = [Read(0, Ok(0)), Write(1, 7, Ok(())), Read(1, Ok(7))];

#[test]
fn a_sure_swap_disk(rt: HostRuntime) {
    let mut disk = SureSwap::new(rt.alloc(), 2).expect(&rt, "memory");
    make(&rt, &mut disk, 2, &ONE);
}

/// The second block of the second call is the fourth write, which fails and fills its block with EE.
const SEVERAL: [Step; 5] = [
    WriteTwo(1, 7, Ok(())),
    ReadTwo(1, Ok(7)),
    WriteTwo(2, 8, Err(SwapAnswer::Failed)),
    Read(2, Ok(8)),
    Read(3, Ok(0xEE)),
];

#[test]
fn several_blocks_in_one_call(rt: HostRuntime) {
    let alloc = rt.alloc();
    let writes = vec![in alloc; 4].expect(&rt, "memory");
    let mut disk = MemSwap::new(alloc, 4, Vec::new(alloc), writes).expect(&rt, "memory");
    make(&rt, &mut disk, 4, &SEVERAL);
}

/// Holds a disk by value, as a store does.
#[derive(Drop)]
struct Holder<D> {
    disk: D,
}

impl<D: SwapDisk> Holder<D> {
    fn write_first(&mut self, bytes: &[u8]) -> Result<(), SwapAnswer>
        requires known { 0 < D.block_count self.old.disk }
        requires whole { length bytes.now ≡ 4096 }
        ensures leaves { WritesBlock (D.blocks self.old.disk) 0 bytes.now result (D.blocks self.new.disk) }
        ensures failed { IsErrOf result SwapAnswer.Failed
            → Rose (D.faults self.old.disk) (D.faults self.new.disk) }
        ensures loans { D.loans self.new.disk ≡ D.loans self.old.disk }
    {
        self.disk.write_block(0, bytes)
    }

    fn end(self) -> D
        ensures { result ≡ self.disk }
    {
        self.disk
    }
}

/// Lends a disk, and knows afterwards what it holds and whether it failed.
fn write_lent<D: SwapDisk>(disk: &mut D, bytes: &[u8]) -> Result<(), SwapAnswer>
    requires known { 0 < D.block_count disk.old }
    requires whole { length bytes.now ≡ 4096 }
    ensures leaves { WritesBlock (D.blocks disk.old) 0 bytes.now result (D.blocks disk.new) }
    ensures failed { IsErrOf result SwapAnswer.Failed → Rose (D.faults disk.old) (D.faults disk.new) }
{
    let mut holder = Holder {
        disk: Lent { disk },
    };
    let answer = holder.write_first(bytes);
    let Lent { disk: _back } = holder.end();
    answer
}

/// The first block was written, and then the second is.
const LENT: [Step; 3] = [Read(0, Ok(7)), Write(1, 8, Ok(())), Read(1, Ok(8))];

#[test]
fn a_lent_swap_disk(rt: HostRuntime) {
    let mut disk = SureSwap::new(rt.alloc(), 2).expect(&rt, "memory");
    assert!(rt; disk.size() == 2);
    assert!(rt; write_lent(&mut disk, &[7; 4096]).is_ok());
    make(&rt, &mut Lent { disk: &mut disk }, 2, &LENT);
}

/// Of three blocks the last is read before any is written. Then two are written, and all read, and then two in one call.
const THREE: [Step; 8] = [
    Read(2, Ok(0)),
    Write(2, 7, Ok(())),
    Write(0, 8, Ok(())),
    Read(2, Ok(7)),
    Read(0, Ok(8)),
    Read(1, Ok(0)),
    WriteTwo(1, 9, Ok(())),
    ReadTwo(1, Ok(9)),
];

#[test]
fn a_swap_disk_in_a_file(rt: HostRuntime) {
    let mut disk = FileSwap::new(&rt, 3);
    let name = ".tilegraph-swap";
    fs::create_dir(&rt, name).expect(&rt, "a folder");
    assert!(rt; read(&rt, &mut disk, 0) == Err(SwapAnswer::Failed));
    fs::remove_dir(&rt, name).expect(&rt, "the folder");
    make(&rt, &mut disk, 3, &THREE);
    assert!(rt; !fs::exists(&rt, name).expect(&rt, "the folder is read"));
}
