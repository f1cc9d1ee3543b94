//! What is shown is of the widths of its lines.

ghost use Rattle.std.specs.Prelude.{◌≡◌, ◌<◌, ◌^◌, length, option_map, IfSome};
ghost use Rattle.mb_model.specs.Seen.{seen_of};
ghost use Rattle.mb_walk.specs.Memory.{AreBytes};
ghost use Rattle.vm_snapshot.specs.Shown.{AreLongs, HasBlocks, HasWidths};

use mb_model::Outcome;
use vm_disk::Disk;

fn longs(values: &[u32])
    ensures { AreLongs values.now }
{}

fn eight_longs(values: &[u32; 8])
    ensures count { length values.now ≡ 8 }
    ensures longs { AreLongs values.now }
{
    longs(values);
}

fn seven_longs(values: &[u32; 7])
    ensures count { length values.now ≡ 7 }
    ensures longs { AreLongs values.now }
{
    longs(values);
}

fn bytes(values: &[u8])
    ensures { AreBytes values.now }
{}

fn long(value: u32)
    ensures { value < 2 ^ 32 }
{}

fn count(value: u64)
    ensures { value < 2 ^ 64 }
{}

/// All that an outcome shows.
pub(crate) fn outcome_widths(o: &Outcome)
    ensures { HasWidths (seen_of o.now) }
{
    let regs = &o.cpu.regs;
    let mmu = o.mmu;
    eight_longs(&regs.d);
    seven_longs(&regs.a);
    longs(&[
        regs.usp,
        regs.isp,
        regs.msp,
        regs.pc,
        u32::from(regs.sr),
        o.cpu.vbr,
        u32::from(o.cpu.sfc),
        u32::from(o.cpu.dfc),
        o.cpu.cacr,
    ]);
    longs(&[
        mmu.tc, mmu.itt0, mmu.itt1, mmu.dtt0, mmu.dtt1, mmu.mmusr, mmu.urp, mmu.srp,
    ]);
    bytes(o.console);
    bytes(o.queue.as_slice());
    bytes(o.ram);
    long(o.steps);
    long(o.period);
    count(o.lost);
}

/// All of a disk.
fn block_widths(disk: &Disk)
    ensures { HasBlocks disk.now }
{
    let _blocks = disk.blocks();
    long(disk.block());
    bytes(disk.bytes());
    bytes(disk.buffer());
}

/// All of a disk, where there is one.
pub(crate) fn disk_widths(disk: Option<&Disk>)
    ensures { IfSome (option_map (λ d. d.now) disk.entry) HasBlocks }
{
    if let Some(disk) = disk {
        block_widths(disk);
    }
}
