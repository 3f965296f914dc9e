//! Takes real files of lengths at and beside the multiples of a chunk, under limits at and beside
//! their lengths, and writes a text by writers that take a part of each piece. It prints what came of
//! each call, with a sum in which the position of each byte counts.
ghost use Rattle.std.specs.Prelude.{◌≤◌};
ghost use Rattle.pol_outside.specs.declared.folder.TheConstants.{MOST_TAKEN};

use pol_outside::{
    DiskFolder, Folder, MOST_TAKEN, MemoryFolder, MemorySink, NoMemory, SafeFolder, SinkFault,
    StdSink, TakeFault, put_all,
};
use std::alloc::Global;
use std::io;
use std::io::Write;
use std::rt::Files;

/// The real files under limits. They have the lengths 0, 1, 4095, 4096, 4097, 8191, 8192, 8193 and
/// 20000; each is the numbers from 0 on, a line each, cut at its length.
const ON_DISK: [(&str, u64); 30] = [
    ("empty", 0),
    ("empty", 1),
    ("one", 0),
    ("one", 1),
    ("one", 2),
    ("below_chunk", 4094),
    ("below_chunk", 4095),
    ("below_chunk", 4096),
    ("chunk", 4095),
    ("chunk", 4096),
    ("chunk", 4097),
    ("above_chunk", 4096),
    ("above_chunk", 4097),
    ("above_chunk", 4098),
    ("below_two_chunks", 8190),
    ("below_two_chunks", 8191),
    ("below_two_chunks", 8192),
    ("two_chunks", 8191),
    ("two_chunks", 8192),
    ("two_chunks", 8193),
    ("above_two_chunks", 8192),
    ("above_two_chunks", 8193),
    ("above_two_chunks", 8194),
    ("long", 19999),
    ("long", 20000),
    ("long", 20001),
    ("long", 4095),
    ("long", MOST_TAKEN),
    ("no such file", 8),
    (".", 8),
];

/// The files of a folder in memory, whose third call is to fail.
const IN_MEMORY: [(&str, u64); 5] = [
    ("held", 6),
    ("held", 5),
    ("held", 6),
    ("not held", 6),
    ("held", 0),
];

const SAFE: [(&str, u64); 2] = [("held", 6), ("not held", 6)];

/// Writers that take one byte in so many of each piece, with room for so many.
const SLOW: [(usize, usize); 5] = [(1, 100), (2, 100), (100, 100), (100, 31), (2, 0)];

/// Sinks in memory with so much room that take at most so many bytes, and of whose calls one is to fail.
const LIMITED: [(usize, usize, u64); 4] = [(32, 3, 12), (32, 3, 11), (31, 99, 9), (0, 1, 9)];

const TEXT: &str = "a text that is written in parts\n";

fn taken_word(taken: Result<(), TakeFault>) -> &'static str {
    match taken {
        Ok(()) => "whole",
        Err(TakeFault::TooLong) => "too long",
        Err(TakeFault::Failed) => "failed",
        Err(TakeFault::NoMemory) => "no memory",
    }
}

fn put_word(put: Result<(), SinkFault>) -> &'static str {
    match put {
        Ok(()) => "whole",
        Err(SinkFault) => "failed",
    }
}

fn sum(bytes: &[u8]) -> u32 {
    let mut sum = 0u32;
    for byte in bytes {
        sum = sum.wrapping_mul(31).wrapping_add(u32::from(*byte));
    }
    sum
}

fn take<F: Folder>(
    rt: &(impl Print + AllocGlobal),
    folder: &mut F,
    name: &str,
    limit: u64,
) -> io::Result<()>
    requires { limit ≤ MOST_TAKEN }
{
    let mut into = Vec::new(rt.alloc());
    let word = taken_word(folder.take(rt.alloc(), name, limit, &mut into));
    let (bytes, sum) = (into.len(), sum(into.as_slice()));
    println!(rt; "{name} up to {limit}: {word}, {bytes} bytes, sum {sum}")
}

fn take_each<F: Folder>(
    rt: &(impl Print + AllocGlobal),
    folder: &mut F,
    cases: &[(&str, u64)],
) -> io::Result<()> {
    for (name, limit) in cases {
        take(rt, folder, name, *limit.min(&MOST_TAKEN))?;
    }
    Ok(())
}

fn take_from_disk(rt: &(impl Print + Files + AllocGlobal)) -> io::Result<()> {
    take_each(rt, &mut DiskFolder::new(rt), &ON_DISK)
}

fn held(alloc: Global) -> Result<MemoryFolder, NoMemory> {
    let mut folder = MemoryFolder::new(alloc);
    folder.hold("held", b"first")?;
    folder.hold("held", b"second")?;
    folder.fail_at(3)?;
    Ok(folder)
}

fn take_from_memory(rt: &(impl Print + AllocGlobal)) -> io::Result<()> {
    take_each(rt, &mut held(rt.alloc())?, &IN_MEMORY)
}

fn safe(alloc: Global) -> Result<SafeFolder, NoMemory> {
    let mut folder = SafeFolder::new(alloc);
    folder.hold("held", b"second")?;
    Ok(folder)
}

fn take_safely(rt: &(impl Print + AllocGlobal)) -> io::Result<()> {
    take_each(rt, &mut safe(rt.alloc())?, &SAFE)
}

/// A writer with room for so many bytes, that takes one in `part` bytes of each piece, rounded up.
#[derive(Drop)]
struct Slow {
    taken: Vec<u8>,
    part: usize,
    room: usize,
    calls: usize,
}

impl Write for Slow {
    fn write(&mut self, piece: &[u8]) -> io::Result<usize> {
        self.calls = self.calls.saturating_add(1);
        let left = self.room.saturating_sub(self.taken.len());
        let n = piece.len().div_ceil(self.part.max(1)).min(left);
        self.taken.extend_from_slice(&piece[..n])?;
        Ok(n)
    }

    fn flush(&mut self) -> io::Result<()> {
        Ok(())
    }
}

fn put_slowly(rt: &(impl Print + AllocGlobal), part: usize, room: usize) -> io::Result<()> {
    let mut slow = Slow {
        taken: Vec::new(rt.alloc()),
        part,
        room,
        calls: 0,
    };
    let word = put_word(put_all(&mut StdSink::new(&mut slow), TEXT.as_bytes()));
    let (bytes, sum, calls) = (slow.taken.len(), sum(slow.taken.as_slice()), slow.calls);
    println!(rt;
        "one in {part}, room for {room}: {word}, {bytes} bytes in {calls} calls, sum {sum}"
    )
}

fn put_each_slowly(rt: &(impl Print + AllocGlobal), cases: &[(usize, usize)]) -> io::Result<()> {
    for (part, room) in cases {
        put_slowly(rt, *part, *room)?;
    }
    Ok(())
}

fn limited(alloc: Global, room: usize, most: usize, fails: u64) -> Result<MemorySink, NoMemory> {
    let mut sink = MemorySink::new(alloc, room, most.max(1))?;
    sink.fail_at(fails)?;
    Ok(sink)
}

fn put_limited(
    rt: &(impl Print + AllocGlobal),
    room: usize,
    most: usize,
    fails: u64,
) -> io::Result<()> {
    let mut sink = limited(rt.alloc(), room, most, fails)?;
    let word = put_word(put_all(&mut sink, TEXT.as_bytes()));
    let (bytes, sum) = (sink.written().len(), sum(sink.written()));
    println!(rt; "room for {room}, call {fails} fails: {word}, {bytes} bytes, sum {sum}")
}

fn put_each_limited(
    rt: &(impl Print + AllocGlobal),
    cases: &[(usize, usize, u64)],
) -> io::Result<()> {
    for (room, most, fails) in cases {
        put_limited(rt, *room, *most, *fails)?;
    }
    Ok(())
}

/// Prints what came of each call.
pub(crate) fn print_outside(rt: &HostRuntime) -> io::Result<()> {
    take_from_disk(rt)?;
    take_from_memory(rt)?;
    take_safely(rt)?;
    put_each_slowly(rt, &SLOW)?;
    put_each_limited(rt, &LIMITED)
}
