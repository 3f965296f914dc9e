// A sink in memory, with planned faults.
ghost use Rattle.std.specs.Prelude.{◌≡◌, ◌<◌, ◌≤◌, [], Some, IfOk, OnOk, OnErr, length, vec_capacity};
ghost use Rattle.pol_outside.specs.Faults.{CountsError, one_more};
ghost use Rattle.pol_outside.specs.Sink.{Puts};

use crate::{NoMemory, Sink, SinkFault};
use std::alloc::Global;

/// A sink in memory. It has room for so many bytes, taken when it is made, and takes at most so
/// many at a call. It keeps the numbers of the calls that are to fail, counted from 1, and counts
/// its faults.
#[derive(Drop)]
pub struct MemorySink {
    bytes: Vec<u8>,
    room: usize,
    most: usize,
    failing: Vec<u64>,
    calls: u64,
    faults: u64,
    ghost takes_some: { 0 < most },
    ghost has_room: { room ≤ vec_capacity bytes },
}

impl MemorySink {
    ghost use Rattle.pol_outside.specs.MemorySink.{bytes_of, sink_limits, sink_calls, no_sink_calls, put_fails_at};

    /// The sink with room for exactly `room` bytes that takes at most `most` at a call. Nothing is
    /// written yet, and no call is to fail.
    pub fn new(alloc: Global, room: usize, most: usize) -> Result<MemorySink, NoMemory>
        requires { 0 < most }
        ensures written { IfOk result (λ s. bytes_of s ≡ []) }
        ensures limits { IfOk result (λ s. sink_limits s ≡ record { room = room; most = most }) }
        ensures calls { IfOk result (λ s. sink_calls s ≡ no_sink_calls) }
    {
        Ok(MemorySink {
            bytes: Vec::with_capacity(alloc, room)?,
            room,
            most,
            failing: Vec::new(alloc),
            calls: 0,
            faults: 0,
        })
    }

    /// Makes the call of `put` of this number fail, counted from 1 over the sink's life. Where
    /// there is no memory the sink stays as it was.
    pub fn fail_at(&mut self, call: u64) -> Result<(), NoMemory>
        ensures written { bytes_of self.new ≡ bytes_of self.old }
        ensures limits { sink_limits self.new ≡ sink_limits self.old }
        ensures ok { OnOk result (sink_calls self.new ≡ put_fails_at call (sink_calls self.old)) }
        ensures err { OnErr result (sink_calls self.new ≡ sink_calls self.old) }
    {
        self.failing.push(call)?;
        Ok(())
    }

    /// The bytes that were written.
    pub fn written(&self) -> &[u8]
        ensures { result.now ≡ bytes_of self.now }
    {
        self.bytes.as_slice()
    }

    // One fault more.
    fn fail(&mut self) -> SinkFault
        ensures after { self.new ≡ record self.old { faults = one_more self.old.faults } }
        ensures later { self.old.faults ≤ self.new.faults }
    {
        self.faults = self.faults.saturating_add(1);
        SinkFault
    }
}

impl Sink for MemorySink {
    ghost use Rattle.pol_outside.specs.MemorySink.{bytes_of, sink_limits, sink_calls, fits_next, next_put_is_fault, PutsWhatFits};

    ghost written = { λ s. Some (bytes_of s) };

    ghost faults = { λ s. s.faults };

    /// As the trait says. A call is a fault exactly where its number is among those that are to
    /// fail or no room is left; else it takes as many bytes as it may and has room for.
    fn put(&mut self, piece: &[u8]) -> Result<usize, SinkFault>
        requires { 0 < length piece.now }
        ensures puts { Puts result piece.now (Some (bytes_of self.old)) (Some (bytes_of self.new)) }
        ensures later { (sink_calls self.old).faults ≤ (sink_calls self.new).faults }
        ensures limits { sink_limits self.new ≡ sink_limits self.old }
        ensures made { (sink_calls self.new).made ≡ one_more (sink_calls self.old).made }
        ensures failing { (sink_calls self.new).failing ≡ (sink_calls self.old).failing }
        ensures takes { PutsWhatFits (next_put_is_fault self.old) (fits_next self.old piece.now)
            result }
        ensures counts { CountsError result (sink_calls self.old).faults
            (sink_calls self.new).faults }
    {
        self.calls = self.calls.saturating_add(1);
        let left = self.room.saturating_sub(self.bytes.len());
        if left == 0 || self.failing.contains(&self.calls) {
            return Err(self.fail());
        }
        let n = piece.len().min(self.most.min(left));
        match self.bytes.extend_from_slice(&piece[..n]) {
            Ok(()) => Ok(n),
            Err(_) => unreachable!(),
        }
    }
}
