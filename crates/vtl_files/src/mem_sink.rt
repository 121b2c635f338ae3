ghost use Rattle.std.specs.Prelude.{◌≡◌, ◌<◌, ◌≤◌, Some, []};

use crate::count::Count;
use crate::failed::Failed;
use crate::sink::Sink;
use std::alloc::Global;

/// A sink that keeps in memory what it takes.
#[derive(Drop)]
pub struct MemSink {
    taken: Vec<u8>,
    chunk: usize,
    fail: Vec<u64>,
    calls: Count,
    faults: Count,

    ghost takes_some: { 0 < chunk },
}

impl MemSink {
    /// An empty sink that takes at most `chunk` bytes a call, and fails at the calls of these numbers,
    /// counted from 1.
    pub fn new(alloc: Global, chunk: usize, fail: Vec<u64>) -> MemSink
        requires { 1 ≤ chunk }
        ensures taken { ⟦<MemSink as Sink>⟧.taken result ≡ Some [] }
        ensures faults { ⟦<MemSink as Sink>⟧.faults result ≡ 0 }
        ensures plan { ⟦<MemSink as Sink>⟧.plan result ≡ Some (record { chunk = chunk; fail = fail.items; calls = 0 }) }
    {
        MemSink {
            taken: Vec::new(alloc),
            chunk,
            fail,
            calls: Count::new(),
            faults: Count::new(),
        }
    }

    /// What was taken so far.
    pub fn taken(&self) -> &[u8]
        ensures { ⟦<MemSink as Sink>⟧.taken self.now ≡ Some result.now }
    {
        &self.taken
    }
}

impl Sink for MemSink {
    ghost taken = { λ sink. Some sink.taken.items };

    ghost faults = { λ sink. sink.faults };

    ghost plan = { λ sink. Some (record { chunk = sink.chunk; fail = sink.fail.items; calls = sink.calls }) };

    fn write(&mut self, piece: &[u8]) -> Result<usize, Failed> {
        self.calls.rise();
        let count = piece.len().min(self.chunk);
        if self.fail.contains(&self.calls.value())
            || self.taken.extend_from_slice(&piece[..count]).is_err()
        {
            self.faults.rise();
            return Err(Failed);
        }
        Ok(count)
    }
}
