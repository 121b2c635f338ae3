ghost use Rattle.std.specs.Prelude.{◌≡◌, None};

use crate::count::Count;
use crate::failed::Failed;
use crate::sink::Sink;

/// Standard output. It reveals nothing of what it has taken.
#[derive(Drop)]
pub struct StdSink<'a, R: Print> {
    rt: &'a R,
    faults: Count,
}

impl<'a, R: Print> StdSink<'a, R> {
    /// The standard output of the system that `rt` stands for.
    pub fn new(rt: &'a R) -> StdSink<'a, R>
        ensures { ⟦<StdSink<'a, R> as Sink>⟧.faults result ≡ 0 }
    {
        StdSink {
            rt,
            faults: Count::new(),
        }
    }
}

impl<'a, R: Print> Sink for StdSink<'a, R> {
    ghost taken = { λ _. None };

    ghost faults = { λ sink. sink.faults };

    fn write(&mut self, piece: &[u8]) -> Result<usize, Failed> {
        match self.rt.write_some(piece) {
            Ok(count) if count != 0 || piece.is_empty() => Ok(count),
            _ => {
                self.faults.rise();
                Err(Failed)
            }
        }
    }
}
