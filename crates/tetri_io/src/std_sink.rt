// The writers of std. They tell nothing of what was written.
ghost use Rattle.std.specs.Prelude.{◌≡◌, ◌<◌, ◌≤◌, length, take, IfOk, MatchResult, OnErr};
ghost use Rattle.std.specs.Io.KnownBytes.{append_known, Appends, Keeps};
ghost use Rattle.tetri_io.specs.Causes.{HasCause, count_after};

use crate::{Failed, Sink};
use std::io::Write;

/// A writer of std's, as standard output. It tells no bytes, and each fault counts one, up to 2^64
/// - 1. To take no byte of a piece is a fault.
#[derive(Drop)]
pub struct StdSink<W: Write> {
    out: W,
    faults: u64,
}

impl<W: Write> StdSink<W> {
    ghost use Rattle.tetri_io.specs.StdSink.{fault_count, writer_of};

    /// This writer, with no fault yet.
    pub fn new(out: W) -> StdSink<W>
        ensures writer { writer_of result ≡ out }
        ensures faults { fault_count result ≡ 0 }
    {
        StdSink { out, faults: 0 }
    }
}

impl<W: Write> Sink for StdSink<W> {
    ghost use Rattle.tetri_io.specs.StdSink.{fault_count, told_bytes, writer_of};

    ghost written = { told_bytes };

    ghost faults = { fault_count };

    #[tactic(auto, using(crate::proofs::Known::keeps_nothing))]
    fn write(&mut self, piece: &[u8]) -> Result<usize, Failed>
        requires { 0 < length piece.now }

        // What each sink ensures.
        ensures count { IfOk result (λ n. (0 < n) × (n ≤ length piece.now)) }
        ensures bytes { MatchResult result
            (λ n. told_bytes self.new ≡ append_known (told_bytes self.old) (take n piece.now))
            (λ _. told_bytes self.new ≡ told_bytes self.old) }
        ensures cause { HasCause (fault_count self.old) (fault_count self.new) result }

        // What this one ensures besides: where the writer tells its bytes, it took these, and none at a fault.
        ensures taken { IfOk result (λ n. Appends (W.contents (writer_of self.old))
            (W.contents (writer_of self.new)) (take n piece.now)) }
        ensures refused { OnErr result (Keeps (W.contents (writer_of self.old))
            (W.contents (writer_of self.new))) }
        ensures counted { fault_count self.new ≡ count_after (fault_count self.old) result }
    {
        match self.out.write(piece) {
            Ok(count) if count != 0 => Ok(count),
            _ => {
                self.faults = self.faults.saturating_add(1);
                Err(Failed)
            }
        }
    }
}
