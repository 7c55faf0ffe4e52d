//! Standard output as a sink.
use crate::faults::Faults;
use edge_traits::{Failed, Sink};
use std::io::Print;

/// Writes to standard output at once, and keeps no byte back. Each error of the system is a fault.
#[derive(Drop)]
pub struct StdSink<P: Print> {
    output: P,
    faults: Faults,
}

impl<P: Print> StdSink<P> {
    ghost use Rattle.std.specs.Prelude.{◌≡◌};
    ghost use Rattle.edge_real.specs.StdSink.{faults_of};

    /// A sink that has written nothing yet.
    pub fn new(output: P) -> Self
        ensures { faults_of result ≡ 0 }
    {
        StdSink {
            output,
            faults: Faults::none(),
        }
    }
}

impl<P: Print + Drop> Sink for StdSink<P> {
    ghost use Rattle.std.specs.Prelude.{◌≤◌, ◌<◌, None, IfOk, length};
    ghost use Rattle.edge_real.specs.Faults.{Counts};
    ghost use Rattle.edge_real.specs.StdSink.{faults_of};

    ghost written = { λ _. None };

    ghost fault_count = { λ sink. sink.faults.count };

    ghost fault_count_fits = { λ sink. sink.faults.fits };

    fn write(&mut self, bytes: &[u8]) -> Result<usize, Failed>
        ensures within { IfOk result (λ k. k ≤ length bytes.now) }
        ensures progress { IfOk result (λ k. 0 < length bytes.now → 0 < k) }
        ensures counted { Counts (faults_of self.old) (faults_of self.new) result }
    {
        match self.output.write_some(bytes) {
            Ok(count) if count > 0 || bytes.is_empty() => Ok(count),
            _ => Err(self.faults.rise()),
        }
    }

    fn faults(&self) -> u64 {
        self.faults.count()
    }
}

#[cfg(test)]
mod tests {
    use super::*;
    use std::fmt::Display;
    use std::io;

    /// An output that has no room left, and doesn't say so.
    #[derive(Drop)]
    struct Stuck;

    impl Print for Stuck {
        fn print<D: Display + Drop>(&self, _value: D) -> io::Result<()> {
            Ok(())
        }

        fn println<D: Display + Drop>(&self, _value: D) -> io::Result<()> {
            Ok(())
        }

        fn write_all(&self, _bytes: &[u8]) -> io::Result<()> {
            Ok(())
        }

        fn write_some(&self, _bytes: &[u8]) -> io::Result<usize> {
            Ok(0)
        }
    }

    #[test]
    fn a_piece_is_written(rt: HostRuntime) {
        let mut sink = StdSink::new(&rt);
        assert_eq!(rt; sink.write(b"."), Ok(1));
        assert_eq!(rt; sink.write(b""), Ok(0));
        assert_eq!(rt; sink.faults(), 0);
    }

    #[test]
    fn a_write_that_takes_nothing_is_a_fault(rt: HostRuntime) {
        let mut sink = StdSink::new(Stuck);
        assert_eq!(rt; sink.write(b"a"), Err(Failed));
        assert_eq!(rt; sink.write(b""), Ok(0));
        assert_eq!(rt; sink.faults(), 1);
    }
}
