//! Standard input as a source.
use crate::faults::Faults;
use edge_traits::{Failed, Source};
use std::io::{Input, Read};

/// Reads standard input, and no byte ahead of those that it gives out. Each error of the system is a fault.
#[derive(Drop)]
pub struct StdSource<I: Input> {
    input: I::Reader,
    faults: Faults,
}

impl<I: Input> StdSource<I> {
    ghost use Rattle.std.specs.Prelude.{◌≡◌};
    ghost use Rattle.edge_real.specs.StdSource.{faults_of};

    /// A source that has read nothing yet.
    pub fn new(rt: &I) -> Self
        ensures { faults_of result ≡ 0 }
    {
        StdSource {
            input: rt.reader(),
            faults: Faults::none(),
        }
    }
}

impl<I: Input> Source for StdSource<I> {
    ghost use Rattle.std.specs.Prelude.{◌≤◌, None, IfOk, length};
    ghost use Rattle.edge_real.specs.Faults.{Counts};
    ghost use Rattle.edge_real.specs.StdSource.{faults_of};

    ghost left = { λ _. None };

    ghost fault_count = { λ source. source.faults.count };

    ghost fault_count_fits = { λ source. source.faults.fits };

    fn read(&mut self, buf: &mut [u8]) -> Result<usize, Failed>
        ensures within { IfOk result (λ k. k ≤ length buf.old) }
        ensures counted { Counts (faults_of self.old) (faults_of self.new) result }
    {
        match self.input.read(buf) {
            Ok(count) => Ok(count),
            Err(_) => Err(self.faults.rise()),
        }
    }

    fn faults(&self) -> u64 {
        self.faults.count()
    }
}

#[cfg(test)]
mod tests {
    use super::*;

    #[test]
    fn an_empty_buffer_takes_nothing(rt: HostRuntime) {
        let mut source = StdSource::new(&rt);
        assert_eq!(rt; source.read(&mut []), Ok(0));
        assert_eq!(rt; source.faults(), 0);
    }
}
