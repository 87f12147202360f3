// Which calls of a shelf or a sink in memory fail, and how many did.
ghost use Rattle.std.specs.Prelude.{◌≡◌, IfOk, OnErr, is_ok, not, OnOk};
ghost use Rattle.io_edges.specs.Count.{counted};
ghost use Rattle.io_edges.specs.Memory.{fails_next};

use crate::traits::Failed;
use std::alloc::{AllocError, Global};

#[derive(Drop)]
pub(crate) struct Failing {
    // The numbers of the calls that fail, from 1.
    pub numbers: Vec<u64>,
    pub calls: u64,
    pub faults: u64,
}

impl Failing {
    pub(crate) fn new(alloc: Global, numbers: &[u64]) -> Result<Failing, AllocError>
        ensures numbers { IfOk result (λ failing. failing.numbers.items ≡ numbers.now) }
        ensures calls { IfOk result (λ failing. failing.calls ≡ 0) }
        ensures faults { IfOk result (λ failing. failing.faults ≡ 0) }
    {
        Ok(Failing {
            numbers: Vec::from_slice(alloc, numbers)?,
            calls: 0,
            faults: 0,
        })
    }

    // Counts a call, which fails where its number is among those that fail.
    pub(crate) fn call(&mut self) -> Result<(), Failed>
        ensures numbers { self.new.numbers.items ≡ self.old.numbers.items }
        ensures calls { self.new.calls ≡ counted self.old.calls }
        ensures fails { is_ok result ≡ not (fails_next self.old.numbers.items self.old.calls) }
        ensures ok { OnOk result (self.new.faults ≡ self.old.faults) }
        ensures err { OnErr result (self.new.faults ≡ counted self.old.faults) }
    {
        self.calls = self.calls.saturating_add(1);
        if self.numbers.contains(&self.calls) {
            Err(self.fault())
        } else {
            Ok(())
        }
    }

    // Counts a fault.
    pub(crate) fn fault(&mut self) -> Failed
        ensures numbers { self.new.numbers.items ≡ self.old.numbers.items }
        ensures calls { self.new.calls ≡ self.old.calls }
        ensures faults { self.new.faults ≡ counted self.old.faults }
    {
        self.faults = self.faults.saturating_add(1);
        Failed
    }
}
