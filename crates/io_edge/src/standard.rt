// Standard input and output. Their content isn't known, and they count their faults.
ghost use Rattle.std.specs.Prelude.{◌≡◌, ◌≤◌, None, false, is_err, length, IfOk};
ghost use Rattle.base_types.specs.Causes.{HasCause};

use crate::{Failed, Sink, Source};
use std::io::{ErrorKind, Read, Stdin, Stdout, Write};
use std::marker::Model;

/// Standard input, seen as how many of its calls have failed and whether the latest did. A read that a signal
/// interrupts is made again.
#[derive(Drop)]
pub struct StdSource {
    input: Stdin,
    faults: u64,
    failed: bool,
}

impl Model for StdSource {
    ghost use Rattle.io_edge.specs.Named.{InputView};

    ghost Value = { InputView };

    ghost view = { λ s. record { faults = s.faults; failed = s.failed } };
}

impl StdSource {
    pub fn new(input: Stdin) -> StdSource
        ensures { result ≡ record { faults = 0; failed = false } }
    {
        StdSource {
            input,
            faults: 0,
            failed: false,
        }
    }
}

/// Standard output, seen as how many of its calls have failed. A write that a signal interrupts, or that
/// takes a part, is continued.
#[derive(Drop)]
pub struct StdSink {
    output: Stdout,
    faults: u64,
}

impl Model for StdSink {
    ghost use Rattle.std.specs.Prelude.{ℕ};

    ghost Value = { ℕ };

    ghost view = { λ s. s.faults };
}

impl StdSink {
    pub fn new(output: Stdout) -> StdSink
        ensures { result ≡ 0 }
    {
        StdSink { output, faults: 0 }
    }
}

impl Source for StdSource {
    ghost content = { λ _. None };

    ghost faults = { λ s. s.faults };

    ghost failed = { λ s. s.failed };

    fn pull(&mut self, into: &mut [u8]) -> Result<usize, Failed>
        ensures bound { IfOk result (λ n. n ≤ length into.new) }
        ensures cause { HasCause self.old.faults self.new.faults result }
        ensures failed { self.new.failed ≡ is_err result }
    {
        let pulled = read_some(self.input, into);
        self.failed = pulled.is_err();
        if self.failed {
            self.faults = self.faults.saturating_add(1);
        }
        pulled
    }
}

fn read_some(mut input: Stdin, into: &mut [u8]) -> Result<usize, Failed>
    ensures { IfOk result (λ n. n ≤ length into.new) }
{
    for _ in 0..u64::MAX {
        match input.read(into) {
            Ok(n) => return Ok(n),
            Err(e) if e.kind() == ErrorKind::Interrupted => {}
            Err(_) => return Err(Failed),
        }
    }
    Err(Failed)
}

impl Sink for StdSink {
    ghost taken = { λ _. None };

    ghost faults = { λ failed. failed };

    fn push(&mut self, bytes: &[u8]) -> Result<(), Failed>
        ensures cause { HasCause self.old self.new result }
    {
        let pushed = write_all(self.output, bytes);
        if pushed.is_err() {
            self.faults = self.faults.saturating_add(1);
        }
        pushed
    }
}

fn write_all(mut output: Stdout, bytes: &[u8]) -> Result<(), Failed> {
    let mut rest = bytes;
    for _ in 0..u64::MAX {
        if rest.is_empty() {
            return Ok(());
        }
        match output.write(rest) {
            Ok(0) => return Err(Failed),
            Ok(n) => rest = &rest[n..],
            Err(e) if e.kind() == ErrorKind::Interrupted => {}
            Err(_) => return Err(Failed),
        }
    }
    Err(Failed)
}
