// Programs of another implementation: which of them `verify` proves, and checks that it leaves unproved in the others.
#![tactic(auto)]

use ss_io::{MemFiles, MemSink};
use ss_tests_verdicts::{Command, try_all};
use ss_top::specsharp;
use std::alloc::Global;
use std::io;

struct Specsharp;

impl Command for Specsharp {
    fn answer(
        &self,
        alloc: Global,
        words: &[String],
        files: &mut MemFiles,
        out: &mut MemSink,
    ) -> u8 {
        specsharp(alloc, words, files, out).number()
    }
}

fn main(rt: HostRuntime) -> io::Result<()> {
    try_all(&rt, &Specsharp)
}
