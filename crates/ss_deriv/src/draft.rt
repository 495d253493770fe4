// Derivations that are being written.

ghost use Rattle.std.specs.Prelude.{◌≡◌, ◌+◌, ◌*◌, ◌^◌, ◌≤◌, [], ◌∷◌, ◌++◌, Some, IsSome, IsTrue, ◌↔◌, OnOk, OnErr, false};
ghost use Rattle.ss_deriv.specs.Shape.{IsBegun, IsShaped, turn_of, after};
ghost use Rattle.ss_deriv.specs.Drafts.{place_of};

use crate::line::{Derivation, Line};
use std::alloc::{AllocError, Global};
use std::marker::Model;

// Whether a case is open, and how many wait.
#[derive(Clone, Copy)]
pub(crate) struct Cases {
    pub(crate) is_open: bool,
    pub(crate) waiting: u128,
}

impl Cases {
    // Whether the line has its place here.
    fn allow(&self, line: &Line) -> bool
        ensures { IsTrue result ↔ IsSome (after (place_of self.now) (turn_of line.now)) }
    {
        match line {
            Line::Case => !self.is_open && self.waiting > 0,
            _ => self.is_open,
        }
    }

    // The cases after a line that has its place after `count` lines.
    fn after(&self, line: &Line, count: usize) -> Cases
        requires place { IsSome (after (place_of self.now) (turn_of line.now)) }
        requires few { self.now.waiting ≤ count * 2 ^ 64 }
        ensures place { after (place_of self.now) (turn_of line.now) ≡ Some (place_of result) }
        ensures few { result.waiting ≤ (count + 1) * 2 ^ 64 }
    {
        match line {
            Line::Split { cases, .. } => self.branched(*cases, count),
            Line::Cut { .. } => self.branched(2, count),
            Line::Clash { .. } => self.branched(0, count),
            Line::Case => Cases {
                is_open: true,
                waiting: self.waiting - 1,
            },
            _ => *self,
        }
    }

    // The cases after the open one has ended in so many.
    fn branched(&self, cases: usize, count: usize) -> Cases
        requires { self.now.waiting ≤ count * 2 ^ 64 }
        ensures is_open { result.is_open ≡ false }
        ensures waiting { result.waiting ≡ cases + self.now.waiting }
        ensures few { result.waiting ≤ (count + 1) * 2 ^ 64 }
    {
        Cases {
            is_open: false,
            waiting: cases as u128 + self.waiting,
        }
    }
}

/// The first lines of a derivation. Each line that is added has its place there.
#[derive(Drop)]
pub struct Draft {
    lines: Vec<Line>,
    cases: Cases,
}

impl Model for Draft {
    ghost use Rattle.std.specs.Prelude.{◌≡◌, ◌≤◌, ◌*◌, ◌^◌, List, length, Some};
    ghost use Rattle.ss_deriv.specs.declared.line.Line.{Line};
    ghost use Rattle.ss_deriv.specs.Shape.{place_after};
    ghost use Rattle.ss_deriv.specs.Drafts.{place_of};

    ghost Value = { List Line };

    ghost view = { λ d. d.lines.items };

    ghost invariant = { λ d. (place_after d.lines.items ≡ Some (place_of d.cases)) × (d.cases.waiting ≤ length d.lines.items * 2 ^ 64) };
}

impl Draft {
    /// No line, in the one case that is open at first.
    pub fn new(alloc: Global) -> Self
        ensures { result ≡ [] }
    {
        Draft {
            lines: Vec::new(alloc),
            cases: Cases {
                is_open: true,
                waiting: 0,
            },
        }
    }

    /// Whether the line may come next: `case` where a case waits and none is open, and any other where a case is open.
    pub fn allows(&self, line: &Line) -> bool
        ensures { IsTrue result ↔ IsBegun (self.now ++ line.now ∷ []) }
    {
        self.cases.allow(line)
    }

    /// Adds a line that may come next. An error is want of memory; the lines before it stay.
    pub fn add(&mut self, line: Line) -> Result<(), AllocError>
        requires { IsBegun (self.old ++ line ∷ []) }
        ensures added { OnOk result (self.new ≡ self.old ++ line ∷ []) }
        ensures same { OnErr result (self.new ≡ self.old) }
    {
        let cases = self.cases.after(&line, self.lines.len());
        self.lines.push(line)?;
        self.cases = cases;
        Ok(())
    }

    /// Whether no case is left.
    pub fn is_finished(&self) -> bool
        ensures { IsTrue result ↔ IsShaped self.now }
    {
        !self.cases.is_open && self.cases.waiting == 0
    }

    /// The derivation, where no case is left.
    pub fn finish(self) -> Derivation
        requires { IsShaped self }
        ensures { result ≡ self }
    {
        let mut lines = self.lines;
        lines.shrink_to_fit();
        Derivation { lines }
    }
}
