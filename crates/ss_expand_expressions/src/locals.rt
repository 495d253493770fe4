// Numbers of locals.

ghost use Rattle.std.specs.Prelude.{◌≡◌, ◌+◌, IfOk};
ghost use Rattle.ss_expand_rules.specs.Numbers.{number};
ghost use Rattle.ss_expand_expressions.specs.Views.{numbers_of};

use std::alloc::AllocError;

/// What the locals of a body have for numbers in the core program.
#[derive(Drop)]
pub struct Numbers {
    /// What `this` and each parameter is meant by: itself, or its copy.
    pub meant: Vec<usize>,
    pub first_temporary: usize,
    /// The number of the result.
    pub outcome: usize,
    /// The number of the outermost bound name.
    pub first_bound: usize,
}

impl Numbers {
    /// The number of a parameter or a declared local where code means it.
    pub fn number(&self, x: usize) -> usize
        ensures { result ≡ number (numbers_of self.now) x }
    {
        match self.meant.get(x) {
            Some(meant) => *meant,
            None => x,
        }
    }

    /// The number of a bound name with so many quantifiers around its own. There is no room for so many that the number doesn't
    /// fit.
    pub fn bound(&self, around: usize) -> Result<usize, AllocError>
        ensures { IfOk result (λ x. x ≡ self.now.first_bound + around) }
    {
        self.first_bound.checked_add(around).ok_or(AllocError)
    }
}
