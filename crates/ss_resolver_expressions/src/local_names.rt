// What is known at a place within a body.

ghost use Rattle.std.specs.Prelude.{◌≡◌, OnOk};
ghost use Rattle.ss_tables.specs.Named.{named};
ghost use Rattle.ss_resolver_expressions.specs.LocalContext.{no_locals, entered, left, with_local, within_member, after_member};

use ss_core::Ty;
use ss_resolver_rules::Known;
use ss_tables_lookup::StaticType;
use ss_tables_scopes::{LocalInfo, NameScopes, Scopes};
use std::alloc::{AllocError, Global};
use std::marker::Model;

/// The names in scope, with their types and numbers, and the number of the next local.
#[derive(Drop)]
pub struct LocalNames {
    names: Scopes,
    numbered: NameScopes<Known>,
    next: usize,
    bound: usize,
}

impl Model for LocalNames {
    ghost use Rattle.ss_resolver_expressions.specs.LocalContext.{LocalContext};

    ghost Value = { LocalContext };

    ghost view = { λ a. record { names = a.names; numbered = a.numbered; next = a.next; bound = a.bound } };
}

impl LocalNames {
    /// No names, where the first local has this number.
    pub fn new(alloc: Global, first: usize) -> Self
        ensures { result ≡ no_locals first }
    {
        LocalNames {
            names: NameScopes::new(alloc),
            numbered: NameScopes::new(alloc),
            next: first,
            bound: 0,
        }
    }

    /// The names with their types.
    pub fn names(&self) -> &Scopes
        ensures { result.now ≡ self.now.names }
    {
        &self.names
    }

    /// What a name stands for.
    pub fn find(&self, name: &str) -> Option<Known>
        ensures { result ≡ named self.now.numbered name.now }
    {
        self.numbered.find(name)
    }

    /// The number of the next local.
    pub fn next(&self) -> usize
        ensures { result ≡ self.now.next }
    {
        self.next
    }

    /// Opens a scope.
    pub fn enter(&mut self, alloc: Global) -> Result<(), AllocError>
        ensures { OnOk result (self.new ≡ entered self.old) }
    {
        self.names.enter(alloc)?;
        self.numbered.enter(alloc)?;
        Ok(())
    }

    /// Closes the innermost scope.
    pub fn leave(&mut self)
        ensures { self.new ≡ left self.old }
    {
        self.names.leave();
        self.numbered.leave();
    }

    /// Declares one more local.
    pub fn declare(
        &mut self,
        alloc: Global,
        name: &str,
        local: LocalInfo,
        ty: Ty,
    ) -> Result<(), AllocError>
        ensures { OnOk result (self.new ≡ with_local self.old name.now local ty) }
    {
        self.names.declare(alloc, name, local)?;
        let known = Known::Variable(self.next, ty);
        self.numbered.declare(alloc, name, known)?;
        self.next = self.next.checked_add(1).ok_or(AllocError)?;
        Ok(())
    }

    /// Opens the scope of a quantifier's member.
    pub fn enter_member(&mut self, alloc: Global, name: &str) -> Result<(), AllocError>
        ensures { OnOk result (self.new ≡ within_member self.old name.now) }
    {
        self.enter(alloc)?;
        let local = LocalInfo {
            ty: Some(StaticType::Int),
            is_param: false,
        };
        self.names.declare(alloc, name, local)?;
        self.numbered
            .declare(alloc, name, Known::BoundName(self.bound))?;
        self.bound = self.bound.checked_add(1).ok_or(AllocError)?;
        Ok(())
    }

    /// Closes it.
    pub fn leave_member(&mut self)
        ensures { self.new ≡ after_member self.old }
    {
        self.leave();
        self.bound = self.bound.saturating_sub(1);
    }
}
