// Names in scope.

ghost use Rattle.std.specs.Prelude.{◌≡◌, ◌∷◌, [], ◌<◌, length, reverse, is_some, IfSome, IfNone, OnOk};
ghost use Rattle.ss_tables.specs.Named.{named_in, named_among, no_names, named, entered, left, with_name};

use ss_tables_lookup::NameMap;
use std::alloc::{AllocError, Global};
use std::marker::Model;

/// What stands under the names of the scopes.
#[derive(Drop)]
pub struct NameScopes<T> {
    inner: NameMap<T>,
    // the outermost first
    outer: Vec<NameMap<T>>,
}

impl<T> Model for NameScopes<T> {
    ghost use Rattle.std.specs.Prelude.{reverse};
    ghost use Rattle.ss_tables.specs.Named.{Scoped};
    ghost use Rattle.ss_tables_lookup.specs.Codes.{scoped_code};

    ghost Value = { Scoped T };

    ghost coded = { scoped_code T.code };

    ghost view = { λ s. record { inner = s.inner; outer = reverse s.outer.items } };
}

// The innermost scope, and those around it.
fn split_scopes<T>(scopes: &[NameMap<T>]) -> Option<(&NameMap<T>, &[NameMap<T>])>
    ensures some { IfSome result (λ x. reverse scopes.now ≡ x.0.now ∷ reverse x.1.now) }
    ensures none { IfNone result (reverse scopes.now ≡ []) }
    ensures fewer { IfSome result (λ x. length x.1.now < length scopes.now) }
{
    match scopes {
        [outer @ .., inner] => Some((inner, outer)),
        [] => None,
    }
}

// What the name means in the innermost of these scopes that has it.
fn find_outside<T: Copy + Drop>(scopes: &[NameMap<T>], name: &str) -> Option<T>
    ensures { result ≡ named_among (reverse scopes.now) name.now }
{
    let mut rest = scopes;
    while let Some((scope, outer)) = split_scopes(rest) {
        if let Some(found) = scope.find(name) {
            return Some(found);
        }
        rest = outer;
    }
    None
}

impl<T: Drop> NameScopes<T> {
    /// No names, in one scope.
    pub fn new(alloc: Global) -> Self
        ensures { result ≡ no_names }
    {
        NameScopes {
            inner: NameMap::new(alloc),
            outer: Vec::new(alloc),
        }
    }

    /// Opens a scope.
    pub fn enter(&mut self, alloc: Global) -> Result<(), AllocError>
        ensures { OnOk result (self.new ≡ entered self.old) }
    {
        let around = std::mem::replace(&mut self.inner, NameMap::new(alloc));
        self.outer.push(around)?;
        Ok(())
    }

    /// Closes the innermost scope.
    pub fn leave(&mut self)
        ensures { self.new ≡ left self.old }
    {
        if let Some(scope) = self.outer.pop() {
            self.inner = scope;
        }
    }
}

impl<T: Copy + Drop> NameScopes<T> {
    /// What a name means: the innermost scope that has it decides.
    pub fn find(&self, name: &str) -> Option<T>
        ensures { result ≡ named self.now name.now }
    {
        match self.inner.find(name) {
            Some(found) => Some(found),
            None => find_outside(&self.outer, name),
        }
    }

    /// Whether the innermost scope has the name.
    pub fn has_within(&self, name: &str) -> bool
        ensures { result ≡ is_some (named_in self.now.inner name.now) }
    {
        self.inner.find(name).is_some()
    }

    /// Declares one more name. Where its scope has the name already, the first one stays meant.
    pub fn declare(&mut self, alloc: Global, name: &str, value: T) -> Result<(), AllocError>
        ensures { OnOk result (self.new ≡ with_name self.old name.now value) }
    {
        self.inner.note(alloc, name, value)
    }
}
