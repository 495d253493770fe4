// The texts of a body's locals, in a table that is made once.

ghost use Rattle.std.specs.Prelude.{◌≡◌, ℕ, List, [], ◌∷◌, ◌++◌, map, OnOk, IfOk, string_bytes, codes, decimal, if◌then◌else◌};
ghost use Rattle.ss_core.specs.View.{local_of};
ghost use Rattle.ss_core.specs.declared.names.Ty.{Ty};
ghost use Rattle.ss_report_names.specs.Names as names;

use ss_core::{Local, Ty};
use std::alloc::{AllocError, Global};
use std::collections::HashSet;

/// Names in order, each as a text, and the set of them.
#[derive(Drop)]
pub(crate) struct Table<'a> {
    pub(crate) texts: Vec<String>,
    pub(crate) known: HashSet<&'a str>,
}

/// A name, and where it is repeated `#` and its number.
pub(crate) fn marked(
    alloc: Global,
    name: &str,
    repeated: bool,
    number: usize,
) -> Result<String, AllocError>
    ensures { IfOk result (λ text. string_bytes text ≡ (if repeated then name.now ++ codes "#" ++ decimal number else name.now)) }
{
    let mut text = String::from_str(alloc, name)?;
    if repeated {
        text.push_str("#")?;
        text.push_str(&number.to_string(alloc)?)?;
        return Ok(text);
    }
    Ok(text)
}

impl<'a> Table<'a> {
    ghost use Rattle.ss_report_names.specs.Tables.{IsTable};

    /// No names.
    pub(crate) fn new(alloc: Global) -> Table<'a>
        ensures { IsTable [] result }
    {
        Table {
            texts: Vec::new(alloc),
            known: HashSet::new(alloc),
        }
    }

    /// One more name after the others.
    pub(crate) fn add(&mut self, alloc: Global, name: &'a str) -> Result<(), AllocError>
        ensures { (earlier : List (List ℕ)) → IsTable earlier self.old → OnOk result (IsTable (earlier ++ name.now ∷ []) self.new) }
    {
        let repeated = self.known.contains(name);
        let text = marked(alloc, name, repeated, self.texts.len())?;
        self.texts.push(text)?;
        self.known.insert(name)?;
        Ok(())
    }

    /// The names of these locals after the others.
    pub(crate) fn add_all(&mut self, alloc: Global, locals: &'a [Local]) -> Result<(), AllocError>
        ensures { (earlier : List (List ℕ)) → IsTable earlier self.old → OnOk result (IsTable (earlier ++ names.names_of (map local_of locals.now)) self.new) }
    {
        for local in locals {
            self.add(alloc, local.name.as_str())?;
        }
        Ok(())
    }
}
