// Frames of bodies that run.
ghost use Rattle.std.specs.Prelude.{◌≡◌, ◌++◌, List, map, IfOk, OnOk, option_to_list};
ghost use Rattle.ss_core.specs.View as view;
ghost use Rattle.ss_store_rules.specs.Store as store;
ghost use Rattle.ss_store_rules.specs.Store.{Object};
ghost use Rattle.ss_machine_rules.specs.States as states;
ghost use Rattle.ss_machine.specs.Frames.{dues_after, left_after, left_of, target_of, frame_of, IsFirst};

use ss_core::{Body, Loop, Stmt, Ty};
use ss_store_rules::Value;
use std::alloc::{AllocError, Global};

// What stands after a block: statements, the test of a loop, or a loop.
#[derive(Clone, Copy)]
pub enum Behind<'a> {
    Code(&'a [Stmt]),
    Test(&'a Loop),
    Head(&'a Loop),
}

// Where a body returns to: a call or a `new`, with the local that gets the result or the object.
#[derive(Clone, Copy, Debug, PartialEq, Eq)]
pub enum Target {
    Call(Option<usize>),
    New(Option<usize>),
}

// A body that runs: its locals, the statements that are left of the innermost block, and where it returns to. After these statements
// comes what is due later, the last of it first.
#[derive(Drop)]
pub struct Frame<'a> {
    pub body: &'a Body,
    pub locals: Vec<Value>,
    pub code: &'a [Stmt],
    pub later: Vec<Behind<'a>>,
    pub into: Target,
}

// What a body does next.
#[derive(Clone, Copy)]
pub enum Due<'a> {
    Statement(&'a Stmt),
    Head(&'a Loop),
    Test(&'a Loop),
}

// What a local holds before it is assigned.
fn default_of(ty: Ty) -> Value
    ensures { result ≡ store.default_value ty }
{
    match ty {
        Ty::Int => Value::Int(0),
        Ty::Bool => Value::Bool(false),
        Ty::Null | Ty::Ref { .. } => Value::Null,
    }
}

// Adds the result before it is given, where there is one.
fn add_result(first: &mut Vec<Value>, result_type: Option<Ty>) -> Result<(), AllocError>
    ensures { OnOk result (first.new.items ≡ first.old.items ++ map store.default_value (option_to_list result_type)) }
{
    match result_type {
        Some(ty) => {
            first.push(default_of(ty))?;
            Ok(())
        }
        None => Ok(()),
    }
}

// The values of a body's locals at its entry, where its arguments have these.
pub fn locals_at_entry(body: &Body, arguments: Vec<Value>) -> Result<Vec<Value>, AllocError>
    ensures { IfOk result (λ v. v.items ≡ states.locals_at_entry (view.body body.now) arguments.items) }
{
    let mut locals = arguments;
    for local in &body.locals {
        locals.push(default_of(local.ty))?;
    }
    add_result(&mut locals, body.result)?;
    Ok(locals)
}

impl<'a> Frame<'a> {
    // A body at its entry.
    pub fn at_entry(alloc: Global, body: &'a Body, locals: Vec<Value>, into: Target) -> Frame<'a>
        ensures { (s : List Object) → frame_of result s ≡ states.frame_at_entry (view.body body.now) locals.items s (target_of into) }
    {
        Frame {
            body,
            locals,
            code: body.code.as_slice(),
            later: Vec::new(alloc),
            into,
        }
    }

    // Takes the first of what is left.
    pub fn fetch(&mut self) -> Option<Due<'a>>
        ensures left { IsFirst result (left_of self.old) (left_of self.new) }
        ensures body { self.new.body ≡ self.old.body }
        ensures locals { self.new.locals ≡ self.old.locals }
        ensures into { self.new.into ≡ self.old.into }
    {
        loop {
            if let [first, others @ ..] = self.code {
                self.code = others;
                return Some(Due::Statement(first));
            }
            match self.later.pop()? {
                Behind::Code(code) => self.code = code,
                Behind::Test(l) => return Some(Due::Test(l)),
                Behind::Head(l) => return Some(Due::Head(l)),
            }
        }
    }

    // Something waits after the statements that come next.
    #[tactic(auto, using(crate::proofs::Stacks::left_push))]
    pub fn wait(&mut self, behind: Behind<'a>) -> Result<(), AllocError>
        ensures left { OnOk result (left_after self.new.later.items ≡ dues_after behind.entry ++ left_after self.old.later.items) }
        ensures code { self.new.code ≡ self.old.code }
        ensures body { self.new.body ≡ self.old.body }
        ensures locals { self.new.locals ≡ self.old.locals }
        ensures into { self.new.into ≡ self.old.into }
    {
        self.later.push(behind)?;
        Ok(())
    }

    // The statements that are left wait after what comes next.
    pub fn wait_after(&mut self) -> Result<(), AllocError>
        ensures left { OnOk result (left_after self.new.later.items ≡ left_of self.old) }
        ensures body { self.new.body ≡ self.old.body }
        ensures locals { self.new.locals ≡ self.old.locals }
        ensures into { self.new.into ≡ self.old.into }
    {
        if self.code.is_empty() {
            return Ok(());
        }
        self.wait(Behind::Code(self.code))
    }
}
