// The values of locals and of bound names.
ghost use Rattle.std.specs.Prelude.{◌≡◌};
ghost use Rattle.ss_store.specs.Names.{values, look_up, or_next, local_read};

use ss_store_rules::Value;

/// The values of the locals, and after them those of the bound names, from the outermost inwards.
#[derive(Drop)]
pub(crate) enum Names<'a> {
    Locals(&'a [Value]),
    Bound(&'a Names<'a>, Value),
}

// The value of this number, or how far the number is past the last one.
#[tactic(auto, using(crate::proofs::Lookups::look_up_at, crate::proofs::Lookups::look_up_past))]
fn look_up_local(locals: &[Value], x: usize) -> Result<Value, usize>
    ensures { result ≡ look_up locals.now x }
{
    if x < locals.len() {
        Ok(locals[x])
    } else {
        Err(x - locals.len())
    }
}

// What was found, or the next value where the number is its own.
fn or_next(found: Result<Value, usize>, next: Value) -> Result<Value, usize>
    ensures { result ≡ or_next found next }
{
    match found {
        Ok(value) => Ok(value),
        Err(0) => Ok(next),
        Err(past) => Err(past - 1),
    }
}

impl<'a> Names<'a> {
    // The value of this number, or how far the number is past the last one.
    #[tactic(auto, using(crate::proofs::Lookups::look_up_more))]
    fn look_up(&self, x: usize) -> Result<Value, usize>
        ensures { result ≡ look_up (values self.now) x }
    {
        match self {
            Names::Locals(locals) => look_up_local(locals, x),
            Names::Bound(outer, bound) => or_next(outer.look_up(x), *bound),
        }
    }

    /// The value of this number; a number past the last one reads as null.
    #[tactic(auto, using(crate::proofs::Lookups::local_read_is))]
    pub(crate) fn value(&self, x: usize) -> Value
        ensures { result ≡ local_read (values self.now) x }
    {
        self.look_up(x).unwrap_or(Value::Null)
    }
}
