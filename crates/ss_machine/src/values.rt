// Values, as the checks read them.
ghost use Rattle.std.specs.Prelude.{◌≡◌, slice_set};
ghost use Rattle.ss_machine_rules.specs.Frame as frame;
ghost use Rattle.ss_machine_rules.specs.States as states;

use ss_store_rules::Value;

// The value of a local; one that is missing reads as null.
pub fn local(locals: &[Value], x: usize) -> Value
    ensures { result ≡ frame.local_at locals.now x }
{
    locals.get(x).copied().unwrap_or(Value::Null)
}

// The value of the first local, which is `this` where there is one.
pub fn this(locals: &[Value]) -> Value
    ensures { result ≡ frame.this_of locals.now }
{
    local(locals, 0)
}

// Sets a local, where there is such a local.
pub fn set_local(locals: &mut Vec<Value>, x: usize, value: Value)
    ensures { locals.new.items ≡ slice_set locals.old.items x value }
{
    if x < locals.len() {
        locals[x] = value;
    }
}

// Sets the local that gets a value, where one does.
pub fn put(into: Option<usize>, value: Value, locals: &mut Vec<Value>)
    ensures { locals.new.items ≡ states.put into value locals.old.items }
{
    if let Some(x) = into {
        set_local(locals, x, value);
    }
}
