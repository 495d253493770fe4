// Free objects.
ghost use Rattle.std.specs.Prelude.{◌≡◌, ◌&&◌};
ghost use Rattle.std.specs.List.{list_any};
ghost use Rattle.ss_store_rules.specs.Reads.{object_at, is_allocated, is_object_with, is_group, same_owner};
ghost use Rattle.ss_machine_rules.specs.Frame as frame;
ghost use Rattle.ss_machine_stores.specs.Spans.{span_of, IsKnown};

use crate::span::Span;
use ss_store::{Before, is_group, is_pair_upto, same_owner};
use ss_store_rules::{Owner, Value};

fn this_of(locals: &[Value]) -> Value
    ensures { result ≡ frame.this_of locals.now }
{
    locals.first().copied().unwrap_or(Value::Null)
}

impl<'a> Span<'a> {
    /// Whether what has this owner is in the group of what the value refers to.
    fn is_in_group_with(&self, owner: Owner, value: Value) -> bool
        ensures { result ≡ is_object_with value (λ e. is_allocated (span_of self.now).entry e && is_group owner && same_owner owner (object_at (span_of self.now).entry e).owner) }
    {
        match value {
            Value::Obj(e) => self.before.allocated(e)
                && is_group(owner)
                && same_owner(owner, self.before.owner_of(e)),
            _ => false,
        }
    }

    /// Whether the object was in the group of a captured argument.
    fn is_captured(&self, o: u32) -> bool
        requires { IsKnown self.now }
        ensures { result ≡ list_any (frame.is_in_group_with (span_of self.now) (object_at (span_of self.now).entry o)) (frame.captured_values (span_of self.now)) }
    {
        let owner = self.before.owner_of(o);
        self.captured
            .iter()
            .any(|v| self.is_in_group_with(owner, *v))
    }

    /// Whether the object was owned by the `this` of a constructor, at its class or one above.
    fn is_owned_by_new(&self, o: u32) -> bool
        ensures { result ≡ frame.is_owned_by_new (span_of self.now) (object_at (span_of self.now).entry o) }
    {
        if !self.body.flags.ctor {
            return false;
        }
        match this_of(self.locals) {
            Value::Obj(q) => is_pair_upto(
                self.classes,
                q,
                self.body.class,
                self.before.owner_of(o),
            ),
            _ => false,
        }
    }

    fn is_free(&self, o: u32) -> bool
        requires { IsKnown self.now }
        ensures { result ≡ frame.is_free (span_of self.now) (object_at (span_of self.now).entry o) }
    {
        self.before.committed(o) || self.is_captured(o) || self.is_owned_by_new(o)
    }

    /// Whether the object was there and isn't free.
    pub(crate) fn is_old(&self, o: u32) -> bool
        requires { IsKnown self.now }
        ensures { result ≡ frame.is_old (span_of self.now) o }
    {
        self.before.allocated(o) && !self.is_free(o)
    }
}
