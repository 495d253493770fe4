// Values of expressions.
ghost use Rattle.std.specs.Prelude.{◌≡◌, ◌≤◌, [], ◌∷◌, map, length};
ghost use Rattle.std.specs.Int.{int_gap};
ghost use Rattle.ss_core.specs.View as view;
ghost use Rattle.ss_core.specs.Chain.{most_classes};
ghost use Rattle.ss_store_rules.specs.Values as values;
ghost use Rattle.ss_store_rules.specs.Reads as reads;
ghost use Rattle.ss_store.specs.Contexts.{setting_of};
ghost use Rattle.ss_store.specs.Grouped.{link_after, step_after, IsAfter};

use crate::arithmetic::{apply, as_bool, as_int, decides, negate};
use crate::before::Before;
use crate::context::Context;
use crate::names::Names;
use crate::store::Store;
use ss_core::{Core, Expr, Link, Place, Quantifier, Step};
use ss_store_rules::{Undefined, Value};

impl<'a, B: Before> Context<'a, B> {
    // The same inside `old`.
    fn at_entry(&self) -> Context<'a, B>
        ensures { setting_of B.told result ≡ values.at_entry (setting_of B.told self.now) }
    {
        Context {
            classes: self.classes,
            store: self.store,
            entry: self.entry,
            names: self.names,
            inside_old: true,
        }
    }
}

// The value of an expression, or the first cause why it has none.
#[cycle(eval)]
pub(crate) fn eval<B: Before>(context: &Context<'_, B>, e: &Expr) -> Result<Value, Undefined>
    requires { length (view.classes context.now.classes.now) ≤ most_classes }
    ensures { result ≡ values.value_of (view.expr e.now) (setting_of B.told context.now) }
{
    match e {
        Expr::Int(_, n) => Ok(Value::Int(*n)),
        Expr::Bool(_, b) => Ok(Value::Bool(*b)),
        Expr::Null(_) => Ok(Value::Null),
        Expr::Local(_, x) => Ok(context.local(*x)),
        Expr::Iff(_, a, b) => {
            let left = as_bool(eval(context, a)?);
            Ok(Value::Bool(left == as_bool(eval(context, b)?)))
        }
        Expr::Implies(_, a, b) => {
            if !as_bool(eval(context, a)?) {
                return Ok(Value::Bool(true));
            }
            Ok(Value::Bool(as_bool(eval(context, b)?)))
        }
        Expr::Chain(place, first, links) => {
            let value = eval(context, first)?;
            eval_links(context, *place, value, links)
        }
        Expr::Negate(place, a) => negate(*place, eval(context, a)?),
        Expr::Not(_, a) => Ok(Value::Bool(!as_bool(eval(context, a)?))),
        Expr::Cast(place, t, non_null, a) => context.cast(*place, *t, *non_null, eval(context, a)?),
        Expr::Path(place, first, steps) => {
            let value = eval(context, first)?;
            eval_steps(context, *place, value, steps)
        }
        Expr::Old(_, a) => eval(&context.at_entry(), a),
        Expr::Quantified(_, quantifier, _, low, high, member) => {
            let low = as_int(eval(context, low)?);
            let high = as_int(eval(context, high)?);
            eval_members(context, *quantifier, low, high, member)
        }
        Expr::State(place, word, a) => context.word_value(*place, *word, eval(context, a)?),
        Expr::Owners(place, test, a, b) => {
            let left = eval(context, a)?;
            context.owners_value(*place, *test, left, eval(context, b)?)
        }
        Expr::Default(_, condition) => Ok(Value::Bool(context.default_holds(*condition))),
    }
}

// The value of a chain that begins with an expression of this value.
#[cycle(eval)]
fn eval_links<B: Before>(
    context: &Context<'_, B>,
    place: Place,
    first: Value,
    links: &[Link],
) -> Result<Value, Undefined>
    requires { length (view.classes context.now.classes.now) ≤ most_classes }
    ensures { IsAfter (setting_of B.told context.now) place first (map link_after links.now) result }
{
    let mut value = first;
    for link in links {
        value = eval_link(context, place, value, link)?;
    }
    Ok(value)
}

// The value of an operand of this value with one link after it.
#[cycle(eval)]
fn eval_link<B: Before>(
    context: &Context<'_, B>,
    place: Place,
    left: Value,
    link: &Link,
) -> Result<Value, Undefined>
    requires { length (view.classes context.now.classes.now) ≤ most_classes }
    ensures { IsAfter (setting_of B.told context.now) place left (link_after link.now ∷ []) result }
{
    match link {
        Link::Operation(operator, e) => {
            if decides(*operator, left) {
                return Ok(Value::Bool(as_bool(left)));
            }
            let right = eval(context, e)?;
            apply(*operator, place, left, right)
        }
        Link::Is(t) => Ok(Value::Bool(context.is_of(*t, left))),
        Link::As(t) => {
            if context.is_of(*t, left) {
                Ok(left)
            } else {
                Ok(Value::Null)
            }
        }
    }
}

// The value of a path that begins with an expression of this value.
#[cycle(eval)]
fn eval_steps<B: Before>(
    context: &Context<'_, B>,
    place: Place,
    first: Value,
    steps: &[Step],
) -> Result<Value, Undefined>
    requires { length (view.classes context.now.classes.now) ≤ most_classes }
    ensures { IsAfter (setting_of B.told context.now) place first (map step_after steps.now) result }
{
    let mut value = first;
    for step in steps {
        value = eval_step(context, place, value, step)?;
    }
    Ok(value)
}

// The value of one step from this value.
#[cycle(eval)]
fn eval_step<B: Before>(
    context: &Context<'_, B>,
    place: Place,
    from: Value,
    step: &Step,
) -> Result<Value, Undefined>
    requires { length (view.classes context.now.classes.now) ≤ most_classes }
    ensures { IsAfter (setting_of B.told context.now) place from (step_after step.now ∷ []) result }
{
    match step {
        Step::Field(f) => context.read_field(place, from, *f),
        Step::Element(e) => {
            let index = eval(context, e)?;
            context.read_element(place, from, index)
        }
        Step::Length => context.read_length(place, from),
    }
}

// What a quantifier over nothing is.
fn of_none(quantifier: Quantifier) -> bool
    ensures { result ≡ values.of_none quantifier }
{
    match quantifier {
        Quantifier::Forall => true,
        Quantifier::Exists => false,
    }
}

fn joined(quantifier: Quantifier, left: bool, right: bool) -> bool
    ensures { result ≡ values.joined quantifier left right }
{
    match quantifier {
        Quantifier::Forall => left && right,
        Quantifier::Exists => left || right,
    }
}

// The value of a quantifier from its bounds.
#[cycle(eval)]
fn eval_members<B: Before>(
    context: &Context<'_, B>,
    quantifier: Quantifier,
    low: i32,
    high: i32,
    member: &Expr,
) -> Result<Value, Undefined>
    requires { length (view.classes context.now.classes.now) ≤ most_classes }
    ensures { result ≡ values.quantified quantifier (λ i. values.value_of (view.expr member.now) (values.with_bound (setting_of B.told context.now) i)) (int_gap low high) low }
{
    let mut holds = of_none(quantifier);
    for i in low..high {
        let value = eval_member(context, i, member)?;
        holds = joined(quantifier, holds, as_bool(value));
    }
    Ok(Value::Bool(holds))
}

// The value of a member, with this number bound.
#[cycle(eval)]
fn eval_member<B: Before>(
    context: &Context<'_, B>,
    i: i32,
    member: &Expr,
) -> Result<Value, Undefined>
    requires { length (view.classes context.now.classes.now) ≤ most_classes }
    ensures { result ≡ values.value_of (view.expr member.now) (values.with_bound (setting_of B.told context.now) i) }
{
    let names = Names::Bound(context.names, Value::Int(i));
    let inner = Context {
        classes: context.classes,
        store: context.store,
        entry: context.entry,
        names: &names,
        inside_old: context.inside_old,
    };
    eval(&inner, member)
}

impl Store {
    ghost use Rattle.ss_core.specs.View.{classes};
    ghost use Rattle.ss_store_rules.specs.Values.{value_of, setting};

    /// The value of an expression over this store, with these values of the locals, or the first cause why it has none.
    /// `before` tells what `old` and `IsNew` speak of.
    pub fn eval<B: Before>(
        &self,
        c: &Core,
        before: &B,
        e: &Expr,
        locals: &[Value],
    ) -> Result<Value, Undefined>
        requires { length (classes c.now.classes) ≤ most_classes }
        ensures { result ≡ value_of (view.expr e.now) (setting (classes c.now.classes) self.now.objects (B.told before.now) locals.now) }
    {
        let names = Names::Locals(locals);
        let context = Context {
            classes: &c.classes,
            store: self,
            entry: before,
            names: &names,
            inside_old: false,
        };
        eval(&context, e)
    }

    /// The value that an expression had at the entry of the body, or the first cause why it had none. `before` tells the store
    /// at entry.
    pub fn eval_at_entry<B: Before>(
        &self,
        c: &Core,
        before: &B,
        e: &Expr,
        locals: &[Value],
    ) -> Result<Value, Undefined>
        requires { length (classes c.now.classes) ≤ most_classes }
        ensures { result ≡ value_of (view.expr e.now) (values.at_entry (setting (classes c.now.classes) self.now.objects (B.told before.now) locals.now)) }
    {
        let names = Names::Locals(locals);
        let context = Context {
            classes: &c.classes,
            store: self,
            entry: before,
            names: &names,
            inside_old: true,
        };
        eval(&context, e)
    }
}
