// What an expression is by its form, where chains and paths without parts leave no trace.

ghost use Rattle.std.specs.Prelude.{◌≡◌, ◌++◌, ◌∷◌, [], IfSome, IfNone, map, option_map, false};
ghost use Rattle.ss_ast.specs.Expressions.{CallOf, grouped, arguments, expr_tree};
ghost use Rattle.ss_ast.specs.Parts.{postfix_after};
ghost use Rattle.ss_resolver_statements.specs.Forms.{is_call, text_of};

use ss_ast::{Expr, Postfix};
use ss_core::Place;

/// A call as it is written: its place, what the path before the arguments begins with, what stands between, and the arguments.
#[derive(Clone, Copy)]
pub(crate) struct WrittenCall<'p> {
    pub place: Place,
    pub first: &'p Expr,
    pub front: &'p [Postfix],
    pub written: &'p [Expr],
}

// The call of which this is the last postfix.
fn call_by_last<'p>(
    place: Place,
    first: &'p Expr,
    front: &'p [Postfix],
    last: &'p Postfix,
) -> Option<WrittenCall<'p>>
    ensures some { IfSome result (λ c. postfix_after last.now place (grouped place (expr_tree first.now) (map postfix_after front.now))
        ≡ CallOf c.place (grouped c.place (expr_tree c.first.now) (map postfix_after c.front.now)) (arguments (map expr_tree c.written.now))) }
    ensures none { IfNone result (is_call (postfix_after last.now place (grouped place (expr_tree first.now) (map postfix_after front.now))) ≡ false) }
{
    match last {
        Postfix::Call(written) => Some(WrittenCall {
            place,
            first,
            front,
            written,
        }),
        Postfix::Member(_) | Postfix::Element(_) => None,
    }
}

// The last postfix, and those before it.
fn split_last(postfixes: &[Postfix]) -> Option<(&Postfix, &[Postfix])>
    ensures some { IfSome result (λ x. postfixes.now ≡ x.1.now ++ x.0.now ∷ []) }
    ensures none { IfNone result (postfixes.now ≡ []) }
{
    match postfixes {
        [front @ .., last] => Some((last, front)),
        [] => None,
    }
}

/// The call that an expression is.
pub(crate) fn call_in(e: &Expr) -> Option<WrittenCall<'_>>
    ensures some { IfSome result (λ c. expr_tree e.now ≡ CallOf c.place (grouped c.place (expr_tree c.first.now) (map postfix_after c.front.now)) (arguments (map expr_tree c.written.now))) }
    ensures none { IfNone result (is_call (expr_tree e.now) ≡ false) }
{
    match e {
        Expr::Chain(_, first, links) => {
            if links.is_empty() {
                call_in(first)
            } else {
                None
            }
        }
        Expr::Path(place, first, postfixes) => match split_last(postfixes) {
            Some((last, front)) => call_by_last(*place, first, front, last),
            None => call_in(first),
        },
        Expr::Iff(..)
        | Expr::Implies(..)
        | Expr::Negate(..)
        | Expr::Not(..)
        | Expr::Cast(..)
        | Expr::Number(..)
        | Expr::Text(..)
        | Expr::Truth(..)
        | Expr::Null(..)
        | Expr::This(..)
        | Expr::Base(..)
        | Expr::Result(..)
        | Expr::Name(..)
        | Expr::Paren(..)
        | Expr::Old(..)
        | Expr::New(..)
        | Expr::NewArray(..)
        | Expr::Quantified(..) => None,
    }
}

/// The bytes of the string that an expression is, in parentheses or not.
pub(crate) fn text_in(e: &Expr) -> Option<&[u8]>
    ensures { option_map (λ t. t.now) result ≡ text_of (expr_tree e.now) }
{
    match e {
        Expr::Text(_, text) => Some(text.as_slice()),
        Expr::Paren(_, inner) => text_in(inner),
        Expr::Chain(_, first, links) => {
            if links.is_empty() {
                text_in(first)
            } else {
                None
            }
        }
        Expr::Path(_, first, postfixes) => {
            if postfixes.is_empty() {
                text_in(first)
            } else {
                None
            }
        }
        Expr::Iff(..)
        | Expr::Implies(..)
        | Expr::Negate(..)
        | Expr::Not(..)
        | Expr::Cast(..)
        | Expr::Number(..)
        | Expr::Truth(..)
        | Expr::Null(..)
        | Expr::This(..)
        | Expr::Base(..)
        | Expr::Result(..)
        | Expr::Name(..)
        | Expr::Old(..)
        | Expr::New(..)
        | Expr::NewArray(..)
        | Expr::Quantified(..) => None,
    }
}
