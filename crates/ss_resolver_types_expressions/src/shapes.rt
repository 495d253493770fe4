// What an expression is by its form, where chains and paths without parts leave no trace.

ghost use Rattle.std.specs.Prelude.{◌≡◌};
ghost use Rattle.ss_ast.specs.Expressions.{expr_tree};
ghost use Rattle.ss_resolver_types_heads.specs.Wants.{place_of, place_within, bare};
ghost use Rattle.ss_resolver_types_heads.specs.Expressions.{is_name, is_text};

use ss_ast::Expr;
use ss_core::Place;

/// The place of the first byte.
pub fn place_of(e: &Expr) -> Place
    ensures { result ≡ place_of (expr_tree e.now) }
{
    match e {
        Expr::Chain(place, first, links) => {
            if links.is_empty() {
                place_of(first)
            } else {
                *place
            }
        }
        Expr::Path(place, first, postfixes) => {
            if postfixes.is_empty() {
                place_of(first)
            } else {
                *place
            }
        }
        Expr::Iff(place, _, _)
        | Expr::Implies(place, _, _)
        | Expr::Negate(place, _)
        | Expr::Not(place, _)
        | Expr::Cast(place, _, _)
        | Expr::Number(place, _)
        | Expr::Text(place, _)
        | Expr::Truth(place, _)
        | Expr::Null(place)
        | Expr::This(place)
        | Expr::Base(place)
        | Expr::Result(place)
        | Expr::Name(place, _)
        | Expr::Paren(place, _)
        | Expr::Old(place, _)
        | Expr::New(place, _, _)
        | Expr::NewArray(place, _, _, _)
        | Expr::Quantified(place, _, _, _, _, _) => *place,
    }
}

/// The place within parentheses.
pub fn place_within(e: &Expr) -> Place
    ensures { result ≡ place_within (expr_tree e.now) }
{
    match e {
        Expr::Paren(_, inner) => place_within(inner),
        Expr::Chain(place, first, links) => {
            if links.is_empty() {
                place_within(first)
            } else {
                *place
            }
        }
        Expr::Path(place, first, postfixes) => {
            if postfixes.is_empty() {
                place_within(first)
            } else {
                *place
            }
        }
        Expr::Iff(place, _, _)
        | Expr::Implies(place, _, _)
        | Expr::Negate(place, _)
        | Expr::Not(place, _)
        | Expr::Cast(place, _, _)
        | Expr::Number(place, _)
        | Expr::Text(place, _)
        | Expr::Truth(place, _)
        | Expr::Null(place)
        | Expr::This(place)
        | Expr::Base(place)
        | Expr::Result(place)
        | Expr::Name(place, _)
        | Expr::Old(place, _)
        | Expr::New(place, _, _)
        | Expr::NewArray(place, _, _, _)
        | Expr::Quantified(place, _, _, _, _, _) => *place,
    }
}

/// Whether it is a bare name.
pub fn is_name(e: &Expr) -> bool
    ensures { result ≡ is_name (expr_tree e.now) }
{
    match e {
        Expr::Name(..) => true,
        Expr::Chain(_, first, links) => {
            if links.is_empty() {
                is_name(first)
            } else {
                false
            }
        }
        Expr::Path(_, first, postfixes) => {
            if postfixes.is_empty() {
                is_name(first)
            } else {
                false
            }
        }
        Expr::Iff(..)
        | Expr::Implies(..)
        | Expr::Negate(..)
        | Expr::Not(..)
        | Expr::Cast(..)
        | Expr::Number(..)
        | Expr::Text(..)
        | Expr::Truth(..)
        | Expr::Null(..)
        | Expr::This(..)
        | Expr::Base(..)
        | Expr::Result(..)
        | Expr::Paren(..)
        | Expr::Old(..)
        | Expr::New(..)
        | Expr::NewArray(..)
        | Expr::Quantified(..) => false,
    }
}

/// Whether it is a string, in parentheses or not.
pub fn is_text(e: &Expr) -> bool
    ensures { result ≡ is_text (bare (expr_tree e.now)) }
{
    match e {
        Expr::Text(..) => true,
        Expr::Paren(_, inner) => is_text(inner),
        Expr::Chain(_, first, links) => {
            if links.is_empty() {
                is_text(first)
            } else {
                false
            }
        }
        Expr::Path(_, first, postfixes) => {
            if postfixes.is_empty() {
                is_text(first)
            } else {
                false
            }
        }
        Expr::Iff(..)
        | Expr::Implies(..)
        | Expr::Negate(..)
        | Expr::Not(..)
        | Expr::Cast(..)
        | Expr::Number(..)
        | Expr::Truth(..)
        | Expr::Null(..)
        | Expr::This(..)
        | Expr::Base(..)
        | Expr::Result(..)
        | Expr::Name(..)
        | Expr::Old(..)
        | Expr::New(..)
        | Expr::NewArray(..)
        | Expr::Quantified(..) => false,
    }
}
