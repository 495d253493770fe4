// Literals and locals, chains and paths without parts set aside.

ghost use Rattle.std.specs.Prelude.{◌≡◌};
ghost use Rattle.ss_core.specs.View.{expr};
ghost use Rattle.ss_store_rules.specs.Admissible.{is_this};
ghost use Rattle.ss_store_rules.specs.NonNull.{is_null_literal};
ghost use Rattle.ss_store_rules.specs.Paths.{is_literal_true};
ghost use Rattle.ss_vcgen_types.specs.Told.{local_of};

use ss_core::Expr;

/// Whether the expression is the literal `true`.
pub fn is_literal_true(e: &Expr) -> bool
    ensures { result ≡ is_literal_true (expr e.now) }
{
    match e {
        Expr::Bool(_, value) => *value,
        Expr::Chain(_, first, links) => {
            if links.is_empty() {
                is_literal_true(first)
            } else {
                false
            }
        }
        Expr::Path(_, first, steps) => {
            if steps.is_empty() {
                is_literal_true(first)
            } else {
                false
            }
        }
        Expr::Int(..)
        | Expr::Null(..)
        | Expr::Local(..)
        | Expr::Iff(..)
        | Expr::Implies(..)
        | Expr::Negate(..)
        | Expr::Not(..)
        | Expr::Cast(..)
        | Expr::Old(..)
        | Expr::Quantified(..)
        | Expr::State(..)
        | Expr::Owners(..)
        | Expr::Default(..) => false,
    }
}

/// Whether the expression is the literal `null`.
pub fn is_null_literal(e: &Expr) -> bool
    ensures { result ≡ is_null_literal (expr e.now) }
{
    match e {
        Expr::Null(_) => true,
        Expr::Chain(_, first, links) => {
            if links.is_empty() {
                is_null_literal(first)
            } else {
                false
            }
        }
        Expr::Path(_, first, steps) => {
            if steps.is_empty() {
                is_null_literal(first)
            } else {
                false
            }
        }
        Expr::Int(..)
        | Expr::Bool(..)
        | Expr::Local(..)
        | Expr::Iff(..)
        | Expr::Implies(..)
        | Expr::Negate(..)
        | Expr::Not(..)
        | Expr::Cast(..)
        | Expr::Old(..)
        | Expr::Quantified(..)
        | Expr::State(..)
        | Expr::Owners(..)
        | Expr::Default(..) => false,
    }
}

/// The local that the expression is, if it is one.
pub fn local_of(e: &Expr) -> Option<usize>
    ensures { result ≡ local_of (expr e.now) }
{
    match e {
        Expr::Local(_, x) => Some(*x),
        Expr::Chain(_, first, links) => {
            if links.is_empty() {
                local_of(first)
            } else {
                None
            }
        }
        Expr::Path(_, first, steps) => {
            if steps.is_empty() {
                local_of(first)
            } else {
                None
            }
        }
        Expr::Int(..)
        | Expr::Bool(..)
        | Expr::Null(..)
        | Expr::Iff(..)
        | Expr::Implies(..)
        | Expr::Negate(..)
        | Expr::Not(..)
        | Expr::Cast(..)
        | Expr::Old(..)
        | Expr::Quantified(..)
        | Expr::State(..)
        | Expr::Owners(..)
        | Expr::Default(..) => None,
    }
}

/// Whether the expression is `this`, the first local.
pub fn is_this(e: &Expr) -> bool
    ensures { result ≡ is_this (expr e.now) }
{
    match local_of(e) {
        Some(x) => x == 0,
        None => false,
    }
}
