// The name that an expression is, chains and paths without parts set aside.

ghost use Rattle.std.specs.Prelude.{◌≡◌};
ghost use Rattle.ss_ast.specs.Expressions.{expr_tree};
ghost use Rattle.ss_resolver_names_rules.specs.Bare.{bare_name};
ghost use Rattle.ss_resolver_scoping.specs.Views.{text_of};

use ss_ast::Expr;

/// The name that an expression is, where it is one.
pub fn bare_name(e: &Expr) -> Option<&String>
    ensures { text_of result ≡ bare_name (expr_tree e.now) }
{
    match e {
        Expr::Name(_, name) => Some(name),
        Expr::Chain(_, first, links) => {
            if links.is_empty() {
                bare_name(first)
            } else {
                None
            }
        }
        Expr::Path(_, first, postfixes) => {
            if postfixes.is_empty() {
                bare_name(first)
            } else {
                None
            }
        }
        Expr::Iff(..)
        | Expr::Implies(..)
        | Expr::Negate(..)
        | Expr::Not(..)
        | Expr::Cast(..)
        | Expr::Number(..)
        | Expr::Text(..)
        | Expr::Truth(..)
        | Expr::Null(..)
        | Expr::This(..)
        | Expr::Base(..)
        | Expr::Result(..)
        | Expr::Paren(..)
        | Expr::Old(..)
        | Expr::New(..)
        | Expr::NewArray(..)
        | Expr::Quantified(..) => None,
    }
}
