// Expressions. The place of a part is that of its first byte.

use ss_core::{Operator, Place, Quantifier};

/// A name where it is written.
#[derive(Drop)]
pub struct Name {
    pub text: String,
    pub place: Place,
}

/// What a type names, without `[]` and `!`.
#[derive(Drop)]
pub enum TypeName {
    Int,
    Bool,
    Object,
    Class(String),
}

/// A type as it is written.
#[derive(Drop)]
pub struct TypeRef {
    pub place: Place,
    pub name: TypeName,
    /// `[]` is written after the name.
    pub is_array: bool,
    /// `!` is written at the end.
    pub non_null: bool,
}

/// An expression.
#[cycle(expr)]
#[derive(Drop)]
pub enum Expr {
    /// `a <==> b`
    Iff(Place, Box<Expr>, Box<Expr>),
    /// `a ==> b`
    Implies(Place, Box<Expr>, Box<Expr>),
    /// Operations of one rank, grouped to the left: `a + b - c` has the first operand `a` and the links `+ b` and
    /// `- c`. There is at least one link.
    Chain(Place, Box<Expr>, Vec<Link>),
    Negate(Place, Box<Expr>),
    Not(Place, Box<Expr>),
    /// `(T)e`
    Cast(Place, TypeRef, Box<Expr>),
    /// A path `e.f[i](a, b)`: what it begins with, and at least one postfix.
    Path(Place, Box<Expr>, Vec<Postfix>),
    /// A number, or a `-` and 2147483648 as one literal.
    Number(Place, i64),
    /// A string, by the bytes that it stands for.
    Text(Place, Vec<u8>),
    Truth(Place, bool),
    Null(Place),
    This(Place),
    Base(Place),
    Result(Place),
    Name(Place, String),
    /// `(e)`
    Paren(Place, Box<Expr>),
    /// `old(e)`
    Old(Place, Box<Expr>),
    /// `new C(a, b)`
    New(Place, Name, Vec<Expr>),
    /// `new E[n]`, with the place and the name of `E`
    NewArray(Place, Place, TypeName, Box<Expr>),
    /// `forall{int i in (low: high); body}`
    Quantified(Place, Quantifier, Name, Box<Expr>, Box<Expr>, Box<Expr>),
}

/// What stands after an operand in a chain.
#[cycle(expr)]
#[derive(Drop)]
pub enum Link {
    Operation(Operator, Expr),
    Is(TypeRef),
    As(TypeRef),
}

/// What stands after the beginning of a path.
#[cycle(expr)]
#[derive(Drop)]
pub enum Postfix {
    Member(Name),
    Element(Expr),
    Call(Vec<Expr>),
}
