// Expressions. The place of a part is that of its first byte. Parentheses leave no trace.

use ss_core::{BodyId, ClassId, FieldId, Operator, OwnerTest, Place, Quantifier, StateWord, Ty};

/// An expression in which names are numbers. What a name stands for has its type beside it, so the static type of each part
/// is known. A call of a method without a result has none.
#[cycle(expr)]
#[derive(Drop)]
pub enum TypedExpr {
    Int(Place, i32),
    Bool(Place, bool),
    Null(Place),
    /// `this`, written or meant by the bare name of a member, with the class of the body.
    This(Place, ClassId),
    /// A parameter or a declared local: `this` is 0 where the body has it, and then come the parameters and the declared
    /// locals.
    Local(Place, usize, Ty),
    /// `result`, with its type where there is one.
    Result(Place, Option<Ty>),
    /// The name of a quantifier: how many quantifiers stand around that one.
    Bound(Place, usize),
    /// `a <==> b`
    Iff(Place, Box<TypedExpr>, Box<TypedExpr>),
    /// `a ==> b`
    Implies(Place, Box<TypedExpr>, Box<TypedExpr>),
    /// Operations of one rank, grouped to the left: the first operand, and at least one link. The place is that of each.
    Chain(Place, Box<TypedExpr>, Vec<TypedLink>),
    Negate(Place, Box<TypedExpr>),
    Not(Place, Box<TypedExpr>),
    /// `(T)e`, or `(T!)e` where null doesn't pass.
    Cast(Place, ClassId, bool, Box<TypedExpr>),
    /// A path `e.f[i].M(a)`: what it begins with, and at least one step. The place is that of each.
    Path(Place, Box<TypedExpr>, Vec<TypedStep>),
    /// `old(e)`
    Old(Place, Box<TypedExpr>),
    /// `forall{int i in (low: high); e}`, or `exists`, with the bound name.
    Quantified(Place, Quantifier, String, Box<TypedExpr>, Box<TypedExpr>, Box<TypedExpr>),
    State(Place, StateWord, Box<TypedExpr>),
    Owners(Place, OwnerTest, Box<TypedExpr>, Box<TypedExpr>),
    /// `new C(a, b)`
    New(Place, ClassId, Vec<TypedExpr>),
    /// `new E[n]`, with the class of the array
    NewArray(Place, ClassId, Box<TypedExpr>),
    /// `C.M(a, b)`: the written body, its result's type, and the arguments.
    Static(Place, BodyId, Option<Ty>, Vec<TypedExpr>),
    /// `base.M(a, b)`: the place of the method in the table of the class above, its result's type, and the arguments.
    Base(Place, usize, Option<Ty>, Vec<TypedExpr>),
}

/// What stands after an operand in a chain.
#[cycle(expr)]
#[derive(Drop)]
pub enum TypedLink {
    Operation(Operator, TypedExpr),
    Is(ClassId),
    As(ClassId),
}

/// What stands after the beginning of a path.
#[cycle(expr)]
#[derive(Drop)]
pub enum TypedStep {
    /// The field and its type.
    Field(FieldId, Ty),
    Element(TypedExpr),
    Length,
    /// A call of an instance method: its place in the table of the static class before it, its result's type, and the
    /// arguments.
    Call(usize, Option<Ty>, Vec<TypedExpr>),
}
