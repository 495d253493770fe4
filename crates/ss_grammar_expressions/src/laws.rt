// What holds of every list of tokens.

ghost use Rattle.std.specs.Prelude.{◌≡◌, ◌⊎◌, ℕ, List};
ghost use Rattle.ss_core.specs.declared.names.Place.{Place};
ghost use Rattle.ss_ast.specs.Expressions.{ExprTree};
ghost use Rattle.ss_grammar.specs.Language.{Finds};
ghost use Rattle.ss_grammar_expressions.specs.Heads.{Piece};
ghost use Rattle.ss_grammar_expressions.specs.Grammar.{AtLevel, Paren, OtherParen, Expression, TheExpression, TheUnary};
ghost use Rattle.ss_grammar_expressions.specs.Parser.{reading};
ghost use Rattle.ss_grammar_expressions.specs.Ends.{TakesNoEnd};
ghost use Rattle.ss_grammar_expressions.specs.Written.{Casted, PlainAt};

/// A list of tokens is one expression at most, however deep it may be nested.
pub fn one_expression()
    ensures { (d e : ℕ) (ts : List Piece) (a b : ExprTree) → Expression d ts a → Expression e ts b → a ≡ b }
{}

/// Reading finds the longest expression, or the first token that cannot go on, or the first one that opens a level
/// too many.
pub fn reading_is_the_grammar()
    ensures { (d : ℕ) (ts : List Piece) → Finds Expression d ts (reading d TheExpression ts) }
{}

/// No expression takes the end of the text.
pub fn no_expression_takes_the_end()
    ensures { (d : ℕ) (ts : List Piece) (e : ExprTree) → Expression d ts e → TakesNoEnd ts }
{}

/// A cast, `Type ")" Unary`, is read as what stands after a `(`.
pub fn a_cast_stands_after_a_parenthesis()
    ensures { (d : ℕ) (p : Place) (ts : List Piece) (e : ExprTree) → Casted (AtLevel d) p ts e → Paren (AtLevel d) p ts e }
{}

/// What stands after a `(`, which is told apart by its first tokens, is `Type ")" Unary` or `Expr ")"` with its postfixes.
pub fn after_a_parenthesis_are_two_productions()
    ensures { (d : ℕ) (p : Place) (ts : List Piece) (e : ExprTree) → Paren (AtLevel d) p ts e → Casted (AtLevel d) p ts e ⊎ OtherParen (AtLevel d) p ts e }
{}

/// A unary expression, which is told apart by its first tokens, is `( "-" | "!" ) Unary`, a cast, or a path.
pub fn a_unary_is_one_of_three()
    ensures { (d : ℕ) (ts : List Piece) (e : ExprTree) → AtLevel d TheUnary ts e → PlainAt d ts e }
{}
