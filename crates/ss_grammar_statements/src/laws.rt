// What holds of every list of tokens.

ghost use Rattle.std.specs.Prelude.{◌≡◌, ◌⊎◌, ℕ, suc, List, true, false};
ghost use Rattle.ss_core.specs.declared.names.Place.{Place};
ghost use Rattle.ss_ast.specs.Expressions.{ExprTree};
ghost use Rattle.ss_ast.specs.Statements.{BlockTree, ForInitTree, StmtTree, IfElseOf};
ghost use Rattle.ss_grammar.specs.Language.{Finds};
ghost use Rattle.ss_grammar_expressions.specs.Heads.{Piece};
ghost use Rattle.ss_grammar_expressions.specs.Ends.{TakesNoEnd};
ghost use Rattle.ss_grammar_statements.specs.Grammar.{ForInit, TheGoverned, NestedAt, open_if, Block};
ghost use Rattle.ss_grammar_statements.specs.Written.{Declaration, Simply, Leveled, Begins, room, declares_names};
ghost use Rattle.ss_grammar_statements.specs.Parser.{block};

/// A list of tokens is one block at most, however deep it may be nested.
pub fn one_block()
    ensures { (d e : ℕ) (ts : List Piece) (a b : BlockTree) → Block d ts a → Block e ts b → a ≡ b }
{}

/// Reading finds the longest block, or the first token that cannot go on, or the first one that opens a level too many.
pub fn reading_is_the_grammar()
    ensures { (d : ℕ) (ts : List Piece) → Finds Block d ts (block d ts) }
{}

/// A block where so many levels may be opened is one where more may be.
pub fn more_levels_have_it_too()
    ensures { (d : ℕ) (ts : List Piece) (b : BlockTree) → Block d ts b → Block (suc d) ts b }
{}

/// What a `for` begins with, and what stands before the `;` of a statement, is `Type Decls` or `Simple`.
pub fn beginnings_are_two_productions()
    ensures either { (d : ℕ) (ts : List Piece) (i : ForInitTree) → Leveled ForInit d ts i → Leveled Declaration d ts i ⊎ Leveled Simply d ts i }
    ensures declaration { (d : ℕ) (ts : List Piece) (i : ForInitTree) → Leveled Declaration d ts i → Leveled ForInit d ts i }
    ensures simple { (d : ℕ) (ts : List Piece) (i : ForInitTree) → Leveled Simply d ts i → Leveled ForInit d ts i }
{}

/// It is a declaration exactly where its tokens begin with a type and a name.
pub fn a_type_and_a_name_declare()
    ensures there { (d : ℕ) (ts : List Piece) (i : ForInitTree) → Leveled ForInit d ts i → Begins (room d) ts → declares_names i ≡ true }
    ensures only { (d : ℕ) (ts : List Piece) (i : ForInitTree) → Leveled ForInit d ts i → declares_names i ≡ true → Begins (room d) ts }
{}

/// An `else` belongs to the nearest `if`: what stands before it never ends with an `if` that has none.
pub fn the_nearest_if_has_the_else()
    ensures { (d : ℕ) (ts : List Piece) (p : Place) (e : ExprTree) (a b : StmtTree) → NestedAt d TheGoverned ts (IfElseOf p e a b) → open_if a ≡ false }
{}

/// No block takes the end of the text.
pub fn no_block_takes_the_end()
    ensures { (d : ℕ) (ts : List Piece) (b : BlockTree) → Block d ts b → TakesNoEnd ts }
{}
