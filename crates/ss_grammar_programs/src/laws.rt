// What holds of every list of tokens.

ghost use Rattle.std.specs.Prelude.{◌≡◌, ℕ, List};
ghost use Rattle.ss_ast.specs.Programs.{MemberKindTree, ModifiedTree, ProgramTree};
ghost use Rattle.ss_grammar.specs.Language.{Finds};
ghost use Rattle.ss_grammar_expressions.specs.Heads.{Piece};
ghost use Rattle.ss_grammar_programs.specs.Grammar.{MemberKind, Modified, Program};
ghost use Rattle.ss_grammar_programs.specs.Written.{Plainly};
ghost use Rattle.ss_grammar_programs.specs.Terms.{Term};
ghost use Rattle.ss_grammar_programs.specs.Parser.{program};

/// A list of tokens is one program at most, however deep it may be nested.
pub fn one_program()
    ensures { (d e : ℕ) (ts : List Piece) (a b : ProgramTree) → Program d ts a → Program e ts b → a ≡ b }
{}

/// Reading finds the program, or the first token that cannot go on, or the first one that opens a level too many.
pub fn reading_is_the_grammar()
    ensures { (d : ℕ) (ts : List Piece) → Finds Program d ts (program d ts) }
{}

/// What a member is, which is told apart by its first tokens, is fields, an invariant, a method or a constructor, as each
/// is written.
pub fn a_member_is_one_of_five()
    ensures { (d : ℕ) (ts : List Piece) (k : MemberKindTree) → MemberKind d ts k → Plainly d ts k }
{}

/// A term of a `modifies` clause, whose end is told by its tokens, is `Post "." "*"`, `Post "[" "*" "]"` or `Post`.
pub fn a_modified_term_is_one_of_three()
    ensures { (d : ℕ) (ts : List Piece) (m : ModifiedTree) → Modified d ts m → Term d ts m }
{}

/// Each of these three is such a term.
pub fn each_term_is_modified()
    ensures { (d : ℕ) (ts : List Piece) (m : ModifiedTree) → Term d ts m → Modified d ts m }
{}

/// Each of these five is such a member.
pub fn each_of_five_is_a_member()
    ensures { (d : ℕ) (ts : List Piece) (k : MemberKindTree) → Plainly d ts k → MemberKind d ts k }
{}
