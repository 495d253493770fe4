// Questions about the state of objects.

ghost use Rattle.std.specs.Prelude.{◌≡◌, IfOk};
ghost use Rattle.ss_core.specs.View.{word_tree, owners_tree};
ghost use Rattle.ss_logic.specs.Express as spec;
ghost use Rattle.ss_terms.specs.Forms.{term_at, Forms, IsGrown};
ghost use Rattle.ss_vcgen_express.specs.Numbers.{meant_at, HasMeant, IsFormula};
ghost use Rattle.ss_vcgen_express.specs.Sayings.{related, said_so, HasRelation, HasSaying};
ghost use Rattle.ss_vcgen_express.specs.Contexts.{context_at, HasContext};

use crate::context::Context;
use crate::meant::Meant;
use crate::sayings::{Relation, Saying};
use crate::truths::{over, over_two};
use ss_core::{OwnerTest, StateWord};
use ss_terms::{Bank, FormulaId};
use std::alloc::{AllocError, Global};

// What a question about one object asks for.
fn asked(context: &Context<'_>, word: StateWord) -> Saying
    ensures in_bank { (b : Forms) → HasContext b context.entry.now → HasSaying b result }
    ensures says { (b : Forms) → said_so (term_at b) result ≡ spec.word_said (context_at b context.entry.now) (word_tree word) }
{
    match word {
        StateWord::Consistent => Saying::Consistent(context.state()),
        StateWord::Committed => Saying::Committed(context.state()),
        StateWord::New => Saying::New(context.entry),
        StateWord::Level(class) => Saying::AtLevel(context.state(), class.0),
        StateWord::Packed(class) => Saying::Packed(context.state(), class.0),
        StateWord::Unowned => Saying::Unowned(context.state()),
    }
}

/// That the answer is yes for one object.
pub fn word_said(
    alloc: Global,
    bank: &mut Bank,
    context: &Context<'_>,
    word: StateWord,
    m: &Meant,
) -> Result<FormulaId, AllocError>
    requires context { HasContext bank.old context.now }
    requires meant { HasMeant bank.old m.now }
    ensures at { IfOk result (λ f. IsFormula bank.new f (λ b. spec.over (meant_at b m.now) (spec.word_said (context_at b context.entry.now) (word_tree word)))) }
    ensures grown { IsGrown bank.old bank.new }
{
    let saying = asked(context, word);
    over(alloc, bank, m, saying)
}

// What a question about two objects asks for.
fn asked_of_two(context: &Context<'_>, test: OwnerTest) -> Relation
    ensures in_bank { (b : Forms) → HasContext b context.entry.now → HasRelation b result }
    ensures says { (b : Forms) → related (term_at b) result ≡ spec.owners_said (context_at b context.entry.now) (owners_tree test) }
{
    match test {
        OwnerTest::Same => Relation::SameOwner(context.state()),
        OwnerTest::Is(class) => Relation::OwnedAt(context.state(), class.0),
    }
}

/// That the answer is yes for two objects.
pub fn owners_said(
    alloc: Global,
    bank: &mut Bank,
    context: &Context<'_>,
    test: OwnerTest,
    x: &Meant,
    y: &Meant,
) -> Result<FormulaId, AllocError>
    requires context { HasContext bank.old context.now }
    requires first { HasMeant bank.old x.now }
    requires second { HasMeant bank.old y.now }
    ensures at { IfOk result (λ f. IsFormula bank.new f (λ b. spec.over_two (meant_at b x.now) (meant_at b y.now) (spec.owners_said (context_at b context.entry.now) (owners_tree test)))) }
    ensures grown { IsGrown bank.old bank.new }
{
    let relation = asked_of_two(context, test);
    over_two(alloc, bank, x, y, relation)
}
