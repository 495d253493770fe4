// What is asked for in good stores.

ghost use Rattle.std.specs.Prelude.{◌≡◌, ◌==◌, ◌&&◌, [], ◌∷◌, ◌++◌, map, flat_map, OnOk};
ghost use Rattle.ss_logic.specs.Equal.{same_term};
ghost use Rattle.ss_logic.specs.declared.GoodRule.TheVariants as good_rule;
ghost use Rattle.ss_logic.specs.Asked as spec;
ghost use Rattle.ss_logic.specs.Asked.{OfGood};
ghost use Rattle.ss_terms.specs.Forms.{term_at, terms_at, HasTerm, HasTerms};
ghost use Rattle.ss_rules_asked.specs.Numbers.{arguments_at, asked_in, HasArguments, HasAsked, Asks};
ghost use Rattle.ss_rules_asked.specs.Readings.{reading_at, HasReading};
ghost use Rattle.ss_rules_asked_first.specs.Good as words;
ghost use Rattle.ss_rules_asked_first.specs.Good.{owners_at, nearby_at, HasOwners, HasNear};

use crate::near::AskingContext;
use crate::owners::Owner;
use crate::parts::{ask_short, ask_with_each, ask_with_owners, is_kind, others_of};
use ss_logic::GoodRule;
use ss_rules_asked::{Argument, Asked, Reading, Rule};
use ss_terms::{Bank, TermId};
use std::alloc::AllocError;

/// A rule that speaks of a good store.
#[derive(Clone, Copy)]
pub(crate) enum Sentence {
    /// The rule on invariants.
    Invariants,
    /// A rule on good stores.
    Good(GoodRule),
}

// ---- the rules at one read, which takes these others

// Of what is committed: its level.
#[tactic(auto, using(ss_rules_asked::proofs::Asking::nothing_asked))]
fn ask_of_full(
    context: &AskingContext<'_>,
    asked: &mut Vec<Asked>,
    s: TermId,
    kind: u32,
    others: &[Argument],
) -> Result<(), AllocError>
    requires asked { HasAsked context.now.bank.now asked.old.items }
    requires store { HasTerm context.now.bank.now s }
    requires others { HasArguments context.now.bank.now others.now }
    ensures { OnOk result (Asks context.now.bank.now asked.new.items (asked_in context.now.bank.now asked.old.items ++ map (OfGood good_rule.Full (term_at context.now.bank.now s)) (spec.good_arguments (arguments_at context.now.bank.now context.now.near.now.classes.items) (owners_at context.now.bank.now context.now.near.now.owners.items) good_rule.Full kind (arguments_at context.now.bank.now others.now)))) }
{
    if is_kind(kind, 6) {
        ask_short(context, asked, Rule::Good(GoodRule::Full, s), &[], others)
    } else {
        Ok(())
    }
}

// Of an owner: each pair, and that of a group.
fn ask_of_each_owned(
    context: &AskingContext<'_>,
    asked: &mut Vec<Asked>,
    s: TermId,
    others: &[Argument],
) -> Result<(), AllocError>
    requires near { HasOwners context.now.bank.now context.now.near.now.owners.items }
    requires asked { HasAsked context.now.bank.now asked.old.items }
    requires store { HasTerm context.now.bank.now s }
    requires others { HasArguments context.now.bank.now others.now }
    ensures { OnOk result (Asks context.now.bank.now asked.new.items (asked_in context.now.bank.now asked.old.items ++ map (OfGood good_rule.Owned (term_at context.now.bank.now s)) (words.owned_parts (owners_at context.now.bank.now context.now.near.now.owners.items) (arguments_at context.now.bank.now others.now)))) }
{
    let rule = Rule::Good(GoodRule::Owned, s);
    ask_with_owners(
        context,
        asked,
        rule,
        &[Argument::Number(0)],
        others,
        &context.near.owners,
    )?;
    ask_short(context, asked, rule, &[Argument::Number(1)], others)
}

#[tactic(auto, using(ss_rules_asked::proofs::Asking::nothing_asked))]
fn ask_of_owned(
    context: &AskingContext<'_>,
    asked: &mut Vec<Asked>,
    s: TermId,
    kind: u32,
    others: &[Argument],
) -> Result<(), AllocError>
    requires near { HasOwners context.now.bank.now context.now.near.now.owners.items }
    requires asked { HasAsked context.now.bank.now asked.old.items }
    requires store { HasTerm context.now.bank.now s }
    requires others { HasArguments context.now.bank.now others.now }
    ensures { OnOk result (Asks context.now.bank.now asked.new.items (asked_in context.now.bank.now asked.old.items ++ map (OfGood good_rule.Owned (term_at context.now.bank.now s)) (spec.good_arguments (arguments_at context.now.bank.now context.now.near.now.classes.items) (owners_at context.now.bank.now context.now.near.now.owners.items) good_rule.Owned kind (arguments_at context.now.bank.now others.now)))) }
{
    if is_kind(kind, 3) {
        ask_of_each_owned(context, asked, s, others)
    } else {
        Ok(())
    }
}

// Of a field: what its mark says.
#[tactic(auto, using(ss_rules_asked::proofs::Asking::nothing_asked))]
fn ask_of_marks(
    context: &AskingContext<'_>,
    asked: &mut Vec<Asked>,
    s: TermId,
    kind: u32,
    others: &[Argument],
) -> Result<(), AllocError>
    requires asked { HasAsked context.now.bank.now asked.old.items }
    requires store { HasTerm context.now.bank.now s }
    requires others { HasArguments context.now.bank.now others.now }
    ensures { OnOk result (Asks context.now.bank.now asked.new.items (asked_in context.now.bank.now asked.old.items ++ map (OfGood good_rule.Marks (term_at context.now.bank.now s)) (spec.good_arguments (arguments_at context.now.bank.now context.now.near.now.classes.items) (owners_at context.now.bank.now context.now.near.now.owners.items) good_rule.Marks kind (arguments_at context.now.bank.now others.now)))) }
{
    if is_kind(kind, 0) {
        ask_short(context, asked, Rule::Good(GoodRule::Marks, s), &[], others)
    } else {
        Ok(())
    }
}

// Of a level: its type, and each class.
fn ask_of_level(
    context: &AskingContext<'_>,
    asked: &mut Vec<Asked>,
    s: TermId,
    kind: u32,
    others: &[Argument],
) -> Result<(), AllocError>
    requires near { HasArguments context.now.bank.now context.now.near.now.classes.items }
    requires asked { HasAsked context.now.bank.now asked.old.items }
    requires store { HasTerm context.now.bank.now s }
    requires others { HasArguments context.now.bank.now others.now }
    ensures { OnOk result (Asks context.now.bank.now asked.new.items (asked_in context.now.bank.now asked.old.items ++ map (OfGood good_rule.Typed (term_at context.now.bank.now s)) (words.level_parts (arguments_at context.now.bank.now context.now.near.now.classes.items) kind (arguments_at context.now.bank.now others.now)))) }
{
    let rule = Rule::Good(GoodRule::Typed, s);
    let first = [Argument::Number(kind)];
    ask_short(context, asked, rule, &first, others)?;
    ask_with_each(context, asked, rule, &first, others, &context.near.classes)
}

// Of an owner: that what each pair names is allocated.
fn ask_of_owners(
    context: &AskingContext<'_>,
    asked: &mut Vec<Asked>,
    s: TermId,
    kind: u32,
    others: &[Argument],
) -> Result<(), AllocError>
    requires near { HasOwners context.now.bank.now context.now.near.now.owners.items }
    requires asked { HasAsked context.now.bank.now asked.old.items }
    requires store { HasTerm context.now.bank.now s }
    requires others { HasArguments context.now.bank.now others.now }
    ensures { OnOk result (Asks context.now.bank.now asked.new.items (asked_in context.now.bank.now asked.old.items ++ map (OfGood good_rule.Typed (term_at context.now.bank.now s)) (words.owner_parts (owners_at context.now.bank.now context.now.near.now.owners.items) kind (arguments_at context.now.bank.now others.now)))) }
{
    ask_with_owners(
        context,
        asked,
        Rule::Good(GoodRule::Typed, s),
        &[Argument::Number(kind)],
        others,
        &context.near.owners,
    )
}

// Of each read: its type.
fn ask_of_typed(
    context: &AskingContext<'_>,
    asked: &mut Vec<Asked>,
    s: TermId,
    kind: u32,
    others: &[Argument],
) -> Result<(), AllocError>
    requires near { HasNear context.now.bank.now context.now.near.now }
    requires asked { HasAsked context.now.bank.now asked.old.items }
    requires store { HasTerm context.now.bank.now s }
    requires others { HasArguments context.now.bank.now others.now }
    ensures { OnOk result (Asks context.now.bank.now asked.new.items (asked_in context.now.bank.now asked.old.items ++ map (OfGood good_rule.Typed (term_at context.now.bank.now s)) (spec.good_arguments (arguments_at context.now.bank.now context.now.near.now.classes.items) (owners_at context.now.bank.now context.now.near.now.owners.items) good_rule.Typed kind (arguments_at context.now.bank.now others.now)))) }
{
    if is_kind(kind, 2) {
        return ask_of_level(context, asked, s, kind, others);
    }
    if is_kind(kind, 3) {
        return ask_of_owners(context, asked, s, kind, others);
    }
    ask_short(
        context,
        asked,
        Rule::Good(GoodRule::Typed, s),
        &[Argument::Number(kind)],
        others,
    )
}

// Of each read: that what is read is ready.
fn ask_of_ready(
    context: &AskingContext<'_>,
    asked: &mut Vec<Asked>,
    s: TermId,
    kind: u32,
    others: &[Argument],
) -> Result<(), AllocError>
    requires asked { HasAsked context.now.bank.now asked.old.items }
    requires store { HasTerm context.now.bank.now s }
    requires others { HasArguments context.now.bank.now others.now }
    ensures { OnOk result (Asks context.now.bank.now asked.new.items (asked_in context.now.bank.now asked.old.items ++ map (OfGood good_rule.Ready (term_at context.now.bank.now s)) (spec.good_arguments (arguments_at context.now.bank.now context.now.near.now.classes.items) (owners_at context.now.bank.now context.now.near.now.owners.items) good_rule.Ready kind (arguments_at context.now.bank.now others.now)))) }
{
    ask_short(
        context,
        asked,
        Rule::Good(GoodRule::Ready, s),
        &[Argument::Number(kind)],
        others,
    )
}

// By any rule on good stores.
fn ask_by_rule(
    context: &AskingContext<'_>,
    asked: &mut Vec<Asked>,
    name: GoodRule,
    s: TermId,
    kind: u32,
    others: &[Argument],
) -> Result<(), AllocError>
    requires near { HasNear context.now.bank.now context.now.near.now }
    requires asked { HasAsked context.now.bank.now asked.old.items }
    requires store { HasTerm context.now.bank.now s }
    requires others { HasArguments context.now.bank.now others.now }
    ensures { OnOk result (Asks context.now.bank.now asked.new.items (asked_in context.now.bank.now asked.old.items ++ map (OfGood name (term_at context.now.bank.now s)) (spec.good_arguments (arguments_at context.now.bank.now context.now.near.now.classes.items) (owners_at context.now.bank.now context.now.near.now.owners.items) name kind (arguments_at context.now.bank.now others.now)))) }
{
    match name {
        GoodRule::Full => ask_of_full(context, asked, s, kind, others),
        GoodRule::Owned => ask_of_owned(context, asked, s, kind, others),
        GoodRule::Marks => ask_of_marks(context, asked, s, kind, others),
        GoodRule::Typed => ask_of_typed(context, asked, s, kind, others),
        GoodRule::Ready => ask_of_ready(context, asked, s, kind, others),
    }
}

// By a rule on good stores, at a read in the store.
#[tactic(auto, using(ss_rules_asked::proofs::Asking::nothing_asked))]
fn ask_of_good(
    context: &AskingContext<'_>,
    asked: &mut Vec<Asked>,
    name: GoodRule,
    s: TermId,
    r: Reading,
) -> Result<(), AllocError>
    requires near { HasNear context.now.bank.now context.now.near.now }
    requires asked { HasAsked context.now.bank.now asked.old.items }
    requires store { HasTerm context.now.bank.now s }
    requires read { HasReading context.now.bank.now r }
    ensures { OnOk result (Asks context.now.bank.now asked.new.items (asked_in context.now.bank.now asked.old.items ++ words.at_read (nearby_at context.now.bank.now context.now.near.now) (Sentence.Good name) (term_at context.now.bank.now s) (reading_at context.now.bank.now r))) }
{
    if !context.bank.is_same_term(s, r.store) {
        return Ok(());
    }
    let others = others_of(context.alloc, context.bank, r.others)?;
    ask_by_rule(context, asked, name, s, r.kind, &others)
}

// Whether a level is read in the store.
fn is_level_in(bank: &Bank, s: TermId, r: Reading) -> bool
    requires store { HasTerm bank.now s }
    requires read { HasReading bank.now r }
    ensures { result ≡ (r.kind == 2 && same_term (term_at bank.now s) (term_at bank.now r.store)) }
{
    is_kind(r.kind, 2) && bank.is_same_term(s, r.store)
}

// By the rule on invariants, at a level that is read in the store.
#[tactic(auto, using(ss_rules_asked::proofs::Asking::nothing_asked))]
fn ask_of_invariants(
    context: &AskingContext<'_>,
    asked: &mut Vec<Asked>,
    s: TermId,
    r: Reading,
) -> Result<(), AllocError>
    requires near { HasNear context.now.bank.now context.now.near.now }
    requires asked { HasAsked context.now.bank.now asked.old.items }
    requires store { HasTerm context.now.bank.now s }
    requires read { HasReading context.now.bank.now r }
    ensures { OnOk result (Asks context.now.bank.now asked.new.items (asked_in context.now.bank.now asked.old.items ++ words.at_read (nearby_at context.now.bank.now context.now.near.now) Sentence.Invariants (term_at context.now.bank.now s) (reading_at context.now.bank.now r))) }
{
    if !is_level_in(context.bank, s, r) {
        return Ok(());
    }
    let others = others_of(context.alloc, context.bank, r.others)?;
    ask_with_each(
        context,
        asked,
        Rule::Invariants(s),
        &[],
        &others,
        &context.near.invariants,
    )
}

// By one sentence, at one read.
fn ask_at_read(
    context: &AskingContext<'_>,
    asked: &mut Vec<Asked>,
    sentence: Sentence,
    s: TermId,
    r: Reading,
) -> Result<(), AllocError>
    requires near { HasNear context.now.bank.now context.now.near.now }
    requires asked { HasAsked context.now.bank.now asked.old.items }
    requires store { HasTerm context.now.bank.now s }
    requires read { HasReading context.now.bank.now r }
    ensures { OnOk result (Asks context.now.bank.now asked.new.items (asked_in context.now.bank.now asked.old.items ++ words.at_read (nearby_at context.now.bank.now context.now.near.now) sentence (term_at context.now.bank.now s) (reading_at context.now.bank.now r))) }
{
    match sentence {
        Sentence::Invariants => ask_of_invariants(context, asked, s, r),
        Sentence::Good(name) => ask_of_good(context, asked, name, s, r),
    }
}

// At each read.
fn ask_at_reads(
    context: &AskingContext<'_>,
    asked: &mut Vec<Asked>,
    sentence: Sentence,
    s: TermId,
) -> Result<(), AllocError>
    requires near { HasNear context.now.bank.now context.now.near.now }
    requires asked { HasAsked context.now.bank.now asked.old.items }
    requires store { HasTerm context.now.bank.now s }
    ensures { OnOk result (Asks context.now.bank.now asked.new.items (asked_in context.now.bank.now asked.old.items ++ flat_map (words.at_read (nearby_at context.now.bank.now context.now.near.now) sentence (term_at context.now.bank.now s)) (nearby_at context.now.bank.now context.now.near.now).reads)) }
{
    for r in &context.near.reads {
        ask_at_read(context, asked, sentence, s, *r)?;
    }
    Ok(())
}

// ---- lengths

// At one length.
fn ask_of_length(
    context: &AskingContext<'_>,
    asked: &mut Vec<Asked>,
    s: TermId,
    array: TermId,
) -> Result<(), AllocError>
    requires asked { HasAsked context.now.bank.now asked.old.items }
    requires store { HasTerm context.now.bank.now s }
    requires array { HasTerm context.now.bank.now array }
    ensures { OnOk result (Asks context.now.bank.now asked.new.items (asked_in context.now.bank.now asked.old.items ++ OfGood good_rule.Typed (term_at context.now.bank.now s) (spec.numeral 8 ∷ term_at context.now.bank.now array ∷ []) ∷ [])) }
{
    ask_short(
        context,
        asked,
        Rule::Good(GoodRule::Typed, s),
        &[Argument::Number(8)],
        &[Argument::Term(array)],
    )
}

// At each length: that it is a number of an array.
fn ask_at_lengths(
    context: &AskingContext<'_>,
    asked: &mut Vec<Asked>,
    s: TermId,
) -> Result<(), AllocError>
    requires near { HasTerms context.now.bank.now context.now.near.now.arrays.items }
    requires asked { HasAsked context.now.bank.now asked.old.items }
    requires store { HasTerm context.now.bank.now s }
    ensures { OnOk result (Asks context.now.bank.now asked.new.items (asked_in context.now.bank.now asked.old.items ++ words.at_lengths good_rule.Typed (term_at context.now.bank.now s) (terms_at context.now.bank.now context.now.near.now.arrays.items))) }
{
    for array in &context.near.arrays {
        ask_of_length(context, asked, s, *array)?;
    }
    Ok(())
}

// By the rule that speaks of them.
#[tactic(auto, using(ss_rules_asked::proofs::Asking::nothing_asked))]
fn ask_of_lengths(
    context: &AskingContext<'_>,
    asked: &mut Vec<Asked>,
    name: GoodRule,
    s: TermId,
) -> Result<(), AllocError>
    requires near { HasTerms context.now.bank.now context.now.near.now.arrays.items }
    requires asked { HasAsked context.now.bank.now asked.old.items }
    requires store { HasTerm context.now.bank.now s }
    ensures { OnOk result (Asks context.now.bank.now asked.new.items (asked_in context.now.bank.now asked.old.items ++ words.at_lengths name (term_at context.now.bank.now s) (terms_at context.now.bank.now context.now.near.now.arrays.items))) }
{
    match name {
        GoodRule::Full => Ok(()),
        GoodRule::Owned => Ok(()),
        GoodRule::Marks => Ok(()),
        GoodRule::Typed => ask_at_lengths(context, asked, s),
        GoodRule::Ready => Ok(()),
    }
}

// ---- whole stores

// By a rule on good stores.
#[tactic(auto, using(ss_rules_asked::proofs::Asking::asked_then))]
fn ask_all_of_good(
    context: &AskingContext<'_>,
    asked: &mut Vec<Asked>,
    name: GoodRule,
    s: TermId,
) -> Result<(), AllocError>
    requires near { HasNear context.now.bank.now context.now.near.now }
    requires asked { HasAsked context.now.bank.now asked.old.items }
    requires store { HasTerm context.now.bank.now s }
    ensures { OnOk result (Asks context.now.bank.now asked.new.items (asked_in context.now.bank.now asked.old.items ++ words.in_store (nearby_at context.now.bank.now context.now.near.now) (Sentence.Good name) (term_at context.now.bank.now s))) }
{
    ask_at_reads(context, asked, Sentence::Good(name), s)?;
    ask_of_lengths(context, asked, name, s)
}

// By one sentence.
fn ask_in_store(
    context: &AskingContext<'_>,
    asked: &mut Vec<Asked>,
    sentence: Sentence,
    s: TermId,
) -> Result<(), AllocError>
    requires near { HasNear context.now.bank.now context.now.near.now }
    requires asked { HasAsked context.now.bank.now asked.old.items }
    requires store { HasTerm context.now.bank.now s }
    ensures { OnOk result (Asks context.now.bank.now asked.new.items (asked_in context.now.bank.now asked.old.items ++ words.in_store (nearby_at context.now.bank.now context.now.near.now) sentence (term_at context.now.bank.now s))) }
{
    match sentence {
        Sentence::Invariants => ask_at_reads(context, asked, Sentence::Invariants, s),
        Sentence::Good(name) => ask_all_of_good(context, asked, name, s),
    }
}

// In each store.
fn ask_in_stores(
    context: &AskingContext<'_>,
    asked: &mut Vec<Asked>,
    sentence: Sentence,
    stores: &[TermId],
) -> Result<(), AllocError>
    requires near { HasNear context.now.bank.now context.now.near.now }
    requires asked { HasAsked context.now.bank.now asked.old.items }
    requires stores { HasTerms context.now.bank.now stores.now }
    ensures { OnOk result (Asks context.now.bank.now asked.new.items (asked_in context.now.bank.now asked.old.items ++ words.in_stores (nearby_at context.now.bank.now context.now.near.now) (terms_at context.now.bank.now stores.now) sentence)) }
{
    for s in stores {
        ask_in_store(context, asked, sentence, *s)?;
    }
    Ok(())
}

/// By each of the sentences, in each store. An error is want of memory.
pub(crate) fn ask_by_sentences(
    context: &AskingContext<'_>,
    asked: &mut Vec<Asked>,
    stores: &[TermId],
    sentences: &[Sentence],
) -> Result<(), AllocError>
    requires near { HasNear context.now.bank.now context.now.near.now }
    requires asked { HasAsked context.now.bank.now asked.old.items }
    requires stores { HasTerms context.now.bank.now stores.now }
    ensures { OnOk result (Asks context.now.bank.now asked.new.items (asked_in context.now.bank.now asked.old.items ++ flat_map (words.in_stores (nearby_at context.now.bank.now context.now.near.now) (terms_at context.now.bank.now stores.now)) sentences.now)) }
{
    for sentence in sentences {
        ask_in_stores(context, asked, *sentence, stores)?;
    }
    Ok(())
}
