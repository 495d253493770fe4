// The search on a trail.

ghost use Rattle.std.specs.Prelude.{◌≤◌, length};
ghost use Rattle.ss_core.specs.Chain.{IsWithinLimits};
ghost use Rattle.ss_core.specs.View as view;
ghost use Rattle.ss_terms.specs.Forms.{Forms, IsGrown, IsBankOf};

use ss_core::Classes;
use ss_deriv::Derivation;
use ss_search_facts::{Reason, Said};
use ss_search_made::{keep_named, no_names};
use ss_search_proof::{plan_lines, write_lines};
use ss_search_question::{CONSTANT, NONE, opposite, term_head};
use ss_search_state::{Limits, Mark, State, Step, first_mark};
use ss_terms::{Bank, BankMark, FormulaId, Symbol};
use std::alloc::{AllocError, Global};

/// What a search found.
#[derive(Drop)]
pub enum Answer {
    /// Lines, of which a checker decides.
    Proved(Derivation),
    /// Nothing.
    Stuck,
}

/// A split of which a case is open. It has its block, the fact and the formula of its `or`, and the place and the fact of the open case. It also has
/// what stood when it was opened, how many hypotheses had been handed over before, and the place of its clause.
#[derive(Clone, Copy)]
pub(crate) struct Split {
    pub(crate) block: usize,
    pub(crate) fact: usize,
    pub(crate) formula: usize,
    pub(crate) place: usize,
    pub(crate) case: usize,
    pub(crate) start: Mark,
    pub(crate) handed: usize,
    pub(crate) clause: usize,
}

/// A lemma that is open: the literal that is tried, with its fact, and what stood before. Then how many splits were open and hypotheses handed over,
/// how many clauses were known, and what is kept of the limits until it ends.
#[derive(Clone, Copy)]
pub(crate) struct Lemma {
    pub(crate) literal: usize,
    pub(crate) case: usize,
    pub(crate) start: Mark,
    pub(crate) splits: usize,
    pub(crate) handed: usize,
    pub(crate) clauses: usize,
    pub(crate) kept: Limits,
}

/// A search that serves all obligations of a program. What the premises of the last obligation made known stays, and is used
/// where the next obligation is of the same body.
#[derive(Drop)]
pub struct Engine {
    pub(crate) state: State,
    pub(crate) splits: Vec<Split>,
    // The hypotheses that closed cases of the splits stand on.
    pub(crate) handed: Vec<usize>,
    // The premises that are known, and what stands by them alone.
    front: Vec<usize>,
    base: Mark,
    // Whether nothing else stands.
    is_clean: bool,
    // The first constant that is new.
    base_fresh: usize,
    // How many facts had been learned when a look ahead found nothing, and the clause at which the last one found something.
    pub(crate) quiet: usize,
    pub(crate) look_from: usize,
    // A block that closes more than the literal that was tried.
    pub(crate) pending_block: Option<usize>,
    // The lemma that is open.
    pub(crate) lemma: Option<Lemma>,
    // Whether literals are the first cases of a split.
    pub(crate) literals_first: bool,
    // From which clause on, in their order, an open one is looked for.
    pub(crate) scan_from: usize,
    // Where cases of ground formulas are gone through, how often a case of the `or` of each pair was refuted. Then the clauses of which one was, and
    // how many cases were.
    pub(crate) weights: Vec<usize>,
    pub(crate) heavy: Vec<usize>,
    pub(crate) refuted: usize,
    // Whether numbers were looked at since a case was refuted.
    pub(crate) looked: bool,
}

// A number above those of all constants that the bank has.
fn first_fresh(bank: &Bank) -> usize {
    let mut fresh = 0usize;
    for term in 0..bank.term_count() {
        let head = term_head(bank, term);
        if head.kind == CONSTANT {
            fresh = fresh.max(head.number.saturating_add(1));
        }
    }
    fresh
}

// At how many places known premises are compared with others.
const COMPARED: usize = 32;

// Whether the known premises are in front of these, as far as a few places tell: the last one, and others at equal distances. Where they aren't, a
// checker refuses what is found.
fn is_front(front: &[usize], premises: &[FormulaId]) -> bool {
    let step = (front.len() / COMPARED).saturating_add(1);
    for turn in 0..COMPARED {
        if !is_same_at(front, premises, turn.saturating_mul(step)) {
            return false;
        }
    }
    is_same_at(front, premises, front.len().saturating_sub(1))
}

// Whether the premise at a place is the known one, where there is one.
fn is_same_at(front: &[usize], premises: &[FormulaId], place: usize) -> bool {
    let Some(number) = front.get(place) else {
        return true;
    };
    match premises.get(place) {
        Some(premise) => premise.0 == *number,
        None => false,
    }
}

impl Engine {
    /// Nothing is known. The bank has all obligations of the program.
    pub fn new(alloc: Global, bank: &mut Bank) -> Result<Self, AllocError>
        ensures grown { IsGrown bank.old bank.new }
    {
        let yes = bank.apply(Symbol::Fixed(true), &[])?;
        let no = bank.apply(Symbol::Fixed(false), &[])?;
        let fresh = first_fresh(bank);
        let mut state = State::new(alloc, yes.0, no.0, fresh);
        state.has_numbers = true;
        Ok(Engine {
            state,
            splits: Vec::new(alloc),
            handed: Vec::new(alloc),
            front: Vec::new(alloc),
            base: first_mark(),
            is_clean: true,
            base_fresh: fresh,
            quiet: NONE,
            look_from: 0,
            pending_block: None,
            lemma: None,
            literals_first: false,
            scan_from: 0,
            weights: Vec::new(alloc),
            heavy: Vec::new(alloc),
            refuted: 0,
            looked: false,
        })
    }

    /// Searches for lines that refute the premises with the denied goal. It costs least where each obligation has the premises
    /// of the one before it in front of its own.
    pub fn search(
        &mut self,
        bank: &mut Bank,
        program: &Classes,
        premises: &[FormulaId],
        goal: FormulaId,
        limits: Limits,
    ) -> Result<Answer, AllocError>
        requires bank { IsBankOf (view.classes program.now) bank.old }
        requires limits { IsWithinLimits (view.classes program.now) }
        ensures grown { IsGrown bank.old bank.new }
    {
        self.state.left = limits;
        self.state.nodes.grow(bank)?;
        self.state.find_deepest(bank)?;
        let step = self.begin(bank, program, premises, goal)?;
        self.finish(bank, program, step)
    }

    // Makes the premises and the denied goal known. Numbers are looked at once all are known.
    fn begin(
        &mut self,
        bank: &mut Bank,
        program: &Classes,
        premises: &[FormulaId],
        goal: FormulaId,
    ) -> Result<Step, AllocError>
        requires bank { IsBankOf (view.classes program.now) bank.old }
        requires limits { IsWithinLimits (view.classes program.now) }
        ensures grown { IsGrown bank.old bank.new }
    {
        self.restart_for(premises);
        self.state.has_numbers = false;
        let step = self.learn_front(bank, program, premises)?;
        self.state.has_numbers = true;
        if let Step::Conflict(_) = &step {
            return Ok(step);
        }
        self.state
            .learn(Said::Formula(opposite(goal.0)), Reason::Denied, 2)?;
        self.state.settle(bank)
    }

    // Goes through the cases, and takes back what the goal made known. The bank has what it had after the premises, and what lines name.
    fn finish(
        &mut self,
        bank: &mut Bank,
        program: &Classes,
        step: Step,
    ) -> Result<Answer, AllocError>
        requires bank { IsBankOf (view.classes program.now) bank.old }
        requires limits { IsWithinLimits (view.classes program.now) }
        ensures grown { IsGrown bank.old bank.new }
    {
        let mark = bank.mark();
        let extent = self.state.extent();
        let root = self.run(bank, program, step)?;
        let answer = self.write(bank, mark, root)?;
        self.forget();
        self.state.cut(extent);
        match answer {
            Some(derivation) => Ok(Answer::Proved(derivation)),
            None => Ok(Answer::Stuck),
        }
    }

    // The lines of a proof, where there is one. Of what came after the mark the bank forgets all that they don't name.
    fn write(
        &mut self,
        bank: &mut Bank,
        mark: BankMark,
        root: Option<usize>,
    ) -> Result<Option<Derivation>, AllocError>
        ensures grown { (marked : Forms) → IsGrown marked bank.old → length marked.terms ≤ mark.terms → length marked.formulas ≤ mark.formulas → IsGrown marked bank.new }
    {
        let alloc = self.state.alloc;
        let mut names = no_names(alloc, bank, mark)?;
        if let Some(root) = root {
            plan_lines(alloc, &mut self.state.reasons, root, &mut names)?;
        }
        keep_named(alloc, bank, mark, &mut names)?;
        match root {
            Some(root) => write_lines(alloc, &mut self.state.reasons, root, names),
            None => Ok(None),
        }
    }

    // What was known by the premises alone is known again, and nothing else.
    fn forget(&mut self) {
        self.state.forget(self.base);
        self.splits.truncate(0);
        self.handed.truncate(0);
        self.quiet = NONE;
        self.look_from = 0;
        self.pending_block = None;
        self.lemma = None;
        self.is_clean = true;
    }

    // Where the known premises aren't in front of these, all are made known anew.
    fn restart_for(&mut self, premises: &[FormulaId]) {
        if !self.is_clean || !is_front(&self.front, premises) {
            self.restart();
        }
        self.is_clean = false;
    }

    // Makes those premises known that aren't yet.
    fn learn_front(
        &mut self,
        bank: &mut Bank,
        program: &Classes,
        premises: &[FormulaId],
    ) -> Result<Step, AllocError>
        requires bank { IsBankOf (view.classes program.now) bank.old }
        requires limits { IsWithinLimits (view.classes program.now) }
        ensures grown { IsGrown bank.old bank.new }
    {
        for number in self.front.len()..premises.len() {
            let step = self.learn_premise(bank, premises, number)?;
            if let Step::Conflict(_) = &step {
                return Ok(step);
            }
            self.make_all(bank, program)?;
            let step = self.keep_premise(bank, premises, number)?;
            if let Step::Conflict(_) = &step {
                return Ok(step);
            }
        }
        Ok(Step::Rests)
    }

    fn learn_premise(
        &mut self,
        bank: &Bank,
        premises: &[FormulaId],
        number: usize,
    ) -> Result<Step, AllocError> {
        let Some(premise) = premises.get(number) else {
            return Ok(Step::Rests);
        };
        self.state
            .learn(Said::Formula(premise.0), Reason::Premise(number), 0)?;
        self.state.settle(bank)
    }

    fn keep_premise(
        &mut self,
        bank: &Bank,
        premises: &[FormulaId],
        number: usize,
    ) -> Result<Step, AllocError> {
        let step = self.state.settle(bank)?;
        if let Step::Conflict(_) = &step {
            return Ok(step);
        }
        if let Some(premise) = premises.get(number) {
            self.front.push(premise.0)?;
        }
        self.state.drop_settled();
        self.base = self.state.mark();
        Ok(step)
    }

    fn restart(&mut self) {
        self.base = first_mark();
        self.forget();
        self.state.heads.forget();
        self.state.forget_pieces();
        self.front.truncate(0);
        self.state.fresh = self.base_fresh;
    }

    /// What is left of the limits of the last search.
    pub fn left(&self) -> Limits {
        self.state.left
    }
}
