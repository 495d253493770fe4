// What is made in the bank is learned.

ghost use Rattle.ss_core.specs.Chain.{IsWithinLimits};
ghost use Rattle.ss_core.specs.View as view;
ghost use Rattle.ss_terms.specs.Forms.{IsGrown, IsBankOf};

use crate::engine::Engine;
use ss_core::Classes;
use ss_search_facts::{GoodName, Reason, RuleKind, Said};
use ss_search_made::{
    Arguments, arguments_of, atom_made, choice_made, constants_of, delayed_made, good_made,
    inst_made, piece_made, rule_made, term_made, terms_alone,
};
use ss_search_question::{EXISTS, NONE, kind_of, pair_of};
use ss_search_state::{Request, Wanted};
use ss_terms::{Bank, Predicate, Symbol};
use std::alloc::AllocError;

fn arguments_in(request: Request) -> Arguments {
    Arguments {
        sentence: request.sentence,
        first: request.first,
        second: request.second,
        third: request.third,
        field: request.field,
        class: request.class,
    }
}

impl Engine {
    // Makes all that is wanted, and learns it.
    pub(crate) fn make_all(&mut self, bank: &mut Bank, program: &Classes) -> Result<(), AllocError>
        requires bank { IsBankOf (view.classes program.now) bank.old }
        requires limits { IsWithinLimits (view.classes program.now) }
        ensures grown { IsGrown bank.old bank.new }
    {
        for _turn in 0..u64::MAX {
            let Some(request) = self.next_request() else {
                break;
            };
            self.make(bank, program, request)?;
        }
        self.state.nodes.grow(bank)
    }

    // The next thing that is wanted, in the order in which it was.
    fn next_request(&mut self) -> Option<Request> {
        let request = self.state.requests.get(self.state.made).copied();
        match request {
            Some(_) => self.state.made = self.state.made.saturating_add(1),
            None => {
                self.state.requests.truncate(0);
                self.state.made = 0;
            }
        }
        request
    }

    fn make(
        &mut self,
        bank: &mut Bank,
        program: &Classes,
        request: Request,
    ) -> Result<(), AllocError>
        requires bank { IsBankOf (view.classes program.now) bank.old }
        requires limits { IsWithinLimits (view.classes program.now) }
        ensures grown { IsGrown bank.old bank.new }
    {
        match request.wanted {
            Wanted::Choose(formula, fact) => self.make_choice(bank, program, formula, fact),
            Wanted::Inst(formula, fact) => self.make_inst(bank, program, request, (formula, fact)),
            Wanted::Whole(formula, fact) => self.make_whole(
                bank,
                program,
                request,
                (formula, fact),
            ),
            Wanted::Piece(delayed, place) => self.make_piece(
                bank,
                program,
                request,
                (delayed, place),
            ),
            Wanted::Rule(rule) => self.make_rule(bank, program, request, rule),
            Wanted::Good(rule, store, fact) => self.make_good(
                bank,
                program,
                request,
                (rule, store, fact),
            ),
            Wanted::Owner => self.make_read(bank, Symbol::Owner, request),
            Wanted::Level => self.make_read(bank, Symbol::Level, request),
            Wanted::Allocated => self.make_atom(bank, Predicate::Allocated, request),
            Wanted::Group => self.make_atom(bank, Predicate::IsGroup, request),
            Wanted::Same => self.make_same(bank, program, request),
        }
    }

    fn make_rule(
        &mut self,
        bank: &mut Bank,
        program: &Classes,
        request: Request,
        rule: RuleKind,
    ) -> Result<(), AllocError>
        requires bank { IsBankOf (view.classes program.now) bank.old }
        requires limits { IsWithinLimits (view.classes program.now) }
        ensures grown { IsGrown bank.old bank.new }
    {
        let numbers = arguments_of(
            self.state.alloc,
            bank,
            &mut self.state.numerals,
            arguments_in(request),
        )?;
        let made = rule_made(self.state.alloc, bank, program, rule, &numbers)?;
        self.learn_rule(made, rule, &numbers)
    }

    // That two whole numbers are equal, or one is below the other, which is tried next.
    fn make_same(
        &mut self,
        bank: &mut Bank,
        program: &Classes,
        request: Request,
    ) -> Result<(), AllocError>
        requires bank { IsBankOf (view.classes program.now) bank.old }
        requires limits { IsWithinLimits (view.classes program.now) }
        ensures grown { IsGrown bank.old bank.new }
    {
        let numbers = terms_alone(self.state.alloc, arguments_in(request))?;
        let made = rule_made(self.state.alloc, bank, program, RuleKind::Apart, &numbers)?;
        self.learn_rule(made, RuleKind::Apart, &numbers)?;
        self.state.same.push(made)?;
        Ok(())
    }

    fn learn_rule(
        &mut self,
        made: usize,
        rule: RuleKind,
        numbers: &[usize],
    ) -> Result<(), AllocError> {
        let range = self.state.keep(numbers)?;
        self.learn_made(made, Reason::Rule(rule, range))
    }

    // A formula that was made is learned.
    fn learn_made(&mut self, made: usize, reason: Reason) -> Result<(), AllocError> {
        if made != NONE {
            self.state.learn(Said::Formula(made), reason, 1)?;
        }
        Ok(())
    }

    fn make_good(
        &mut self,
        bank: &mut Bank,
        program: &Classes,
        request: Request,
        rule: (GoodName, usize, usize),
    ) -> Result<(), AllocError>
        requires bank { IsBankOf (view.classes program.now) bank.old }
        requires limits { IsWithinLimits (view.classes program.now) }
        ensures grown { IsGrown bank.old bank.new }
    {
        let numbers = arguments_of(
            self.state.alloc,
            bank,
            &mut self.state.numerals,
            arguments_in(request),
        )?;
        let made = good_made(self.state.alloc, bank, program, (rule.0, rule.1), &numbers)?;
        self.learn_good(made, rule, &numbers)
    }

    fn learn_good(
        &mut self,
        made: usize,
        rule: (GoodName, usize, usize),
        numbers: &[usize],
    ) -> Result<(), AllocError> {
        let range = self.state.keep(numbers)?;
        self.learn_made(made, Reason::Good(rule.0, rule.2, range))
    }

    fn make_inst(
        &mut self,
        bank: &mut Bank,
        program: &Classes,
        request: Request,
        forall: (usize, usize),
    ) -> Result<(), AllocError>
        requires bank { IsBankOf (view.classes program.now) bank.old }
        requires limits { IsWithinLimits (view.classes program.now) }
        ensures grown { IsGrown bank.old bank.new }
    {
        if !self.state.delays(bank, forall.0) {
            return self.make_whole(bank, program, request, forall);
        }
        let numbers = terms_alone(self.state.alloc, arguments_in(request))?;
        let made = delayed_made(self.state.alloc, bank, program, forall.0, &numbers)?;
        self.learn_inst(bank, made, forall.1, &numbers)
    }

    // The instance, with nothing delayed.
    fn make_whole(
        &mut self,
        bank: &mut Bank,
        program: &Classes,
        request: Request,
        forall: (usize, usize),
    ) -> Result<(), AllocError>
        requires bank { IsBankOf (view.classes program.now) bank.old }
        requires limits { IsWithinLimits (view.classes program.now) }
        ensures grown { IsGrown bank.old bank.new }
    {
        let numbers = terms_alone(self.state.alloc, arguments_in(request))?;
        let made = inst_made(self.state.alloc, bank, program, forall.0, &numbers)?;
        self.learn_inst(bank, made, forall.1, &numbers)
    }

    fn learn_inst(
        &mut self,
        bank: &Bank,
        made: usize,
        fact: usize,
        numbers: &[usize],
    ) -> Result<(), AllocError> {
        if made == NONE {
            return Ok(());
        }
        let range = self.state.keep(numbers)?;
        let learned = self
            .state
            .learn(Said::Formula(made), Reason::Inst(fact, range), 1)?;
        self.state.add_delayed(bank, learned)
    }

    // The part of a delayed `and` at a place.
    fn make_piece(
        &mut self,
        bank: &mut Bank,
        program: &Classes,
        request: Request,
        part: (usize, usize),
    ) -> Result<(), AllocError>
        requires bank { IsBankOf (view.classes program.now) bank.old }
        requires limits { IsWithinLimits (view.classes program.now) }
        ensures grown { IsGrown bank.old bank.new }
    {
        let made = piece_made(self.state.alloc, bank, program, part.0, part.1)?;
        self.state.nodes.grow(bank)?;
        self.state.add_piece(part, made, request.first)
    }

    fn make_choice(
        &mut self,
        bank: &mut Bank,
        program: &Classes,
        formula: usize,
        fact: usize,
    ) -> Result<(), AllocError>
        requires bank { IsBankOf (view.classes program.now) bank.old }
        requires limits { IsWithinLimits (view.classes program.now) }
        ensures grown { IsGrown bank.old bank.new }
    {
        if kind_of(bank, formula) != EXISTS {
            return Ok(());
        }
        let first = self.state.fresh;
        let constants = constants_of(self.state.alloc, bank, formula, first)?;
        self.state.fresh = first.saturating_add(constants.len());
        let made = choice_made(self.state.alloc, bank, program, formula, &constants)?;
        self.learn_choice(made, formula, fact, &constants)
    }

    fn learn_choice(
        &mut self,
        made: usize,
        formula: usize,
        fact: usize,
        numbers: &[usize],
    ) -> Result<(), AllocError> {
        let range = self.state.keep(numbers)?;
        let origin = self.state.origin(fact);
        if made != NONE {
            self.state.learn(Said::Formula(made), Reason::Choose(formula, range), origin)?;
        }
        Ok(())
    }

    // A read that is made is asked for.
    fn make_read(
        &mut self,
        bank: &mut Bank,
        symbol: Symbol,
        request: Request,
    ) -> Result<(), AllocError>
        ensures grown { IsGrown bank.old bank.new }
    {
        let made = term_made(
            self.state.alloc,
            bank,
            symbol,
            &[request.first, request.second],
        )?;
        self.state.ask_term(bank, made)
    }

    // An atom that is made is asked for.
    fn make_atom(
        &mut self,
        bank: &mut Bank,
        predicate: Predicate,
        request: Request,
    ) -> Result<(), AllocError>
        ensures grown { IsGrown bank.old bank.new }
    {
        let numbers = terms_alone(self.state.alloc, arguments_in(request))?;
        let made = atom_made(self.state.alloc, bank, predicate, &numbers)?;
        self.state.nodes.grow(bank)?;
        if made == NONE {
            return Ok(());
        }
        self.state.ask_atom(bank, pair_of(made))
    }
}
