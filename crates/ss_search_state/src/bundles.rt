// Long `and`s that instances say. Their parts are known once something in them is asked for. Of a delayed one a part is made once a read in it is
// asked for.

use crate::requests::{Wanted, new_request};
use crate::state::State;
use ss_search_facts::{Reason, Said};
use ss_search_instances::{Held, is_read};
use ss_search_nodes::LONG;
use ss_search_question::{
    AND, NONE, OR, argument, body_of, bound_count, delayed_term, delayed_whole, has_unbound,
    is_delayed, kind_of, node_head, of_term, part_at, part_count,
};
use ss_terms::Bank;
use std::alloc::AllocError;

/// A part of a delayed `and` that was made: its place, its formula, and the one of this `and` that was made before.
#[derive(Clone, Copy)]
pub(crate) struct Piece {
    place: usize,
    formula: usize,
    before: usize,
}

// The kind of key under which a part is known, or wanted, or all of an instance is.
const KNOWN: usize = 902;

const WANTED: usize = 903;

const WHOLE: usize = 904;

// The kind of key of a part that was made, and of the last one of an `and`.
const MADE: usize = 1;

const LAST: usize = 2;

impl State {
    // One more bundle is known.
    pub(crate) fn add_bundle(&mut self, bank: &Bank, bundle: Held) -> Result<(), AllocError> {
        self.asked.add_bundle(bundle)?;
        self.open_bundle(bank, bundle, false)
    }

    /// Makes those parts of bundles known in which something is asked for. Whether there were such.
    pub fn open_bundles(&mut self, bank: &Bank) -> Result<bool, AllocError> {
        if self.scanned == self.asked.len() {
            return Ok(false);
        }
        self.scanned = self.asked.len();
        self.open_parts(bank, false)
    }

    /// Makes all parts of bundles known, and looks at those that stand in clauses. Whether there were such.
    pub fn open_rest(&mut self, bank: &Bank) -> Result<bool, AllocError> {
        let has_opened = self.nodes.open_left(bank, &mut self.equal)?;
        Ok(self.open_parts(bank, true)? || has_opened)
    }

    fn open_parts(&mut self, bank: &Bank, all: bool) -> Result<bool, AllocError> {
        let before = self.reasons.facts.len();
        for place in 0..self.asked.bundle_count() {
            let bundle = self.asked.bundle(place);
            if !is_delayed(bank, bundle.number) {
                self.open_bundle(bank, bundle, all)?;
            } else if all {
                self.open_delayed(bank, bundle)?;
            } else {
                self.open_asked(bank, place, bundle.number)?;
            }
        }
        Ok(self.reasons.facts.len() > before || !self.requests.is_empty())
    }

    // Makes all parts of a bundle known, or those in which something is asked for.
    fn open_bundle(&mut self, bank: &Bank, bundle: Held, all: bool) -> Result<(), AllocError> {
        for place in 0..part_count(bank, bundle.number) {
            let part = part_at(bank, bundle.number, place);
            if (all || self.touches_part(bank, part))
                && self.seen.is_new(KNOWN, bundle.fact, place)?
            {
                let origin = if all { 0 } else { 1 };
                let reason = Reason::Part(bundle.fact, place);
                self.learn(Said::Formula(part), reason, origin)?;
            }
        }
        Ok(())
    }

    // ---- delayed

    /// Whether of an instance of this `forall` the long `and` at the end is delayed. It isn't where the goal is a frame, which needs all parts.
    pub fn delays(&self, bank: &Bank, forall: usize) -> bool {
        let body = body_of(bank, forall);
        let last = part_at(bank, body, part_count(bank, body).saturating_sub(1));
        !self.asked.has_goal()
            && bound_count(bank, forall) == 1
            && kind_of(bank, body) == OR
            && kind_of(bank, last) == AND
            && part_count(bank, last) > LONG
            && has_unbound(bank, last)
    }

    /// The parts of the delayed `and` that an instance says, where it says one, are looked at from now on.
    pub fn add_delayed(&mut self, bank: &Bank, fact: usize) -> Result<(), AllocError> {
        let formula = self.reasons.facts.formula(fact);
        let number = part_at(bank, formula, part_count(bank, formula).saturating_sub(1));
        if is_delayed(bank, number) {
            self.asked.add_bundle(Held { number, fact })?;
            self.scanned = NONE;
        }
        Ok(())
    }

    // A delayed `and` is known, and so are its parts that were made. Where the goal is a frame, all are made.
    pub(crate) fn take_delayed(&mut self, bank: &Bank, delayed: usize) -> Result<(), AllocError> {
        let mut at = self.places.value(LAST, delayed, 0);
        for _ in 0..self.pieces.len() {
            let Some(piece) = self.pieces.get(at).copied() else {
                break;
            };
            self.open_piece(delayed, piece.place, 1)?;
            at = piece.before;
        }
        if self.asked.has_goal() {
            self.open_pieces(bank, delayed, 1)?;
        }
        Ok(())
    }

    // All parts of a delayed `and`, or the whole instance where the `and` isn't known.
    fn open_delayed(&mut self, bank: &Bank, bundle: Held) -> Result<(), AllocError> {
        if self.nodes.held(bundle.number) == NONE {
            self.want_whole(bank, bundle)
        } else {
            self.open_pieces(bank, bundle.number, 0)
        }
    }

    fn open_pieces(
        &mut self,
        bank: &Bank,
        delayed: usize,
        origin: usize,
    ) -> Result<(), AllocError> {
        for place in 0..part_count(bank, delayed_whole(bank, delayed)) {
            self.open_piece(delayed, place, origin)?;
        }
        Ok(())
    }

    // The parts of a delayed `and` in which a read is that is asked for, over an equal store at an equal object. What was looked at before is
    // looked at again where these classes have grown, or something was taken back.
    fn open_asked(&mut self, bank: &Bank, at: usize, delayed: usize) -> Result<(), AllocError> {
        let whole = delayed_whole(bank, delayed);
        let object = of_term(delayed_term(bank, delayed));
        let store = of_term(self.heads.store(whole));
        let stamp = self.stamp_of(object).wrapping_add(self.stamp_of(store));
        let from = self.look_from(at, stamp)?;
        for place in from..self.asked.len() {
            let node = self.asked.node(place);
            if is_read(node_head(bank, node).kind)
                && self.is_at(bank, node, object, 1)
                && self.is_at(bank, node, store, 0)
            {
                let part = self.heads.place(node_head(bank, node), whole);
                self.open_piece(delayed, part, 1)?;
            }
        }
        Ok(())
    }

    // Whether the argument of a node at a place is equal to a term.
    fn is_at(&self, bank: &Bank, node: usize, term: usize, place: usize) -> bool {
        self.equal
            .are_equal(of_term(argument(bank, node, place)), term)
    }

    // From which place on the nodes that are asked for are looked at for a bundle, whose classes stand so. All are looked at then.
    fn look_from(&mut self, bundle: usize, stamp: usize) -> Result<usize, AllocError> {
        for _ in self.looked.len()..bundle.saturating_add(1) {
            self.looked.push((NONE, 0))?;
        }
        let count = self.asked.len();
        let Some(looked) = self.looked.get_mut(bundle) else {
            return Ok(0);
        };
        let from = if looked.0 == stamp { looked.1 } else { 0 };
        *looked = (stamp, count);
        Ok(from)
    }

    // A part of a delayed `and` is known where this is, once it is made. Nothing where there is no such part.
    fn open_piece(
        &mut self,
        delayed: usize,
        place: usize,
        origin: usize,
    ) -> Result<(), AllocError> {
        let formula = self.piece(delayed, place);
        if formula == NONE {
            return self.want_piece(delayed, place, origin);
        }
        let fact = self.nodes.held(delayed);
        if fact != NONE && self.seen.is_new(KNOWN, fact, place)? {
            self.learn(Said::Formula(formula), Reason::Part(fact, place), origin)?;
        }
        Ok(())
    }

    // The part that was made, or NONE.
    fn piece(&self, delayed: usize, place: usize) -> usize {
        let at = self
            .places
            .value(MADE.saturating_add(place.saturating_mul(4)), delayed, 0);
        match self.pieces.get(at) {
            Some(piece) => piece.formula,
            None => NONE,
        }
    }

    fn want_piece(
        &mut self,
        delayed: usize,
        place: usize,
        origin: usize,
    ) -> Result<(), AllocError> {
        if place != NONE && self.seen.is_new(WANTED, delayed, place)? {
            self.requests.push(new_request(Wanted::Piece(delayed, place), origin, NONE, NONE))?;
        }
        Ok(())
    }

    /// A part of a delayed `and` was made, for which it is asked as for what comes from there.
    pub fn add_piece(
        &mut self,
        part: (usize, usize),
        formula: usize,
        origin: usize,
    ) -> Result<(), AllocError> {
        let (delayed, place) = part;
        if formula == NONE {
            return Ok(());
        }
        let before = self.places.value(LAST, delayed, 0);
        let at = self.pieces.len();
        self.pieces.push(Piece {
            place,
            formula,
            before,
        })?;
        let key = MADE.saturating_add(place.saturating_mul(4));
        self.places.add(key, delayed, 0, at)?;
        self.places.add(LAST, delayed, 0, at)?;
        self.open_piece(delayed, place, origin)
    }

    // The instance with nothing delayed, where it isn't met.
    fn want_whole(&mut self, bank: &Bank, bundle: Held) -> Result<(), AllocError> {
        let formula = self.reasons.facts.formula(bundle.fact);
        let Some(Reason::Inst(fact, _)) = self.reason(bundle.fact) else {
            return Ok(());
        };
        if self.nodes.is_settled(formula) || !self.seen.is_new(WHOLE, bundle.number, 0)? {
            return Ok(());
        }
        let forall = self.reasons.facts.formula(fact);
        let term = delayed_term(bank, bundle.number);
        self.want(new_request(Wanted::Whole(forall, fact), term, NONE, NONE))
    }

    /// No part of a delayed `and` was made.
    pub fn forget_pieces(&mut self) {
        self.pieces.truncate(0);
        self.places.undo(0);
    }

    // How a class stands: it grows until something is taken back.
    pub(crate) fn stamp_of(&self, node: usize) -> usize {
        self.equal
            .members(node)
            .wrapping_add(self.stamp_of_undone())
    }

    // How often something was taken back, beyond the members of any class.
    pub(crate) fn stamp_of_undone(&self) -> usize {
        self.undone.wrapping_mul(0x1_0000_0000)
    }
}
