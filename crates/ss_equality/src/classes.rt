// The classes of equal terms: a log of joins, of which each renames a class, and what is kept beside it.

ghost use Rattle.std.specs.Prelude.{◌≡◌, ◌≢◌, ℕ, ◌<◌, ◌≤◌, ◌∷◌, ◌++◌, ◌⊎◌, List, [], Some, None, length, map, take, slice_get, slice_set, slice_index_or, IfSome, IfOk, OnOk, OnErr, MatchOption};
ghost use Rattle.ss_terms.specs.Forms.{AppShape, TermBelow, term_shape, AreTermsBelow};
ghost use Rattle.ss_terms.specs.declared.forms.TermId.{TermId};
ghost use Rattle.ss_terms.specs.declared.forms.Symbol.{Symbol};
ghost use Rattle.ss_equality_rules.specs.declared.Join.{Join};
ghost use Rattle.ss_equality_rules.specs.Names.{Has, name, IsJoin, IsLog, IsEnd, HasNoEnd};
ghost use Rattle.ss_equality_rules.specs.Classes.{lists_of, HasUsersOf, HasJoin, IsJoined};

use ss_equality_rules::Join;
use ss_terms::{Term, TermId};
use std::alloc::{AllocError, Global};
use std::marker::Model;

/// The forms of the terms; at the name of each class its users, its weight, and the join that ended it; and all joins.
#[derive(Drop)]
pub(crate) struct Classes {
    forms: Vec<Term>,
    users: Vec<Vec<usize>>,
    weights: Vec<usize>,
    ends: Vec<Option<usize>>,
    log: Vec<Join>,
}

impl Model for Classes {
    ghost use Rattle.std.specs.Prelude.{map};
    ghost use Rattle.ss_terms.specs.Forms.{term_shape};
    ghost use Rattle.ss_equality_rules.specs.Names.{AreClasses};
    ghost use Rattle.ss_equality_rules.specs.Classes.{Classed, lists_of};

    ghost Value = { Classed };

    ghost view = { λ c. record { forms = map term_shape c.forms.items; users = lists_of c.users.items; log = c.log.items } };

    ghost invariant = { λ c. AreClasses (map term_shape c.forms.items) (lists_of c.users.items) c.ends.items c.log.items };
}

// One more user of the class with this name.
fn add_user(users: &mut Vec<Vec<usize>>, class: usize, user: usize) -> Result<(), AllocError>
    requires { class < length users.old.items }
    ensures added { OnOk result (lists_of users.new.items ≡ slice_set (lists_of users.old.items) class (slice_index_or (lists_of users.old.items) class [] ++ user ∷ [])) }
    ensures same { OnErr result (lists_of users.new.items ≡ lists_of users.old.items) }
{
    users[class].push(user)?;
    Ok(())
}

// The users of the one class are users of the other too.
fn add_users(
    alloc: Global,
    users: &mut Vec<Vec<usize>>,
    from: usize,
    to: usize,
) -> Result<(), AllocError>
    requires from { from < length users.old.items }
    requires to { to < length users.old.items }
    ensures added { OnOk result (lists_of users.new.items ≡ slice_set (lists_of users.old.items) to (slice_index_or (lists_of users.old.items) to [] ++ slice_index_or (lists_of users.old.items) from [])) }
    ensures long { length users.new.items ≡ length users.old.items }
    ensures same { OnErr result (lists_of users.new.items ≡ lists_of users.old.items) }
{
    let moved = Vec::from_slice(alloc, &users[from])?;
    users[to].extend_from_slice(&moved)?;
    Ok(())
}

// Takes back all but the first users.
fn cut_users(users: &mut Vec<Vec<usize>>, class: usize, count: usize)
    requires { class < length users.old.items }
    ensures { lists_of users.new.items ≡ slice_set (lists_of users.old.items) class (take count (slice_index_or (lists_of users.old.items) class [])) }
{
    users[class].truncate(count);
}

// A term uses each of these.
fn add_uses(
    users: &mut Vec<Vec<usize>>,
    arguments: &[TermId],
    user: usize,
) -> Result<(), AllocError>
    requires { AreTermsBelow (length users.old.items) arguments.now }
    ensures listed { OnOk result ((i : ℕ) (x : TermId) → slice_get arguments.now i ≡ Some x → Has (slice_index_or (lists_of users.new.items) x.0 []) user) }
    ensures kept { (r w : ℕ) → Has (slice_index_or (lists_of users.old.items) r []) w → Has (slice_index_or (lists_of users.new.items) r []) w }
    ensures long { length users.new.items ≡ length users.old.items }
{
    for x in arguments {
        add_user(users, x.0, user)?;
    }
    Ok(())
}

// A term of this form uses its arguments.
fn add_form(users: &mut Vec<Vec<usize>>, form: &Term, user: usize) -> Result<(), AllocError>
    requires { TermBelow (length users.old.items) (term_shape form.now) }
    ensures listed { OnOk result ((f : Symbol) (xs : List TermId) → term_shape form.now ≡ AppShape f xs → (i : ℕ) (x : TermId) → slice_get xs i ≡ Some x → Has (slice_index_or (lists_of users.new.items) x.0 []) user) }
    ensures kept { (r w : ℕ) → Has (slice_index_or (lists_of users.old.items) r []) w → Has (slice_index_or (lists_of users.new.items) r []) w }
    ensures long { length users.new.items ≡ length users.old.items }
{
    match form {
        Term::App(_, arguments) => add_uses(users, arguments, user),
        Term::Bound(_) => Ok(()),
    }
}

fn put_weight(weights: &mut [usize], class: usize, weight: usize) {
    if let Some(place) = weights.get_mut(class) {
        *place = weight;
    }
}

// The join that ended the class with this name.
fn end_at(ends: &[Option<usize>], class: usize) -> Option<usize>
    ensures some { IfSome result (λ j. slice_get ends.now class ≡ Some (Some j)) }
    ensures none { result ≡ None → (slice_get ends.now class ≡ Some None) ⊎ (slice_get ends.now class ≡ None) }
{
    match ends.get(class) {
        Some(end) => *end,
        None => None,
    }
}

impl Classes {
    // No term.
    pub(crate) fn new(alloc: Global) -> Self
        ensures { result ≡ record { forms = []; users = []; log = [] } }
    {
        Classes {
            forms: Vec::new(alloc),
            users: Vec::new(alloc),
            weights: Vec::new(alloc),
            ends: Vec::new(alloc),
            log: Vec::new(alloc),
        }
    }

    // How many terms there are.
    pub(crate) fn term_count(&self) -> usize
        ensures { result ≡ length self.now.forms }
    {
        self.forms.len()
    }

    // How many joins there are.
    pub(crate) fn join_count(&self) -> usize
        ensures count { result ≡ length self.now.log }
        ensures log { IsLog (length self.now.forms) self.now.log }
    {
        self.log.len()
    }

    // All joins.
    pub(crate) fn joins(&self) -> &[Join]
        ensures { result.now ≡ self.now.log }
    {
        &self.log
    }

    // The form of a term.
    pub(crate) fn form(&self, term: usize) -> Option<&Term>
        ensures found { IfSome result (λ n. slice_get self.now.forms term ≡ Some (term_shape n.now)) }
        ensures absent { result ≡ None → slice_get self.now.forms term ≡ None }
    {
        self.forms.get(term)
    }

    // The users of the class with this name.
    pub(crate) fn users(&self, class: usize) -> &[usize]
        ensures { result.now ≡ slice_index_or self.now.users class [] }
    {
        match self.users.get(class) {
            Some(users) => users,
            None => &[],
        }
    }

    // The join with this number.
    pub(crate) fn join_at(&self, number: usize) -> Join
        requires { number < length self.now.log }
        ensures { slice_get self.now.log number ≡ Some result }
    {
        self.log[number]
    }

    // The join that ended the class with this name.
    pub(crate) fn end_of(&self, class: usize) -> Option<usize>
        ensures gone { IfSome result (λ j. IsEnd self.now.log class j) }
        ensures going { result ≡ None → HasNoEnd self.now.log class }
    {
        end_at(&self.ends, class)
    }

    // The name of a term's class.
    pub(crate) fn name(&self, term: usize) -> usize
        ensures { result ≡ name self.now.log term }
    {
        let _count = self.join_count();
        let mut class = term;
        let mut seen = 0;
        while let Some(end) = self.end_of(class) {
            let join = self.join_at(end);
            class = join.to;
            seen = end + 1;
        }
        class
    }

    // One more term, before the first join.
    pub(crate) fn enter(&mut self, alloc: Global, form: Term) -> Result<(), AllocError>
        requires empty { self.old.log ≡ [] }
        requires below { TermBelow (length self.old.forms) (term_shape form) }
        ensures forms { OnOk result (self.new.forms ≡ self.old.forms ++ term_shape form ∷ []) }
        ensures log { self.new.log ≡ [] }
    {
        let number = self.forms.len();
        self.weights.push(1)?;
        self.ends.push(None)?;
        self.users.push(Vec::new(alloc))?;
        add_form(&mut self.users, &form, number)?;
        self.forms.push(form)?;
        Ok(())
    }

    // What the class with this name weighs: more where it has more terms and users.
    fn weight(&self, class: usize) -> usize {
        match self.weights.get(class) {
            Some(weight) => *weight,
            None => 0,
        }
    }

    // Joins the classes of two terms, and tells the name that the lighter one had; none where they are in one class.
    pub(crate) fn join(
        &mut self,
        alloc: Global,
        left: usize,
        right: usize,
        why: Option<usize>,
    ) -> Result<Option<usize>, AllocError>
        ensures joined { IfOk result (λ o. IsJoined self.old self.new left right why o) }
        ensures same { OnErr result (self.new ≡ self.old) }
    {
        if left >= self.term_count() {
            return Ok(None);
        }
        if right >= self.term_count() {
            return Ok(None);
        }
        let a = self.name(left);
        let b = self.name(right);
        if a == b {
            return Ok(None);
        }
        if self.weight(a) <= self.weight(b) {
            self.rename(alloc, a, b, left, right, why)?;
            Ok(Some(a))
        } else {
            self.rename(alloc, b, a, right, left, why)?;
            Ok(Some(b))
        }
    }

    // One more join.
    fn rename(
        &mut self,
        alloc: Global,
        from: usize,
        to: usize,
        left: usize,
        right: usize,
        why: Option<usize>,
    ) -> Result<(), AllocError>
        requires left { name self.old.log left ≡ from }
        requires right { name self.old.log right ≡ to }
        requires apart { from ≢ to }
        requires left_below { left < length self.old.forms }
        requires right_below { right < length self.old.forms }
        ensures forms { self.new.forms ≡ self.old.forms }
        ensures log { OnOk result (HasJoin self.old self.new from to left right why) }
        ensures same { OnErr result (self.new ≡ self.old) }
    {
        let weight = self.weight(to);
        let more = self.weight(from);
        let count = self.users[to].len();
        let number = self.log.len();
        self.log.reserve(1)?;
        add_users(alloc, &mut self.users, from, to)?;
        self.log.push_reserved(Join {
            from,
            to,
            left,
            right,
            why,
            count,
            weight,
        });
        self.ends[from] = Some(number);
        put_weight(&mut self.weights, to, weight.saturating_add(more));
        Ok(())
    }

    // Takes back all but the first joins.
    pub(crate) fn undo(&mut self, count: usize)
        ensures forms { self.new.forms ≡ self.old.forms }
        ensures log { self.new.log ≡ take count self.old.log }
    {
        while self.join_count() > count {
            self.undo_one();
        }
    }

    // Takes back the last join.
    fn undo_one(&mut self)
        requires { 0 < length self.old.log }
        ensures forms { self.new.forms ≡ self.old.forms }
        ensures log { (e : Join) × (self.old.log ≡ self.new.log ++ e ∷ []) }
    {
        if let Some(join) = self.log.pop() {
            cut_users(&mut self.users, join.to, join.count);
            self.ends[join.from] = None;
            put_weight(&mut self.weights, join.to, join.weight);
        }
    }
}
