// Where the statements stand to which obligations belong.

use ss_terms::TermId;
use ss_vcgen_builder::Builder;
use std::alloc::{AllocError, Global};

/// Where a statement stands: the term of each local that has a value there, by the local's number, and the term of the store.
#[derive(Drop)]
pub struct Located {
    pub locals: Vec<Option<TermId>>,
    pub store: TermId,
}

/// The obligations that are watched, by their numbers in the program, and where the statements of the first of them stand.
#[derive(Drop)]
pub(crate) struct Watch {
    alloc: Global,
    numbers: Vec<usize>,
    pub(crate) found: Vec<Located>,
    // The obligations of the bodies before.
    before: usize,
    // The locals and the store at the last statement; before the first one nothing is listed.
    locals: Vec<Option<TermId>>,
    store: TermId,
}

impl Watch {
    /// Nothing was found of these.
    pub(crate) fn new(alloc: Global, numbers: Vec<usize>) -> Self {
        Watch {
            alloc,
            numbers,
            found: Vec::new(alloc),
            before: 0,
            locals: Vec::new(alloc),
            store: TermId(0),
        }
    }

    // How many of the watched obligations were listed when so many were.
    fn listed(&self, count: usize) -> usize {
        let mut listed = 0usize;
        for number in &self.numbers {
            if *number < count {
                listed = listed.saturating_add(1);
            }
        }
        listed
    }

    /// Looks at the position before a statement, or after the last one of a list. What was listed since the last look belongs to the
    /// position where that was.
    pub(crate) fn see(&mut self, builder: &Builder) -> Result<(), AllocError> {
        if self.found.len() >= self.numbers.len() {
            return Ok(());
        }
        let count = self.before.saturating_add(builder.list.len());
        for _ in self.found.len()..self.listed(count) {
            let locals = Vec::from_slice(self.alloc, &self.locals)?;
            let store = self.store;
            self.found.push(Located { locals, store })?;
        }
        self.locals = Vec::from_slice(self.alloc, &builder.locals)?;
        self.store = builder.store;
        Ok(())
    }

    /// The next obligations are those of another body.
    pub(crate) fn leave_body(&mut self, builder: &Builder) {
        self.before = self.before.saturating_add(builder.list.len());
    }
}
