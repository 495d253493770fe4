// The log.
ghost use Rattle.std.specs.Prelude.{◌≡◌, ◌++◌, ◌∷◌, [], List, is_some, option_copied, OnOk, OnErr};
ghost use Rattle.ss_journal.specs.Shapes as shape;
ghost use Rattle.ss_journal.specs.Undo.{count_of, headers_of, contents_of, header_of, content_of, joined, with_old_header, with_old_content};
ghost use Rattle.ss_journal.specs.Places.{place_of};
ghost use Rattle.ss_journal.specs.Marks.{header_positions, content_positions};
ghost use Rattle.ss_journal.specs.Saved.{AreSame};

use crate::changes::{OldContent, OldHeader, nth_content, nth_header};
use crate::places::Places;
use std::alloc::{AllocError, Global};
use std::marker::Model;

/// The entry of a body: how many objects there were, and how many changes were logged before.
#[derive(Clone, Copy)]
pub(crate) struct Mark {
    count: usize,
    headers: usize,
    contents: usize,
}

/// For each body that runs the number of objects at its entry, and what objects were that changed since then and before the next
/// entry.
#[derive(Drop)]
pub struct Journal {
    /// That of the running body is the last.
    marks: Vec<Mark>,
    headers: Vec<OldHeader>,
    contents: Vec<OldContent>,
    header_places: Places,
    content_places: Places,
}

impl Model for Journal {
    ghost use Rattle.std.specs.Prelude.{List, reverse};
    ghost use Rattle.ss_journal.specs.Shapes.{Segment};
    ghost use Rattle.ss_journal.specs.Marks.{segments, IsLog};

    ghost Value = { List Segment };

    ghost view = { λ j. segments (reverse j.marks.items) j.headers.items j.contents.items };

    ghost invariant = { λ j. IsLog (reverse j.marks.items) j.headers.items j.contents.items j.header_places j.content_places };
}

impl Journal {
    /// A log without entries.
    pub fn new(alloc: Global) -> Journal
        ensures { result ≡ [] }
    {
        Journal {
            marks: Vec::new(alloc),
            headers: Vec::new(alloc),
            contents: Vec::new(alloc),
            header_places: Places::new(alloc),
            content_places: Places::new(alloc),
        }
    }

    /// A body is entered, where there are so many objects. An error is want of memory.
    pub fn enter(&mut self, count: usize) -> Result<(), AllocError>
        ensures entered { OnOk result (self.new ≡ record { count = count; headers = []; contents = [] } ∷ self.old) }
        ensures kept { OnErr result (self.new ≡ self.old) }
    {
        self.marks.push(Mark {
            count,
            headers: self.headers.len(),
            contents: self.contents.len(),
        })?;
        Ok(())
    }

    /// The running body is left: what it changed, its caller changed.
    pub fn leave(&mut self)
        ensures { self.new ≡ joined self.old }
    {
        let _ = self.marks.pop();
    }

    /// How many objects there were at the entry of the running body.
    pub fn count(&self) -> usize
        ensures { result ≡ count_of self.now }
    {
        match self.marks.last() {
            Some(mark) => mark.count,
            None => 0,
        }
    }

    /// What was logged since the entry of the running body.
    pub fn headers(&self) -> &[OldHeader]
        ensures { result.now ≡ headers_of self.now }
    {
        match self.marks.last() {
            Some(mark) => &self.headers[mark.headers..],
            None => &[],
        }
    }

    /// What was logged since the entry of the running body.
    pub fn contents(&self) -> &[OldContent]
        ensures { result.now ≡ contents_of self.now }
    {
        match self.marks.last() {
            Some(mark) => &self.contents[mark.contents..],
            None => &[],
        }
    }

    /// Where the first of the object's entries is among the running body's.
    fn header_place(&self, q: u32) -> Option<usize>
        ensures { result ≡ place_of (header_positions (headers_of self.now)) q }
    {
        match self.marks.last() {
            Some(mark) => self.header_places.first(mark.headers, q),
            None => None,
        }
    }

    /// What the object was at the entry of the running body, where that was logged.
    pub fn old_header(&self, q: u32) -> Option<OldHeader>
        ensures { result ≡ header_of (headers_of self.now) q }
    {
        nth_header(self.headers(), self.header_place(q))
    }

    /// Where the first of the object's entries is among the running body's.
    fn content_place(&self, q: u32) -> Option<usize>
        ensures { result ≡ place_of (content_positions (contents_of self.now)) q }
    {
        match self.marks.last() {
            Some(mark) => self.content_places.first(mark.contents, q),
            None => None,
        }
    }

    /// What the object had at the entry of the running body, where that was logged.
    pub fn old_content(&self, q: u32) -> Option<&OldContent>
        ensures { option_copied result ≡ content_of (contents_of self.now) q }
    {
        nth_content(self.contents(), self.content_place(q))
    }

    /// Whether the object has an entry of the running body's.
    pub(crate) fn is_header_logged(&self, q: u32) -> bool
        ensures { result ≡ is_some (header_of (headers_of self.now) q) }
    {
        match self.marks.last() {
            Some(mark) => self.header_places.has(mark.headers, q),
            None => false,
        }
    }

    pub(crate) fn log_header(&mut self, old: OldHeader) -> Result<(), AllocError>
        ensures logged { OnOk result (self.new ≡ with_old_header old self.old) }
        ensures kept { OnErr result (self.new ≡ self.old) }
    {
        self.header_places.push(old.position)?;
        if let Err(error) = self.headers.push(old) {
            self.header_places.pop();
            return Err(error.into());
        }
        Ok(())
    }

    /// Whether the object has an entry of the running body's.
    pub(crate) fn is_content_logged(&self, q: u32) -> bool
        ensures { result ≡ is_some (content_of (contents_of self.now) q) }
    {
        match self.marks.last() {
            Some(mark) => self.content_places.has(mark.contents, q),
            None => false,
        }
    }

    pub(crate) fn log_content(&mut self, old: OldContent) -> Result<(), AllocError>
        ensures logged { OnOk result (self.new ≡ with_old_content old self.old) }
        ensures kept { OnErr result (self.new ≡ self.old) }
    {
        self.content_places.push(old.position)?;
        if let Err(error) = self.contents.push(old) {
            self.content_places.pop();
            return Err(error.into());
        }
        Ok(())
    }

    /// Whether the object of the running body's last entry has an earlier one.
    fn repeats_header(&self) -> bool
        ensures { (before : List OldHeader) (last : OldHeader) → headers_of self.now ≡ before ++ last ∷ [] → result ≡ is_some (header_of before last.position) }
    {
        match self.marks.last() {
            Some(mark) => self.header_places.repeats(mark.headers),
            None => false,
        }
    }

    /// The last entry of the running body's goes, where its object is new since the entry, or an earlier entry has it.
    fn drop_header(&mut self) -> bool
        ensures { AreSame self.old self.new }
    {
        let Some(last) = self.headers().last() else {
            return false;
        };
        if (last.position as usize) < self.count() && !self.repeats_header() {
            return false;
        }
        let _ = self.headers.pop();
        self.header_places.pop();
        true
    }

    /// Whether the object of the running body's last entry has an earlier one.
    fn repeats_content(&self) -> bool
        ensures { (before : List shape.OldContent) (last : shape.OldContent) → contents_of self.now ≡ before ++ last ∷ [] → result ≡ is_some (content_of before last.position) }
    {
        match self.marks.last() {
            Some(mark) => self.content_places.repeats(mark.contents),
            None => false,
        }
    }

    fn drop_content(&mut self) -> bool
        ensures { AreSame self.old self.new }
    {
        let Some(last) = self.contents().last() else {
            return false;
        };
        if (last.position as usize) < self.count() && !self.repeats_content() {
            return false;
        }
        let _ = self.contents.pop();
        self.content_places.pop();
        true
    }

    fn trim_headers(&mut self)
        ensures { AreSame self.old self.new }
    {
        for _i in 0..self.headers.len() {
            if !self.drop_header() {
                return;
            }
        }
    }

    fn trim_contents(&mut self)
        ensures { AreSame self.old self.new }
    {
        for _i in 0..self.contents.len() {
            if !self.drop_content() {
                return;
            }
        }
    }

    /// Takes the last entries of the running body's out, as long as their objects are new since its entry or earlier entries have
    /// them: the stores at the entries stay.
    pub fn trim(&mut self)
        ensures { AreSame self.old self.new }
    {
        self.trim_headers();
        self.trim_contents();
    }
}
