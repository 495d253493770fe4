// The words after the command.
ghost use Rattle.std.specs.Prelude.{◌≡◌, Some, map, string_bytes, IfOk};
ghost use Rattle.ss_top_words.specs.Views.{reading_of, IsRead};
ghost use Rattle.ss_top_words.specs.Words as meaning;

use crate::options::{Options, Taken};
use std::alloc::{AllocError, Global};

// What they have said so far.
#[derive(Drop)]
pub struct Reading<'w> {
    pub positional: Vec<&'w str>,
    pub options: Options,
}

impl<'w> Reading<'w> {
    pub fn new(alloc: Global) -> Reading<'w>
        ensures { reading_of result ≡ meaning.first_reading }
    {
        Reading {
            positional: Vec::new(alloc),
            options: Options::none(),
        }
    }

    // One more word; false where it can't stand there.
    fn read(&mut self, word: &'w str) -> Result<bool, AllocError>
        ensures { IfOk result (λ is_read. IsRead is_read (reading_of self.new) (meaning.read (reading_of self.old) word.now)) }
    {
        match self.options.take(word) {
            Taken::Positional => {
                self.positional.push(word)?;
                Ok(true)
            }
            Taken::TakenAs(options) => {
                self.options = options;
                Ok(true)
            }
            Taken::Refused => Ok(false),
        }
    }

    // The words one after the other; false where one can't stand there.
    pub fn read_all(&mut self, words: &'w [String]) -> Result<bool, AllocError>
        ensures { IfOk result (λ is_read. IsRead is_read (reading_of self.new) (meaning.read_all (Some (reading_of self.old)) (map string_bytes words.now))) }
    {
        let mut rest = words;
        while let [word, behind @ ..] = rest {
            if !self.read(word.as_str())? {
                return Ok(false);
            }
            rest = behind;
        }
        Ok(true)
    }
}
