// Whether words ask for something, without memory.
ghost use Rattle.std.specs.Prelude.{◌≡◌, ◌<◌, ◌+◌, ◌-◌, ◌^◌, ◌==◌, ◌&&◌, nat_le, Some, is_some, map, string_bytes};
ghost use Rattle.ss_top_words.specs.Views.{options_of, IsSketchOf, IsSketched, AsksFor};
ghost use Rattle.ss_top_words.specs.Words as meaning;

use crate::numbers::whole;
use crate::options::{Options, Taken};
use crate::{Command, MOST_NUMBERS};

// The options, how many words are positional, and whether all after the first are numbers.
#[derive(Clone, Copy, Debug, PartialEq, Eq)]
pub struct Sketch {
    pub options: Options,
    pub count: usize,
    pub numbers: bool,
}

impl Sketch {
    fn new() -> Self
        ensures { IsSketchOf result meaning.first_reading }
    {
        Sketch {
            options: Options::none(),
            count: 0,
            numbers: true,
        }
    }

    // One more positional word.
    fn with_positional(self, word: &str) -> Self
        requires { self.count + 1 < 2 ^ 64 }
        ensures { (r : meaning.Reading) → IsSketchOf self r → IsSketchOf result (meaning.with_positional r word.now) }
    {
        Sketch {
            count: self.count + 1,
            numbers: self.count == 0 || self.numbers && whole(word.as_bytes()).is_some(),
            ..self
        }
    }

    // One more word, or nothing where it can't stand there.
    fn read(self, word: &str) -> Option<Self>
        requires { self.count + 1 < 2 ^ 64 }
        ensures { (r : meaning.Reading) → IsSketchOf self r → IsSketched result (meaning.read r word.now) }
    {
        match self.options.take(word) {
            Taken::Positional => Some(self.with_positional(word)),
            Taken::TakenAs(options) => Some(Sketch { options, ..self }),
            Taken::Refused => None,
        }
    }
}

// The words after the command, one after the other; nothing where one can't stand there.
fn sketched(words: &[String]) -> Option<Sketch>
    ensures { IsSketched result (meaning.read_all (Some meaning.first_reading) (map string_bytes words.now)) }
{
    let _total = words.len();
    let mut sketch = Sketch::new();
    let mut rest = words;
    while let [word, behind @ ..] = rest {
        sketch = sketch.read(word.as_str())?;
        rest = behind;
    }
    Some(sketch)
}

impl Sketch {
    // Whether that is a file alone, with options of the command.
    fn is_file_alone(self, command: Command) -> bool
        ensures { result ≡ (self.count == 1 && meaning.takes command (options_of self.options)) }
    {
        self.count == 1 && self.options.stand_with(command)
    }

    // Whether that is a file with the numbers of an input.
    fn is_file_with_input(self) -> bool
        ensures { result ≡ (nat_le 1 self.count && (nat_le (self.count - 1) meaning.most_numbers && self.numbers)) }
    {
        self.count >= 1 && self.count - 1 <= MOST_NUMBERS && self.numbers
    }

    // Whether that is what the command wants.
    fn asks(self, command: Command) -> bool
        ensures { (r : meaning.Reading) → IsSketchOf self r → AsksFor command r result }
    {
        if self.options.wants.is_some() {
            return false;
        }
        match command {
            Command::Verify | Command::Expand => self.is_file_alone(command),
            Command::Run | Command::RunUnverified => self.is_file_with_input(),
        }
    }
}

// Whether the words after a command are those of one.
pub fn are_asked(command: Command, words: &[String]) -> bool
    ensures { result ≡ is_some (meaning.complete (Some command) (meaning.read_all (Some meaning.first_reading) (map string_bytes words.now))) }
{
    match sketched(words) {
        Some(sketch) => sketch.asks(command),
        None => false,
    }
}
