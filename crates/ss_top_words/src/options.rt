// The options among the words after the command.
ghost use Rattle.std.specs.Prelude.{◌≡◌, ◌≤◌, is_some};
ghost use Rattle.ss_top_words.specs.Views.{options_of, taken_of};
ghost use Rattle.ss_top_words.specs.declared.number_options.NumberOption.TheVariants.{Steps};
ghost use Rattle.ss_top_words.specs.Words as meaning;

use crate::number_options::NumberOption;
use crate::numbers::natural;
use crate::{Command, DEFAULT_LIMITS, DEFAULT_STEPS, Limits};

// What the words have said so far beside the positional ones.
#[derive(Clone, Copy, Debug, PartialEq, Eq)]
pub struct Options {
    pub steps: Option<u64>,
    pub rounds: Option<u8>,
    pub splits: Option<u64>,
    pub instances: Option<u32>,
    pub unverified: bool,
    // the next word is the number of this option
    pub wants: Option<NumberOption>,
    // `--` was there
    pub ended: bool,
}

// What one more word is.
#[derive(Clone, Copy, Debug, PartialEq, Eq)]
pub enum Taken {
    Positional,
    // an option or its value, with what has been said then
    TakenAs(Options),
    // it can't stand there
    Refused,
}

impl Options {
    pub fn none() -> Self
        ensures { options_of result ≡ meaning.no_options }
    {
        Options {
            steps: None,
            rounds: None,
            splits: None,
            instances: None,
            unverified: false,
            wants: None,
            ended: false,
        }
    }

    // How many steps a run has at most.
    pub fn most_steps(self) -> u64
        ensures { result ≡ meaning.chosen Steps (options_of self) }
    {
        self.steps.unwrap_or(DEFAULT_STEPS)
    }

    // How far verification searches.
    pub fn limits(self) -> Limits
        ensures { result ≡ meaning.limits_of (options_of self) }
    {
        Limits {
            rounds: self.rounds.unwrap_or(DEFAULT_LIMITS.rounds),
            splits: self.splits.unwrap_or(DEFAULT_LIMITS.splits),
            instances: self.instances.unwrap_or(DEFAULT_LIMITS.instances),
        }
    }

    fn is_without_run(self) -> bool
        ensures { result ≡ meaning.is_without_run (options_of self) }
    {
        self.steps.is_none() && !self.unverified
    }

    fn is_without_limits(self) -> bool
        ensures { result ≡ meaning.is_without_limits (options_of self) }
    {
        self.rounds.is_none() && self.splits.is_none() && self.instances.is_none()
    }

    // Whether the command takes them.
    pub fn stand_with(self, command: Command) -> bool
        ensures { result ≡ meaning.takes command (options_of self) }
    {
        match command {
            Command::Verify => self.is_without_run(),
            Command::Run | Command::RunUnverified => true,
            Command::Expand => self.is_without_run() && self.is_without_limits(),
        }
    }

    fn has(self, option: NumberOption) -> bool
        ensures { result ≡ is_some (meaning.given option (options_of self)) }
    {
        match option {
            NumberOption::Steps => self.steps.is_some(),
            NumberOption::Rounds => self.rounds.is_some(),
            NumberOption::Splits => self.splits.is_some(),
            NumberOption::Instances => self.instances.is_some(),
        }
    }

    fn with_number(self, option: NumberOption, number: u64) -> Self
        requires { number ≤ meaning.most_of option }
        ensures { options_of result ≡ meaning.with_number option (options_of self) number }
    {
        let mut options = Options {
            wants: None,
            ..self
        };
        match option {
            NumberOption::Steps => options.steps = Some(number),
            NumberOption::Rounds => options.rounds = Some(number as u8),
            NumberOption::Splits => options.splits = Some(number),
            NumberOption::Instances => options.instances = Some(number as u32),
        }
        options
    }

    fn with_value(self, option: NumberOption, value: &[u8]) -> Taken
        ensures { taken_of result ≡ meaning.with_value option (options_of self) value.now }
    {
        match natural(option.most(), value) {
            Some(number) => Taken::TakenAs(self.with_number(option, number)),
            None => Taken::Refused,
        }
    }

    // The option of this name, where it has no number yet.
    fn new_option(self, name: &str) -> Option<NumberOption>
        ensures { result ≡ meaning.unless_given (options_of self) (meaning.option_named name.now) }
    {
        match NumberOption::named(name) {
            Some(option) if !self.has(option) => Some(option),
            _ => None,
        }
    }

    // An option that has a number.
    fn number_option(self, word: &str) -> Taken
        ensures { taken_of result ≡ meaning.number_option (options_of self) word.now }
    {
        match word.split_once('=') {
            Some((name, value)) => match self.new_option(name) {
                Some(option) => self.with_value(option, value.as_bytes()),
                None => Taken::Refused,
            },
            None => match self.new_option(word) {
                Some(option) => Taken::TakenAs(Options {
                    wants: Some(option),
                    ..self
                }),
                None => Taken::Refused,
            },
        }
    }

    fn option(self, word: &str) -> Taken
        ensures { taken_of result ≡ meaning.option (options_of self) word.now }
    {
        if word == "--" {
            return Taken::TakenAs(Options {
                ended: true,
                ..self
            });
        }
        if word == "--unverified" && !self.unverified {
            return Taken::TakenAs(Options {
                unverified: true,
                ..self
            });
        }
        self.number_option(word)
    }

    // What one more word is.
    #[tactic(auto, unfolding(crate::specs::Words::taken))]
    pub fn take(self, word: &str) -> Taken
        ensures { taken_of result ≡ meaning.taken (options_of self) word.now }
    {
        if let Some(option) = self.wants {
            return self.with_value(option, word.as_bytes());
        }
        if !self.ended && word.starts_with('-') {
            return self.option(word);
        }
        Taken::Positional
    }
}
