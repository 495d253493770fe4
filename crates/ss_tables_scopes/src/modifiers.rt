// Attributes of members, and words before methods.

ghost use Rattle.std.specs.Prelude.{◌≡◌, map};
ghost use Rattle.ss_ast.specs.Expressions.{name_tree};
ghost use Rattle.ss_tables.specs.Members.{has_attribute, is_static_word, is_override_word, is_open_word, word_of};

use ss_ast::{Modifier, ModifierWord, Name};

/// Whether an attribute of this name is written.
pub fn has_attribute(name: &str, attributes: &[Name]) -> bool
    ensures { result ≡ has_attribute name.now (map name_tree attributes.now) }
{
    for attribute in attributes {
        if name == attribute.text.as_str() {
            return true;
        }
    }
    false
}

// The word `static`, `virtual` or `override` of a method; of several the first counts.
fn word_of(modifiers: &[Modifier]) -> Option<ModifierWord>
    ensures { result ≡ word_of modifiers.now }
{
    match modifiers {
        [first, ..] => Some(first.word),
        [] => None,
    }
}

/// Whether the word is `static`.
pub fn is_static_word(modifiers: &[Modifier]) -> bool
    ensures { result ≡ is_static_word (word_of modifiers.now) }
{
    match word_of(modifiers) {
        Some(ModifierWord::Static) => true,
        Some(ModifierWord::Virtual | ModifierWord::Override) | None => false,
    }
}

/// Whether the word is `override`.
pub fn is_override_word(modifiers: &[Modifier]) -> bool
    ensures { result ≡ is_override_word (word_of modifiers.now) }
{
    match word_of(modifiers) {
        Some(ModifierWord::Override) => true,
        Some(ModifierWord::Static | ModifierWord::Virtual) | None => false,
    }
}

/// Whether the word lets a class below replace the method: `virtual` or `override`.
pub fn is_open_word(modifiers: &[Modifier]) -> bool
    ensures { result ≡ is_open_word (word_of modifiers.now) }
{
    match word_of(modifiers) {
        Some(ModifierWord::Virtual | ModifierWord::Override) => true,
        Some(ModifierWord::Static) | None => false,
    }
}
