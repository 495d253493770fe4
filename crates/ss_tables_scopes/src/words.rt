// Names with a fixed meaning.

ghost use Rattle.std.specs.Prelude.{◌≡◌};
ghost use Rattle.ss_tables.specs.Words.{is_console, is_owner, is_print, is_owner_word, is_state_read, is_state_call, is_state_word, is_length};

pub fn is_console(name: &str) -> bool
    ensures { result ≡ is_console name.now }
{
    name == "Console"
}

pub fn is_owner(name: &str) -> bool
    ensures { result ≡ is_owner name.now }
{
    name == "Owner"
}

pub fn is_print(name: &str) -> bool
    ensures { result ≡ is_print name.now }
{
    name == "Write" || name == "WriteLine"
}

pub fn is_owner_word(name: &str) -> bool
    ensures { result ≡ is_owner_word name.now }
{
    name == "None" || name == "Same" || name == "Is"
}

pub fn is_state_read(name: &str) -> bool
    ensures { result ≡ is_state_read name.now }
{
    name == "IsConsistent" || name == "IsCommitted" || name == "IsNew"
}

pub fn is_state_call(name: &str) -> bool
    ensures { result ≡ is_state_call name.now }
{
    name == "IsLevel" || name == "IsPacked"
}

pub fn is_state_word(name: &str) -> bool
    ensures { result ≡ is_state_word name.now }
{
    is_state_read(name) || is_state_call(name)
}

pub fn is_length(name: &str) -> bool
    ensures { result ≡ is_length name.now }
{
    name == "Length"
}
