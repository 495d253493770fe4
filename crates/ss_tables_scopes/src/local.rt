// Locals.

ghost use Rattle.std.specs.Prelude.{◌≡◌, option_map};
ghost use Rattle.ss_tables_lookup.specs.Views.{type_of};

use crate::scopes::NameScopes;
use ss_tables_lookup::StaticType;
use std::marker::Model;

/// A local, parameter or bound name: its type, where that is written with a class of the program, and whether it is a parameter.
#[derive(Clone, Copy)]
pub struct LocalInfo {
    pub ty: Option<StaticType>,
    pub is_param: bool,
}

impl Model for LocalInfo {
    ghost use Rattle.ss_tables.specs.Scopes.{Local};

    ghost Value = { Local };

    ghost use Rattle.ss_tables_scopes.specs.Locals.{local_of, info_of, info_back};

    ghost view = { local_of };

    ghost inverse = { info_of };

    ghost inverse_ok = { λ l h. info_back l };
}

/// The type of a local.
pub fn local_type(local: LocalInfo) -> Option<StaticType>
    ensures { option_map type_of result ≡ local.ty }
{
    local.ty
}

/// Whether a local is a parameter.
pub fn is_parameter(local: LocalInfo) -> bool
    ensures { result ≡ local.is_param }
{
    local.is_param
}

/// The locals of the scopes.
pub type Scopes = NameScopes<LocalInfo>;
