// An expression along a path.

ghost use Rattle.std.specs.Prelude.{◌≡◌, option_map};
ghost use Rattle.ss_tables_lookup.specs.Views.{type_of};
ghost use Rattle.ss_tables_scopes.specs.Views.{receiver_of};
ghost use Rattle.ss_resolver_expressions.specs.Environments.{env_of, part_type, part_receiver, part_view};

use crate::context::ResolutionContext;
use crate::local_names::LocalNames;
use ss_core::Place;
use ss_tables_lookup::StaticType;
use ss_tables_scopes::{Receiver, name_receiver, name_type, read_type};
use ss_typed::TypedExpr;

/// An expression before what may stand after it.
#[derive(Drop)]
pub enum Part<'p> {
    /// A bare name.
    Name(Place, &'p str),
    /// The word `base`.
    Base(Place),
    /// A member after a dot: what stands before it, with its static type and its tree.
    Member {
        place: Place,
        receiver: Receiver,
        ty: Option<StaticType>,
        object: Box<TypedExpr>,
        name: &'p str,
    },
    /// Any other, with its static type and its tree.
    Other(Option<StaticType>, Box<TypedExpr>),
}

/// Its static type.
pub fn part_type(
    context: &ResolutionContext<'_, '_>,
    names: &LocalNames,
    part: &Part<'_>,
) -> Option<StaticType>
    ensures { option_map type_of result ≡ part_type (env_of context.now names.now) (part_view part.now) }
{
    match part {
        Part::Name(_, name) => name_type(context.within, names.names(), name),
        Part::Base(_) => None,
        Part::Member { receiver, name, .. } => read_type(context.within.tables, name, *receiver),
        Part::Other(ty, _) => *ty,
    }
}

/// What it is before a dot.
pub fn part_receiver(
    context: &ResolutionContext<'_, '_>,
    names: &LocalNames,
    part: &Part<'_>,
) -> Receiver
    ensures { receiver_of result ≡ part_receiver (env_of context.now names.now) (part_view part.now) }
{
    match part {
        Part::Name(_, name) => {
            let ty = name_type(context.within, names.names(), name);
            name_receiver(context.within, names.names(), name, ty)
        }
        Part::Base(_) => Receiver::Base,
        Part::Member { receiver, name, .. } => {
            Receiver::Value(read_type(context.within.tables, name, *receiver))
        }
        Part::Other(ty, _) => Receiver::Value(*ty),
    }
}
