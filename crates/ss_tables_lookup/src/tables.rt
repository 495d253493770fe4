// The classes of a program, and their members, found by name at once.

ghost use Rattle.std.specs.Prelude.{◌≡◌, ◌<◌, IfOk, IfSome, length, map, option_map, option_and_then, slice_get};
ghost use Rattle.ss_tables_lookup.specs.Classes.{trees};
ghost use Rattle.ss_tables.specs.Members.{field_in, method_in};
ghost use Rattle.ss_tables_lookup.specs.Places.{places_of};
ghost use Rattle.ss_tables.specs.Named.{named_in};
ghost use Rattle.ss_tables_lookup.specs.Shelves.{class_names, shelf, shelves};
ghost use Rattle.ss_tables_lookup.specs.Views.{field_tree, method_tree, declared_field, declared_method};
ghost use Rattle.ss_tables_lookup.specs.Shelved.{shelf_of};

use crate::members::{FieldRef, MethodRef};
use crate::named::NameMap;
use crate::places::class_places;
use crate::shelves::{Shelf, fill_shelf};
use crate::types::StaticType;
use ss_ast::{ClassDecl, TypeName, TypeRef};
use std::alloc::{AllocError, Global};
use std::marker::Model;

/// The classes of a program. A declared class is told by its place in the text, from 0.
#[derive(Drop)]
pub struct Tables<'p> {
    classes: &'p [ClassDecl],
    names: NameMap<usize>,
    shelves: Vec<Shelf<'p>>,
}

impl<'p> Model for Tables<'p> {
    ghost use Rattle.std.specs.Prelude.{List, map};
    ghost use Rattle.ss_ast.specs.declared.class.ClassDecl.{ClassDecl as ClassValue};
    ghost use Rattle.ss_tables_lookup.specs.Shelves.{IsShelved};
    ghost use Rattle.ss_tables_lookup.specs.Shelved.{shelf_of};
    ghost use Rattle.ss_tables_lookup.specs.Classes.{trees};
    ghost use Rattle.std.specs.Coded.{codes};
    ghost use Rattle.ss_ast.specs.contracts.expr.Expr as expr;
    ghost use Rattle.ss_ast.specs.contracts.stmt.Block as block;

    ghost Value = { List ClassValue };

    ghost coded = { Prim.hlevel (codes, expr.the_row.coded, block.the_row.coded) };

    ghost view = { λ t. t.classes.now };

    ghost invariant = { λ t. IsShelved (trees t.classes.now) t.names (map shelf_of t.shelves.items) };
}

// The shelf of each class.
fn fill_shelves<'p>(
    alloc: Global,
    names: &NameMap<usize>,
    classes: &'p [ClassDecl],
) -> Result<Vec<Shelf<'p>>, AllocError>
    requires { names.now ≡ places_of (class_names (trees classes.now)) }
    ensures { IfOk result (λ v. map shelf_of v.items ≡ shelves (trees classes.now)) }
{
    let mut list = Vec::new(alloc);
    for class in classes {
        list.push(fill_shelf(alloc, names, classes, class)?)?;
    }
    Ok(list)
}

// The shelf at a place.
fn shelf_at<'a, 'p>(shelves: &'a [Shelf<'p>], place: usize) -> Option<&'a Shelf<'p>>
    ensures { option_map (λ s. shelf_of s.now) result ≡ slice_get (map shelf_of shelves.now) place }
{
    shelves.get(place)
}

// The field of this name among those of a shelf.
fn field_on<'p>(shelf: &Shelf<'p>, name: &str) -> Option<FieldRef<'p>>
    ensures { option_map field_tree result ≡ option_and_then (slice_get (shelf_of shelf.now).fields) (named_in (shelf_of shelf.now).field_places name.now) }
{
    match shelf.field_places.find(name) {
        Some(place) => shelf.fields.get(place).copied(),
        None => None,
    }
}

// The method of this name.
fn method_on<'p>(shelf: &Shelf<'p>, name: &str) -> Option<MethodRef<'p>>
    ensures { option_map method_tree result ≡ option_and_then (slice_get (shelf_of shelf.now).methods) (named_in (shelf_of shelf.now).method_places name.now) }
{
    match shelf.method_places.find(name) {
        Some(place) => shelf.methods.get(place).copied(),
        None => None,
    }
}

impl<'p> Tables<'p> {
    ghost use Rattle.ss_ast.specs.Expressions.{type_name_tree, type_tree};
    ghost use Rattle.ss_tables.specs.Types.{reference, named_type, array_type, written_type};
    ghost use Rattle.ss_tables_lookup.specs.Views.{type_of};
    ghost use Rattle.ss_tables.specs.Classes.{class_named, class_number, array_number, above, members_at, chain_from, first_field, first_method, field_of, method_of, inherited_field, inherited_method};

    /// The tables of these classes.
    pub fn new(alloc: Global, classes: &'p [ClassDecl]) -> Result<Self, AllocError>
        ensures { IfOk result (λ t. t ≡ classes.now) }
    {
        let names = class_places(alloc, classes)?;
        let shelves = fill_shelves(alloc, &names, classes)?;
        Ok(Tables {
            classes,
            names,
            shelves,
        })
    }

    /// How many classes there are.
    pub fn len(&self) -> usize
        ensures { result ≡ length (trees self.now) }
    {
        self.classes.len()
    }

    /// The class of this name; of two of one name the first.
    pub fn class_named(&self, name: &str) -> Option<usize>
        ensures class { result ≡ class_named (trees self.now) name.now }
        ensures within { IfSome result (λ k. k < length (trees self.now)) }
    {
        self.names.find(name)
    }

    /// What is kept of a class.
    pub fn shelf(&self, class: usize) -> Option<&Shelf<'p>>
        ensures { option_map (λ s. shelf_of s.now) result ≡ option_map (shelf (trees self.now)) (slice_get (trees self.now) class) }
    {
        shelf_at(&self.shelves, class)
    }

    /// The declared class directly above a class; None where that is `object`, or no class of the program.
    pub fn above(&self, class: usize) -> Option<usize>
        ensures { result ≡ above (trees self.now) class }
    {
        match self.shelf(class) {
            Some(shelf) => shelf.above,
            None => None,
        }
    }

    /// The field of this name that a class itself declares.
    pub fn own_field(&self, class: usize, name: &str) -> Option<FieldRef<'p>>
        ensures { option_map field_tree result ≡ field_in (members_at (trees self.now) class) name.now }
    {
        match self.shelf(class) {
            Some(shelf) => field_on(shelf, name),
            None => None,
        }
    }

    /// The method of this name that a class itself declares.
    pub fn own_method(&self, class: usize, name: &str) -> Option<MethodRef<'p>>
        ensures { option_map method_tree result ≡ method_in (members_at (trees self.now) class) name.now }
    {
        match self.shelf(class) {
            Some(shelf) => method_on(shelf, name),
            None => None,
        }
    }

    // The first field of the name in a class or one above it.
    fn field_from(&self, start: Option<usize>, name: &str) -> Option<(usize, FieldRef<'p>)>
        ensures { option_map declared_field result ≡ first_field (trees self.now) name.now (chain_from (trees self.now) (length (trees self.now)) start) }
    {
        let mut next = start;
        for step in 0..self.len() {
            let Some(class) = next else {
                return None;
            };
            if let Some(field) = self.own_field(class, name) {
                return Some((class, field));
            }
            next = self.above(class);
        }
        None
    }

    // The first method of the name in a class or one above it.
    fn method_from(&self, start: Option<usize>, name: &str) -> Option<(usize, MethodRef<'p>)>
        ensures { option_map declared_method result ≡ first_method (trees self.now) name.now (chain_from (trees self.now) (length (trees self.now)) start) }
    {
        let mut next = start;
        for step in 0..self.len() {
            let Some(class) = next else {
                return None;
            };
            if let Some(method) = self.own_method(class, name) {
                return Some((class, method));
            }
            next = self.above(class);
        }
        None
    }

    /// The field of this name that a class has, with the class that declares it.
    pub fn field_of(&self, class: usize, name: &str) -> Option<(usize, FieldRef<'p>)>
        ensures { option_map declared_field result ≡ field_of (trees self.now) class name.now }
    {
        self.field_from(Some(class), name)
    }

    /// The method of this name that a class has.
    pub fn method_of(&self, class: usize, name: &str) -> Option<(usize, MethodRef<'p>)>
        ensures { option_map declared_method result ≡ method_of (trees self.now) class name.now }
    {
        self.method_from(Some(class), name)
    }

    /// The field of this name that a class has from those above it.
    pub fn inherited_field(&self, class: usize, name: &str) -> Option<(usize, FieldRef<'p>)>
        ensures { option_map declared_field result ≡ inherited_field (trees self.now) class name.now }
    {
        self.field_from(self.above(class), name)
    }

    /// The method of this name that a class has from those above it.
    pub fn inherited_method(&self, class: usize, name: &str) -> Option<(usize, MethodRef<'p>)>
        ensures { option_map declared_method result ≡ inherited_method (trees self.now) class name.now }
    {
        self.method_from(self.above(class), name)
    }

    /// The number of a declared class.
    pub fn class_number(&self, class: usize) -> usize
        requires { class < length (trees self.now) }
        ensures { result ≡ class_number class }
    {
        let _count = self.classes.len();
        4 + 2 * class
    }

    /// The number of the arrays of a declared class.
    pub fn array_number(&self, class: usize) -> usize
        requires { class < length (trees self.now) }
        ensures { result ≡ array_number class }
    {
        let _count = self.classes.len();
        5 + 2 * class
    }

    /// The type of the class of this name.
    pub fn class_type(&self, non_null: bool, name: &str) -> Option<StaticType>
        ensures { option_map type_of result ≡ option_map (λ k. reference non_null (class_number k)) (class_named (trees self.now) name.now) }
    {
        match self.class_named(name) {
            Some(class) => Some(StaticType::Ref {
                class: self.class_number(class),
                non_null,
            }),
            None => None,
        }
    }

    // The type of the arrays of the class of this name.
    fn class_array_type(&self, non_null: bool, name: &str) -> Option<StaticType>
        ensures { option_map type_of result ≡ option_map (λ k. reference non_null (array_number k)) (class_named (trees self.now) name.now) }
    {
        match self.class_named(name) {
            Some(class) => Some(StaticType::Ref {
                class: self.array_number(class),
                non_null,
            }),
            None => None,
        }
    }

    /// The type that a type's name means; none where there is no class of the name.
    pub fn named_type(&self, non_null: bool, name: &TypeName) -> Option<StaticType>
        ensures { option_map type_of result ≡ named_type (trees self.now) non_null (type_name_tree name.now) }
    {
        match name {
            TypeName::Int => Some(StaticType::Int),
            TypeName::Bool => Some(StaticType::Bool),
            TypeName::Object => Some(StaticType::Ref { class: 0, non_null }),
            TypeName::Class(name) => self.class_type(non_null, name.as_str()),
        }
    }

    /// The type of arrays of it.
    pub fn array_type(&self, non_null: bool, name: &TypeName) -> Option<StaticType>
        ensures { option_map type_of result ≡ array_type (trees self.now) non_null (type_name_tree name.now) }
    {
        match name {
            TypeName::Int => Some(StaticType::Ref { class: 1, non_null }),
            TypeName::Bool => Some(StaticType::Ref { class: 2, non_null }),
            TypeName::Object => Some(StaticType::Ref { class: 3, non_null }),
            TypeName::Class(name) => self.class_array_type(non_null, name.as_str()),
        }
    }

    /// The type that a written type means.
    pub fn written_type(&self, ty: &TypeRef) -> Option<StaticType>
        ensures { option_map type_of result ≡ written_type (trees self.now) (type_tree ty.now) }
    {
        if ty.is_array {
            self.array_type(ty.non_null, &ty.name)
        } else {
            self.named_type(ty.non_null, &ty.name)
        }
    }
}
