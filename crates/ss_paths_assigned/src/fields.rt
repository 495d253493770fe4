// The fields of a class, by number.

ghost use Rattle.std.specs.Prelude.{◌≡◌, ◌++◌, ◌+◌, List, ◌∷◌, IfOk, length, map, option_map, slice_get};
ghost use Rattle.ss_core.specs.Tree.{ClassTree};
ghost use Rattle.ss_core.specs.View.{class_of, classes};
ghost use Rattle.ss_core.specs.Chain.{fields_of};
ghost use Rattle.ss_typed.specs.View.{members, typed};
ghost use Rattle.ss_paths.specs.Fields.{field_count, field_numbers, is_among};
ghost use Rattle.ss_typed.specs.Lookups.{class_place};
ghost use Rattle.ss_paths_assigned.specs.Numbered.{firsts_from};

use ss_core::{Class, ClassId, FieldId};
use ss_typed::{Typed, TypedClass};
use std::alloc::{AllocError, Global};

/// The numbers of the fields that a class declares: the first one, and how many there are.
#[derive(Clone, Copy, Debug, PartialEq, Eq)]
pub struct Numbers {
    pub first: usize,
    pub count: usize,
}

impl Numbers {
    ghost use Rattle.ss_paths_assigned.specs.Codes.{numbers_of};

    /// Whether the field is one of these.
    pub fn is_among(self, field: FieldId) -> bool
        ensures { result ≡ is_among (numbers_of self) field.0 }
    {
        let number = field.0 as usize;
        self.first <= number && number - self.first < self.count
    }
}

/// The entry of a class in the table of classes.
pub fn class_at(program: &Typed, class: ClassId) -> Option<&Class>
    ensures { option_map (λ c. class_of c.now) result ≡ slice_get (typed program.now).classes (class_place class.0) }
{
    program.classes.list.get(class.list_place())
}

/// What a class has beside that entry.
pub fn members_at(program: &Typed, class: ClassId) -> Option<&TypedClass>
    ensures { option_map (λ m. members m.now) result ≡ slice_get (typed program.now).members (class_place class.0) }
{
    program.members.get(class.list_place())
}

// How many fields a class declares.
fn field_count(class: &Class) -> usize
    ensures { result ≡ field_count (class_of class.now) }
{
    class.fields.len()
}

// The number that a class's first field has goes into the list; the one after its last field is answered. More fields than a
// word counts don't fit into memory.
fn add_class(firsts: &mut Vec<usize>, next: usize, class: &Class) -> Result<usize, AllocError>
    ensures { IfOk result (λ n. (rest : List ClassTree) → firsts.new.items ++ firsts_from n rest ≡ firsts.old.items ++ firsts_from next (class_of class.now ∷ rest)) }
{
    firsts.push(next)?;
    let behind = next.checked_add(field_count(class)).ok_or(AllocError)?;
    Ok(behind)
}

// Where the fields of each class begin.
fn first_numbers(alloc: Global, classes: &[Class]) -> Result<Vec<usize>, AllocError>
    ensures { IfOk result (λ v. v.items ≡ firsts_from 0 (map class_of classes.now)) }
{
    let mut firsts = Vec::new(alloc);
    let mut next = 0;
    for class in classes {
        next = add_class(&mut firsts, next, class)?;
    }
    firsts.push(next)?;
    Ok(firsts)
}

/// The fields of a program, found by number at once.
#[derive(Drop)]
pub struct Fields<'p> {
    pub program: &'p Typed,
    firsts: Vec<usize>,
    ghost counted: { firsts.items ≡ firsts_from 0 (classes program.now.classes) },
}

impl<'p> Fields<'p> {
    ghost use Rattle.ss_paths_assigned.specs.Codes.{numbers_of};

    /// Those of this program.
    pub fn new(alloc: Global, program: &'p Typed) -> Result<Self, AllocError>
        ensures { IfOk result (λ f. typed f.program.now ≡ typed program.now) }
    {
        let firsts = first_numbers(alloc, &program.classes.list)?;
        Ok(Fields { program, firsts })
    }

    /// The numbers of the fields that a class declares.
    pub fn numbers(&self, class: ClassId) -> Numbers
        ensures { numbers_of result ≡ field_numbers (typed self.now.program.now) class.0 }
    {
        Numbers {
            first: self.first(class),
            count: count_fields(class_at(self.program, class)),
        }
    }

    fn first(&self, class: ClassId) -> usize
        ensures { result ≡ (field_numbers (typed self.now.program.now) class.0).first }
    {
        let place = class.list_place().min(self.program.classes.list.len());
        self.firsts[place]
    }
}

// How many fields a class declares, where there is one.
fn count_fields(class: Option<&Class>) -> usize
    ensures { result ≡ length (fields_of (option_map (λ c. class_of c.now) class.entry)) }
{
    match class {
        Some(class) => field_count(class),
        None => 0,
    }
}
