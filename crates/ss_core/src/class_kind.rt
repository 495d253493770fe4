// What the numbers of classes stand for.

ghost use Rattle.std.specs.Prelude.{◌≡◌};
ghost use Rattle.ss_core.specs.Kinds.{kind_of, place_of, is_array, declared_place, is_array_number, class_place, element_type};

use crate::names::{ClassId, Ty};

/// What the number of a class stands for.
#[derive(Clone, Copy, Debug, PartialEq, Eq)]
pub enum ClassKind {
    /// `object`
    Object,
    /// `int[]`
    Ints,
    /// `bool[]`
    Bools,
    /// `object[]`
    Objects,
    /// The declared class at this place of the table, from 0.
    Declared(usize),
    /// The arrays of that class.
    ArrayOf(usize),
}

impl ClassKind {
    /// What this number of a class stands for.
    pub fn of(number: usize) -> ClassKind
        ensures { result ≡ kind_of number }
    {
        if number >= 4 {
            let place = (number - 4) / 2;
            if number % 2 == 0 {
                return ClassKind::Declared(place);
            }
            return ClassKind::ArrayOf(place);
        }
        match number {
            0 => ClassKind::Object,
            1 => ClassKind::Ints,
            2 => ClassKind::Bools,
            _ => ClassKind::Objects,
        }
    }

    /// The place of the declared class.
    pub fn place(self) -> Option<usize>
        ensures { result ≡ place_of self }
    {
        match self {
            ClassKind::Declared(place) => Some(place),
            _ => None,
        }
    }

    /// Whether it is an array class.
    pub fn is_array(self) -> bool
        ensures { result ≡ is_array self }
    {
        match self {
            ClassKind::Object => false,
            ClassKind::Declared(_) => false,
            _ => true,
        }
    }
}

/// The place of the declared class with this number.
pub fn declared_place(number: usize) -> Option<usize>
    ensures { result ≡ declared_place number }
{
    ClassKind::of(number).place()
}

/// Whether this is the number of an array class.
pub fn is_array_number(number: usize) -> bool
    ensures { result ≡ is_array_number number }
{
    ClassKind::of(number).is_array()
}

impl ClassId {
    /// What the number stands for.
    pub fn kind(self) -> ClassKind
        ensures { result ≡ kind_of self.0 }
    {
        ClassKind::of(usize::from(self.0))
    }

    /// The place of the declared class with this number.
    pub fn place(self) -> Option<usize>
        ensures { result ≡ declared_place self.0 }
    {
        declared_place(usize::from(self.0))
    }

    /// The place in the list of classes, where it is the number of a declared class or of its arrays.
    pub fn list_place(self) -> usize
        ensures { result ≡ class_place self.0 }
    {
        usize::from(self.0).saturating_sub(4) / 2
    }

    /// The type of the elements, where it is the number of an array class. References among them may be null.
    pub fn element_type(self) -> Ty
        ensures { result ≡ element_type self.0 }
    {
        let class = match self.0 {
            1 => return Ty::Int,
            2 => return Ty::Bool,
            3 => ClassId(0),
            array => ClassId(array.saturating_sub(1)),
        };
        Ty::Ref {
            class,
            non_null: false,
        }
    }

    /// Whether it is the number of an array class.
    pub fn is_array(self) -> bool
        ensures { result ≡ is_array_number self.0 }
    {
        is_array_number(usize::from(self.0))
    }
}
