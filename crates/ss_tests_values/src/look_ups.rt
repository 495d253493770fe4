// Two classes, built by hand.

use ss_ast::{
    Block, ClassDecl, Declaration, Declarator, Member, MemberKind, Method, Name, TypeName, TypeRef,
};
use ss_core::Place;
use ss_tables_lookup::{StaticType, Tables};
use std::alloc::{AllocError, Global};
use std::test::Fail;

const HERE: Place = Place { line: 1, column: 1 };

fn name(alloc: Global, text: &str) -> Result<Name, AllocError> {
    Ok(Name {
        text: String::from_str(alloc, text)?,
        place: HERE,
    })
}

fn int() -> TypeRef {
    TypeRef {
        place: HERE,
        name: TypeName::Int,
        is_array: false,
        non_null: false,
    }
}

fn member(alloc: Global, kind: MemberKind) -> Member {
    Member {
        attributes: Vec::new(alloc),
        modifiers: Vec::new(alloc),
        kind,
    }
}

fn field(alloc: Global, text: &str) -> Result<Member, AllocError> {
    let declarator = Declarator {
        name: name(alloc, text)?,
        initial: None,
    };
    let declaration = Declaration {
        ty: int(),
        declarators: vec![in alloc; declarator]?,
    };
    Ok(member(alloc, MemberKind::Fields(declaration)))
}

fn method(alloc: Global, text: &str) -> Result<Member, AllocError> {
    let method = Method {
        returns: None,
        name: name(alloc, text)?,
        params: Vec::new(alloc),
        clauses: Vec::new(alloc),
        body: Block {
            place: HERE,
            statements: Vec::new(alloc),
            end: HERE,
        },
    };
    Ok(member(alloc, MemberKind::Method(method)))
}

fn members_of_a(alloc: Global) -> Result<Vec<Member>, AllocError> {
    let mut members = Vec::new(alloc);
    members.push(field(alloc, "x")?)?;
    members.push(method(alloc, "M")?)?;
    Ok(members)
}

fn class_a(alloc: Global) -> Result<ClassDecl, AllocError> {
    let a = name(alloc, "A")?;
    let members = members_of_a(alloc)?;
    Ok(ClassDecl {
        name: a,
        above: None,
        members,
    })
}

fn class_b(alloc: Global) -> Result<ClassDecl, AllocError> {
    let a = name(alloc, "A")?;
    let b = name(alloc, "B")?;
    let y = field(alloc, "y")?;
    let members = vec![in alloc; y]?;
    Ok(ClassDecl {
        name: b,
        above: Some(a),
        members,
    })
}

// `class A { int x; void M() { } } class B : A { int y; }`
fn classes(alloc: Global) -> Result<Vec<ClassDecl>, AllocError> {
    let mut list = Vec::new(alloc);
    list.push(class_a(alloc)?)?;
    list.push(class_b(alloc)?)?;
    Ok(list)
}

fn names_are_found(tables: &Tables<'_>) -> bool {
    tables.len() == 2
        && tables.class_named("B") == Some(1)
        && tables.class_named("C") == None
        && tables.above(1) == Some(0)
        && tables.above(0) == None
        && tables.field_of(1, "x").map(|f| f.0) == Some(0)
        && tables.field_of(1, "y").map(|f| f.0) == Some(1)
        && tables.field_of(0, "y").map(|f| f.0) == None
        && tables.inherited_method(1, "M").map(|m| m.0) == Some(0)
        && tables.inherited_method(0, "M").map(|m| m.0) == None
}

fn types_are_those_of_classes(tables: &Tables<'_>, b: &TypeName, c: &TypeName) -> bool {
    let one = StaticType::Ref {
        class: 6,
        non_null: true,
    };
    let many = StaticType::Ref {
        class: 7,
        non_null: false,
    };
    tables.written_type(&int()) == Some(StaticType::Int)
        && tables.named_type(true, b) == Some(one)
        && tables.array_type(false, b) == Some(many)
        && tables.named_type(false, c) == None
}

fn are_found(alloc: Global, classes: &[ClassDecl]) -> Result<[bool; 2], AllocError> {
    let b = TypeName::Class(String::from_str(alloc, "B")?);
    let c = TypeName::Class(String::from_str(alloc, "C")?);
    let tables = Tables::new(alloc, classes)?;
    let names = names_are_found(&tables);
    let types = types_are_those_of_classes(&tables, &b, &c);
    Ok([names, types])
}

#[test]
fn names_and_types_are_found(rt: HostRuntime) -> Result<(), Fail> {
    let classes = classes(rt.alloc())?;
    let found = are_found(rt.alloc(), &classes)?;
    assert_eq!(rt; found, [true, true]);
    Ok(())
}
