//! Copies of trees and of stores.

ghost use Rattle.std.specs.Prelude.{◌≡◌, ◌∷◌, codes};

use crate::nests::trees_of;
use ast::{
    Access, Action, Bounds, Declarator, Definition, Dimension, Expr, Inert, Intrinsic, Item, Line,
    Name, Operator, PlainStatement, Prefix, Program, RefId, Reference, Refusal, Stmt, Store,
    Symbol, SymbolKind,
};
use expressions::reference_to;
use std::alloc::{AllocError, Global};
use std::process::Abort;
use std::test::Fail;

fn name(letter: u8) -> Name
    ensures { result.letters ≡ letter ∷ codes "     " }
{
    Name {
        letters: [letter, b' ', b' ', b' ', b' ', b' '],
    }
}

fn reference(letter: u8) -> Reference {
    Reference {
        name: name(letter),
        id: RefId(7),
        cell: 4,
    }
}

// ---- expressions

/// -9
fn minus_nine(alloc: Global) -> Result<Expr, AllocError> {
    Ok(Expr::Unary(Prefix::Minus, Box::new(alloc, Expr::Constant(9))?))
}

fn is_minus_nine(expr: &Expr) -> bool {
    match expr {
        Expr::Unary(Prefix::Minus, operand) => matches!(&**operand, Expr::Constant(9)),
        _ => false,
    }
}

/// A(-9)
fn element(alloc: Global) -> Result<Access, AllocError> {
    Ok(Access {
        reference: reference(b'A'),
        subscripts: Vec::from_array(alloc, [minus_nine(alloc)?])?,
    })
}

/// (A(-9))
fn left(alloc: Global) -> Result<Expr, AllocError> {
    let inner = Expr::Element(element(alloc)?);
    Ok(Expr::Parentheses(Box::new(alloc, inner)?))
}

/// MAX(N,.TRUE.), where N is 5
fn right(alloc: Global) -> Result<Expr, AllocError> {
    let arguments = Vec::from_array(alloc, [Expr::Parameter(name(b'N'), 5), Expr::Truth(true)])?;
    Ok(Expr::Call(Intrinsic::Max, arguments))
}

fn boxed(alloc: Global, expr: Expr) -> Result<Box<Expr>, AllocError> {
    Ok(Box::new(alloc, expr)?)
}

/// (A(-9)).EQ.MAX(N,.TRUE.), where N is 5
fn comparison(alloc: Global) -> Result<Expr, AllocError> {
    let first = boxed(alloc, left(alloc)?)?;
    let second = boxed(alloc, right(alloc)?)?;
    Ok(Expr::Binary(Operator::Equal, first, second))
}

fn is_element(access: &Access, reference: Reference) -> bool {
    access.reference == reference
        && match access.subscripts.as_slice() {
            [subscript] => is_minus_nine(subscript),
            _ => false,
        }
}

fn is_left(expr: &Expr) -> bool {
    match expr {
        Expr::Parentheses(inner) => match &**inner {
            Expr::Element(access) => is_element(access, reference(b'A')),
            _ => false,
        },
        _ => false,
    }
}

fn is_right(expr: &Expr) -> bool {
    match expr {
        Expr::Call(Intrinsic::Max, arguments) => match arguments.as_slice() {
            [Expr::Parameter(n, 5), Expr::Truth(holds)] => *holds && *n == name(b'N'),
            _ => false,
        },
        _ => false,
    }
}

fn is_comparison(expr: &Expr) -> bool {
    match expr {
        Expr::Binary(Operator::Equal, left, right) => is_left(left) && is_right(right),
        _ => false,
    }
}

/// Whether the copy of a comparison is right.
fn is_copied(alloc: Global, expr: &Expr) -> Result<bool, AllocError> {
    let copy = expr.try_copy(alloc)?;
    Ok(is_comparison(&copy))
}

#[test]
fn want_of_memory_in_expressions(rt: HostRuntime) -> Result<(), Fail> {
    let expr = comparison(rt.alloc())?;
    match is_copied(rt.alloc(), &expr) {
        Ok(is_right) => assert!(rt; is_right),
        Err(error) => {
            assert!(rt; matches!(is_copied(rt.alloc(), &expr), Ok(true)));
            return Err(error.into());
        }
    }
    Ok(())
}

// ---- statements, each on a line of its own, and labelled by twice that

/// A statement of each kind that holds no others.
const STATEMENTS: &[u8] = b"    2 PROGRAM P
    4 INTEGER A(-9:1)
    6 DIMENSION A(-9:1)
    8 PARAMETER (N=-9)
   10 A(-9)=-9
   12 CONTINUE
   14 PRINT *,-9,'OK'
   16 READ *,A(-9)
   18 STOP
   20 END
";

/// A(-9:1)
fn is_declarator(declared: &[Declarator]) -> bool {
    match declared {
        [Declarator { name: own, bounds }] => *own == name(b'A')
            && match bounds.as_slice() {
                [
                    Bounds {
                        lower: Some(lower),
                        upper: Expr::Constant(1),
                    },
                ] => is_minus_nine(lower),
                _ => false,
            },
        _ => false,
    }
}

fn is_definition(defined: &[Definition]) -> bool {
    match defined {
        [definition] => definition.name == name(b'N') && is_minus_nine(&definition.value),
        _ => false,
    }
}

/// A(-9)=-9
fn is_assignment(target: &Access, value: &Expr) -> bool {
    is_element(target, reference_to(name(b'A'))) && is_minus_nine(value)
}

fn are_items(items: &[Item]) -> bool {
    match items {
        [Item::Value(value), Item::Text(text)] => is_minus_nine(value)
            && text.as_slice() == b"OK".as_slice(),
        _ => false,
    }
}

fn are_elements(elements: &[Access]) -> bool {
    match elements {
        [element] => is_element(element, reference_to(name(b'A'))),
        _ => false,
    }
}

/// Whether this is what stands on its line.
fn is_inert(line: Line, inert: &Inert) -> bool {
    match inert {
        Inert::Program(own) => line == 1 && *own == name(b'P'),
        Inert::Integer(declared) => line == 2 && is_declarator(declared),
        Inert::Dimension(declared) => line == 3 && is_declarator(declared),
        Inert::Parameter(defined) => line == 4 && is_definition(defined),
        Inert::Continue => line == 6,
        Inert::End => line == 10,
    }
}

/// Whether this is what stands on its line.
fn is_action(line: Line, action: &Action) -> bool {
    match action {
        Action::Assign(target, value) => line == 5 && is_assignment(target, value),
        Action::Print(items) => line == 7 && are_items(items),
        Action::Read(elements) => line == 8 && are_elements(elements),
        Action::Stop => line == 9,
        Action::Inert(inert) => is_inert(line, inert),
    }
}

fn is_statement(statement: &PlainStatement) -> bool {
    statement.label == Some(statement.line.wrapping_mul(2))
        && is_action(statement.line, &statement.action)
}

/// The statements of [`STATEMENTS`].
fn plain_statements(alloc: Global) -> Result<Vec<PlainStatement>, Refusal> {
    let mut list = Vec::new(alloc);
    for stmt in trees_of(alloc, STATEMENTS)? {
        let Stmt { line, label, kind } = stmt;
        list.push(PlainStatement {
            line,
            label,
            action: Action::of(kind),
        })?;
    }
    Ok(list)
}

/// Adds copies of statements.
fn add_copies(
    alloc: Global,
    list: &[PlainStatement],
    made: &mut Vec<PlainStatement>,
) -> Result<(), AllocError> {
    for statement in list {
        made.push(statement.try_copy(alloc)?)?;
    }
    Ok(())
}

fn are_right(given: &[PlainStatement], count: usize) -> bool {
    given.len() == count && given.iter().all(is_statement)
}

/// Whether copies of statements are right.
fn are_copied(alloc: Global, list: &[PlainStatement]) -> Result<bool, AllocError> {
    let mut made = Vec::with_capacity(alloc, list.len())?;
    add_copies(alloc, list, &mut made)?;
    Ok(are_right(&made, list.len()))
}

fn copy_each(rt: &impl Abort, alloc: Global, list: &[PlainStatement]) -> Result<(), AllocError> {
    match are_copied(alloc, list) {
        Ok(is_right) => assert!(*rt; is_right),
        Err(error) => {
            assert!(*rt; matches!(are_copied(alloc, list), Ok(true)));
            return Err(error);
        }
    }
    Ok(())
}

#[test]
fn want_of_memory_in_statements(rt: HostRuntime) -> Result<(), Fail> {
    let list = plain_statements(rt.alloc())?;
    assert!(&rt; list.len() == 10);
    Ok(copy_each(&rt, rt.alloc(), &list)?)
}

// ---- stores

/// A program with an array, a scalar and a constant
fn program(alloc: Global) -> Result<Program, AllocError> {
    let dimension = Dimension {
        lower: -1,
        upper: 1,
    };
    let array = Symbol {
        name: name(b'A'),
        kind: SymbolKind::Variable(Vec::from_slice(alloc, &[dimension])?),
    };
    let scalar = Symbol {
        name: name(b'K'),
        kind: SymbolKind::Variable(Vec::new(alloc)),
    };
    let constant = Symbol {
        name: name(b'N'),
        kind: SymbolKind::Constant(5),
    };
    Ok(Program {
        symbols: Vec::from_array(alloc, [array, scalar, constant])?,
        body: Vec::new(alloc),
        statements: 1,
    })
}

fn is_store(store: &Store) -> bool {
    store.len() == 3
        && store.value(name(b'A'), 2) == Some(0)
        && store.value(name(b'A'), 3).is_none()
        && store.value(name(b'K'), 0) == Some(0)
        && store.value(name(b'N'), 0).is_none()
        && store.value(name(b'B'), 0).is_none()
}

/// Whether the store of a program is right.
fn has_store(alloc: Global, program: &Program) -> Result<bool, AllocError> {
    let store = Store::zeros(alloc, &program.symbols)?;
    Ok(is_store(&store))
}

#[test]
fn want_of_memory_in_stores(rt: HostRuntime) -> Result<(), Fail> {
    let given = program(rt.alloc())?;
    match has_store(rt.alloc(), &given) {
        Ok(is_right) => assert!(rt; is_right),
        Err(error) => {
            assert!(rt; matches!(has_store(rt.alloc(), &given), Ok(true)));
            return Err(error.into());
        }
    }
    Ok(())
}
