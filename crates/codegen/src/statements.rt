//! Code of statements that hold no others.

ghost use Rattle.std.specs.Prelude.{◌≡◌, ◌++◌, ◌∷◌, [], IfOk, OnOk, length, map};
ghost use Rattle.ast.specs.View.{access as access_of, action as action_of, item as item_of, term};
ghost use Rattle.codegen.specs.Emitted.{elements_code, items_code, kind_code, kind_records};
ghost use Rattle.codegen.specs.Emitted.{parts_of, stored_code};
ghost use Rattle.codegen.specs.Records.{pieces_of, records_of};
ghost use Rattle.expr_code.specs.Emitted.{instr, short, term_code};
ghost use Rattle.machine.specs.CodeView.{part};
ghost use Rattle.machine.specs.declared.instr.Act.TheVariants.{DropRecord, Print, TakeRecord};
ghost use Rattle.expr_code.specs.PlacesView.{places_of};

use ast::{Access, Action, Expr, Item, Line};
use expr_code::{Places, emit, emit_place, short};
use machine::{Act, Instr, Piece};
use std::alloc::{AllocError, Global};

/// Appends an instruction.
pub fn put(code: &mut Vec<Instr>, line: Line, act: Act) -> Result<(), AllocError>
    ensures { OnOk result (code.new.items ≡ code.old.items ++ instr line act ∷ []) }
{
    code.push(Instr { line, act })?;
    Ok(())
}

/// The places of a statement of a line.
pub fn on<'p>(places: &Places<'p>, line: Line) -> Places<'p>
    ensures { places_of result ≡ record (places_of places.now) { line = line } }
{
    Places {
        program: places.program,
        privates: places.privates,
        loop_name: places.loop_name,
        line,
    }
}

/// A variable is given the operand.
fn store(access: &Access, places: &Places<'_>, code: &mut Vec<Instr>) -> Result<(), AllocError>
    ensures { OnOk result (code.new.items ≡ code.old.items
        ++ stored_code (places_of places.now) (access_of access.now)) }
{
    emit_place(access, places, code)?;
    put(code, places.line, places.store(&access.reference))
}

/// The values of a PRINT's items.
fn values(items: &[Item], places: &Places<'_>, code: &mut Vec<Instr>) -> Result<(), AllocError>
    ensures { OnOk result (code.new.items ≡ code.old.items
        ++ items_code (places_of places.now) (map item_of items.now)) }
{
    for item in items {
        match item {
            Item::Value(expression) => emit(expression, places, code)?,
            Item::Text(_) => {}
        }
    }
    Ok(())
}

fn piece(alloc: Global, item: &Item) -> Result<Piece, AllocError>
    ensures { IfOk result (λ p. part p ∷ [] ≡ parts_of (item_of item.now ∷ [])) }
{
    match item {
        Item::Value(_) => Ok(Piece::Operand),
        Item::Text(text) => Ok(Piece::Text(Vec::from_slice(alloc, text)?)),
    }
}

/// The parts of a PRINT's record.
fn pieces(alloc: Global, items: &[Item]) -> Result<Vec<Piece>, AllocError>
    ensures { IfOk result (λ v. pieces_of v ≡ parts_of (map item_of items.now)) }
{
    let mut pieces = Vec::with_capacity(alloc, items.len())?;
    for item in items {
        pieces.push(piece(alloc, item)?)?;
    }
    Ok(pieces)
}

/// The elements of a READ, value by value.
fn elements(
    targets: &[Access],
    places: &Places<'_>,
    code: &mut Vec<Instr>,
) -> Result<(), AllocError>
    ensures { OnOk result (code.new.items ≡ code.old.items
        ++ elements_code (places_of places.now) (map access_of targets.now)) }
{
    for target in targets {
        put(code, places.line, Act::TakeValue)?;
        store(target, places, code)?;
    }
    Ok(())
}

/// An assignment.
fn assign(
    target: &Access,
    expression: &Expr,
    places: &Places<'_>,
    code: &mut Vec<Instr>,
) -> Result<(), AllocError>
    ensures { OnOk result (code.new.items ≡ code.old.items
        ++ (term_code (places_of places.now) (term expression.now)
        ++ stored_code (places_of places.now) (access_of target.now))) }
{
    emit(expression, places, code)?;
    store(target, places, code)
}

/// A PRINT: its record stands behind those that stand there.
fn print(
    alloc: Global,
    items: &[Item],
    places: &Places<'_>,
    records: &mut Vec<Vec<Piece>>,
    code: &mut Vec<Instr>,
) -> Result<(), AllocError>
    ensures code { OnOk result (code.new.items ≡ code.old.items
        ++ (items_code (places_of places.now) (map item_of items.now)
        ++ instr (places_of places.now).line (Print (short (length records.old.items))) ∷ [])) }
    ensures records { OnOk result (records_of records.new ≡ records_of records.old
        ++ parts_of (map item_of items.now) ∷ []) }
{
    values(items, places, code)?;
    let number = short(records.len());
    records.push(pieces(alloc, items)?)?;
    put(code, places.line, Act::Print(number))
}

/// A READ.
fn read(targets: &[Access], places: &Places<'_>, code: &mut Vec<Instr>) -> Result<(), AllocError>
    ensures { OnOk result (code.new.items ≡ code.old.items
        ++ (instr (places_of places.now).line TakeRecord
        ∷ (elements_code (places_of places.now) (map access_of targets.now)
        ++ instr (places_of places.now).line DropRecord ∷ []))) }
{
    put(code, places.line, Act::TakeRecord)?;
    elements(targets, places, code)?;
    put(code, places.line, Act::DropRecord)
}

/// Appends the code of a statement that holds no others, and the record that it prints, if it is a
/// PRINT. Other statements have none.
pub fn emit_plain(
    alloc: Global,
    action: &Action,
    places: &Places<'_>,
    records: &mut Vec<Vec<Piece>>,
    code: &mut Vec<Instr>,
) -> Result<(), AllocError>
    ensures code { OnOk result (code.new.items ≡ code.old.items
        ++ kind_code (places_of places.now) (length records.old.items) (action_of action.now)) }
    ensures records { OnOk result (records_of records.new ≡ records_of records.old
        ++ kind_records (action_of action.now)) }
{
    match action {
        Action::Assign(target, expression) => assign(target, expression, places, code),
        Action::Print(items) => print(alloc, items, places, records, code),
        Action::Read(targets) => read(targets, places, code),
        Action::Stop => put(code, places.line, Act::Stop),
        Action::Inert(_) => Ok(()),
    }
}
