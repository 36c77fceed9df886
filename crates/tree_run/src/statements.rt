//! Statements.

ghost use Rattle.std.specs.Prelude.{◌≡◌, map, true};
ghost use Rattle.ast.specs.Meaning.{exec, exec_arms, exec_block, exec_plain, given, grown, looped};
ghost use Rattle.ast.specs.Meaning.{read_elements, target, step_value, then_do, turns, written};
ghost use Rattle.ast.specs.Program.{is_placed};
ghost use Rattle.ast.specs.Tree.{arms as arms_tree, assign, loop, read};
ghost use Rattle.ast.specs.View.{access as access_of, arm, block_view, head as head_of};
ghost use Rattle.ast.specs.View.{node as node_of, optional_term, plain_statement as statement_of};
ghost use Rattle.ast.specs.View.{ref, term};
ghost use Rattle.ast.specs.declared.fault.End.TheVariants.{Done};
ghost use Rattle.tree_run.specs.Executing.{holds_at};
ghost use Rattle.tree_run.specs.Placed.{PlacedAccess, PlacedAccesses, PlacedArms, PlacedBlock};
ghost use Rattle.tree_run.specs.Placed.{PlacedHead, PlacedKind, PlacedNode, PlacedOptional};
ghost use Rattle.tree_run.specs.Placed.{PlacedTerm};
ghost use Rattle.tree_run.specs.Runs.{Completes, GivesValue, Reaches, left, run_of, symbols_of};
ghost use Rattle.tree_run.specs.View.{look, store_in, symbols_in};

use crate::expressions::{target, value_at};
use crate::machine::Machine;
use crate::memory::Memory;
use crate::print::print;
use crate::stop::Stop;
use ast::{
    Access, Action, Arm, DoHead, Expr, Fault, Line, Node, PlainStatement, Reference, is_last_stop,
};
use values::{add, trips};

/// Gives an element another value.
fn store(machine: &mut Machine<'_>, line: Line, element: &Access, number: i64) -> Result<(), Stop>
    requires placed { PlacedAccess (symbols_of machine.old) (access_of element.now) }
    ensures reached { Completes result (run_of machine.new)
        (given (target (symbols_of machine.old) (store_in machine.old.memory)
        (access_of element.now)) line (run_of machine.old Done)
        (λ p. written (run_of machine.old Done) (access_of element.now).ref.name p number)) }
    ensures symbols { symbols_of machine.new ≡ symbols_of machine.old }
    ensures input { machine.new.input ≡ machine.old.input }
{
    let place = target(&machine.memory, element).map_err(|fault| Stop::Fault(fault, line))?;
    machine.memory.set(&element.reference, place, number);
    Ok(())
}

/// An assignment: the value of the right side, and then the element that it goes into.
fn assign(
    machine: &mut Machine<'_>,
    line: Line,
    element: &Access,
    expression: &Expr,
) -> Result<(), Stop>
    requires right_side { PlacedTerm (symbols_of machine.old) (term expression.now) }
    requires target { PlacedAccess (symbols_of machine.old) (access_of element.now) }
    ensures reached { Completes result (run_of machine.new)
        (exec_plain (symbols_of machine.old) line
        (assign (access_of element.now) (term expression.now)) (run_of machine.old Done)) }
    ensures symbols { symbols_of machine.new ≡ symbols_of machine.old }
{
    let number = value_at(&machine.memory, line, expression)?;
    store(machine, line, element, number)
}

/// Reads a value for each element, from the integers that are left and the records behind them.
fn read_elements(machine: &mut Machine<'_>, line: Line, elements: &[Access]) -> Result<(), Stop>
    requires placed { PlacedAccesses (symbols_of machine.old) (map access_of elements.now) }
    ensures reached { Reaches result (run_of machine.new)
        (read_elements (symbols_of machine.old) line (map access_of elements.now)
        (left machine.old.input) (run_of machine.old Done)) }
    ensures symbols { symbols_of machine.new ≡ symbols_of machine.old }
{
    for element in elements {
        let number = machine.input.next(line)?;
        store(machine, line, element, number)?;
    }
    Ok(())
}

/// A READ: a record, and then a value for each element.
fn read(machine: &mut Machine<'_>, line: Line, elements: &[Access]) -> Result<(), Stop>
    requires placed { PlacedAccesses (symbols_of machine.old) (map access_of elements.now) }
    ensures reached { Reaches result (run_of machine.new)
        (exec_plain (symbols_of machine.old) line (read (map access_of elements.now))
        (run_of machine.old Done)) }
    ensures symbols { symbols_of machine.new ≡ symbols_of machine.old }
{
    machine.input.take(line)?;
    read_elements(machine, line, elements)
}

/// Executes a statement that holds no others.
fn exec_plain(machine: &mut Machine<'_>, statement: &PlainStatement) -> Result<(), Stop>
    requires placed { PlacedKind (symbols_of machine.old) (statement_of statement.now).kind }
    ensures reached { Reaches result (run_of machine.new)
        (exec_plain (symbols_of machine.old) statement.now.line
        (statement_of statement.now).kind (run_of machine.old Done)) }
    ensures symbols { symbols_of machine.new ≡ symbols_of machine.old }
{
    let line = statement.line;
    match &statement.action {
        Action::Assign(element, expression) => assign(machine, line, element, expression),
        Action::Print(items) => print(machine, line, items),
        Action::Read(elements) => read(machine, line, elements),
        Action::Stop => Err(Stop::Stopped(line)),
        Action::Inert(_) => Ok(()),
    }
}

/// Lets a DO variable grow by the step.
#[tactic(auto, using(ast::proofs::Sizes::some_elements))]
fn grow(machine: &mut Machine<'_>, line: Line, variable: &Reference, step: i64) -> Result<(), Stop>
    requires placed { is_placed (symbols_of machine.old) (ref variable.now) ≡ true }
    ensures reached { Completes result (run_of machine.new)
        (grown line variable.now.name.letters step (run_of machine.old Done)) }
    ensures symbols { symbols_of machine.new ≡ symbols_of machine.old }
{
    let before = machine.memory.load(variable, 0);
    let after = add(before, step).map_err(|fault| Stop::Fault(fault, line))?;
    machine.memory.set(variable, 0, after);
    Ok(())
}

/// Whether an arm's condition is true; an ELSE has none.
fn holds(memory: &Memory<'_>, line: Line, condition: &Option<Expr>) -> Result<bool, Stop>
    requires placed { PlacedOptional (symbols_in memory.now) (optional_term condition.now) }
    ensures { GivesValue result line (holds_at (look memory.now) (optional_term condition.now)) }
{
    match condition {
        None => Ok(true),
        Some(condition) => {
            let truth = value_at(memory, line, condition)?;
            Ok(truth != 0)
        }
    }
}

/// Gives a DO variable its first value.
#[tactic(auto, using(ast::proofs::Sizes::some_elements))]
fn set(machine: &mut Machine<'_>, variable: &Reference, number: i64)
    requires placed { is_placed (symbols_of machine.old) (ref variable.now) ≡ true }
    ensures written { run_of machine.new Done
        ≡ written (run_of machine.old Done) variable.now.name.letters 0 number }
    ensures symbols { symbols_of machine.new ≡ symbols_of machine.old }
{
    machine.memory.set(variable, 0, number);
}

/// The step of a DO, 1 where it is absent.
fn step_value(memory: &Memory<'_>, line: Line, step: &Option<Expr>) -> Result<i64, Stop>
    requires placed { PlacedOptional (symbols_in memory.now) (optional_term step.now) }
    ensures { GivesValue result line (step_value (look memory.now) (optional_term step.now)) }
{
    match step {
        None => Ok(1),
        Some(step) => value_at(memory, line, step),
    }
}

/// Executes nodes in order; a STOP that END follows does what END does.
#[cycle(exec)]
pub fn exec_block(machine: &mut Machine<'_>, block: &[Node]) -> Result<(), Stop>
    requires placed { PlacedBlock (symbols_of machine.old) (block_view block.now) }
    ensures reached { Reaches result (run_of machine.new)
        (exec_block (symbols_of machine.old) (block_view block.now) (run_of machine.old Done)) }
    ensures symbols { symbols_of machine.new ≡ symbols_of machine.old }
{
    for i in 0..block.len() {
        if is_last_stop(&block[i..]) {
            return Ok(());
        }
        exec(machine, &block[i])?;
    }
    Ok(())
}

/// Executes the first arm whose condition is true.
#[cycle(exec)]
fn exec_arms(machine: &mut Machine<'_>, arms: &[Arm]) -> Result<(), Stop>
    requires placed { PlacedArms (symbols_of machine.old) (arms_tree (map arm arms.now)) }
    ensures reached { Reaches result (run_of machine.new)
        (exec_arms (symbols_of machine.old) (arms_tree (map arm arms.now))
        (run_of machine.old Done)) }
    ensures symbols { symbols_of machine.new ≡ symbols_of machine.old }
{
    for arm in arms {
        if holds(&machine.memory, arm.line, &arm.condition)? {
            return exec_block(machine, &arm.body);
        }
    }
    Ok(())
}

/// Goes through a loop's range so many times, the DO variable growing after each.
#[cycle(exec)]
fn turn(
    machine: &mut Machine<'_>,
    line: Line,
    variable: &Reference,
    range: &[Node],
    step: i64,
    trips: u128,
) -> Result<(), Stop>
    requires variable { is_placed (symbols_of machine.old) (ref variable.now) ≡ true }
    requires range { PlacedBlock (symbols_of machine.old) (block_view range.now) }
    ensures reached { Reaches result (run_of machine.new)
        (turns (λ before.
        then_do (exec_block (symbols_of machine.old) (block_view range.now) before)
        (λ after. grown line variable.now.name.letters step after)) trips
        (run_of machine.old Done)) }
    ensures symbols { symbols_of machine.new ≡ symbols_of machine.old }
{
    let mut left = trips;
    while left > 0 {
        exec_block(machine, range)?;
        grow(machine, line, variable, step)?;
        left -= 1;
    }
    Ok(())
}

/// A loop, by its parameters.
#[cycle(exec)]
fn run_loop(
    machine: &mut Machine<'_>,
    line: Line,
    variable: &Reference,
    range: &[Node],
    first: i64,
    last: i64,
    step: i64,
) -> Result<(), Stop>
    requires variable { is_placed (symbols_of machine.old) (ref variable.now) ≡ true }
    requires range { PlacedBlock (symbols_of machine.old) (block_view range.now) }
    ensures reached { Reaches result (run_of machine.new)
        (looped line variable.now.name.letters
        (λ before. exec_block (symbols_of machine.old) (block_view range.now) before) first last
        step (run_of machine.old Done)) }
    ensures symbols { symbols_of machine.new ≡ symbols_of machine.old }
{
    if step == 0 {
        return Err(Stop::Fault(Fault::ZeroStep, line));
    }
    set(machine, variable, first);
    turn(
        machine,
        line,
        variable,
        range,
        step,
        trips(first, last, step),
    )
}

/// A loop: its parameters are evaluated once, from left to right.
#[cycle(exec)]
fn exec_loop(
    machine: &mut Machine<'_>,
    line: Line,
    head: &DoHead,
    range: &[Node],
) -> Result<(), Stop>
    requires head { PlacedHead (symbols_of machine.old) (head_of head.now) }
    requires range { PlacedBlock (symbols_of machine.old) (block_view range.now) }
    ensures reached { Reaches result (run_of machine.new)
        (exec (symbols_of machine.old) (loop line (head_of head.now) (block_view range.now))
        (run_of machine.old Done)) }
    ensures symbols { symbols_of machine.new ≡ symbols_of machine.old }
{
    let first = value_at(&machine.memory, line, &head.first)?;
    let last = value_at(&machine.memory, line, &head.last)?;
    let step = step_value(&machine.memory, line, &head.step)?;
    run_loop(machine, line, &head.variable, range, first, last, step)
}

/// Executes a node.
#[cycle(exec)]
fn exec(machine: &mut Machine<'_>, node: &Node) -> Result<(), Stop>
    requires placed { PlacedNode (symbols_of machine.old) (node_of node.now) }
    ensures reached { Reaches result (run_of machine.new)
        (exec (symbols_of machine.old) (node_of node.now) (run_of machine.old Done)) }
    ensures symbols { symbols_of machine.new ≡ symbols_of machine.old }
{
    match node {
        Node::Plain(statement) => exec_plain(machine, statement),
        Node::Loop(line, head, range) => exec_loop(machine, *line, head, range),
        Node::Choice(arms) => exec_arms(machine, arms),
    }
}
