//! Code of whole programs.

ghost use Rattle.std.specs.Prelude.{◌≡◌, ◌≤◌, IfErr, IfOk, length, map, true};
ghost use Rattle.std.specs.List.{list_all};
ghost use Rattle.ast.specs.ProgramView.{program as program_of};
ghost use Rattle.ast.specs.Symbols.{is_sized};
ghost use Rattle.ast.specs.View.{symbol};
ghost use Rattle.codegen.specs.Headline.{Bounded, Carried, Ends, Headline};
ghost use Rattle.codegen.specs.Made.{all_made, made_of, main_made};
ghost use Rattle.codegen.specs.OpenedView.{opens_in};
ghost use Rattle.codegen.specs.Program.{IsCodeOf, IsCompiled, Refuses, RefusesWith, most_symbols};
ghost use Rattle.codegen.specs.Promises.{AwaitsAreKept, IsOpened, StatesAreAlone, StoresAreMeant};
ghost use Rattle.codegen.specs.Reports.{Reports, planned_in};
ghost use Rattle.expr_code.specs.Computes.{variables_for, variables_in};
ghost use Rattle.loop_tree.specs.TreeView.{loops_seen};
ghost use Rattle.machine.specs.CodeView.{code_of};
ghost use Rattle.machine.specs.Laid.{are_laid};

use crate::nodes::emit_block;
use crate::opened::Opened;
use crate::ranges::{Made, emit_ranges, variables_of};
use crate::reports::{LoopReport, reports};
use crate::rooms::{loops_of_block, of_block};
use crate::statements::put;
use ast::{Program, Refusal, Rule, Symbol};
use expr_code::Places;
use expr_code::room::greater;
use loop_tree::{LoopTree, ScalarSet, loops};
use machine::{Act, Code, Parts, Variable};
use std::alloc::{AllocError, Global};

/// The most instructions that code may have.
const MOST_INSTRUCTIONS: usize = 1_048_576;

/// The most symbols that a program with code may have: as many as 32 bits number.
const MOST_SYMBOLS: usize = 4_294_967_296;

/// The program's code would be too long; no line is at fault.
const TOO_LONG: Refusal = Refusal::Refused {
    number: Rule::LongCode,
    line: 0,
};

/// The code's variables: the cells of each name begin behind those of the names before it.
fn variables(alloc: Global, symbols: &[Symbol]) -> Result<Vec<Variable>, AllocError>
    requires sized { list_all is_sized (map symbol symbols.now) ≡ true }
    requires few { length symbols.now ≤ most_symbols }
    ensures names { IfOk result (λ variables. variables_in variables.items
        ≡ variables_for (map symbol symbols.now)) }
    ensures laid { IfOk result (λ variables. are_laid 0 variables.items ≡ true) }
{
    let mut variables = Vec::with_capacity(alloc, symbols.len())?;
    let mut start = 0;
    for symbol in symbols {
        let size = symbol.kind.size();
        variables.push(Variable {
            name: symbol.name,
            start,
            size,
        })?;
        start += size;
    }
    Ok(variables)
}

/// What main does.
fn emit_main(alloc: Global, program: &Program, opened: &Opened) -> Result<Made, AllocError>
    ensures { IfOk result (λ made. made_of made
        ≡ main_made (program_of program.now) (opens_in opened.now)) }
{
    let privates = ScalarSet {
        names: Vec::new(alloc),
    };
    let places = Places {
        program,
        privates: &privates,
        loop_name: None,
        line: 0,
    };
    let mut records = Vec::new(alloc);
    let mut instructions = Vec::new(alloc);
    emit_block(
        alloc,
        &program.body,
        opened,
        &places,
        &mut records,
        &mut instructions,
    )?;
    put(&mut instructions, 0, Act::Halt)?;
    Ok(Made {
        instructions,
        records,
        awaits: Vec::new(alloc),
        loops: Vec::new(alloc),
    })
}

/// What main does, and behind it the ranges of the loops that are opened.
fn emit_all(
    alloc: Global,
    program: &Program,
    tree: &LoopTree<'_>,
    reports: &[LoopReport],
) -> Result<Made, AllocError>
    requires count { length reports.now ≡ length (loops_seen tree.now) }
    ensures { IfOk result (λ made. made_of made
        ≡ all_made (program_of program.now) (planned_in (loops_seen tree.now) reports.now)) }
{
    let variables = variables_of(alloc, tree, reports)?;
    let opened = Opened::new(alloc, &variables)?;
    let mut made = emit_main(alloc, program, &opened)?;
    emit_ranges(alloc, program, tree, reports, &mut made)?;
    Ok(made)
}

/// The code of a program, of whose loops these are the reports.
fn whole(
    alloc: Global,
    program: &Program,
    tree: &LoopTree<'_>,
    reports: &[LoopReport],
) -> Result<Code, Refusal>
    requires count { length reports.now ≡ length (loops_seen tree.now) }
    ensures code { IfOk result (λ code.
        IsCodeOf (program_of program.now) (planned_in (loops_seen tree.now) reports.now)
        (code_of code)) }
    ensures refused { IfErr result
        (RefusesWith (program_of program.now) (planned_in (loops_seen tree.now) reports.now)) }
{
    let made = emit_all(alloc, program, tree, reports)?;
    let operands = of_block(&program.body);
    let counters = loops_of_block(&program.body);
    let room = greater(operands, counters);
    if made.instructions.len() > MOST_INSTRUCTIONS
        || program.symbols.len() > MOST_SYMBOLS
        || room == u32::MAX
    {
        return Err(TOO_LONG);
    }
    let parts = Parts {
        instructions: made.instructions,
        records: made.records,
        awaits: made.awaits,
        variables: variables(alloc, &program.symbols)?,
        loops: made.loops,
        operands: operands as usize,
        counters: counters as usize,
    };
    match Code::new(alloc, parts) {
        Ok(Some(code)) => Ok(code),
        Ok(None) => Err(TOO_LONG),
        Err(_) => Err(Refusal::Memory),
    }
}

/// A program's code, and what is reported of its loops, in order.
#[derive(Drop)]
pub struct Compiled {
    pub code: Code,
    pub reports: Vec<LoopReport>,
}

/// The code of a program, with a report of each of its loops. Those that may be open have plans
/// that the check accepts, and are opened: their iterations are run at once. Main runs the others
/// alone, one trip after another.
///
/// # Errors
///
/// `LongCode` (61) at line 0 where the code would have more than 1,048,576 instructions or want
/// room for 4,294,967,295 values or more, or the program has more than 4,294,967,296 symbols; and
/// want of memory.
pub fn compile(alloc: Global, program: &Program) -> Result<Compiled, Refusal>
    ensures code { IfOk result (λ c. IsCompiled (program_of program.now) (code_of c.code)) }
    ensures opened { IfOk result (λ c. IsOpened (program_of program.now) c) }
    ensures headline { IfOk result (λ c. Headline (code_of c.code) (program_of program.now)) }
    ensures ends { IfOk result (λ c. Ends (code_of c.code)) }
    ensures bounded { IfOk result (λ c. Bounded (code_of c.code) (program_of program.now)) }
    ensures carried { IfOk result (λ c. Carried (code_of c.code) (program_of program.now)) }
    ensures states { IfOk result (λ c. StatesAreAlone (program_of program.now) c) }
    ensures on_the_way { IfOk result (λ c. StoresAreMeant (program_of program.now) c) }
    ensures awaits { IfOk result (λ c. AwaitsAreKept (program_of program.now) c) }
    ensures reports { IfOk result (λ c. Reports (program_of program.now) c.reports.items) }
    ensures refused { IfErr result (Refuses (program_of program.now)) }
{
    let tree = loops(alloc, program)?;
    let reports = reports(alloc, &tree)?;
    let code = whole(alloc, program, &tree, &reports)?;
    Ok(Compiled { code, reports })
}
