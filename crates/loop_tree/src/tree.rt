//! The loops of a program.

ghost use Rattle.std.specs.Prelude.{◌≡◌, map, true};
ghost use Rattle.std.specs.List.{list_all};
ghost use Rattle.ast.specs.References.{are_numbered};
ghost use Rattle.loop_tree.specs.Collecting.{loops_in};
ghost use Rattle.loop_tree.specs.CollectedView.{collected as collected_of, loop_shown};
ghost use Rattle.loop_tree.specs.Told.{are_in_turn, are_told, known, references as refs};
ghost use Rattle.loop_tree.specs.View.{occurrence};
ghost use Rattle.std.proofs.Props.{props};

use crate::collecting::{Collected, Info};
use crate::finding::{numbered, part};
use crate::occurrence::Occurrence;
use ast::{DoHead, Line, Node, RefId, Reference};
use std::alloc::Global;

/// The loops of a program, numbered from 1 in the order of the text.
pub struct LoopTree<'p> {
    collected: Collected<'p>,
    ghost numbered: { are_numbered 0 (refs (collected_of collected).references) ≡ true } by { Prim.hlevel props },
    ghost told: { list_all (λ l. are_told (known l)) (loops_in (collected_of collected)) ≡ true } by { Prim.hlevel props },
}

impl Drop for LoopTree<'_> {
    fn drop(self) {
        let LoopTree { collected: _ } = self;
    }
}

/// One of the loops of a program.
#[derive(Clone, Copy)]
pub struct LoopView<'t, 'p> {
    tree: &'t LoopTree<'p>,
    info: &'t Info<'p>,
    /// Those of its range.
    references: &'t [Occurrence<'p>],
    ghost in_turn: { are_in_turn (refs (loop_shown info.now references.now).references) ≡ true } by { Prim.hlevel props },
    ghost told: { are_told (known (loop_shown info.now references.now)) ≡ true } by { Prim.hlevel props },
}

impl<'p> LoopTree<'p> {
    ghost use Rattle.std.specs.Prelude.{◌≡◌, ◌≤◌, IfSome, Some, length, map, option_map, true};
    ghost use Rattle.std.specs.List.{list_all};
    ghost use Rattle.ast.specs.References.{are_numbered};
    ghost use Rattle.loop_tree.specs.Collecting.{loop_by, loops_in};
    ghost use Rattle.loop_tree.specs.CollectedView.{collected as collected_of, span};
    ghost use Rattle.loop_tree.specs.Loops.{loop_numbered};
    ghost use Rattle.loop_tree.specs.Told.{are_told, known, references};
    ghost use Rattle.loop_tree.specs.TreeView.{all_seen, lines_seen, loops_seen, references_seen};
    ghost use Rattle.loop_tree.specs.TreeView.{seen};
    ghost use Rattle.loop_tree.specs.View.{occurrence};

    /// The tree of what was collected.
    pub(crate) fn new(collected: Collected<'p>) -> LoopTree<'p>
        requires numbered { are_numbered 0 (references (collected_of collected).references) ≡ true }
        requires told { list_all (λ l. are_told (known l)) (loops_in (collected_of collected))
            ≡ true }
        ensures { result.collected ≡ collected.entry }
    {
        LoopTree { collected }
    }

    /// How many loops the program has.
    pub fn count(&self) -> usize
        ensures { result ≡ length (loops_seen self.now) }
    {
        self.collected.loops.len()
    }

    /// The references of the program, in order of evaluation, in which they are numbered from 0.
    pub fn references(&self) -> &[Occurrence<'p>]
        ensures all { map occurrence result.now ≡ references_seen self.now }
        ensures numbered { are_numbered 0 (references (references_seen self.now)) ≡ true }
    {
        &self.collected.references
    }

    /// The line of each statement of the program.
    pub fn lines(&self) -> &[Line]
        ensures { result.now ≡ lines_seen self.now }
    {
        &self.collected.lines
    }

    /// A view of a loop.
    fn shown<'t>(&'t self, info: &'t Info<'p>) -> LoopView<'t, 'p>
        requires { are_told (known (loop_by (references_seen self.now) (span info.now))) ≡ true }
        ensures seen { seen result ≡ loop_by (references_seen self.now) (span info.now) }
        ensures tree { all_seen result ≡ loops_seen self.now }
    {
        LoopView {
            tree: self,
            info,
            references: part(&self.collected.references, info.first, info.last),
        }
    }

    /// The loop of a number, from 1 to the count.
    #[tactic(auto, using(crate::proofs::Ends::loop_found, crate::proofs::Ends::told_at))]
    pub fn view<'t>(&'t self, number: usize) -> LoopView<'t, 'p>
        requires above { 1 ≤ number }
        requires within { number ≤ length (loops_seen self.now) }
        ensures seen { loop_numbered (loops_seen self.now) number ≡ Some (seen result) }
        ensures tree { all_seen result ≡ loops_seen self.now }
    {
        self.shown(&self.collected.loops[number - 1])
    }

    /// The loop of a number, if there is one.
    fn find<'t>(&'t self, number: usize) -> Option<LoopView<'t, 'p>>
        ensures found { option_map seen result ≡ loop_numbered (loops_seen self.now) number }
        ensures tree { IfSome result (λ view. all_seen view ≡ loops_seen self.now) }
    {
        if number == 0 || number > self.count() {
            None
        } else {
            Some(self.view(number))
        }
    }
}

impl<'t, 'p> LoopView<'t, 'p> {
    ghost use Rattle.std.specs.Prelude.{◌≡◌, ◌<◌, IfSome, length, map, option_map, true, ℕ};
    ghost use Rattle.ast.specs.View.{block_view, head as head_of, ref};
    ghost use Rattle.loop_tree.specs.Loops.{has_cell, loop_around};
    ghost use Rattle.loop_tree.specs.Occurrences.{numbered};
    ghost use Rattle.loop_tree.specs.Told.{are_in_turn, are_told, known, references};
    ghost use Rattle.loop_tree.specs.TreeView.{all_seen, seen};
    ghost use Rattle.loop_tree.specs.View.{occurrence};

    /// The number of the loop around this one, if it is in one.
    pub fn outer(&self) -> Option<usize>
        ensures { result ≡ (seen self.now).around }
    {
        self.info.around
    }

    /// The loop around this one, if it is in one.
    pub fn around(&self) -> Option<LoopView<'t, 'p>>
        ensures found { option_map seen result ≡ loop_around (all_seen self.now) (seen self.now) }
        ensures tree { IfSome result (λ outer. all_seen outer ≡ all_seen self.now) }
    {
        match self.info.around {
            Some(number) => self.tree.find(number),
            None => None,
        }
    }

    /// How many loops the program has.
    pub fn count(&self) -> usize
        ensures { result ≡ length (all_seen self.now) }
    {
        self.tree.count()
    }

    /// The number of its DO among the program's statements, from 0.
    pub fn statement(&self) -> usize
        ensures { result ≡ (seen self.now).statement }
    {
        self.info.statement
    }

    /// The line of its DO.
    pub fn line(&self) -> Line
        ensures { result ≡ (seen self.now).line }
    {
        self.info.line
    }

    /// What its DO says.
    pub fn head(&self) -> &'p DoHead
        ensures { head_of result.now ≡ (seen self.now).head }
    {
        self.info.head
    }

    /// Its range, the terminal statement included.
    pub fn body(&self) -> &'p [Node]
        ensures { block_view result.now ≡ (seen self.now).body }
    {
        self.info.body
    }

    /// Its step, where that is constant.
    pub fn step(&self) -> Option<i64>
        ensures { result ≡ (seen self.now).step }
    {
        self.info.step
    }

    /// How often its range is gone through, where that is known.
    pub fn trips(&self) -> Option<u128>
        ensures { result ≡ (seen self.now).trips }
    {
        self.info.trips
    }

    /// The references of its range, in order of evaluation, in which they are numbered one after
    /// another. Among them, the loop's variable and the scalars that the range gives values, two
    /// have one cell exactly where they have one name.
    pub fn references(&self) -> &'t [Occurrence<'p>]
        ensures all { map occurrence result.now ≡ (seen self.now).references }
        ensures numbered { are_in_turn (references (seen self.now).references) ≡ true }
        ensures told { are_told (known (seen self.now)) ≡ true }
    {
        self.references
    }

    /// The reference of a number, if it is in the range.
    #[tactic(auto, using(crate::proofs::Numbers::right_number))]
    pub fn reference(&self, id: RefId) -> Option<Occurrence<'p>>
        ensures exact { option_map occurrence result ≡ numbered (seen self.now).references id.0 }
        ensures found { IfSome result (λ found. (occurrence found).ref.id ≡ id.0) }
    {
        numbered(self.references, id.0)
    }

    /// The scalars that its range gives values, each once, by their first definitions.
    pub fn assigned(&self) -> &'t [Reference]
        ensures { map ref result.now ≡ (seen self.now).assigned }
    {
        self.info.assigned.list()
    }

    /// Whether its range gives the scalar of a cell a value.
    pub fn assigns(&self, cell: usize) -> bool
        ensures { result ≡ has_cell cell (seen self.now).assigned }
    {
        self.info.assigned.contains(cell)
    }

    /// A number that is greater than the cell of each of these scalars.
    pub fn cells(&self) -> usize
        ensures { (c : ℕ) → has_cell c (seen self.now).assigned ≡ true → c < result }
    {
        self.info.assigned.cells()
    }

    /// The allocator of the tree.
    pub fn allocator(&self) -> Global {
        *self.tree.collected.loops.allocator()
    }
}
