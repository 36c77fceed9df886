//! From statements one after another to a tree: loops hold their ranges, IFs their arms.

ghost use Rattle.std.specs.Prelude.{◌≡◌, ◌∷◌, ◌++◌, [], IfOk, map};
ghost use Rattle.ast.specs.View.{arm, kind as kind_of, node, optional_term, statement, term};
ghost use Rattle.profile_check.specs.Nesting as spec;
ghost use Rattle.profile_check.specs.NestingView.{frame, nest_of};

use ast::{Action, Arm, DoHead, Expr, Kind, Label, Line, Node, PlainStatement, Stmt};
use std::alloc::{AllocError, Global};

/// A structure that is open, with the nodes that stand before it.
#[derive(Drop)]
enum Frame {
    /// A range, by its DO.
    Range(Line, DoHead, Vec<Node>),
    /// An IF block: the arms that are done, and the line and the condition of the one that isn't.
    Block(Vec<Arm>, Line, Option<Expr>, Vec<Node>),
}

/// Statements nested so far.
#[derive(Drop)]
pub struct Nest {
    /// What is open, the innermost first.
    frames: Vec<Frame>,
    /// The nodes in the innermost.
    nodes: Vec<Node>,
}

/// A list with one element more.
fn with_node(mut nodes: Vec<Node>, one: Node) -> Result<Vec<Node>, AllocError>
    ensures { IfOk result (λ v. map node v.items ≡ map node nodes.items ++ node one ∷ []) }
{
    nodes.push(one)?;
    Ok(nodes)
}

fn with_arm(mut arms: Vec<Arm>, one: Arm) -> Result<Vec<Arm>, AllocError>
    ensures { IfOk result (λ v. map arm v.items ≡ map arm arms.items ++ arm one ∷ []) }
{
    arms.push(one)?;
    Ok(arms)
}

/// Opens a structure.
fn open(alloc: Global, mut frames: Vec<Frame>, one: Frame) -> Result<Nest, AllocError>
    ensures { IfOk result (λ n. nest_of n ≡ spec.nest (frame one ∷ map frame frames.items) []) }
{
    frames.insert(0, one)?;
    Ok(Nest {
        frames,
        nodes: Vec::new(alloc),
    })
}

/// The arm that isn't done, with its nodes.
fn arm_of(line: Line, condition: Option<Expr>, body: Vec<Node>) -> Arm
    ensures { arm result ≡ spec.arm_of line (optional_term condition) (map node body.items) }
{
    Arm {
        line,
        condition,
        body,
    }
}

fn is_block(frames: &[Frame]) -> bool
    ensures { result ≡ spec.begins_with_block (map frame frames.now) }
{
    match frames {
        [] => false,
        [Frame::Block(_, _, _, _), ..] => true,
        [Frame::Range(_, _, _), ..] => false,
    }
}

/// Another arm of the innermost block.
fn next_arm(
    alloc: Global,
    nest: Nest,
    line: Line,
    condition: Option<Expr>,
) -> Result<Nest, AllocError>
    ensures { IfOk result (λ n. nest_of n
        ≡ spec.next_arm line (optional_term condition) (map frame nest.frames.items)
        (map node nest.nodes.items)) }
{
    let Nest { mut frames, nodes } = nest;
    if !is_block(&frames) {
        return Ok(Nest { frames, nodes });
    }
    match frames.remove(0) {
        Frame::Block(done, own_line, own_condition, before) => {
            let done = with_arm(done, arm_of(own_line, own_condition, nodes))?;
            open(alloc, frames, Frame::Block(done, line, condition, before))
        }
        range => open(alloc, frames, range),
    }
}

/// The end of the innermost block.
fn end_block(nest: Nest) -> Result<Nest, AllocError>
    ensures { IfOk result (λ n. nest_of n
        ≡ spec.end_block (map frame nest.frames.items) (map node nest.nodes.items)) }
{
    let Nest { mut frames, nodes } = nest;
    if !is_block(&frames) {
        return Ok(Nest { frames, nodes });
    }
    match frames.remove(0) {
        Frame::Block(done, line, condition, before) => {
            let arms = with_arm(done, arm_of(line, condition, nodes))?;
            let nodes = with_node(before, Node::Choice(arms))?;
            Ok(Nest { frames, nodes })
        }
        range => {
            frames.insert(0, range)?;
            Ok(Nest { frames, nodes })
        }
    }
}

/// Whether the innermost structure is a range of the label.
fn is_range_of(frames: &[Frame], label: Label) -> bool
    ensures { result ≡ spec.begins_with_range_of label (map frame frames.now) }
{
    match frames {
        [] => false,
        [Frame::Block(_, _, _, _), ..] => false,
        [Frame::Range(_, head, _), ..] => head.terminal == label,
    }
}

/// The end of the innermost ranges of a label.
fn end_ranges(nest: Nest, label: Label) -> Result<Nest, AllocError>
    ensures { IfOk result (λ n. nest_of n
        ≡ spec.end_ranges label (map frame nest.frames.items) (map node nest.nodes.items)) }
{
    let Nest { mut frames, nodes } = nest;
    if !is_range_of(&frames, label) {
        return Ok(Nest { frames, nodes });
    }
    match frames.remove(0) {
        Frame::Range(line, head, before) => {
            let nodes = with_node(before, Node::Loop(line, head, nodes))?;
            end_ranges(Nest { frames, nodes }, label)
        }
        block => {
            frames.insert(0, block)?;
            Ok(Nest { frames, nodes })
        }
    }
}

/// The node of a statement that holds no others.
fn plain_node(line: Line, label: Option<Label>, kind: Kind) -> Node
    ensures { node result ≡ spec.plain_node line label (kind_of kind) }
{
    Node::Plain(PlainStatement {
        line,
        label,
        action: Action::of(kind),
    })
}

/// The node of a logical IF: a block with one arm.
fn logical_if(alloc: Global, line: Line, condition: Expr, inner: Kind) -> Result<Node, AllocError>
    ensures { IfOk result (λ n. node n ≡ spec.logical_node line (term condition) (kind_of inner)) }
{
    let mut body = Vec::new(alloc);
    body.push(plain_node(line, None, inner))?;
    let mut arms = Vec::new(alloc);
    arms.push(arm_of(line, Some(condition), body))?;
    Ok(Node::Choice(arms))
}

/// One more node, and what its label ends.
fn with_labelled(nest: Nest, label: Option<Label>, one: Node) -> Result<Nest, AllocError>
    ensures { IfOk result (λ n. nest_of n
        ≡ spec.ended label (map frame nest.frames.items) (map node nest.nodes.items ++ node one
        ∷ [])) }
{
    let Nest { frames, nodes } = nest;
    let nodes = with_node(nodes, one)?;
    match label {
        Some(label) => end_ranges(Nest { frames, nodes }, label),
        None => Ok(Nest { frames, nodes }),
    }
}

impl Nest {
    ghost use Rattle.std.specs.Prelude.{◌≡◌, IfOk, [], map};
    ghost use Rattle.ast.specs.View.{node, statement};
    ghost use Rattle.profile_check.specs.Nesting as spec;
    ghost use Rattle.profile_check.specs.NestingView.{nest_of};

    /// Nothing yet.
    pub fn new(alloc: Global) -> Self
        ensures { nest_of result ≡ spec.nest [] [] }
    {
        Nest {
            frames: Vec::new(alloc),
            nodes: Vec::new(alloc),
        }
    }

    /// With one more statement.
    pub fn with_statement(self, alloc: Global, stmt: Stmt) -> Result<Nest, AllocError>
        ensures { IfOk result (λ n. nest_of n
            ≡ spec.with_statement (nest_of self) (statement stmt)) }
    {
        let Stmt { line, label, kind } = stmt;
        match kind {
            Kind::Do(head) => open(alloc, self.frames, Frame::Range(line, head, self.nodes)),
            Kind::If(condition) => {
                let frame = Frame::Block(Vec::new(alloc), line, Some(condition), self.nodes);
                open(alloc, self.frames, frame)
            }
            Kind::ElseIf(condition) => next_arm(alloc, self, line, Some(condition)),
            Kind::Else => next_arm(alloc, self, line, None),
            Kind::EndIf => end_block(self),
            Kind::LogicalIf(condition, inner) => {
                let one = logical_if(alloc, line, condition, Box::into_inner(inner))?;
                with_labelled(self, label, one)
            }
            kind @ (Kind::Program(_)
            | Kind::Integer(_)
            | Kind::Dimension(_)
            | Kind::Parameter(_)
            | Kind::Assign(_, _)
            | Kind::Continue
            | Kind::Print(_)
            | Kind::Read(_)
            | Kind::Stop
            | Kind::End) => with_labelled(self, label, plain_node(line, label, kind)),
        }
    }

    /// The nodes outside what is open.
    pub fn into_nodes(self) -> Vec<Node>
        ensures { map node result.items ≡ (nest_of self).nodes }
    {
        self.nodes
    }
}
