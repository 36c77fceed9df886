//! How much room statements want: for operands, and for serial loops under way. A number that 32
//! bits can't hold is 4,294,967,295.

ghost use Rattle.std.specs.Prelude.{◌≡◌, map, ℕ};
ghost use Rattle.ast.specs.Tree.{arms as arms_tree, assign};
ghost use Rattle.ast.specs.View.{access as access_of, action as action_of, arm as arm_of};
ghost use Rattle.ast.specs.View.{block_view, head as head_of, item as item_of, node as node_of};
ghost use Rattle.ast.specs.View.{optional_term, term};
ghost use Rattle.codegen.specs.Blocks.{arm_loops, arm_room, item_room};
ghost use Rattle.codegen.specs.Plain.{plain_arms, plain_block, plain_node};
ghost use Rattle.codegen.specs.Room.{arms_loops, arms_room, block_loops, block_room, elements_room};
ghost use Rattle.codegen.specs.Room.{head_room, items_room, kind_room, node_loops, node_room};
ghost use Rattle.codegen.specs.Room.{step_room};
ghost use Rattle.expr_code.specs.Emitted.{short};

use ast::{Access, Action, Arm, DoHead, Expr, Item, Node};
use expr_code::room::{greater, more};
use expr_code::{operands, operands_of_place};

/// An item before others that want so much.
fn of_item(item: &Item, others: u32) -> u32
    ensures { (n : ℕ) → others ≡ short n → result ≡ short (item_room (item_of item.now) n) }
{
    match item {
        Item::Value(expression) => greater(operands(expression), more(others)),
        Item::Text(_) => others,
    }
}

/// The items of a PRINT.
fn of_items(items: &[Item]) -> u32
    ensures { result ≡ short (items_room (map item_of items.now)) }
{
    let mut left = items.len();
    let mut most = 0;
    while left > 0 {
        left -= 1;
        most = of_item(&items[left], most);
    }
    most
}

/// The elements of a READ.
fn of_elements(elements: &[Access]) -> u32
    ensures { result ≡ short (elements_room (map access_of elements.now)) }
{
    let mut left = elements.len();
    let mut most = 0;
    while left > 0 {
        left -= 1;
        let first = more(operands_of_place(&elements[left]));
        most = greater(first, most);
    }
    most
}

/// An assignment.
fn of_assignment(target: &Access, expression: &Expr) -> u32
    ensures { result ≡ short (kind_room (assign (access_of target.now) (term expression.now))) }
{
    let value = operands(expression);
    let place = more(operands_of_place(target));
    greater(value, place)
}

/// A statement that holds no others.
fn of_kind(action: &Action) -> u32
    ensures { result ≡ short (kind_room (action_of action.now)) }
{
    match action {
        Action::Assign(target, expression) => of_assignment(target, expression),
        Action::Print(items) => of_items(items),
        Action::Read(elements) => of_elements(elements),
        Action::Stop | Action::Inert(_) => 0,
    }
}

/// The step of a loop.
fn of_step(step: &Option<Expr>) -> u32
    ensures { result ≡ short (step_room (optional_term step.now)) }
{
    match step {
        Some(expression) => operands(expression),
        None => 1,
    }
}

/// The parameters of a loop.
fn of_head(head: &DoHead) -> u32
    ensures { result ≡ short (head_room (head_of head.now)) }
{
    let first = operands(&head.first);
    let last = more(operands(&head.last));
    let step = more(more(of_step(&head.step)));
    greater(first, greater(last, step))
}

/// A statement with what belongs to it.
#[cycle(room)]
fn of_node(node: &Node) -> u32
    ensures { result ≡ short (node_room (plain_node (node_of node.now))) }
{
    match node {
        Node::Plain(statement) => of_kind(&statement.action),
        Node::Loop(_, head, range) => {
            let range = greater(2, of_block(range));
            greater(of_head(head), range)
        }
        Node::Choice(arms) => of_arms(arms),
    }
}

/// An arm before others that want so much.
#[cycle(room)]
fn of_arm(arm: &Arm, others: u32) -> u32
    ensures { (n : ℕ) → others ≡ short n → result ≡ short (arm_room (arm_of arm.now) n) }
{
    let bodies = greater(of_block(&arm.body), others);
    match &arm.condition {
        Some(condition) => greater(operands(condition), bodies),
        None => bodies,
    }
}

/// The arms of an IF.
#[cycle(room)]
fn of_arms(arms: &[Arm]) -> u32
    ensures { result ≡ short (arms_room (plain_arms (arms_tree (map arm_of arms.now)))) }
{
    let mut left = arms.len();
    let mut most = 0;
    while left > 0 {
        left -= 1;
        most = of_arm(&arms[left], most);
    }
    most
}

/// How many operands nodes have on the stack at most.
#[cycle(room)]
pub fn of_block(nodes: &[Node]) -> u32
    ensures { result ≡ short (block_room (plain_block (block_view nodes.now))) }
{
    let mut left = nodes.len();
    let mut most = 0;
    while left > 0 {
        left -= 1;
        let first = of_node(&nodes[left]);
        most = greater(first, most);
    }
    most
}

/// How many serial loops are under way in a statement at most.
#[cycle(loops)]
fn loops_of_node(node: &Node) -> u32
    ensures { result ≡ short (node_loops (plain_node (node_of node.now))) }
{
    match node {
        Node::Plain(_) => 0,
        Node::Loop(_, _, range) => more(loops_of_block(range)),
        Node::Choice(arms) => loops_of_arms(arms),
    }
}

/// How many serial loops are under way in an arm, or in others behind it, at most.
#[cycle(loops)]
fn loops_of_arm(arm: &Arm, others: u32) -> u32
    ensures { (n : ℕ) → others ≡ short n → result ≡ short (arm_loops (arm_of arm.now) n) }
{
    greater(loops_of_block(&arm.body), others)
}

/// How many serial loops are under way in an IF at most.
#[cycle(loops)]
fn loops_of_arms(arms: &[Arm]) -> u32
    ensures { result ≡ short (arms_loops (plain_arms (arms_tree (map arm_of arms.now)))) }
{
    let mut left = arms.len();
    let mut most = 0;
    while left > 0 {
        left -= 1;
        most = loops_of_arm(&arms[left], most);
    }
    most
}

/// How many serial loops are under way in nodes at most.
#[cycle(loops)]
pub fn loops_of_block(nodes: &[Node]) -> u32
    ensures { result ≡ short (block_loops (plain_block (block_view nodes.now))) }
{
    let mut left = nodes.len();
    let mut most = 0;
    while left > 0 {
        left -= 1;
        let first = loops_of_node(&nodes[left]);
        most = greater(first, most);
    }
    most
}
