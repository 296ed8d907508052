//! What stands at a location of a program.
#![tactic(auto, using(crate::proofs::PartLemmas::part_steps))]

ghost use Rattle.std.specs.Prelude.{◌≡◌, ◌++◌, [], ◌∷◌, map};
ghost use Rattle.std.specs.List.{flat_map};
ghost use Rattle.std.specs.Option.{option_map, option_or};
ghost use Rattle.c_tree.specs.Tree.{Args, Body};
ghost use Rattle.c_tree.specs.Views.{tree, args_of, with_arg, trees, tree_option, initial, variables, first, code, body_of, with_item, outer, program as tree_program};
ghost use Rattle.c_location.specs.Locations.{guard, stands, assigned, in_tree, in_args, in_condition as of_condition, in_right_side as of_right_side, in_test as of_test, in_step as of_step, in_value as of_value, in_initial, in_variables, in_first, in_code, in_body, in_outer, located, part_at as part};
ghost use Rattle.c_location.specs.Shown.{lent, found_at};

use c_tree::{
    Arg, BinOp, Declarator, Expr, ExprNode, External, Init, Item, Loc, LocKind, Program, Span,
    Start, Stmt, StmtNode,
};

/// A part of a program.
#[derive(Clone, Copy)]
pub enum Part<'a> {
    /// A condition or a right side.
    Expr(&'a Expr),
    /// A statement.
    Stmt(&'a Stmt),
}

/// Whether the location is this text, as a location of that kind.
pub fn is_at(l: &Loc, kind: LocKind, at: Span) -> bool
    ensures { result ≡ stands l.now kind at }
{
    l.kind == kind && at.from == l.at.from && at.to == l.at.to
}

/// The right side of the assignment, if it has no operator and is the location.
fn in_assigned<'a>(op: Option<BinOp>, value: &'a Expr, l: &Loc) -> Option<Part<'a>>
    ensures { option_map lent result ≡ found_at l.now (assigned op (tree value.now)) }
{
    match op {
        None => {
            if is_at(l, LocKind::Right, value.span) {
                return Some(Part::Expr(value));
            }
            None
        }
        Some(_) => None,
    }
}

/// The first right side of a plain assignment in the expression that is the location.
#[cycle(in_expr)]
fn in_expr<'a>(e: &'a Expr, l: &Loc) -> Option<Part<'a>>
    ensures { option_map lent result ≡ found_at l.now (in_tree (tree e.now)) }
{
    match &e.node {
        ExprNode::Const { .. } | ExprNode::Name { .. } => None,
        ExprNode::Index { index, .. } => in_expr(index, l),
        ExprNode::Call { args, .. } => in_list(args, l),
        ExprNode::Unary { of, .. } | ExprNode::Cast { of, .. } => in_expr(of, l),
        ExprNode::Binary { left, right, .. } | ExprNode::Comma { left, right } => {
            if let Some(found) = in_expr(left, l) {
                return Some(found);
            }
            in_expr(right, l)
        }
        ExprNode::Choice { test, yes, no } => {
            if let Some(found) = in_expr(test, l) {
                return Some(found);
            }
            if let Some(found) = in_expr(yes, l) {
                return Some(found);
            }
            in_expr(no, l)
        }
        ExprNode::Assign { op, place, value } => {
            if let Some(found) = in_expr(place, l) {
                return Some(found);
            }
            if let Some(found) = in_assigned(*op, value, l) {
                return Some(found);
            }
            in_expr(value, l)
        }
        ExprNode::Bump { place, .. } => in_expr(place, l),
    }
}

/// The same of the arguments of a call.
#[cycle(in_expr)]
fn in_list<'a>(args: &'a [Arg], l: &Loc) -> Option<Part<'a>>
    ensures { option_map lent result ≡ found_at l.now (in_args (args_of args.now)) }
{
    for arg in args {
        match in_arg(arg, l) {
            Some(found) => return Some(found),
            None => {}
        }
    }
    None
}

/// The same of an argument.
#[cycle(in_expr)]
fn in_arg<'a>(arg: &'a Arg, l: &Loc) -> Option<Part<'a>>
    ensures { (rest : Args) → found_at l.now (in_args (with_arg arg.now rest))
        ≡ option_or (option_map lent result) (found_at l.now (in_args rest)) }
{
    match arg {
        Arg::Value(e) | Arg::Address(e) => in_expr(e, l),
        Arg::Format(..) => None,
    }
}

/// The condition, or the first part inside it, that is the location.
fn in_condition<'a>(e: &'a Expr, l: &Loc) -> Option<Part<'a>>
    ensures { option_map lent result ≡ found_at l.now (of_condition (tree e.now)) }
{
    if is_at(l, LocKind::Cond, e.span) {
        return Some(Part::Expr(e));
    }
    in_expr(e, l)
}

/// The right side, or the first part inside it, that is the location.
fn in_right_side<'a>(e: &'a Expr, l: &Loc) -> Option<Part<'a>>
    ensures { option_map lent result ≡ found_at l.now (of_right_side (tree e.now)) }
{
    if is_at(l, LocKind::Right, e.span) {
        return Some(Part::Expr(e));
    }
    in_expr(e, l)
}

/// The same of the condition of a `for`, if it has one.
fn in_test<'a>(test: &'a Option<Expr>, l: &Loc) -> Option<Part<'a>>
    ensures { option_map lent result ≡ found_at l.now (of_test (tree_option test.now)) }
{
    match test {
        None => None,
        Some(e) => in_condition(e, l),
    }
}

/// The same of the step of a `for`, if it has one.
fn in_step<'a>(step: &'a Option<Expr>, l: &Loc) -> Option<Part<'a>>
    ensures { option_map lent result ≡ found_at l.now (of_step (tree_option step.now)) }
{
    match step {
        None => None,
        Some(e) => in_expr(e, l),
    }
}

/// The same of the value of a `return`, if it has one.
fn in_value<'a>(value: &'a Option<Expr>, l: &Loc) -> Option<Part<'a>>
    ensures { option_map lent result ≡ found_at l.now (of_value (tree_option value.now)) }
{
    match value {
        None => None,
        Some(e) => in_right_side(e, l),
    }
}

/// The same of expressions.
fn in_exprs<'a>(es: &'a [Expr], l: &Loc) -> Option<Part<'a>>
    ensures { option_map lent result ≡ found_at l.now (flat_map in_tree (trees es.now)) }
{
    for e in es {
        match in_expr(e, l) {
            Some(found) => return Some(found),
            None => {}
        }
    }
    None
}

/// The same of an initialiser.
fn in_start<'a>(start: &'a Start, l: &Loc) -> Option<Part<'a>>
    ensures { option_map lent result ≡ found_at l.now (in_initial (initial start.now)) }
{
    match start {
        Start::Bare => None,
        Start::One(e) => in_right_side(e, l),
        Start::List(es) => in_exprs(es, l),
    }
}

/// The same of the declarations of a block.
fn in_declarators<'a>(declarators: &'a [Declarator], l: &Loc) -> Option<Part<'a>>
    ensures { option_map lent result ≡ found_at l.now (in_variables (variables declarators.now)) }
{
    for declarator in declarators {
        match in_start(&declarator.start, l) {
            Some(found) => return Some(found),
            None => {}
        }
    }
    None
}

/// The same of the first clause of a `for`.
fn in_init<'a>(init: &'a Init, l: &Loc) -> Option<Part<'a>>
    ensures { option_map lent result ≡ found_at l.now (in_first (first init.now)) }
{
    match init {
        Init::Empty => None,
        Init::Act(e) => in_expr(e, l),
        Init::Vars(_, declarators) => in_declarators(declarators, l),
    }
}

/// The same of what stands in the parentheses of a `for`.
fn in_head<'a>(
    init: &'a Init,
    test: &'a Option<Expr>,
    step: &'a Option<Expr>,
    l: &Loc,
) -> Option<Part<'a>>
    ensures { option_map lent result ≡ found_at l.now (in_first (first init.now)
        ++ of_test (tree_option test.now) ++ of_step (tree_option step.now)) }
{
    if let Some(found) = in_init(init, l) {
        return Some(found);
    }
    if let Some(found) = in_test(test, l) {
        return Some(found);
    }
    in_step(step, l)
}

/// The statement, if the location is its guard.
fn in_guard<'a>(st: &'a Stmt, l: &Loc) -> Option<Part<'a>>
    ensures { option_map lent result ≡ found_at l.now (guard (code st.now) ∷ []) }
{
    if is_at(l, LocKind::Guard, st.span) {
        return Some(Part::Stmt(st));
    }
    None
}

/// The same of a statement.
#[cycle(in_stmt)]
fn in_stmt<'a>(st: &'a Stmt, l: &Loc) -> Option<Part<'a>>
    ensures { option_map lent result ≡ found_at l.now (in_code (code st.now)) }
{
    match &st.node {
        StmtNode::Empty => None,
        StmtNode::Act(e) => in_guard(st, l).or(in_expr(e, l)),
        StmtNode::Block(items) => in_items(items, l),
        StmtNode::If { test, yes, no } => {
            let found = in_condition(test, l).or(in_stmt(yes, l));
            match no {
                None => found,
                Some(no) => found.or(in_stmt(no, l)),
            }
        }
        StmtNode::While { test, body } => in_condition(test, l).or(in_stmt(body, l)),
        StmtNode::Do { body, test } => in_stmt(body, l).or(in_condition(test, l)),
        StmtNode::For {
            init,
            test,
            step,
            body,
        } => in_head(init, test, step, l).or(in_stmt(body, l)),
        StmtNode::Return(value) => in_guard(st, l).or(in_value(value, l)),
        StmtNode::Break | StmtNode::Continue => in_guard(st, l),
    }
}

/// The same of the items of a block.
#[cycle(in_stmt)]
fn in_items<'a>(items: &'a [Item], l: &Loc) -> Option<Part<'a>>
    ensures { option_map lent result ≡ found_at l.now (in_body (body_of items.now)) }
{
    for item in items {
        match in_item(item, l) {
            Some(found) => return Some(found),
            None => {}
        }
    }
    None
}

/// The same of an item.
#[cycle(in_stmt)]
fn in_item<'a>(item: &'a Item, l: &Loc) -> Option<Part<'a>>
    ensures { (rest : Body) → found_at l.now (in_body (with_item item.now rest))
        ≡ option_or (option_map lent result) (found_at l.now (in_body rest)) }
{
    match item {
        Item::Vars(_, declarators) => in_declarators(declarators, l),
        Item::Stmt(st) => in_stmt(st, l),
    }
}

/// The same of what stands at file scope.
fn in_external<'a>(external: &'a External, l: &Loc) -> Option<Part<'a>>
    ensures { option_map lent result ≡ found_at l.now (in_outer (outer external.now)) }
{
    match external {
        External::Vars(..) => None,
        External::Func(func) => match &func.body {
            None => None,
            Some(items) => in_items(items, l),
        },
    }
}

/// The same of all that stands at file scope.
fn in_externals<'a>(externals: &'a [External], l: &Loc) -> Option<Part<'a>>
    ensures { option_map lent result ≡ found_at l.now (located (map outer externals.now)) }
{
    for external in externals {
        match in_external(external, l) {
            Some(found) => return Some(found),
            None => {}
        }
    }
    None
}

/// What stands at the location, if it is one of the program's. It takes no memory.
pub fn part_at<'a>(program: &'a Program, l: &Loc) -> Option<Part<'a>>
    ensures { option_map lent result ≡ part l.now (tree_program program.now) }
{
    in_externals(&program.externals, l)
}
