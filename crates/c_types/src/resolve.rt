//! The variable of each name in expressions and statements. The trees are changed in place.

ghost use Rattle.std.specs.Prelude.{◌≡◌, ◌+◌, [], ◌∷◌, suc, length, map, IfOk, OnOk, option_copied};
ghost use Rattle.c_tree.specs.Tree.{Args, Body};
ghost use Rattle.c_tree.specs.Views.{tree, args_of, with_arg, trees, tree_option, initial, variable, variables, first, code, body_of, with_item};
ghost use Rattle.c_types.specs.Scopes.{here, outside, in_scope};
ghost use Rattle.c_types.specs.Slots.{entity_slot, slot_in, resolved_tree, resolved_args, resolved_option, resolved_initial, resolved_variables, resolved_first, numbered, numbered_variable, resolved_variable, numbered_first, first_count, code_count, body_count, resolved_code, resolved_body};
ghost use Rattle.c_types.specs.Statements.{variable_declaration, declared, first_declared};

use crate::declared::variable_declaration;
use crate::scope::{Entity, Scope, Storage};
use c_tree::{
    Arg, Declarator, Expr, ExprNode, Init, Item, NoMemory, Slot, Start, Stmt, StmtNode, Ty,
};
use std::alloc::Global;

/// The slot of what a name denotes.
fn entity_slot(entity: Option<&Entity>) -> Slot
    ensures { result ≡ entity_slot (option_copied entity.entry) }
{
    match entity {
        Some(Entity::Variable { slot, .. }) => *slot,
        _ => Slot::Unset,
    }
}

/// Gives each name in the expression its variable.
#[cycle(resolve_expr)]
fn resolve_expr(e: &mut Expr, scope: &Scope<'_>)
    ensures { tree e.new ≡ resolved_tree (in_scope scope.now) (tree e.old) }
{
    match &mut e.node {
        ExprNode::Const { .. } => {}
        ExprNode::Name { word, slot } => *slot = entity_slot(scope.denoted(word)),
        ExprNode::Index { word, slot, index } => {
            *slot = entity_slot(scope.denoted(word));
            resolve_expr(index, scope);
        }
        ExprNode::Call { args, .. } => resolve_call(args, scope),
        ExprNode::Unary { of, .. } => resolve_expr(of, scope),
        ExprNode::Cast { of, .. } => resolve_expr(of, scope),
        ExprNode::Binary { left, right, .. } => {
            resolve_expr(left, scope);
            resolve_expr(right, scope);
        }
        ExprNode::Choice { test, yes, no } => {
            resolve_expr(test, scope);
            resolve_expr(yes, scope);
            resolve_expr(no, scope);
        }
        ExprNode::Assign { place, value, .. } => {
            resolve_expr(place, scope);
            resolve_expr(value, scope);
        }
        ExprNode::Bump { place, .. } => resolve_expr(place, scope),
        ExprNode::Comma { left, right } => {
            resolve_expr(left, scope);
            resolve_expr(right, scope);
        }
    }
}

/// The same of the arguments of a call.
#[cycle(resolve_expr)]
fn resolve_call(args: &mut Vec<Arg>, scope: &Scope<'_>)
    ensures { args_of args.new.items
        ≡ resolved_args (in_scope scope.now) (args_of args.old.items) }
{
    resolve_args(args, scope);
}

/// The same of arguments, one after another.
#[cycle(resolve_expr)]
fn resolve_args(args: &mut [Arg], scope: &Scope<'_>)
    ensures { args_of args.new ≡ resolved_args (in_scope scope.now) (args_of args.old) }
{
    for arg in args {
        resolve_arg(arg, scope);
    }
}

/// The same of an argument.
#[cycle(resolve_expr)]
fn resolve_arg(arg: &mut Arg, scope: &Scope<'_>)
    ensures { (rest : Args) → with_arg arg.new (resolved_args (in_scope scope.now) rest)
        ≡ resolved_args (in_scope scope.now) (with_arg arg.old rest) }
{
    match arg {
        Arg::Value(e) => resolve_expr(e, scope),
        Arg::Address(e) => resolve_expr(e, scope),
        Arg::Format(..) => {}
    }
}

/// The same of an expression that may be missing.
fn resolve_optional(e: &mut Option<Expr>, scope: &Scope<'_>)
    ensures { tree_option e.new ≡ resolved_option (in_scope scope.now) (tree_option e.old) }
{
    match e {
        None => {}
        Some(e) => resolve_expr(e, scope),
    }
}

/// The same of the second and third clause of a `for`.
fn resolve_clauses(test: &mut Option<Expr>, step: &mut Option<Expr>, scope: &Scope<'_>)
    ensures test { tree_option test.new
        ≡ resolved_option (in_scope scope.now) (tree_option test.old) }
    ensures step { tree_option step.new
        ≡ resolved_option (in_scope scope.now) (tree_option step.old) }
{
    resolve_optional(test, scope);
    resolve_optional(step, scope);
}

/// The same of expressions.
fn resolve_exprs(es: &mut [Expr], scope: &Scope<'_>)
    ensures { trees es.new ≡ map (resolved_tree (in_scope scope.now)) (trees es.old) }
{
    for e in es {
        resolve_expr(e, scope);
    }
}

/// The same of an initialiser.
fn resolve_start(start: &mut Start, scope: &Scope<'_>)
    ensures { initial start.new ≡ resolved_initial (in_scope scope.now) (initial start.old) }
{
    match start {
        Start::Bare => {}
        Start::One(e) => resolve_expr(e, scope),
        Start::List(es) => resolve_exprs(es, scope),
    }
}

/// The next number. More variables than a `u32` can number count as out of memory.
pub(crate) fn take_number(next: &mut u32) -> Result<u32, NoMemory>
    ensures number { IfOk result (λ n. n ≡ next.old) }
    ensures next { OnOk result (next.new ≡ suc next.old) }
{
    let number = *next;
    if number == u32::MAX {
        return Err(NoMemory);
    }
    *next = number + 1;
    Ok(number)
}

/// The variable of file scope or of a function with a number.
fn slot_in(storage: Storage, number: u32) -> Slot
    ensures { result ≡ slot_in storage number }
{
    match storage {
        Storage::Static => Slot::Global(number),
        Storage::Automatic => Slot::Local(number),
    }
}

/// Declares the variable, and gives it its number and each name in its initialiser its variable.
fn resolve_declarator(
    alloc: Global,
    d: &mut Declarator,
    ty: Ty,
    slot: Slot,
    scope: &mut Scope<'_>,
) -> Result<(), NoMemory>
    ensures resolved { OnOk result (variable d.new
        ≡ resolved_variable (here scope.old) (outside scope.old) ty
        (numbered_variable slot (variable d.old))) }
    ensures here { OnOk result (here scope.new
        ≡ variable_declaration ty (numbered_variable slot (variable d.old)) ∷ here scope.old) }
    ensures outside { outside scope.new ≡ outside scope.old }
{
    d.slot = slot;
    scope.declare(variable_declaration(alloc, d, ty)?)?;
    resolve_start(&mut d.start, scope);
    Ok(())
}

/// The same of variables that are declared one after another.
pub(crate) fn resolve_declarators(
    alloc: Global,
    ds: &mut [Declarator],
    ty: Ty,
    storage: Storage,
    scope: &mut Scope<'_>,
    next: &mut u32,
) -> Result<(), NoMemory>
    ensures resolved { OnOk result (variables ds.new
        ≡ resolved_variables (here scope.old) (outside scope.old) ty
        (numbered (slot_in storage) next.old (variables ds.old))) }
    ensures here { OnOk result (here scope.new
        ≡ declared ty (numbered (slot_in storage) next.old (variables ds.old)) (here scope.old)) }
    ensures outside { outside scope.new ≡ outside scope.old }
    ensures next { OnOk result (next.new ≡ next.old + length (variables ds.old)) }
{
    for d in ds {
        let slot = slot_in(storage, take_number(next)?);
        resolve_declarator(alloc, d, ty, slot, scope)?;
    }
    Ok(())
}

/// The same of the first clause of a `for`, in whose scope nothing is declared before.
fn resolve_init(
    alloc: Global,
    init: &mut Init,
    scope: &mut Scope<'_>,
    next: &mut u32,
) -> Result<(), NoMemory>
    requires { here scope.old ≡ [] }
    ensures resolved { OnOk result (first init.new
        ≡ resolved_first (outside scope.old) (numbered_first next.old (first init.old))) }
    ensures here { OnOk result (here scope.new
        ≡ first_declared (numbered_first next.old (first init.old))) }
    ensures outside { outside scope.new ≡ outside scope.old }
    ensures next { OnOk result (next.new ≡ next.old + first_count (first init.old)) }
{
    match init {
        Init::Empty => Ok(()),
        Init::Act(e) => {
            resolve_expr(e, scope);
            Ok(())
        }
        Init::Vars(ty, ds) => resolve_declarators(alloc, ds, *ty, Storage::Automatic, scope, next),
    }
}

/// Gives each variable that the statement declares its number, and each name in it its variable.
#[cycle(resolve_stmt)]
fn resolve_stmt(
    alloc: Global,
    st: &mut Stmt,
    scope: &Scope<'_>,
    next: &mut u32,
) -> Result<(), NoMemory>
    ensures resolved { OnOk result (code st.new
        ≡ resolved_code (in_scope scope.now) next.old (code st.old)) }
    ensures next { OnOk result (next.new ≡ next.old + code_count (code st.old)) }
{
    match &mut st.node {
        StmtNode::Empty | StmtNode::Break | StmtNode::Continue => Ok(()),
        StmtNode::Act(e) => {
            resolve_expr(e, scope);
            Ok(())
        }
        StmtNode::Return(value) => {
            resolve_optional(value, scope);
            Ok(())
        }
        StmtNode::Block(items) => resolve_block(alloc, items, scope, next),
        StmtNode::If { test, yes, no } => {
            resolve_expr(test, scope);
            resolve_stmt(alloc, yes, scope, next)?;
            match no {
                None => Ok(()),
                Some(no) => resolve_stmt(alloc, no, scope, next),
            }
        }
        StmtNode::While { test, body } => {
            resolve_expr(test, scope);
            resolve_stmt(alloc, body, scope, next)
        }
        StmtNode::Do { body, test } => {
            resolve_stmt(alloc, body, scope, next)?;
            resolve_expr(test, scope);
            Ok(())
        }
        StmtNode::For {
            init,
            test,
            step,
            body,
        } => {
            let mut inner = Scope::inside(alloc, &*scope);
            resolve_init(alloc, init, &mut inner, next)?;
            resolve_clauses(test, step, &inner);
            resolve_stmt(alloc, body, &inner, next)
        }
    }
}

/// Resolves the items of a block, which is a scope of its own.
#[cycle(resolve_stmt)]
fn resolve_block(
    alloc: Global,
    items: &mut Vec<Item>,
    scope: &Scope<'_>,
    next: &mut u32,
) -> Result<(), NoMemory>
    ensures resolved { OnOk result (body_of items.new.items
        ≡ resolved_body [] (in_scope scope.now) next.old (body_of items.old.items)) }
    ensures next { OnOk result (next.new ≡ next.old + body_count (body_of items.old.items)) }
{
    let mut inner = Scope::inside(alloc, &*scope);
    resolve_items(alloc, items, &mut inner, next)
}

/// Resolves the items of a block, in the scope of which some names may be declared already.
#[cycle(resolve_stmt)]
pub(crate) fn resolve_items(
    alloc: Global,
    items: &mut [Item],
    scope: &mut Scope<'_>,
    next: &mut u32,
) -> Result<(), NoMemory>
    ensures resolved { OnOk result (body_of items.new
        ≡ resolved_body (here scope.old) (outside scope.old) next.old (body_of items.old)) }
    ensures next { OnOk result (next.new ≡ next.old + body_count (body_of items.old)) }
{
    for item in items {
        resolve_item(alloc, item, scope, next)?;
    }
    Ok(())
}

/// Resolves an item of a block. What it declares is in scope after it.
#[cycle(resolve_stmt)]
fn resolve_item(
    alloc: Global,
    item: &mut Item,
    scope: &mut Scope<'_>,
    next: &mut u32,
) -> Result<(), NoMemory>
    ensures resolved { OnOk result ((rest : Body)
        → with_item item.new (resolved_body (here scope.new) (outside scope.old) next.new rest)
        ≡ resolved_body (here scope.old) (outside scope.old) next.old (with_item item.old rest)) }
    ensures outside { outside scope.new ≡ outside scope.old }
    ensures next { OnOk result ((rest : Body)
        → next.new + body_count rest ≡ next.old + body_count (with_item item.old rest)) }
{
    match item {
        Item::Vars(ty, ds) => resolve_declarators(alloc, ds, *ty, Storage::Automatic, scope, next),
        Item::Stmt(st) => resolve_stmt(alloc, st, scope, next),
    }
}
