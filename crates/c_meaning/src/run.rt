//! The values of expressions and what statements do, by recursion over the tree and over calls.
//!
//! Parts with many intermediate results are functions of their own, so that the frames of the recursion stay small: 256
//! calls can be live, each deep inside an expression or a statement.

ghost use Rattle.std.specs.Prelude.{[], ◌∷◌};
ghost use Rattle.std.specs.Option.{option_map};
ghost use Rattle.c_tree.specs.Tree.{call as call_tree, binary as binary_tree, choice as choice_tree, assign as assign_tree, bump as bump_tree, no_args, no_span};
ghost use Rattle.c_tree.specs.Tree.{act as act_code, give as give_code};
ghost use Rattle.c_tree.specs.Views.{tree, trees, args_of, with_arg, code, body_of, variables, initial, first, tree_option, function as function_tree};
ghost use Rattle.c_meaning.specs.World.{Gives};
ghost use Rattle.c_meaning.specs.Steps.{scoped};
ghost use Rattle.c_meaning.specs.Meaning.{params_of as params_in, looping, jump as jump_to};
ghost use Rattle.c_meaning.specs.Own.{own_eval, own_value, own_index, own_args, own_call, own_perform, own_list, own_object, own_local, own_declare, own_begin, own_test, own_exec, own_items, own_while_turn, own_do_turn, own_for_turn, own_for, own_global, own_globals, own_make_globals};

use crate::argument::Argument;
use crate::bind::{
    bind_params, cell_count, decided, definition, make_variable, rest_of, result_of, slot_of,
    store_zeros, takes_array,
};
use crate::context::Context;
use crate::library::{call_abs, call_exit, call_getchar, call_printf, call_putchar, call_scanf};
use crate::state::State;
use crate::stop::{End, Flow, Stop};
use c_arith::{binary, convert, unary};
use c_tree::{
    Arg, BinOp, Declarator, Expr, ExprNode, External, Func, Init, Item, Param, Slot, Start, Stmt,
    StmtNode, Ty, copy_text,
};

/// The value of an expression, if it has one: a call of a function that ended without one has none (C11 6.9.1 p12).
#[cycle(run)]
fn eval(context: &Context<'_>, e: &Expr, state: &mut State<'_>) -> Result<Option<i64>, Stop>
    ensures { Gives (λ v. v) result state.new (own_eval context.now (tree e.now) state.old) }
{
    match &e.node {
        ExprNode::Const { value, .. } => Ok(Some(*value)),
        ExprNode::Name { slot, .. } => Ok(Some(state.load(*slot, 0)?)),
        ExprNode::Index { slot, index, .. } => {
            let at = number(context, index, state)?;
            Ok(Some(state.load(*slot, at)?))
        }
        ExprNode::Call { word, args } => { call(context, word.as_slice(), args, state) }
        ExprNode::Unary { op, of } => {
            let operand = number(context, of, state)?;
            match unary(Ty::Int, *op, operand) {
                Some(value) => Ok(Some(value)),
                None => Err(Stop::Over(End::Trapped)),
            }
        }
        ExprNode::Cast { ty, of } => {
            let value = number(context, of, state)?;
            Ok(Some(convert(*ty, value)))
        }
        ExprNode::Binary { op, left, right } => eval_binary(context, *op, left, right, state),
        ExprNode::Choice { test, yes, no } => { eval_choice(context, test, yes, no, state) }
        ExprNode::Assign {
            op: None,
            place,
            value,
        } => assign(context, place, value, state),
        ExprNode::Assign {
            op: Some(op),
            place,
            value,
        } => update(context, *op, place, value, state),
        ExprNode::Bump { before, up, place } => { bump(context, *before, *up, place, state) }
        ExprNode::Comma { left, right } => {
            eval(context, left, state)?;
            Ok(Some(number(context, right, state)?))
        }
    }
}

/// The value of an operator between two operands. `&&` and `||` skip the second where the first decides (C11 6.5.13 p4,
/// 6.5.14 p4).
#[cycle(run)]
fn eval_binary(
    context: &Context<'_>,
    op: BinOp,
    left: &Expr,
    right: &Expr,
    state: &mut State<'_>,
) -> Result<Option<i64>, Stop>
    ensures { Gives (λ v. v) result state.new
        (own_eval context.now (binary_tree op (tree left.now)
        (tree right.now) no_span) state.old) }
{
    let operand = number(context, left, state)?;
    if let Some(value) = decided(op, operand) {
        return Ok(Some(value));
    }
    let other = number(context, right, state)?;
    match binary(Ty::Int, op, operand, other) {
        Some(value) => Ok(Some(value)),
        None => Err(Stop::Over(End::Trapped)),
    }
}

/// The value of `test ? yes : no`, of which one part alone is evaluated (C11 6.5.15 p4).
#[cycle(run)]
fn eval_choice(
    context: &Context<'_>,
    test: &Expr,
    yes: &Expr,
    no: &Expr,
    state: &mut State<'_>,
) -> Result<Option<i64>, Stop>
    ensures { Gives (λ v. v) result state.new
        (own_eval context.now (choice_tree (tree test.now) (tree yes.now)
        (tree no.now) no_span) state.old) }
{
    if number(context, test, state)? == 0 {
        Ok(Some(number(context, no, state)?))
    } else {
        Ok(Some(number(context, yes, state)?))
    }
}

/// Stores a value in a place: its index comes first, then the value, then the store. The stored value is the result
/// (C11 6.5.16.1).
#[cycle(run)]
fn assign(
    context: &Context<'_>,
    place: &Expr,
    value: &Expr,
    state: &mut State<'_>,
) -> Result<Option<i64>, Stop>
    ensures { Gives (λ v. v) result state.new
        (own_eval context.now (assign_tree None (tree place.now)
        (tree value.now) no_span) state.old) }
{
    let index = index_of(context, place, state)?;
    let stored = number(context, value, state)?;
    Ok(Some(state.store(slot_of(place), index, stored)?))
}

/// A compound assignment (C11 6.5.16.2): the place's index, the right side, the old value, the operator, the store.
#[cycle(run)]
fn update(
    context: &Context<'_>,
    op: BinOp,
    place: &Expr,
    value: &Expr,
    state: &mut State<'_>,
) -> Result<Option<i64>, Stop>
    ensures { Gives (λ v. v) result state.new
        (own_eval context.now (assign_tree (Some op) (tree place.now)
        (tree value.now) no_span) state.old) }
{
    let at = index_of(context, place, state)?;
    let operand = number(context, value, state)?;
    let loaded = state.load(slot_of(place), at)?;
    match binary(Ty::Int, op, loaded, operand) {
        Some(new) => Ok(Some(state.store(slot_of(place), at, new)?)),
        None => Err(Stop::Over(End::Trapped)),
    }
}

/// `++` or `--`: the stored value where it stands before its place, else the old one (C11 6.5.2.4, 6.5.3.1).
#[cycle(run)]
fn bump(
    context: &Context<'_>,
    before: bool,
    up: bool,
    place: &Expr,
    state: &mut State<'_>,
) -> Result<Option<i64>, Stop>
    ensures { Gives (λ v. v) result state.new
        (own_eval context.now (bump_tree before up (tree place.now) no_span) state.old) }
{
    let at = index_of(context, place, state)?;
    let old = state.load(slot_of(place), at)?;
    let Some(new) = binary(Ty::Int, if up { BinOp::Add } else { BinOp::Sub }, old, 1) else {
        return Err(Stop::Over(End::Trapped));
    };
    let stored = state.store(slot_of(place), at, new)?;
    Ok(Some(if before { stored } else { old }))
}

/// The value of an expression whose value is used.
#[cycle(run)]
fn number(context: &Context<'_>, e: &Expr, state: &mut State<'_>) -> Result<i64, Stop>
    ensures { Gives (λ v. v) result state.new (own_value context.now (tree e.now) state.old) }
{
    match eval(context, e, state)? {
        Some(value) => Ok(value),
        None => Err(Stop::Over(End::Trapped)),
    }
}

/// The index of a place.
#[cycle(run)]
fn index_of(context: &Context<'_>, place: &Expr, state: &mut State<'_>) -> Result<i64, Stop>
    ensures { Gives (λ v. v) result state.new (own_index context.now (tree place.now) state.old) }
{
    match &place.node {
        ExprNode::Name { .. } => Ok(0),
        ExprNode::Index { index, .. } => number(context, index, state),
        _ => Err(Stop::Over(End::Trapped)),
    }
}

/// The value of a call, if it has one.
#[cycle(run)]
fn call(
    context: &Context<'_>,
    word: &[u8],
    args: &[Arg],
    state: &mut State<'_>,
) -> Result<Option<i64>, Stop>
    ensures { Gives (λ v. v) result state.new
        (own_eval context.now (call_tree word.now (args_of args.now) no_span) state.old) }
{
    let function = definition(context.externals, word);
    let arguments = arguments_for(context, function, args, state)?;
    if word == b"getchar".as_slice() {
        call_getchar(&arguments, state)
    } else if word == b"putchar".as_slice() {
        call_putchar(&arguments, state)
    } else if word == b"printf".as_slice() {
        call_printf(context.alloc, &arguments, state)
    } else if word == b"scanf".as_slice() {
        call_scanf(&arguments, state)
    } else if word == b"abs".as_slice() {
        call_abs(&arguments, state)
    } else if word == b"exit".as_slice() {
        call_exit(&arguments, state)
    } else {
        call_function(context, function, &arguments, state)
    }
}

/// The arguments of a call of that function. One of the library has numbers alone.
#[cycle(run)]
fn arguments_for(
    context: &Context<'_>,
    function: Option<&Func>,
    args: &[Arg],
    state: &mut State<'_>,
) -> Result<Vec<Argument>, Stop>
    ensures { Gives (λ v. v.items) result state.new
        (own_args context.now (params_in (option_map (λ f. function_tree f.now) function.entry))
        (args_of args.now) state.old) }
{
    match function {
        Some(function) => eval_args(context, &function.params, args, state),
        None => eval_args(context, &[], args, state),
    }
}

/// The arguments of a call, from left to right, for these parameters.
#[cycle(run)]
fn eval_args(
    context: &Context<'_>,
    params: &[Param],
    args: &[Arg],
    state: &mut State<'_>,
) -> Result<Vec<Argument>, Stop>
    ensures { Gives (λ v. v.items) result state.new
        (own_args context.now params.now (args_of args.now) state.old) }
{
    let mut arguments = Vec::new(context.alloc);
    let mut rest = params;
    for arg in args {
        arguments.push(argument(context, rest, arg, state)?)?;
        rest = rest_of(rest);
    }
    Ok(arguments)
}

/// An argument, for the first of these parameters.
#[cycle(run)]
fn argument(
    context: &Context<'_>,
    params: &[Param],
    arg: &Arg,
    state: &mut State<'_>,
) -> Result<Argument, Stop>
    ensures { Gives (λ a. a ∷ []) result state.new
        (own_args context.now params.now (with_arg arg.now no_args) state.old) }
{
    match arg {
        Arg::Value(e) => {
            if takes_array(params) {
                Ok(Argument::Array(state.object_of(slot_of(e))?))
            } else {
                Ok(Argument::Number(number(context, e, state)?))
            }
        }
        Arg::Format(format, _) => Ok(Argument::Format(copy_text(context.alloc, format)?)),
        Arg::Address(place) => {
            let at = index_of(context, place, state)?;
            Ok(Argument::Place(slot_of(place), at))
        }
    }
}

/// The value of a call of a function of the program, if it has one.
#[cycle(run)]
pub fn call_function(
    context: &Context<'_>,
    function: Option<&Func>,
    arguments: &[Argument],
    state: &mut State<'_>,
) -> Result<Option<i64>, Stop>
    ensures { Gives (λ v. v) result state.new
        (own_call context.now (option_map
        (λ f. function_tree f.now) function.entry) arguments.now state.old) }
{
    if context.left == 0 {
        return Err(Stop::Over(End::Depth));
    }
    let Some(function) = function else {
        return Err(Stop::Over(End::Trapped));
    };
    let Some(body) = &function.body else {
        return Err(Stop::Over(End::Trapped));
    };
    state.take_unit()?;
    let outer = state.swap(Vec::new(context.alloc));
    let live = state.object_count();
    bind_params(context.alloc, &function.params, arguments, state)?;
    let inner = Context {
        alloc: context.alloc,
        externals: context.externals,
        left: context.left - 1,
    };
    let flow = run_items(&inner, body, state)?;
    state.cut(live);
    let _inner = state.swap(outer);
    Ok(result_of(function, flow))
}

/// Evaluates an expression whose value isn't used.
#[cycle(run)]
fn perform(context: &Context<'_>, e: &Expr, state: &mut State<'_>) -> Result<(), Stop>
    ensures { Gives (λ _. tt) result state.new (own_perform context.now (tree e.now) state.old) }
{
    eval(context, e, state)?;
    Ok(())
}

/// Stores the values of a list of initialisers, each before the next is evaluated.
#[cycle(run)]
fn store_list(
    context: &Context<'_>,
    slot: Slot,
    list: &[Expr],
    state: &mut State<'_>,
) -> Result<(), Stop>
    ensures { Gives (λ _. tt) result state.new
        (own_list context.now slot (trees list.now) state.old) }
{
    for (at, e) in list.iter().enumerate() {
        let value = number(context, e, state)?;
        state.store_at(slot, at, value)?;
    }
    Ok(())
}

/// Makes a new object and evaluates its initialiser. What a list doesn't reach is 0 at the list's end.
#[cycle(run)]
pub fn declare_object(
    context: &Context<'_>,
    ty: Ty,
    declarator: &Declarator,
    state: &mut State<'_>,
) -> Result<(), Stop>
    ensures { Gives (λ _. tt) result state.new
        (own_object context.now ty declarator.now.slot declarator.now.shape
        (initial declarator.now.start) state.old) }
{
    let slot = declarator.slot;
    match &declarator.start {
        Start::Bare => make_variable(
            context.alloc,
            ty,
            slot,
            cell_count(declarator.shape, 0),
            state,
        ),
        Start::One(e) => {
            make_variable(
                context.alloc,
                ty,
                slot,
                cell_count(declarator.shape, 1),
                state,
            )?;
            let value = number(context, e, state)?;
            state.store_at(slot, 0, value)?;
            Ok(())
        }
        Start::List(list) => {
            let count = cell_count(declarator.shape, list.len());
            make_variable(context.alloc, ty, slot, count, state)?;
            store_list(context, slot, list, state)?;
            store_zeros(slot, list.len(), count, state)
        }
    }
}

/// Makes the objects of a declaration in a function, from left to right. An initialiser takes a unit.
#[cycle(run)]
fn declare(
    context: &Context<'_>,
    ty: Ty,
    declarators: &[Declarator],
    state: &mut State<'_>,
) -> Result<(), Stop>
    ensures { Gives (λ _. tt) result state.new
        (own_declare context.now ty (variables declarators.now) state.old) }
{
    for declarator in declarators {
        declare_local(context, ty, declarator, state)?;
    }
    Ok(())
}

/// Makes the object of a declarator in a function.
#[cycle(run)]
fn declare_local(
    context: &Context<'_>,
    ty: Ty,
    declarator: &Declarator,
    state: &mut State<'_>,
) -> Result<(), Stop>
    ensures { Gives (λ _. tt) result state.new
        (own_local context.now ty declarator.now.slot declarator.now.shape
        (initial declarator.now.start) state.old) }
{
    match &declarator.start {
        Start::Bare => declare_object(context, ty, declarator, state),
        Start::One(_) | Start::List(_) => {
            state.take_unit()?;
            declare_object(context, ty, declarator, state)
        }
    }
}

/// Does the first clause of a `for`.
#[cycle(run)]
fn begin(context: &Context<'_>, init: &Init, state: &mut State<'_>) -> Result<(), Stop>
    ensures { Gives (λ _. tt) result state.new (own_begin context.now (first init.now) state.old) }
{
    match init {
        Init::Empty => Ok(()),
        Init::Act(e) => perform(context, e, state),
        Init::Vars(ty, declarators) => declare(context, *ty, declarators, state),
    }
}

/// Where a statement leads.
#[cycle(run)]
fn exec(context: &Context<'_>, statement: &Stmt, state: &mut State<'_>) -> Result<Flow, Stop>
    ensures { Gives (λ f. f) result state.new
        (own_exec context.now (code statement.now) state.old) }
{
    match &statement.node {
        StmtNode::Empty => Ok(Flow::Next),
        StmtNode::Act(e) => run_expression(context, e, state),
        StmtNode::Block(items) => run_block(context, items, state),
        StmtNode::If {
            test,
            yes,
            no: None,
        } => {
            state.take_unit()?;
            if number(context, test, state)? == 0 {
                return Ok(Flow::Next);
            }
            exec(context, yes, state)
        }
        StmtNode::If {
            test,
            yes,
            no: Some(no),
        } => {
            state.take_unit()?;
            if number(context, test, state)? == 0 {
                return exec(context, no, state);
            }
            exec(context, yes, state)
        }
        StmtNode::While { test, body } => run_while(context, test, body, state),
        StmtNode::Do { body, test } => run_do(context, body, test, state),
        StmtNode::For {
            init,
            test,
            step,
            body,
        } => run_scoped_for(context, init, test, step, body, state),
        StmtNode::Return(Some(e)) => run_return(context, e, state),
        StmtNode::Return(None) => jump(Flow::Return(None), state),
        StmtNode::Break => jump(Flow::Break, state),
        StmtNode::Continue => jump(Flow::Continue, state),
    }
}

/// Where an expression statement leads (C11 6.8.3).
#[cycle(run)]
fn run_expression(context: &Context<'_>, e: &Expr, state: &mut State<'_>) -> Result<Flow, Stop>
    ensures { Gives (λ f. f) result state.new
        (own_exec context.now (act_code (tree e.now) no_span) state.old) }
{
    state.take_unit()?;
    perform(context, e, state)?;
    Ok(Flow::Next)
}

/// Where a `return` with a value leads (C11 6.8.6.4).
#[cycle(run)]
fn run_return(context: &Context<'_>, e: &Expr, state: &mut State<'_>) -> Result<Flow, Stop>
    ensures { Gives (λ f. f) result state.new
        (own_exec context.now (give_code (Some (tree e.now)) no_span) state.old) }
{
    state.take_unit()?;
    Ok(Flow::Return(Some(number(context, e, state)?)))
}

/// Where a `while` leads.
#[cycle(run)]
fn run_while(
    context: &Context<'_>,
    test: &Expr,
    body: &Stmt,
    state: &mut State<'_>,
) -> Result<Flow, Stop>
    ensures { Gives (λ f. f) result state.new
        (looping (own_while_turn context.now (tree test.now) (code body.now)) state.old) }
{
    'turns: loop {
        match turn_while(context, test, body, state)? {
            Some(flow) => return Ok(flow),
            None => {}
        }
    }
}

/// A turn of a `while`: where the loop leads, or none where another turn follows.
#[cycle(run)]
fn turn_while(
    context: &Context<'_>,
    test: &Expr,
    body: &Stmt,
    state: &mut State<'_>,
) -> Result<Option<Flow>, Stop>
    ensures { Gives (λ f. f) result state.new
        (own_while_turn context.now (tree test.now) (code body.now) state.old) }
{
    state.take_unit()?;
    if number(context, test, state)? == 0 {
        return Ok(Some(Flow::Next));
    }
    match exec(context, body, state)? {
        Flow::Next | Flow::Continue => Ok(None),
        Flow::Break => Ok(Some(Flow::Next)),
        Flow::Return(value) => Ok(Some(Flow::Return(value))),
    }
}

/// Where a `do` leads.
#[cycle(run)]
fn run_do(
    context: &Context<'_>,
    body: &Stmt,
    test: &Expr,
    state: &mut State<'_>,
) -> Result<Flow, Stop>
    ensures { Gives (λ f. f) result state.new
        (looping (own_do_turn context.now (code body.now) (tree test.now)) state.old) }
{
    'turns: loop {
        match turn_do(context, body, test, state)? {
            Some(flow) => return Ok(flow),
            None => {}
        }
    }
}

/// A turn of a `do`.
#[cycle(run)]
fn turn_do(
    context: &Context<'_>,
    body: &Stmt,
    test: &Expr,
    state: &mut State<'_>,
) -> Result<Option<Flow>, Stop>
    ensures { Gives (λ f. f) result state.new
        (own_do_turn context.now (code body.now) (tree test.now) state.old) }
{
    match exec(context, body, state)? {
        Flow::Next | Flow::Continue => {}
        Flow::Break => return Ok(Some(Flow::Next)),
        Flow::Return(value) => return Ok(Some(Flow::Return(value))),
    }
    state.take_unit()?;
    if number(context, test, state)? == 0 {
        Ok(Some(Flow::Next))
    } else {
        Ok(None)
    }
}

/// Where a `for` leads. What was made in it ends.
#[cycle(run)]
fn run_scoped_for(
    context: &Context<'_>,
    init: &Init,
    test: &Option<Expr>,
    step: &Option<Expr>,
    body: &Stmt,
    state: &mut State<'_>,
) -> Result<Flow, Stop>
    ensures { Gives (λ f. f) result state.new
        (own_for context.now (first init.now) (tree_option test.now) (tree_option step.now)
        (code body.now) state.old) }
{
    let count = state.object_count();
    begin(context, init, state)?;
    let flow = run_for(context, test, step, body, state)?;
    state.cut(count);
    Ok(flow)
}

/// Where the turns of a `for` lead.
#[cycle(run)]
fn run_for(
    context: &Context<'_>,
    test: &Option<Expr>,
    step: &Option<Expr>,
    body: &Stmt,
    state: &mut State<'_>,
) -> Result<Flow, Stop>
    ensures { Gives (λ f. f) result state.new
        (looping (own_for_turn context.now (tree_option test.now) (tree_option step.now)
        (code body.now)) state.old) }
{
    'turns: loop {
        match turn_for(context, test, step, body, state)? {
            Some(flow) => return Ok(flow),
            None => {}
        }
    }
}

/// A turn of a `for`.
#[cycle(run)]
fn turn_for(
    context: &Context<'_>,
    test: &Option<Expr>,
    step: &Option<Expr>,
    body: &Stmt,
    state: &mut State<'_>,
) -> Result<Option<Flow>, Stop>
    ensures { Gives (λ f. f) result state.new
        (own_for_turn context.now (tree_option test.now) (tree_option step.now)
        (code body.now) state.old) }
{
    state.take_unit()?;
    if tested(context, test, state)? == 0 {
        return Ok(Some(Flow::Next));
    }
    match exec(context, body, state)? {
        Flow::Next | Flow::Continue => {}
        Flow::Break => return Ok(Some(Flow::Next)),
        Flow::Return(value) => return Ok(Some(Flow::Return(value))),
    }
    match step {
        Some(e) => perform(context, e, state)?,
        None => {}
    }
    Ok(None)
}

/// The test of a `for`, which is true where it is absent.
#[cycle(run)]
fn tested(context: &Context<'_>, test: &Option<Expr>, state: &mut State<'_>) -> Result<i64, Stop>
    ensures { Gives (λ v. v) result state.new
        (own_test context.now (tree_option test.now) state.old) }
{
    match test {
        Some(e) => number(context, e, state),
        None => Ok(1),
    }
}

/// Where the items of a block lead. What was made in the block ends.
#[cycle(run)]
fn run_block(context: &Context<'_>, items: &[Item], state: &mut State<'_>) -> Result<Flow, Stop>
    ensures { Gives (λ f. f) result state.new
        (scoped (own_items context.now (body_of items.now)) state.old) }
{
    let count = state.object_count();
    let flow = run_items(context, items, state)?;
    state.cut(count);
    Ok(flow)
}

/// Where items lead, in their order.
#[cycle(run)]
fn run_items(context: &Context<'_>, items: &[Item], state: &mut State<'_>) -> Result<Flow, Stop>
    ensures { Gives (λ f. f) result state.new
        (own_items context.now (body_of items.now) state.old) }
{
    for item in items {
        match item {
            Item::Vars(ty, declarators) => { declare(context, *ty, declarators, state)? }
            Item::Stmt(statement) => match exec(context, statement, state)? {
                Flow::Next => {}
                Flow::Break => return Ok(Flow::Break),
                Flow::Continue => return Ok(Flow::Continue),
                Flow::Return(value) => return Ok(Flow::Return(value)),
            },
        }
    }
    Ok(Flow::Next)
}

/// Where a jump leads that has no value.
fn jump(flow: Flow, state: &mut State<'_>) -> Result<Flow, Stop>
    ensures { Gives (λ f. f) result state.new (jump_to flow state.old) }
{
    state.take_unit()?;
    Ok(flow)
}
