//! The faults of statements (C11 6.8).

ghost use Rattle.std.specs.Prelude.{◌≡◌, [], ◌++◌, not, true, IfOk, OnOk};
ghost use Rattle.c_tree.specs.Tree.{Body};
ghost use Rattle.c_tree.specs.Views.{tree_option, first, code, body_of, with_item};
ghost use Rattle.c_types.specs.declared.fault.FaultKind.TheVariants.{LoopOnly};
ghost use Rattle.c_types.specs.Least.{fault_if, least, earlier};
ghost use Rattle.c_types.specs.Scopes.{here, outside, in_scope};
ghost use Rattle.c_types.specs.Statements.{number_option, void_option, first_declared, first_faults, clause_faults, return_faults, code_faults, body_faults};

use crate::declaration::variables_faults;
use crate::expr::{effect, number};
use crate::fault::FaultKind;
use crate::first::First;
use crate::scope::{Scope, Storage};
use c_tree::{Expr, Init, Item, NoMemory, Span, Stmt, StmtNode, Ty};
use std::alloc::Global;

/// What a statement stands in: a function with that result, and a loop or none.
#[derive(Clone, Copy, Debug, PartialEq, Eq)]
pub struct Enclosing {
    pub ret: Option<Ty>,
    pub in_loop: bool,
}

impl Enclosing {
    /// The same function, in a loop.
    fn looping(self) -> Enclosing
        ensures ret { result.ret ≡ self.ret }
        ensures in_loop { result.in_loop ≡ true }
    {
        Enclosing {
            ret: self.ret,
            in_loop: true,
        }
    }

    /// The faults of a `break` or a `continue` there.
    fn jump_faults(self, span: Span) -> First
        ensures { result.fault ≡ least (fault_if (not self.in_loop) LoopOnly span) }
    {
        First::of_if(!self.in_loop, FaultKind::LoopOnly, span)
    }
}

/// The faults of an expression that may be absent and else is a number.
fn number_option(e: &Option<Expr>, scope: &Scope<'_>) -> First
    ensures { result.fault ≡ least (number_option (in_scope scope.now) (tree_option e.now)) }
{
    match e {
        None => First::none(),
        Some(e) => number(e, scope),
    }
}

/// The faults of an expression that may be absent and else is evaluated for its effects alone.
fn void_option(e: &Option<Expr>, scope: &Scope<'_>) -> First
    ensures { result.fault ≡ least (void_option (in_scope scope.now) (tree_option e.now)) }
{
    match e {
        None => First::none(),
        Some(e) => effect(e, scope),
    }
}

/// The faults of the first clause of a `for`, in whose scope no name is declared yet.
fn first_faults(alloc: Global, init: &Init, scope: &mut Scope<'_>) -> Result<First, NoMemory>
    requires { here scope.old ≡ [] }
    ensures faults { IfOk result (λ r. r.fault
        ≡ least (first_faults (outside scope.old) (first init.now))) }
    ensures here { OnOk result (here scope.new ≡ first_declared (first init.now)) }
    ensures outside { outside scope.new ≡ outside scope.old }
{
    match init {
        Init::Empty => Ok(First::none()),
        Init::Act(e) => Ok(effect(e, scope)),
        Init::Vars(ty, ds) => variables_faults(alloc, ds, *ty, Storage::Automatic, scope),
    }
}

/// The faults of the three clauses of a `for`, in whose scope no name is declared yet.
#[tactic(auto, using(crate::proofs::LeastLemmas::least_append))]
fn clause_faults(
    alloc: Global,
    init: &Init,
    test: &Option<Expr>,
    step: &Option<Expr>,
    scope: &mut Scope<'_>,
) -> Result<First, NoMemory>
    requires { here scope.old ≡ [] }
    ensures faults { IfOk result (λ r. r.fault ≡ least (clause_faults (outside scope.old)
        (first init.now) (tree_option test.now) (tree_option step.now))) }
    ensures here { OnOk result (here scope.new ≡ first_declared (first init.now)) }
    ensures outside { outside scope.new ≡ outside scope.old }
{
    let of_init = first_faults(alloc, init, scope)?;
    let of_test = number_option(test, scope);
    let of_step = void_option(step, scope);
    Ok(of_init.and(of_test.and(of_step)))
}

/// Whether `return` has a value.
fn return_faults(ret: Option<Ty>, e: &Option<Expr>, span: Span) -> First
    ensures { result.fault ≡ least (return_faults ret (tree_option e.now) span) }
{
    match (ret, e) {
        (None, None) | (Some(_), Some(_)) => First::none(),
        (None, Some(_)) | (Some(_), None) => First::of(FaultKind::WrongKind, span),
    }
}

/// The faults of a statement, where the names of the scope are declared.
#[cycle(stmt_faults)]
#[tactic(auto, using(crate::proofs::LeastLemmas::least_append))]
fn stmt_faults(
    alloc: Global,
    st: &Stmt,
    scope: &Scope<'_>,
    enclosing: Enclosing,
) -> Result<First, NoMemory>
    ensures { IfOk result (λ r. r.fault
        ≡ least (code_faults enclosing.ret (in_scope scope.now) enclosing.in_loop (code st.now))) }
{
    match &st.node {
        StmtNode::Empty => Ok(First::none()),
        StmtNode::Act(e) => Ok(effect(e, scope)),
        StmtNode::Block(items) => {
            let mut inner = Scope::inside(alloc, scope);
            items_faults(alloc, items, &mut inner, enclosing)
        }
        StmtNode::If { test, yes, no } => {
            let of_test = number(test, scope);
            let of_yes = stmt_faults(alloc, yes, scope, enclosing)?;
            match no {
                None => Ok(of_test.and(of_yes)),
                Some(no) => Ok(of_test.and(of_yes.and(stmt_faults(alloc, no, scope, enclosing)?))),
            }
        }
        StmtNode::While { test, body } => {
            let of_test = number(test, scope);
            Ok(of_test.and(stmt_faults(alloc, body, scope, enclosing.looping())?))
        }
        StmtNode::Do { body, test } => {
            let of_body = stmt_faults(alloc, body, scope, enclosing.looping())?;
            Ok(of_body.and(number(test, scope)))
        }
        StmtNode::For {
            init,
            test,
            step,
            body,
        } => {
            let mut inner = Scope::inside(alloc, scope);
            let clauses = clause_faults(alloc, init, test, step, &mut inner)?;
            Ok(clauses.and(stmt_faults(alloc, body, &inner, enclosing.looping())?))
        }
        StmtNode::Return(e) => {
            Ok(return_faults(enclosing.ret, e, st.span).and(number_option(e, scope)))
        }
        StmtNode::Break | StmtNode::Continue => Ok(enclosing.jump_faults(st.span)),
    }
}

/// The faults of the items of a block, in whose scope some names may be declared already.
#[cycle(stmt_faults)]
#[tactic(auto, using(crate::proofs::LeastLemmas::least_append))]
pub fn items_faults(
    alloc: Global,
    items: &[Item],
    scope: &mut Scope<'_>,
    enclosing: Enclosing,
) -> Result<First, NoMemory>
    ensures { IfOk result (λ r. r.fault ≡ least (body_faults enclosing.ret
        (here scope.old) (outside scope.old) enclosing.in_loop (body_of items.now))) }
{
    let mut found = First::none();
    for item in items {
        found = found.and(item_faults(alloc, item, scope, enclosing)?);
    }
    Ok(found)
}

/// The faults of an item of a block. What it declares is in scope from here on.
#[cycle(stmt_faults)]
#[tactic(auto, using(crate::proofs::LeastLemmas::least_append))]
fn item_faults(
    alloc: Global,
    item: &Item,
    scope: &mut Scope<'_>,
    enclosing: Enclosing,
) -> Result<First, NoMemory>
    ensures faults { IfOk result (λ r. (rest : Body) →
        least (body_faults enclosing.ret (here scope.old) (outside scope.old) enclosing.in_loop
        (with_item item.now rest))
        ≡ earlier r.fault (least (body_faults enclosing.ret (here scope.new) (outside scope.old)
        enclosing.in_loop rest))) }
    ensures outside { outside scope.new ≡ outside scope.old }
{
    match item {
        Item::Vars(ty, ds) => variables_faults(alloc, ds, *ty, Storage::Automatic, scope),
        Item::Stmt(st) => stmt_faults(alloc, st, scope, enclosing),
    }
}
