//! The variables that are visible at a place (C11 6.2.1p4, p7).

ghost use Rattle.std.specs.Prelude.{◌≡◌, [], map, IfOk, OnOk};
ghost use Rattle.c_tree.specs.Tree.{Body};
ghost use Rattle.c_tree.specs.Views.{initial, variable, variables, first, code, body_of, with_item, body_option, function, outer};
ghost use Rattle.c_types.specs.Shown.{tree_of};
ghost use Rattle.c_types.specs.Visible.{others, and_then, is_inside, with_variable, with_variables, with_param, with_params, with_first, with_code, with_body, with_definition, with_outer, with_outers, visible_at};

use crate::declared::is_array;
use crate::typed::Typed;
use c_tree::{
    Declarator, External, Init, Item, NoMemory, Param, Slot, Start, Stmt, StmtNode, Text, Ty,
    copy_text,
};
use std::alloc::Global;

/// A variable that is visible at a place: a number, or an array of numbers, of that type.
#[derive(Drop)]
pub struct Visible {
    pub word: Text,
    pub slot: Slot,
    pub ty: Ty,
    pub array: bool,
}

impl Typed {
    /// The variables that are visible at a place: the innermost scope first, in a scope the latest first, hidden ones
    /// left out (C11 6.2.1p4, p7). In a scalar's initialiser neither the new name nor one that it hides counts.
    ///
    /// # Errors
    ///
    /// `NoMemory` where memory runs out.
    pub fn scope_at(&self, alloc: Global, place: u32) -> Result<Vec<Visible>, NoMemory>
        ensures { IfOk result (λ r. r.items ≡ visible_at place (tree_of self.now)) }
    {
        let mut found = with_externals(alloc, &self.program().externals, place)?;
        found.reverse();
        Ok(found)
    }
}

/// Leaves out those of that name.
fn hide(found: &mut Vec<Visible>, word: &Text)
    ensures { found.new.items ≡ others word.now found.old.items }
{
    found.retain(|v| v.word.as_slice() != word.as_slice());
}

/// Adds a variable after those that it doesn't hide.
fn add(found: &mut Vec<Visible>, v: Visible) -> Result<(), NoMemory>
    ensures { OnOk result (found.new.items ≡ and_then v found.old.items) }
{
    hide(found, &v.word);
    found.push(v)?;
    Ok(())
}

/// Whether the place is in a scalar's initialiser.
#[tactic(auto, using(crate::proofs::ExpressionLemmas::span_of_tree))]
fn is_inside(start: &Start, place: u32) -> bool
    ensures { result ≡ is_inside place (initial start.now) }
{
    match start {
        Start::Bare | Start::List(_) => false,
        Start::One(e) => e.span.from <= place && place < e.span.to,
    }
}

/// Adds the variable, if the place is in its scope.
fn with_variable(
    alloc: Global,
    d: &Declarator,
    ty: Ty,
    place: u32,
    found: &mut Vec<Visible>,
) -> Result<(), NoMemory>
    ensures { OnOk result (found.new.items
        ≡ with_variable place ty (variable d.now) found.old.items) }
{
    if place < d.span.to {
        return Ok(());
    }
    if is_inside(&d.start, place) {
        hide(found, &d.word);
        return Ok(());
    }
    let v = Visible {
        word: copy_text(alloc, &d.word)?,
        slot: d.slot,
        ty,
        array: is_array(d.shape),
    };
    add(found, v)
}

/// Adds the variables whose scope has the place.
fn with_variables(
    alloc: Global,
    ds: &[Declarator],
    ty: Ty,
    place: u32,
    found: &mut Vec<Visible>,
) -> Result<(), NoMemory>
    ensures { OnOk result (found.new.items
        ≡ with_variables place ty (variables ds.now) found.old.items) }
{
    for d in ds {
        with_variable(alloc, d, ty, place, found)?;
    }
    Ok(())
}

/// Adds the parameter, if the place is in its scope.
fn with_param(
    alloc: Global,
    param: &Param,
    place: u32,
    found: &mut Vec<Visible>,
) -> Result<(), NoMemory>
    ensures { OnOk result (found.new.items ≡ with_param place param.now found.old.items) }
{
    if place < param.span.to {
        return Ok(());
    }
    let v = Visible {
        word: copy_text(alloc, &param.word)?,
        slot: param.slot,
        ty: param.ty,
        array: param.array,
    };
    add(found, v)
}

/// Adds the parameters whose scope has the place.
fn with_params(
    alloc: Global,
    params: &[Param],
    place: u32,
    found: &mut Vec<Visible>,
) -> Result<(), NoMemory>
    ensures { OnOk result (found.new.items ≡ with_params place params.now found.old.items) }
{
    for param in params {
        with_param(alloc, param, place, found)?;
    }
    Ok(())
}

/// Adds the variables that the first clause of a `for` declares.
fn with_init(
    alloc: Global,
    init: &Init,
    place: u32,
    found: &mut Vec<Visible>,
) -> Result<(), NoMemory>
    ensures { OnOk result (found.new.items ≡ with_first place (first init.now) found.old.items) }
{
    match init {
        Init::Empty | Init::Act(_) => Ok(()),
        Init::Vars(ty, ds) => with_variables(alloc, ds, *ty, place, found),
    }
}

/// Adds the declarations in a statement whose scope has the place.
#[cycle(with_stmt)]
fn with_stmt(alloc: Global, st: &Stmt, place: u32, found: &mut Vec<Visible>) -> Result<(), NoMemory>
    ensures { OnOk result (found.new.items ≡ with_code place (code st.now) found.old.items) }
{
    match &st.node {
        StmtNode::Empty | StmtNode::Act(_) => Ok(()),
        StmtNode::Return(_) | StmtNode::Break | StmtNode::Continue => Ok(()),
        StmtNode::Block(items) => {
            if place < st.span.to {
                with_items(alloc, items, place, found)
            } else {
                Ok(())
            }
        }
        StmtNode::If { yes, no, .. } => {
            with_stmt(alloc, yes, place, found)?;
            match no {
                None => Ok(()),
                Some(no) => with_stmt(alloc, no, place, found),
            }
        }
        StmtNode::While { body, .. } => with_stmt(alloc, body, place, found),
        StmtNode::Do { body, .. } => with_stmt(alloc, body, place, found),
        StmtNode::For { init, body, .. } => {
            if place < st.span.to {
                with_init(alloc, init, place, found)?;
                with_stmt(alloc, body, place, found)
            } else {
                Ok(())
            }
        }
    }
}

/// Adds the declarations in the items of a block.
#[cycle(with_stmt)]
fn with_items(
    alloc: Global,
    items: &[Item],
    place: u32,
    found: &mut Vec<Visible>,
) -> Result<(), NoMemory>
    ensures { OnOk result (found.new.items ≡ with_body place (body_of items.now) found.old.items) }
{
    for item in items {
        add_item(alloc, item, place, found)?;
    }
    Ok(())
}

/// Adds the declarations in an item.
#[cycle(with_stmt)]
fn add_item(
    alloc: Global,
    item: &Item,
    place: u32,
    found: &mut Vec<Visible>,
) -> Result<(), NoMemory>
    ensures { OnOk result ((rest : Body) → with_body place rest found.new.items
        ≡ with_body place (with_item item.now rest) found.old.items) }
{
    match item {
        Item::Vars(ty, ds) => with_variables(alloc, ds, *ty, place, found),
        Item::Stmt(st) => with_stmt(alloc, st, place, found),
    }
}

/// Adds the declarations in the body of a function, if it has one.
fn with_definition(
    alloc: Global,
    body: &Option<Vec<Item>>,
    place: u32,
    found: &mut Vec<Visible>,
) -> Result<(), NoMemory>
    ensures { OnOk result (found.new.items
        ≡ with_definition place (body_option body.now) found.old.items) }
{
    match body {
        None => Ok(()),
        Some(items) => with_items(alloc, items, place, found),
    }
}

/// Adds the declarations in what stands at file scope.
fn with_external(
    alloc: Global,
    external: &External,
    place: u32,
    found: &mut Vec<Visible>,
) -> Result<(), NoMemory>
    ensures { OnOk result (found.new.items
        ≡ with_outer place (outer external.now) found.old.items) }
{
    match external {
        External::Vars(ty, ds) => with_variables(alloc, ds, *ty, place, found),
        External::Func(f) => {
            if place < f.span.to {
                with_params(alloc, &f.params, place, found)?;
                with_definition(alloc, &f.body, place, found)
            } else {
                Ok(())
            }
        }
    }
}

/// The declarations of a file whose scope has the place, in text order.
fn with_externals(alloc: Global, file: &[External], place: u32) -> Result<Vec<Visible>, NoMemory>
    ensures { IfOk result (λ r. r.items ≡ with_outers place (map outer file.now) []) }
{
    let mut found = Vec::new(alloc);
    for external in file {
        with_external(alloc, external, place, &mut found)?;
    }
    Ok(found)
}
