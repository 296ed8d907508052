//! The spellings of operators and types.

ghost use Rattle.std.specs.Prelude.{◌≡◌, ◌++◌, codes};
ghost use Rattle.patch_text.specs.Printed.{sign, symbol, type_name, parenthesized};

use c_tree::{BinOp, Ty, UnOp};

/// A prefix operator, as it stands directly before its operand.
pub fn prefix_text(op: UnOp) -> &'static [u8]
    ensures { result.now ≡ sign op }
{
    match op {
        UnOp::Plus => b"+",
        UnOp::Minus => b"-",
        UnOp::Flip => b"!",
        UnOp::Compl => b"~",
    }
}

/// An operator between two operands, with the spaces round it.
pub fn infix_text(op: BinOp) -> &'static [u8]
    ensures { result.now ≡ codes " " ++ symbol op ++ codes " " }
{
    match op {
        BinOp::Mul => b" * ",
        BinOp::Div => b" / ",
        BinOp::Rem => b" % ",
        BinOp::Add => b" + ",
        BinOp::Sub => b" - ",
        BinOp::Shl => b" << ",
        BinOp::Shr => b" >> ",
        BinOp::Lt => b" < ",
        BinOp::Le => b" <= ",
        BinOp::Gt => b" > ",
        BinOp::Ge => b" >= ",
        BinOp::Eq => b" == ",
        BinOp::Ne => b" != ",
        BinOp::BitAnd => b" & ",
        BinOp::BitXor => b" ^ ",
        BinOp::BitOr => b" | ",
        BinOp::Both => b" && ",
        BinOp::Either => b" || ",
    }
}

/// A cast's type in its parentheses, with the space after it.
pub fn cast_text(ty: Ty) -> &'static [u8]
    ensures { result.now ≡ parenthesized (type_name ty) ++ codes " " }
{
    match ty {
        Ty::Int => b"(int) ",
        Ty::Char => b"(char) ",
    }
}
