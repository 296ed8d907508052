//! The nonterminals of the grammar of expressions.

/// A nonterminal of the grammar of expressions: a kind of expression (C11 6.5). Each but the first
/// is an expression of the kind before it as well.
#[derive(Clone, Copy)]
pub enum Nonterminal {
    /// Expressions with commas between them.
    Expression,
    /// An assignment.
    Assignment,
    /// `test ? yes : no`
    Conditional,
    /// Operands with operators between them that bind at least as strongly as that rank. With 0 it
    /// is one operand.
    Binary(u8),
    /// A conversion to a type.
    Cast,
    /// A prefix operator and its operand.
    Unary,
    /// A primary expression, with `++` or `--` after it or with none.
    Postfix,
    /// A constant, a name, an element, a call, or an expression in parentheses.
    Primary,
}
