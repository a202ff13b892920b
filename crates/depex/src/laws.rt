//! Laws of dependency expressions. These functions do nothing: their contracts are the laws.
ghost use Rattle.depex.specs.Laws.{ExpressionOrFault, NeverBoth, OneExpression, OneFault, SameWithMore, SameWhereCut, OneTree, NeedIsExact};

/// Bytes begin with one expression or have one fault, and never both.
pub fn expression_or_fault()
    ensures either { ExpressionOrFault }
    ensures never_both { NeverBoth }
    ensures one_expression { OneExpression }
    ensures one_fault { OneFault }
{}

/// Bytes past an expression's END change nothing of it.
pub fn same_past_end()
    ensures added { SameWithMore }
    ensures cut { SameWhereCut }
{}

/// Two trees whose items end one list are one.
pub fn one_tree()
    ensures { OneTree }
{}

/// The need of a tree is the most operands that stand at once where its items are worked off.
pub fn need_is_exact()
    ensures { NeedIsExact }
{}
