// What the grammar wants at a point of the text, and what it takes there.
ghost use Rattle.std.specs.Prelude.{◌≡◌, ◌≤◌};
ghost use Rattle.core_grammar.specs.Standing.{takes_variable, takes_constant, takes_integer, takes_atom, takes_list, takes_name, takes_fun, takes_expression};
ghost use Rattle.core_syntax.specs.Sorts.{sort_of, inner, of_items, of_keys, of_values, leaf_weight, open_weight};

/// An expression, a pattern, a constant, what an annotation holds, a key or a size in a pattern, the value of a segment
/// there, a variable, a function's name, an atom, a `fun`.
#[derive(Clone, Copy, Debug)]
pub enum Sort {
    Expression,
    Pattern,
    Constant,
    Note,
    Key,
    SegmentValue,
    Variable,
    FunctionName,
    Atom,
    Fun,
}

impl Sort {
    pub fn takes_variable(self) -> bool
        ensures { result ≡ takes_variable (sort_of self) }
    {
        match self {
            Sort::Expression | Sort::Pattern | Sort::Key | Sort::SegmentValue | Sort::Variable =>
                true,
            Sort::Constant | Sort::Note | Sort::FunctionName | Sort::Atom | Sort::Fun => false,
        }
    }

    /// Floats, characters, external funs, tuples, maps and binaries.
    pub fn takes_constant(self) -> bool
        ensures { result ≡ takes_constant (sort_of self) }
    {
        match self {
            Sort::Expression | Sort::Pattern | Sort::Constant | Sort::Key => true,
            Sort::Note
            | Sort::SegmentValue
            | Sort::Variable
            | Sort::FunctionName
            | Sort::Atom
            | Sort::Fun => false,
        }
    }

    pub fn takes_integer(self) -> bool
        ensures { result ≡ takes_integer (sort_of self) }
    {
        match self {
            Sort::Expression | Sort::Pattern | Sort::Constant | Sort::Key | Sort::SegmentValue =>
                true,
            Sort::Note | Sort::Variable | Sort::FunctionName | Sort::Atom | Sort::Fun => false,
        }
    }

    pub fn takes_atom(self) -> bool
        ensures { result ≡ takes_atom (sort_of self) }
    {
        match self {
            Sort::Expression | Sort::Pattern | Sort::Constant | Sort::Key | Sort::Atom => true,
            Sort::Note | Sort::SegmentValue | Sort::Variable | Sort::FunctionName | Sort::Fun =>
                false,
        }
    }

    pub fn takes_list(self) -> bool
        ensures { result ≡ takes_list (sort_of self) }
    {
        match self {
            Sort::Expression | Sort::Pattern | Sort::Constant | Sort::Note | Sort::Key => true,
            Sort::SegmentValue | Sort::Variable | Sort::FunctionName | Sort::Atom | Sort::Fun =>
                false,
        }
    }

    pub fn takes_name(self) -> bool
        ensures { result ≡ takes_name (sort_of self) }
    {
        match self {
            Sort::Expression | Sort::FunctionName => true,
            Sort::Pattern
            | Sort::Constant
            | Sort::Note
            | Sort::Key
            | Sort::SegmentValue
            | Sort::Variable
            | Sort::Atom
            | Sort::Fun => false,
        }
    }

    pub fn takes_fun(self) -> bool
        ensures { result ≡ takes_fun (sort_of self) }
    {
        match self {
            Sort::Expression | Sort::Fun => true,
            Sort::Pattern
            | Sort::Constant
            | Sort::Note
            | Sort::Key
            | Sort::SegmentValue
            | Sort::Variable
            | Sort::FunctionName
            | Sort::Atom => false,
        }
    }

    pub fn takes_expression(self) -> bool
        ensures { result ≡ takes_expression (sort_of self) }
    {
        match self {
            Sort::Expression => true,
            Sort::Pattern
            | Sort::Constant
            | Sort::Note
            | Sort::Key
            | Sort::SegmentValue
            | Sort::Variable
            | Sort::FunctionName
            | Sort::Atom
            | Sort::Fun => false,
        }
    }

    /// In an annotation's brackets.
    pub fn inner(self) -> Sort
        ensures { result ≡ inner self }
    {
        match self {
            Sort::SegmentValue => Sort::Variable,
            Sort::Expression
            | Sort::Pattern
            | Sort::Constant
            | Sort::Note
            | Sort::Key
            | Sort::Variable
            | Sort::FunctionName
            | Sort::Atom
            | Sort::Fun => self,
        }
    }

    /// The items of lists and tuples, and the values of pairs.
    pub fn of_items(self) -> Sort
        ensures { result ≡ of_items self }
    {
        match self {
            Sort::Expression | Sort::Pattern => self,
            Sort::Constant
            | Sort::Note
            | Sort::Key
            | Sort::SegmentValue
            | Sort::Variable
            | Sort::FunctionName
            | Sort::Atom
            | Sort::Fun => Sort::Constant,
        }
    }

    /// The keys of pairs, and the sizes of segments.
    pub fn of_keys(self) -> Sort
        ensures { result ≡ of_keys self }
    {
        match self {
            Sort::Expression => Sort::Expression,
            Sort::Pattern => Sort::Key,
            Sort::Constant
            | Sort::Note
            | Sort::Key
            | Sort::SegmentValue
            | Sort::Variable
            | Sort::FunctionName
            | Sort::Atom
            | Sort::Fun => Sort::Constant,
        }
    }

    /// The values of segments.
    pub fn of_values(self) -> Sort
        ensures { result ≡ of_values self }
    {
        match self {
            Sort::Expression => Sort::Expression,
            Sort::Pattern => Sort::SegmentValue,
            Sort::Constant
            | Sort::Note
            | Sort::Key
            | Sort::SegmentValue
            | Sort::Variable
            | Sort::FunctionName
            | Sort::Atom
            | Sort::Fun => Sort::Constant,
        }
    }

    /// What an atom and an integer count.
    pub fn leaf_weight(self) -> u32
        ensures value { result ≡ leaf_weight self }
        ensures bound { result ≤ 1 }
    {
        match self {
            Sort::Expression
            | Sort::Pattern
            | Sort::Constant
            | Sort::Note
            | Sort::Key
            | Sort::Fun => 1,
            Sort::SegmentValue | Sort::Variable | Sort::FunctionName | Sort::Atom => 0,
        }
    }

    /// What a variable and a bracket count at least: in a key nothing.
    pub fn open_weight(self) -> u32
        ensures value { result ≡ open_weight self }
        ensures bound { result ≤ 1 }
    {
        match self {
            Sort::Expression | Sort::Pattern | Sort::Constant | Sort::Note | Sort::Fun => 1,
            Sort::Key | Sort::SegmentValue | Sort::Variable | Sort::FunctionName | Sort::Atom => 0,
        }
    }
}
