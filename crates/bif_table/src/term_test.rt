// The tests of the machine that ask about terms alone.
ghost use Rattle.std.specs.Prelude.{◌≡◌};
ghost use Rattle.bif_table.specs.TermTests.{type_name, comparison_name};
ghost use Rattle.bif_table.specs.View.{type_view, comparison_view};

/// A test of one term's type.
#[derive(Clone, Copy, Debug, PartialEq, Eq)]
pub enum TypeTest {
    IsAtom,
    IsInteger,
    IsNumber,
    IsList,
    IsNonemptyList,
    IsNil,
    IsTuple,
    IsBinary,
    IsBitstr,
    IsBoolean,
    IsFunction,
    IsMap,
    IsPid,
    IsPort,
    IsReference,
}

/// A test of two terms.
#[derive(Clone, Copy, Debug, PartialEq, Eq)]
pub enum Comparison {
    IsEqExact,
    IsNeExact,
    IsEq,
    IsNe,
    IsLt,
    IsGe,
    IsFunction2,
}

impl TypeTest {
    /// Its name in the machine's text.
    pub fn name(self) -> &'static str
        ensures { result.now ≡ type_name (type_view self) }
    {
        match self {
            TypeTest::IsAtom => "is_atom",
            TypeTest::IsInteger => "is_integer",
            TypeTest::IsNumber => "is_number",
            TypeTest::IsList => "is_list",
            TypeTest::IsNonemptyList => "is_nonempty_list",
            TypeTest::IsNil => "is_nil",
            TypeTest::IsTuple => "is_tuple",
            TypeTest::IsBinary => "is_binary",
            TypeTest::IsBitstr => "is_bitstr",
            TypeTest::IsBoolean => "is_boolean",
            TypeTest::IsFunction => "is_function",
            TypeTest::IsMap => "is_map",
            TypeTest::IsPid => "is_pid",
            TypeTest::IsPort => "is_port",
            TypeTest::IsReference => "is_reference",
        }
    }
}

impl Comparison {
    /// Its name in the machine's text.
    pub fn name(self) -> &'static str
        ensures { result.now ≡ comparison_name (comparison_view self) }
    {
        match self {
            Comparison::IsEqExact => "is_eq_exact",
            Comparison::IsNeExact => "is_ne_exact",
            Comparison::IsEq => "is_eq",
            Comparison::IsNe => "is_ne",
            Comparison::IsLt => "is_lt",
            Comparison::IsGe => "is_ge",
            Comparison::IsFunction2 => "is_function2",
        }
    }
}
