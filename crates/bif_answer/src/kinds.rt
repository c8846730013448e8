// Which type of term a value is.
ghost use Rattle.std.specs.Prelude.{◌≡◌};
ghost use Rattle.bif_table.specs.Kinds as K;
ghost use Rattle.bif_table.specs.TermTests.{type_holds};
ghost use Rattle.bif_table.specs.View.{type_view};
ghost use Rattle.shared_term.specs.View.{view, IsWhole};

use crate::comparisons::truth_in;
use bif_table::TypeTest;
use shared_term::Value;

/// Whether a value is of the type that a test asks for.
pub fn is_of_type(test: TypeTest, value: &Value) -> bool
    requires { IsWhole value.now }
    ensures { result ≡ type_holds (type_view test) (view value.now) }
{
    match value {
        Value::Int(_) => matches!(test, TypeTest::IsInteger | TypeTest::IsNumber),
        Value::Atom(_) => {
            matches!(test, TypeTest::IsAtom)
                || matches!(test, TypeTest::IsBoolean) && is_truth(value)
        }
        Value::Nil => matches!(test, TypeTest::IsList | TypeTest::IsNil),
        Value::Cons(_) => matches!(test, TypeTest::IsList | TypeTest::IsNonemptyList),
        Value::Tuple(_) => matches!(test, TypeTest::IsTuple),
        Value::Map(_) => matches!(test, TypeTest::IsMap),
        Value::Bits(_) => {
            matches!(test, TypeTest::IsBitstr)
                || matches!(test, TypeTest::IsBinary) && is_bytes(value)
        }
        Value::Fun(_) | Value::Extern(_) => matches!(test, TypeTest::IsFunction),
        Value::Pid(_) => matches!(test, TypeTest::IsPid),
        Value::Reference(_) => matches!(test, TypeTest::IsReference),
        Value::Port(_) => matches!(test, TypeTest::IsPort),
        Value::RawTrace(_) => false,
    }
}

/// A bit string of whole bytes.
#[tactic(auto, using(crate::proofs::Plain::whole_bytes))]
fn is_bytes(value: &Value) -> bool
    requires { IsWhole value.now }
    ensures { result ≡ K.is_bytes (view value.now) }
{
    match value.bit_len() {
        Some(bits) => bits % 8 == 0,
        None => false,
    }
}

/// A truth value.
fn is_truth(value: &Value) -> bool
    ensures { result ≡ K.is_truth (K.truth_of (view value.now)) }
{
    truth_in(value).is_some()
}
