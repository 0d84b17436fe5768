//! Built-ins and tests by their names: a number is a place in a table.

ghost use Rattle.beam_code.specs.Function.{first_that};
ghost use Rattle.std.specs.Prelude.{◌≡◌, ◌&&◌, ◌<◌, ◌^◌, length, nat_eq};
ghost use Rattle.std.specs.Str.{bytes_eq};
ghost use Rattle.word_rows.specs.Names as names;

/// A built-in by module, name and arity, and whether it may stand in `bif` and `gc_bif`.
type BuiltIn = (&'static str, &'static str, usize, bool);

const BUILT_INS: [BuiltIn; 57] = [
    ("erlang", "+", 2, true),
    ("erlang", "-", 2, true),
    ("erlang", "*", 2, true),
    ("erlang", "div", 2, true),
    ("erlang", "rem", 2, true),
    ("erlang", "band", 2, true),
    ("erlang", "bor", 2, true),
    ("erlang", "bxor", 2, true),
    ("erlang", "bsl", 2, true),
    ("erlang", "bsr", 2, true),
    ("erlang", "bnot", 1, true),
    ("erlang", "-", 1, true),
    ("erlang", "+", 1, true),
    ("erlang", "abs", 1, true),
    ("erlang", "=:=", 2, true),
    ("erlang", "=/=", 2, true),
    ("erlang", "==", 2, true),
    ("erlang", "/=", 2, true),
    ("erlang", "<", 2, true),
    ("erlang", ">", 2, true),
    ("erlang", "=<", 2, true),
    ("erlang", ">=", 2, true),
    ("erlang", "and", 2, true),
    ("erlang", "or", 2, true),
    ("erlang", "xor", 2, true),
    ("erlang", "not", 1, true),
    ("erlang", "is_integer", 1, true),
    ("erlang", "is_atom", 1, true),
    ("erlang", "is_list", 1, true),
    ("erlang", "is_tuple", 1, true),
    ("erlang", "is_boolean", 1, true),
    ("erlang", "is_number", 1, true),
    ("erlang", "hd", 1, true),
    ("erlang", "tl", 1, true),
    ("erlang", "element", 2, true),
    ("erlang", "tuple_size", 1, true),
    ("erlang", "length", 1, true),
    ("erlang", "min", 2, true),
    ("erlang", "max", 2, true),
    ("erlang", "setelement", 3, false),
    ("erlang", "++", 2, false),
    ("erlang", "list_to_tuple", 1, false),
    ("erlang", "tuple_to_list", 1, false),
    ("lists", "reverse", 2, false),
    ("lists", "member", 2, false),
    ("erlang", "throw", 1, false),
    ("erlang", "exit", 1, false),
    ("erlang", "error", 1, false),
    ("erlang", "error", 2, false),
    ("erlang", "is_float", 1, true),
    ("erlang", "is_pid", 1, true),
    ("erlang", "is_reference", 1, true),
    ("erlang", "is_port", 1, true),
    ("erlang", "is_binary", 1, true),
    ("erlang", "is_bitstring", 1, true),
    ("erlang", "is_map", 1, true),
    ("erlang", "is_function", 1, true),
];

/// The tests by name and number of operands.
const TESTS: [(&str, usize); 25] = [
    ("is_integer", 1),
    ("is_number", 1),
    ("is_atom", 1),
    ("is_nil", 1),
    ("is_list", 1),
    ("is_nonempty_list", 1),
    ("is_tuple", 1),
    ("is_boolean", 1),
    ("is_lt", 2),
    ("is_ge", 2),
    ("is_eq", 2),
    ("is_ne", 2),
    ("is_eq_exact", 2),
    ("is_ne_exact", 2),
    ("test_arity", 2),
    ("is_tagged_tuple", 3),
    ("is_float", 1),
    ("is_pid", 1),
    ("is_reference", 1),
    ("is_port", 1),
    ("is_binary", 1),
    ("is_bitstr", 1),
    ("is_map", 1),
    ("is_function", 1),
    ("is_function2", 2),
];

fn first_called(rows: &[BuiltIn], owner: &str, name: &str, arity: usize) -> Option<u32>
    requires { length rows.now < 2 ^ 32 }
    ensures { result ≡ first_that (λ row. bytes_eq owner.now row.0.now && bytes_eq name.now row.1.now && nat_eq arity row.2) 0 rows.now }
{
    let mut at = 0;
    for row in rows {
        if owner == row.0 && name == row.1 && arity == row.2 {
            return Some(at);
        }
        at += 1;
    }
    None
}

fn first_inline(rows: &[BuiltIn], name: &str, arity: usize) -> Option<u32>
    requires { length rows.now < 2 ^ 32 }
    ensures { result ≡ first_that (λ row. row.3 && bytes_eq name.now row.1.now && nat_eq arity row.2) 0 rows.now }
{
    let mut at = 0;
    for row in rows {
        if row.3 && name == row.1 && arity == row.2 {
            return Some(at);
        }
        at += 1;
    }
    None
}

fn first_test(rows: &[(&'static str, usize)], name: &str, arity: usize) -> Option<u32>
    requires { length rows.now < 2 ^ 32 }
    ensures { result ≡ first_that (λ row. bytes_eq name.now row.0.now && nat_eq arity row.1) 0 rows.now }
{
    let mut at = 0;
    for row in rows {
        if name == row.0 && arity == row.1 {
            return Some(at);
        }
        at += 1;
    }
    None
}

/// The number of the built-in of these names and this arity.
#[tactic(auto, unfolding(crate::specs::Names::built_in_number))]
pub(crate) fn built_in_number(owner: &str, name: &str, arity: usize) -> Option<u32>
    ensures { result ≡ names.built_in_number owner.now name.now arity }
{
    first_called(&BUILT_INS, owner, name, arity)
}

/// The number of the one that `bif` and `gc_bif` may name.
#[tactic(auto, unfolding(crate::specs::Names::inline_number))]
pub(crate) fn inline_number(name: &str, arity: usize) -> Option<u32>
    ensures { result ≡ names.inline_number name.now arity }
{
    first_inline(&BUILT_INS, name, arity)
}

/// The number of the test of this name and so many operands.
#[tactic(auto, unfolding(crate::specs::Names::test_number))]
pub(crate) fn test_number(name: &str, arity: usize) -> Option<u32>
    ensures { result ≡ names.test_number name.now arity }
{
    first_test(&TESTS, name, arity)
}
