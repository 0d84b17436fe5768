// Which built-ins there are, and which may fail.

ghost use Rattle.std.specs.Prelude.{◌≡◌, ◌&&◌, nat_eq};
ghost use Rattle.std.specs.Str.{bytes_eq};
ghost use Rattle.path_rules.specs.BuiltIns as spec;

/// The built-ins by module, name and arity; whether one may stand in `bif` and `gc_bif`; whether
/// it may fail.
type Row = (&'static str, &'static str, usize, bool, bool);

const BUILT_INS: [Row; 57] = [
    ("erlang", "+", 2, true, true),
    ("erlang", "-", 2, true, true),
    ("erlang", "*", 2, true, true),
    ("erlang", "div", 2, true, true),
    ("erlang", "rem", 2, true, true),
    ("erlang", "band", 2, true, true),
    ("erlang", "bor", 2, true, true),
    ("erlang", "bxor", 2, true, true),
    ("erlang", "bsl", 2, true, true),
    ("erlang", "bsr", 2, true, true),
    ("erlang", "bnot", 1, true, true),
    ("erlang", "-", 1, true, true),
    ("erlang", "+", 1, true, true),
    ("erlang", "abs", 1, true, true),
    ("erlang", "=:=", 2, true, false),
    ("erlang", "=/=", 2, true, false),
    ("erlang", "==", 2, true, false),
    ("erlang", "/=", 2, true, false),
    ("erlang", "<", 2, true, false),
    ("erlang", ">", 2, true, false),
    ("erlang", "=<", 2, true, false),
    ("erlang", ">=", 2, true, false),
    ("erlang", "and", 2, true, true),
    ("erlang", "or", 2, true, true),
    ("erlang", "xor", 2, true, true),
    ("erlang", "not", 1, true, true),
    ("erlang", "is_integer", 1, true, false),
    ("erlang", "is_atom", 1, true, false),
    ("erlang", "is_list", 1, true, false),
    ("erlang", "is_tuple", 1, true, false),
    ("erlang", "is_boolean", 1, true, false),
    ("erlang", "is_number", 1, true, false),
    ("erlang", "hd", 1, true, true),
    ("erlang", "tl", 1, true, true),
    ("erlang", "element", 2, true, true),
    ("erlang", "tuple_size", 1, true, true),
    ("erlang", "length", 1, true, true),
    ("erlang", "min", 2, true, false),
    ("erlang", "max", 2, true, false),
    ("erlang", "setelement", 3, false, true),
    ("erlang", "++", 2, false, true),
    ("erlang", "list_to_tuple", 1, false, true),
    ("erlang", "tuple_to_list", 1, false, true),
    ("lists", "reverse", 2, false, true),
    ("lists", "member", 2, false, true),
    ("erlang", "throw", 1, false, true),
    ("erlang", "exit", 1, false, true),
    ("erlang", "error", 1, false, true),
    ("erlang", "error", 2, false, true),
    ("erlang", "is_float", 1, true, false),
    ("erlang", "is_pid", 1, true, false),
    ("erlang", "is_reference", 1, true, false),
    ("erlang", "is_port", 1, true, false),
    ("erlang", "is_binary", 1, true, false),
    ("erlang", "is_bitstring", 1, true, false),
    ("erlang", "is_map", 1, true, false),
    ("erlang", "is_function", 1, true, false),
];

fn first_called(rows: &[Row], owner: &str, name: &str, arity: usize) -> Option<bool>
    ensures { result ≡ spec.first_row (λ row. bytes_eq owner.now row.0.now && bytes_eq name.now row.1.now && nat_eq arity row.2) (λ row. row.4) rows.now }
{
    for row in rows {
        if owner == row.0 && name == row.1 && arity == row.2 {
            return Some(row.4);
        }
    }
    None
}

fn first_inline(rows: &[Row], name: &str, arity: usize) -> Option<bool>
    ensures { result ≡ spec.first_row (λ row. row.3 && bytes_eq name.now row.1.now && nat_eq arity row.2) (λ row. row.4) rows.now }
{
    for row in rows {
        if row.3 && name == row.1 && arity == row.2 {
            return Some(row.4);
        }
    }
    None
}

/// Whether the built-in of these names and this arity may fail, if there is one.
#[tactic(auto, unfolding(crate::specs::BuiltIns::built_in_fails))]
pub(crate) fn built_in_fails(owner: &str, name: &str, arity: usize) -> Option<bool>
    ensures { result ≡ spec.built_in_fails owner.now name.now arity }
{
    first_called(&BUILT_INS, owner, name, arity)
}

/// The same of the one that `bif` and `gc_bif` may name.
#[tactic(auto, unfolding(crate::specs::BuiltIns::inline_fails))]
pub(crate) fn inline_fails(name: &str, arity: usize) -> Option<bool>
    ensures { result ≡ spec.inline_fails name.now arity }
{
    first_inline(&BUILT_INS, name, arity)
}
