//! Forms of instructions that move, make and test terms. Each row is a form, and the instruction that it is
//! read as or its refusal.

/// Labels, lines and comments.
pub const LABELS: [(&str, &str); 15] = [
    ("{label,3}", "Label(3)"),
    ("{label}", "Shape 9"),
    ("{label,3,3}", "Shape 9"),
    ("{label,a}", "Shape 9"),
    ("{label,-1}", "Shape 9"),
    ("{label,{f,3}}", "Shape 9"),
    ("{label,0}", "Label(0)"),
    ("{line,7}", "Line(Int(7))"),
    ("{line}", "Shape 9"),
    ("{line,[],[]}", "Shape 9"),
    ("{line,a}", "Line(Atom(Name { text: \"a\" }))"),
    ("{'%',7}", "Comment(Int(7))"),
    ("{'%'}", "Shape 9"),
    ("{'%',7,8}", "Shape 9"),
    ("{'%',1.5}", "Comment(Int(0))"),
];

/// The beginning of a function once more.
pub const BEGINNINGS: [(&str, &str); 6] = [
    (
        "{func_info,{atom,k},{atom,g},255}",
        "FuncInfo(Name { text: \"k\" }, Name { text: \"g\" }, 255)",
    ),
    ("{func_info,{atom,k},{atom,g}}", "Shape 9"),
    ("{func_info,{atom,k},{atom,g},1,1}", "Shape 9"),
    ("{func_info,k,{atom,g},1}", "Shape 9"),
    ("{func_info,{atom,k},{atom,g},256}", "Shape 9"),
    ("{func_info,{atom,k},{atom,1},0}", "Shape 9"),
];

/// Moves and swaps.
pub const MOVES: [(&str, &str); 40] = [
    ("{move,{x,0},{y,0}}", "Move(X(0), Y(0))"),
    ("{move,{x,0}}", "Shape 9"),
    ("{move,{x,0},{x,1},{x,2}}", "Shape 9"),
    ("{move,{x,0},{integer,1}}", "Shape 9"),
    ("{move,x,{x,0}}", "Shape 9"),
    ("{move,{f,1},{x,0}}", "Shape 9"),
    (
        "{move,{integer,134217727},{x,0}}",
        "Move(Int(134217727), X(0))",
    ),
    (
        "{move,{integer,-134217728},{x,0}}",
        "Move(Int(-134217728), X(0))",
    ),
    ("{move,{integer,a},{x,0}}", "Shape 9"),
    (
        "{move,{atom,a},{x,0}}",
        "Move(Atom(Name { text: \"a\" }), X(0))",
    ),
    ("{move,{atom,1},{x,0}}", "Shape 9"),
    ("{move,nil,{x,0}}", "Move(Nil, X(0))"),
    ("{move,[],{x,0}}", "Shape 9"),
    ("{move,{nil},{x,0}}", "Shape 9"),
    ("{move,{literal,7},{x,0}}", "Move(Literal(Int(7)), X(0))"),
    ("{move,{literal},{x,0}}", "Shape 9"),
    ("{move,{literal,7,8},{x,0}}", "Shape 9"),
    ("{move,{float,7},{x,0}}", "Shape 9"),
    ("{move,nil,nil}", "Shape 9"),
    ("{move,{x,255},{x,0}}", "Move(X(255), X(0))"),
    ("{move,{x,256},{x,0}}", "Register 9"),
    ("{move,{x,0},{x,255}}", "Move(X(0), X(255))"),
    ("{move,{x,0},{x,256}}", "Register 9"),
    ("{move,{y,255},{x,0}}", "Move(Y(255), X(0))"),
    ("{move,{y,256},{x,0}}", "Register 9"),
    ("{move,{x,0},{y,255}}", "Move(X(0), Y(255))"),
    ("{move,{x,0},{y,256}}", "Register 9"),
    ("{move,{x,256},a}", "Shape 9"),
    ("{move,{x,-1},{x,0}}", "Shape 9"),
    ("{move,{x,a},{x,0}}", "Shape 9"),
    ("{move,{x},{x,0}}", "Shape 9"),
    ("{move,{x,0,0},{x,0}}", "Shape 9"),
    ("{move,{z,0},{x,0}}", "Shape 9"),
    ("{swap,{x,0},{y,1}}", "Swap(X(0), Y(1))"),
    ("{swap,{x,0}}", "Shape 9"),
    ("{swap,{x,0},{x,1},{x,2}}", "Shape 9"),
    ("{swap,nil,{x,1}}", "Shape 9"),
    ("{swap,{x,3},{x,3}}", "Swap(X(3), X(3))"),
    ("{swap,{x,256},{x,0}}", "Register 9"),
    ("{swap,{x,0},{y,256}}", "Register 9"),
];

/// Lists and tuples.
pub const LISTS: [(&str, &str); 38] = [
    ("{get_list,{x,0},{x,1},{y,2}}", "GetList(X(0), X(1), Y(2))"),
    ("{get_list,{x,0},{x,1}}", "Shape 9"),
    ("{get_list,{x,0},{x,1},{x,2},{x,3}}", "Shape 9"),
    ("{get_list,{x,0},{x,1},nil}", "Shape 9"),
    ("{get_list,{x,0},{x,1},{x,1}}", "GetList(X(0), X(1), X(1))"),
    ("{get_list,{x,0},{x,256},{x,1}}", "Register 9"),
    ("{get_list,{x,0},{x,1},{x,256}}", "Register 9"),
    ("{get_hd,{y,1},{x,0}}", "GetHd(Y(1), X(0))"),
    ("{get_hd,{x,0}}", "Shape 9"),
    ("{get_hd,{x,0},{x,1},{x,2}}", "Shape 9"),
    ("{get_hd,0,{x,0}}", "Shape 9"),
    ("{get_hd,{y,256},{x,0}}", "Register 9"),
    ("{get_tl,{x,1},{x,0}}", "GetTl(X(1), X(0))"),
    ("{get_tl,{x,0}}", "Shape 9"),
    ("{get_tl,{x,0},{x,1},{x,2}}", "Shape 9"),
    ("{get_tl,{x,0},{f,1}}", "Shape 9"),
    ("{get_tl,{x,0},{y,256}}", "Register 9"),
    (
        "{get_tuple_element,{x,0},5,{x,1}}",
        "GetTupleElement(X(0), 5, X(1))",
    ),
    ("{get_tuple_element,{x,0},5}", "Shape 9"),
    ("{get_tuple_element,{x,0},5,{x,1},0}", "Shape 9"),
    ("{get_tuple_element,{x,0},{integer,5},{x,1}}", "Shape 9"),
    ("{get_tuple_element,{x,0},-1,{x,1}}", "Shape 9"),
    (
        "{get_tuple_element,{x,0},134217727,{x,1}}",
        "GetTupleElement(X(0), 134217727, X(1))",
    ),
    ("{put_list,{x,0},nil,{x,1}}", "PutList(X(0), Nil, X(1))"),
    ("{put_list,{x,0},nil}", "Shape 9"),
    ("{put_list,{x,0},nil,{x,1},{x,2}}", "Shape 9"),
    ("{put_list,{x,0},[],{x,1}}", "Shape 9"),
    ("{put_list,{x,0},{x,256},{x,1}}", "Register 9"),
    (
        "{put_tuple2,{x,0},{list,[{x,1},nil]}}",
        "PutTuple2(X(0), Few { items: [X(1), Nil] })",
    ),
    (
        "{put_tuple2,{x,0},{list,[]}}",
        "PutTuple2(X(0), Few { items: [] })",
    ),
    ("{put_tuple2,{x,0}}", "Shape 9"),
    ("{put_tuple2,{x,0},{list,[]},0}", "Shape 9"),
    ("{put_tuple2,{x,0},[{x,1}]}", "Shape 9"),
    ("{put_tuple2,{x,0},{list,[7]}}", "Shape 9"),
    ("{put_tuple2,{x,0},{list,[{x,1}|{x,2}]}}", "Shape 9"),
    ("{put_tuple2,{x,0},{list,{x,1}}}", "Shape 9"),
    ("{put_tuple2,{x,0},{list,[{x,1},{x,256}]}}", "Register 9"),
    ("{put_tuple2,{x,256},{list,[{x,1},7]}}", "Shape 9"),
];

/// Tests.
pub const TESTS: [(&str, &str); 52] = [
    (
        "{test,is_integer,{f,1},[{x,0}]}",
        "Test(Name { text: \"is_integer\" }, 1, Few { items: [X(0)] })",
    ),
    (
        "{test,is_number,{f,1},[{x,0}]}",
        "Test(Name { text: \"is_number\" }, 1, Few { items: [X(0)] })",
    ),
    (
        "{test,is_atom,{f,1},[{x,0}]}",
        "Test(Name { text: \"is_atom\" }, 1, Few { items: [X(0)] })",
    ),
    (
        "{test,is_nil,{f,1},[{x,0}]}",
        "Test(Name { text: \"is_nil\" }, 1, Few { items: [X(0)] })",
    ),
    (
        "{test,is_list,{f,1},[{x,0}]}",
        "Test(Name { text: \"is_list\" }, 1, Few { items: [X(0)] })",
    ),
    (
        "{test,is_nonempty_list,{f,1},[{x,0}]}",
        "Test(Name { text: \"is_nonempty_list\" }, 1, Few { items: [X(0)] })",
    ),
    (
        "{test,is_tuple,{f,1},[{x,0}]}",
        "Test(Name { text: \"is_tuple\" }, 1, Few { items: [X(0)] })",
    ),
    (
        "{test,is_boolean,{f,1},[{x,0}]}",
        "Test(Name { text: \"is_boolean\" }, 1, Few { items: [X(0)] })",
    ),
    (
        "{test,is_float,{f,1},[{x,0}]}",
        "Test(Name { text: \"is_float\" }, 1, Few { items: [X(0)] })",
    ),
    (
        "{test,is_pid,{f,1},[{x,0}]}",
        "Test(Name { text: \"is_pid\" }, 1, Few { items: [X(0)] })",
    ),
    (
        "{test,is_reference,{f,1},[{x,0}]}",
        "Test(Name { text: \"is_reference\" }, 1, Few { items: [X(0)] })",
    ),
    (
        "{test,is_port,{f,1},[{x,0}]}",
        "Test(Name { text: \"is_port\" }, 1, Few { items: [X(0)] })",
    ),
    (
        "{test,is_binary,{f,1},[{x,0}]}",
        "Test(Name { text: \"is_binary\" }, 1, Few { items: [X(0)] })",
    ),
    (
        "{test,is_bitstr,{f,1},[{x,0}]}",
        "Test(Name { text: \"is_bitstr\" }, 1, Few { items: [X(0)] })",
    ),
    (
        "{test,is_map,{f,1},[{x,0}]}",
        "Test(Name { text: \"is_map\" }, 1, Few { items: [X(0)] })",
    ),
    (
        "{test,is_function,{f,1},[{x,0}]}",
        "Test(Name { text: \"is_function\" }, 1, Few { items: [X(0)] })",
    ),
    (
        "{test,is_lt,{f,1},[{x,0},{integer,3}]}",
        "Test(Name { text: \"is_lt\" }, 1, Few { items: [X(0), Int(3)] })",
    ),
    (
        "{test,is_ge,{f,1},[{x,0},{integer,3}]}",
        "Test(Name { text: \"is_ge\" }, 1, Few { items: [X(0), Int(3)] })",
    ),
    (
        "{test,is_eq,{f,1},[{x,0},{integer,3}]}",
        "Test(Name { text: \"is_eq\" }, 1, Few { items: [X(0), Int(3)] })",
    ),
    (
        "{test,is_ne,{f,1},[{x,0},{integer,3}]}",
        "Test(Name { text: \"is_ne\" }, 1, Few { items: [X(0), Int(3)] })",
    ),
    (
        "{test,is_eq_exact,{f,1},[{x,0},{integer,3}]}",
        "Test(Name { text: \"is_eq_exact\" }, 1, Few { items: [X(0), Int(3)] })",
    ),
    (
        "{test,is_ne_exact,{f,1},[{x,0},{integer,3}]}",
        "Test(Name { text: \"is_ne_exact\" }, 1, Few { items: [X(0), Int(3)] })",
    ),
    (
        "{test,test_arity,{f,1},[{x,0},2]}",
        "Test(Name { text: \"test_arity\" }, 1, Few { items: [X(0), Int(2)] })",
    ),
    (
        "{test,is_tagged_tuple,{f,1},[{x,0},2,{atom,a}]}",
        "Test(Name { text: \"is_tagged_tuple\" }, 1, Few { items: [X(0), Int(2), Atom(Name { text: \"a\" })] })",
    ),
    (
        "{test,is_function2,{f,1},[{x,0},2]}",
        "Test(Name { text: \"is_function2\" }, 1, Few { items: [X(0), Int(2)] })",
    ),
    (
        "{test,is_function2,{f,1},[{x,0},{integer,2}]}",
        "Test(Name { text: \"is_function2\" }, 1, Few { items: [X(0), Int(2)] })",
    ),
    ("{test,is_atom,{f,1},[]}", "Shape 9"),
    ("{test,is_atom,{f,1},[{x,0},{x,1}]}", "Shape 9"),
    ("{test,is_atom,{f,1}}", "Shape 9"),
    ("{test,is_atom,{f,1},[{x,0}],0}", "Shape 9"),
    ("{test,is_atom,1,[{x,0}]}", "Shape 9"),
    ("{test,is_atom,{f,1},{x,0}}", "Shape 9"),
    ("{test,is_atom,{f,1},[0]}", "Shape 9"),
    ("{test,is_lt,{f,1},[{x,0}]}", "Shape 9"),
    ("{test,is_lt,{f,1},[{x,0},{x,1},{x,2}]}", "Shape 9"),
    ("{test,is_lt,{f,1},[{x,0},3]}", "Shape 9"),
    ("{test,test_arity,{f,1},[{x,0}]}", "Shape 9"),
    ("{test,test_arity,{f,1},[{x,0},{integer,2}]}", "Shape 9"),
    ("{test,test_arity,{f,1},[{x,0},2,2]}", "Shape 9"),
    ("{test,is_tagged_tuple,{f,1},[{x,0},2,a]}", "Shape 9"),
    ("{test,is_tagged_tuple,{f,1},[{x,0},2]}", "Shape 9"),
    (
        "{test,is_tagged_tuple,{f,1},[{x,0},{integer,2},{atom,a}]}",
        "Shape 9",
    ),
    ("{test,is_function2,{f,1},[{x,0},a]}", "Shape 9"),
    ("{test,foo}", "Unsupported foo 9"),
    ("{test,foo,{f,1},[{x,256}]}", "Unsupported foo 9"),
    ("{test,is_atom}", "Shape 9"),
    ("{test}", "Shape 9"),
    ("{test,1}", "Shape 9"),
    ("test", "Shape 9"),
    ("{test,is_atom,{f,1},[{x,256}]}", "Register 9"),
    ("{test,is_atom,{f,0},[{x,0}]}", "Label 9"),
    ("{test,is_atom,{f,9},[{x,0}]}", "Label 9"),
];
