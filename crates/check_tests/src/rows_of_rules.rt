//! Rules on paths. Each row has items of a function of two arguments, behind the label 2 that is its item 2; the item
//! where they break the rule; and the nearest items that keep all rules. A function of one argument has the label 4.

/// `FallsOff`
pub const FALLS_OFF: [(&str, u32, &str); 11] = [
    ("", 2, "return."),
    ("{move,{x,0},{x,1}}.", 3, "{move,{x,0},{x,1}}. return."),
    ("{test,is_atom,{f,1},[{x,0}]}.", 3, "{jump,{f,1}}."),
    (
        "{test,is_atom,{f,5},[{x,0}]}. return. {label,5}.",
        5,
        "{test,is_atom,{f,5},[{x,0}]}. return. {label,5}. return.",
    ),
    (
        "{test,is_atom,{f,5},[{x,0}]}. return. {label,5}. {move,{x,0},{x,1}}.",
        6,
        "{test,is_atom,{f,1},[{x,0}]}. return. {label,5}. {move,{x,0},{x,1}}.",
    ),
    ("{call,1,{f,4}}.", 3, "{call_only,1,{f,4}}."),
    (
        "{call_ext,1,{extfunc,erlang,abs,1}}.",
        3,
        "{call_ext,1,{extfunc,erlang,throw,1}}.",
    ),
    (
        "{call_ext,2,{extfunc,erlang,exit,2}}.",
        3,
        "{call_ext,2,{extfunc,erlang,error,2}}.",
    ),
    (
        "{call_ext,1,{extfunc,lists,error,1}}.",
        3,
        "{call_ext,1,{extfunc,erlang,error,1}}.",
    ),
    (
        "{move,{x,1},{x,2}}. raw_raise.",
        4,
        "{move,{x,1},{x,2}}. {bif,raise,{f,0},[{x,0},{x,1}],{x,2}}.",
    ),
    (
        "{allocate,1,1}. {'try',{y,0},{f,5}}. {call_ext,1,{extfunc,erlang,exit,1}}. {label,5}. {try_case,{y,0}}.",
        7,
        "{allocate,1,1}. {'try',{y,0},{f,5}}. {call_ext,1,{extfunc,erlang,exit,1}}. {label,5}. {try_case,{y,0}}. {deallocate,1}. return.",
    ),
];

/// `CallTarget`
pub const CALL_TARGET: [(&str, u32, &str); 10] = [
    ("{call_only,1,{f,3}}.", 3, "{call_only,1,{f,4}}."),
    ("{call_only,2,{f,4}}.", 3, "{call_only,1,{f,4}}."),
    ("{call_only,2,{f,77}}.", 3, "{call_only,2,{f,2}}."),
    (
        "{allocate,0,2}. {call,2,{f,1}}. {deallocate,0}. return.",
        4,
        "{allocate,0,2}. {call,2,{f,2}}. {deallocate,0}. return.",
    ),
    (
        "{allocate,0,2}. {call_last,2,{f,4},0}.",
        4,
        "{allocate,0,2}. {call_last,2,{f,2},0}.",
    ),
    (
        "{call_ext_only,1,{extfunc,k,g,2}}.",
        3,
        "{call_ext_only,2,{extfunc,k,g,2}}.",
    ),
    (
        "{allocate,0,2}. {call_ext_last,2,{extfunc,erlang,'++',1},0}.",
        4,
        "{allocate,0,2}. {call_ext_last,2,{extfunc,erlang,'++',2},0}.",
    ),
    (
        "{test,is_atom,{f,5},[{x,0}]}. return. {label,5}. {call_only,0,{f,77}}.",
        6,
        "{test,is_atom,{f,1},[{x,0}]}. return. {label,5}. {call_only,0,{f,77}}.",
    ),
    (
        "{test,is_atom,{f,5},[{x,0}]}. {call_only,2,{f,4}}. {label,5}. {call_only,0,{f,4}}.",
        4,
        "{test,is_atom,{f,5},[{x,0}]}. {call_only,1,{f,4}}. {label,5}. {call_only,1,{f,4}}.",
    ),
    (
        "{jump,{f,6}}. {label,5}. {call,2,{f,4}}. return. {label,6}. {call,0,{f,4}}. {jump,{f,5}}.",
        8,
        "{jump,{f,6}}. {label,5}. {call,1,{f,4}}. return. {label,6}. {call,1,{f,4}}. {jump,{f,5}}.",
    ),
];

/// `BadHandler`
pub const BAD_HANDLER: [(&str, u32, &str); 11] = [
    (
        "{allocate,1,1}. {'try',{y,0},{f,5}}. {call,1,{f,4}}. {try_end,{y,0}}. {deallocate,1}. return. {label,5}. {deallocate,1}. return.",
        4,
        "{allocate,1,1}. {'try',{y,0},{f,5}}. {call,1,{f,4}}. {try_end,{y,0}}. {deallocate,1}. return. {label,5}. {try_case,{y,0}}. {deallocate,1}. return.",
    ),
    (
        "{allocate,2,1}. {'try',{y,1},{f,5}}. {call,1,{f,4}}. {try_end,{y,1}}. {deallocate,2}. return. {label,5}. {try_case,{y,0}}. {deallocate,2}. return.",
        4,
        "{allocate,2,1}. {'try',{y,1},{f,5}}. {call,1,{f,4}}. {try_end,{y,1}}. {deallocate,2}. return. {label,5}. {try_case,{y,1}}. {deallocate,2}. return.",
    ),
    (
        "{allocate,1,1}. {'catch',{y,0},{f,5}}. {call,1,{f,4}}. {label,5}. {try_case,{y,0}}. {deallocate,1}. return.",
        4,
        "{allocate,1,1}. {'catch',{y,0},{f,5}}. {call,1,{f,4}}. {label,5}. {catch_end,{y,0}}. {deallocate,1}. return.",
    ),
    (
        "{allocate,2,1}. {'catch',{y,1},{f,5}}. {label,5}. {catch_end,{y,0}}. {deallocate,2}. return.",
        4,
        "{allocate,2,1}. {'catch',{y,1},{f,5}}. {label,5}. {catch_end,{y,1}}. {deallocate,2}. return.",
    ),
    (
        "{allocate,1,1}. {'try',{y,0},{f,5}}. {call,1,{f,4}}. {label,5}. {try_case,{y,0}}. {deallocate,1}. return.",
        7,
        "{allocate,1,1}. {'try',{y,0},{f,5}}. {call_ext,1,{extfunc,erlang,exit,1}}. {label,5}. {try_case,{y,0}}. {deallocate,1}. return.",
    ),
    (
        "{allocate,1,1}. {'try',{y,0},{f,5}}. {call_ext,1,{extfunc,erlang,exit,1}}. {label,5}. {line,[]}. {move,{x,0},{x,3}}. {try_case,{y,0}}. {deallocate,1}. return.",
        4,
        "{allocate,1,1}. {'try',{y,0},{f,5}}. {call_ext,1,{extfunc,erlang,exit,1}}. {label,5}. {line,[]}. {'%',a}. {label,6}. {try_case,{y,0}}. {deallocate,1}. return.",
    ),
    (
        "{allocate,1,1}. {'try',{y,0},{f,5}}. {test,is_atom,{f,6},[{x,0}]}. {call_ext,1,{extfunc,erlang,exit,1}}. {label,5}. {label,6}. {try_case,{y,0}}. {deallocate,1}. return.",
        9,
        "{allocate,1,1}. {'try',{y,0},{f,5}}. {test,is_atom,{f,7},[{x,0}]}. {call_ext,1,{extfunc,erlang,exit,1}}. {label,5}. {label,6}. {try_case,{y,0}}. {deallocate,1}. return. {label,7}. {try_end,{y,0}}. {deallocate,1}. return.",
    ),
    (
        "{allocate,1,1}. {'try',{y,0},{f,5}}. {gc_bif,'+',{f,5},1,[{x,0},{integer,1}],{x,0}}. {try_end,{y,0}}. {deallocate,1}. return. {label,5}. {try_case,{y,0}}. {deallocate,1}. return.",
        10,
        "{allocate,1,1}. {'try',{y,0},{f,5}}. {gc_bif,'+',{f,0},1,[{x,0},{integer,1}],{x,0}}. {try_end,{y,0}}. {deallocate,1}. return. {label,5}. {try_case,{y,0}}. {deallocate,1}. return.",
    ),
    (
        "{'try',{y,0},{f,1}}. return.",
        3,
        "return. {'try',{y,0},{f,1}}. return.",
    ),
    (
        "{allocate,1,1}. {'catch',{y,0},{f,5}}. {jump,{f,6}}. {label,6}. {deallocate,1}. return. {label,5}.",
        4,
        "{allocate,1,1}. {'catch',{y,0},{f,5}}. {jump,{f,5}}. {label,5}. {catch_end,{y,0}}. {deallocate,1}. return. {label,6}.",
    ),
    (
        "{allocate,1,1}. {try_case,{y,0}}. {deallocate,1}. return.",
        4,
        "{allocate,1,1}. {init,{y,0}}. {deallocate,1}. return.",
    ),
];

/// `Loop`
pub const LOOP: [(&str, u32, &str); 10] = [
    (
        "{label,5}. {test,is_atom,{f,1},[{x,0}]}. {jump,{f,5}}.",
        3,
        "{label,5}. {test,is_atom,{f,1},[{x,0}]}. {jump,{f,1}}.",
    ),
    (
        "{test,is_atom,{f,1},[{x,0}]}. {jump,{f,2}}.",
        2,
        "{test,is_atom,{f,1},[{x,0}]}. {call_only,2,{f,2}}.",
    ),
    (
        "{jump,{f,6}}. {label,5}. {test,is_nil,{f,1},[{x,0}]}. {label,6}. {test,is_atom,{f,5},[{x,0}]}. return.",
        4,
        "{jump,{f,6}}. {label,5}. {test,is_nil,{f,1},[{x,0}]}. {label,6}. {test,is_atom,{f,1},[{x,0}]}. return.",
    ),
    (
        "{allocate,1,1}. {'catch',{y,0},{f,5}}. {label,5}. {catch_end,{y,0}}. {'catch',{y,0},{f,5}}. {call,1,{f,4}}. {deallocate,1}. return.",
        5,
        "{allocate,1,1}. {'catch',{y,0},{f,5}}. {label,5}. {catch_end,{y,0}}. {'catch',{y,0},{f,6}}. {call,1,{f,4}}. {label,6}. {catch_end,{y,0}}. {deallocate,1}. return.",
    ),
    ("{label,5}. {jump,{f,5}}.", 3, "{label,5}. {jump,{f,1}}."),
    (
        "{test,is_atom,{f,5},[{x,0}]}. return. {label,5}. {jump,{f,5}}.",
        5,
        "{test,is_atom,{f,1},[{x,0}]}. return. {label,5}. {jump,{f,5}}.",
    ),
    (
        "{label,5}. {allocate,1,2}. {jump,{f,5}}.",
        3,
        "{label,5}. {allocate,1,2}. {deallocate,1}. {jump,{f,1}}.",
    ),
    (
        "{select_val,{x,0},{f,1},{list,[{integer,1},{f,2}]}}.",
        2,
        "{select_val,{x,0},{f,1},{list,[{integer,1},{f,5}]}}. {label,5}. return.",
    ),
    (
        "{bif,hd,{f,2},[{x,0}],{x,0}}. return.",
        2,
        "{bif,hd,{f,1},[{x,0}],{x,0}}. return.",
    ),
    (
        "{bif,'=:=',{f,2},[{x,0},{x,1}],{x,0}}. return.",
        2,
        "{bif,'=:=',{f,0},[{x,0},{x,1}],{x,0}}. return.",
    ),
];

/// `StackSize`
pub const STACK_SIZE: [(&str, u32, &str); 22] = [
    (
        "{test,is_atom,{f,5},[{x,0}]}. {allocate,1,1}. {label,5}. return.",
        5,
        "{test,is_atom,{f,5},[{x,0}]}. {allocate,1,1}. {deallocate,1}. {label,5}. return.",
    ),
    (
        "{test,is_atom,{f,5},[{x,0}]}. {allocate,1,1}. return. {label,5}. {deallocate,0}. return.",
        5,
        "{test,is_atom,{f,5},[{x,0}]}. {allocate,1,1}. {deallocate,1}. return. {label,5}. return.",
    ),
    (
        "{allocate,1,2}. {allocate,1,2}. {deallocate,1}. return.",
        4,
        "{allocate,1,2}. {deallocate,1}. {allocate,1,2}. {deallocate,1}. return.",
    ),
    (
        "{allocate,1,1}. {move,{x,0},{y,1}}. {deallocate,1}. return.",
        4,
        "{allocate,1,1}. {move,{x,0},{y,0}}. {deallocate,1}. return.",
    ),
    (
        "{move,{y,0},{x,0}}. return.",
        3,
        "{move,{x,1},{x,0}}. return.",
    ),
    (
        "{allocate,1,2}. {bif,raise,{f,0},[{x,0},{x,1}],{y,1}}.",
        4,
        "{allocate,1,2}. {bif,raise,{f,0},[{x,0},{x,1}],{y,0}}.",
    ),
    (
        "{allocate,1,1}. {deallocate,2}. return.",
        4,
        "{allocate,1,1}. {deallocate,1}. return.",
    ),
    (
        "{deallocate,0}. return.",
        3,
        "{allocate,0,1}. {deallocate,0}. return.",
    ),
    (
        "{allocate,1,1}. {call_last,1,{f,4},0}.",
        4,
        "{allocate,1,1}. {call_last,1,{f,4},1}.",
    ),
    (
        "{call_ext_last,1,{extfunc,erlang,abs,1},0}.",
        3,
        "{call_ext_only,1,{extfunc,erlang,abs,1}}.",
    ),
    (
        "{allocate,2,1}. {trim,3,0}. {deallocate,0}. return.",
        4,
        "{allocate,2,1}. {trim,2,0}. {deallocate,0}. return.",
    ),
    (
        "{allocate,2,1}. {trim,1,0}. {deallocate,1}. return.",
        4,
        "{allocate,2,1}. {trim,1,1}. {deallocate,1}. return.",
    ),
    (
        "{trim,0,0}. return.",
        3,
        "{allocate,0,1}. {trim,0,0}. {deallocate,0}. return.",
    ),
    (
        "{allocate,0,1}. return.",
        4,
        "{allocate,0,1}. {deallocate,0}. return.",
    ),
    (
        "{allocate,1,1}. {call_only,1,{f,4}}.",
        4,
        "{allocate,1,1}. {call_last,1,{f,4},1}.",
    ),
    (
        "{allocate,0,1}. {call_ext_only,1,{extfunc,k,g,1}}.",
        4,
        "{allocate,0,1}. {call_ext_last,1,{extfunc,k,g,1},0}.",
    ),
    (
        "{allocate,0,2}. {test,is_atom,{f,1},[{x,0}]}. {deallocate,0}. return.",
        1,
        "{allocate,0,2}. {test,is_atom,{f,5},[{x,0}]}. {deallocate,0}. return. {label,5}. {deallocate,0}. {jump,{f,1}}.",
    ),
    (
        "{allocate,1,1}. {kill,{y,1}}. {deallocate,1}. return.",
        4,
        "{allocate,1,1}. {kill,{y,0}}. {deallocate,1}. return.",
    ),
    (
        "{'catch',{y,0},{f,5}}. {label,5}. {catch_end,{y,0}}. return.",
        3,
        "{allocate,1,1}. {'catch',{y,0},{f,5}}. {label,5}. {catch_end,{y,0}}. {deallocate,1}. return.",
    ),
    (
        "{allocate_heap,1,2,1}. {put_tuple2,{x,0},{list,[{y,1}]}}. {deallocate,1}. return.",
        4,
        "{allocate_heap,1,2,1}. {put_tuple2,{x,0},{list,[{x,0}]}}. {deallocate,1}. return.",
    ),
    (
        "{allocate,2,1}. {move,{x,0},{y,1}}. {trim,1,1}. {move,{y,1},{x,0}}. {deallocate,1}. return.",
        6,
        "{allocate,2,1}. {move,{x,0},{y,1}}. {trim,1,1}. {move,{y,0},{x,0}}. {deallocate,1}. return.",
    ),
    (
        "{test,is_atom,{f,5},[{x,0}]}. {allocate,1,1}. {jump,{f,6}}. {label,5}. {line,[]}. {label,6}. {jump,{f,5}}.",
        8,
        "{test,is_atom,{f,5},[{x,0}]}. {allocate,1,1}. {deallocate,1}. {jump,{f,6}}. {label,5}. {line,[]}. {label,6}. return.",
    ),
];

/// `TagState`
pub const TAG_STATE: [(&str, u32, &str); 16] = [
    (
        "{allocate,1,1}. {test,is_atom,{f,6},[{x,0}]}. {'catch',{y,0},{f,5}}. {label,6}. {label,5}. {catch_end,{y,0}}. {deallocate,1}. return.",
        6,
        "{allocate,1,1}. {test,is_atom,{f,6},[{x,0}]}. {'catch',{y,0},{f,5}}. {label,5}. {catch_end,{y,0}}. {label,6}. {deallocate,1}. return.",
    ),
    (
        "{allocate,1,1}. {'catch',{y,0},{f,5}}. {move,{y,0},{x,0}}. {label,5}. {catch_end,{y,0}}. {deallocate,1}. return.",
        5,
        "{allocate,1,1}. {'catch',{y,0},{f,5}}. {move,{integer,0},{x,0}}. {label,5}. {catch_end,{y,0}}. {deallocate,1}. return.",
    ),
    (
        "{allocate,2,1}. {'catch',{y,0},{f,5}}. {move,{x,0},{y,0}}. {label,5}. {catch_end,{y,0}}. {deallocate,2}. return.",
        5,
        "{allocate,2,1}. {'catch',{y,0},{f,5}}. {move,{x,0},{y,1}}. {label,5}. {catch_end,{y,0}}. {deallocate,2}. return.",
    ),
    (
        "{allocate,2,1}. {move,{x,0},{y,1}}. {'catch',{y,0},{f,5}}. {swap,{y,1},{y,0}}. {label,5}. {catch_end,{y,0}}. {deallocate,2}. return.",
        6,
        "{allocate,2,1}. {move,{x,0},{y,1}}. {'catch',{y,0},{f,5}}. {swap,{y,1},{x,0}}. {label,5}. {catch_end,{y,0}}. {deallocate,2}. return.",
    ),
    (
        "{allocate,2,1}. {'catch',{y,0},{f,5}}. {init,{y,0}}. {label,5}. {catch_end,{y,0}}. {deallocate,2}. return.",
        5,
        "{allocate,2,1}. {'catch',{y,0},{f,5}}. {init,{y,1}}. {label,5}. {catch_end,{y,0}}. {deallocate,2}. return.",
    ),
    (
        "{allocate,2,1}. {'catch',{y,0},{f,5}}. {kill,{y,0}}. {label,5}. {catch_end,{y,0}}. {deallocate,2}. return.",
        5,
        "{allocate,2,1}. {'catch',{y,0},{f,5}}. {kill,{y,1}}. {label,5}. {catch_end,{y,0}}. {deallocate,2}. return.",
    ),
    (
        "{allocate,2,1}. {'catch',{y,0},{f,5}}. {trim,1,1}. {label,5}. {catch_end,{y,0}}. {deallocate,1}. return.",
        5,
        "{allocate,2,1}. {trim,1,1}. {'catch',{y,0},{f,5}}. {label,5}. {catch_end,{y,0}}. {deallocate,1}. return.",
    ),
    (
        "{allocate,3,1}. {'catch',{y,1},{f,5}}. {trim,1,2}. {kill,{y,0}}. {label,5}. {catch_end,{y,1}}. {deallocate,2}. return.",
        6,
        "{allocate,3,1}. {trim,1,2}. {'catch',{y,1},{f,5}}. {kill,{y,0}}. {label,5}. {catch_end,{y,1}}. {deallocate,2}. return.",
    ),
    (
        "{allocate,3,1}. {'catch',{y,1},{f,5}}. {trim,1,2}. {kill,{y,1}}. {label,5}. {catch_end,{y,1}}. {deallocate,2}. return.",
        8,
        "{allocate,3,1}. {trim,1,2}. {'catch',{y,1},{f,5}}. {kill,{y,0}}. {label,5}. {catch_end,{y,1}}. {deallocate,2}. return.",
    ),
    (
        "{allocate,1,1}. {'catch',{y,0},{f,5}}. {deallocate,1}. return. {label,5}. {catch_end,{y,0}}. {deallocate,1}. return.",
        5,
        "{allocate,1,1}. {'catch',{y,0},{f,5}}. {label,5}. {catch_end,{y,0}}. {deallocate,1}. return.",
    ),
    (
        "{allocate,1,1}. {'catch',{y,0},{f,5}}. {call_last,1,{f,4},1}. {label,5}. {catch_end,{y,0}}. {deallocate,1}. return.",
        5,
        "{allocate,1,1}. {'catch',{y,0},{f,5}}. {call,1,{f,4}}. {label,5}. {catch_end,{y,0}}. {deallocate,1}. return.",
    ),
    (
        "{allocate,2,1}. {'try',{y,1},{f,5}}. {'try',{y,0},{f,6}}. {call,1,{f,4}}. {try_end,{y,1}}. {try_end,{y,0}}. {deallocate,2}. return. {label,5}. {try_case,{y,1}}. {deallocate,2}. return. {label,6}. {try_case,{y,0}}. {try_end,{y,1}}. {deallocate,2}. return.",
        7,
        "{allocate,2,1}. {'try',{y,1},{f,5}}. {'try',{y,0},{f,6}}. {call,1,{f,4}}. {try_end,{y,0}}. {try_end,{y,1}}. {deallocate,2}. return. {label,5}. {try_case,{y,1}}. {deallocate,2}. return. {label,6}. {try_case,{y,0}}. {try_end,{y,1}}. {deallocate,2}. return.",
    ),
    (
        "{allocate,1,1}. {'catch',{y,0},{f,5}}. {call,1,{f,4}}. {try_end,{y,0}}. {deallocate,1}. return. {label,5}. {catch_end,{y,0}}. {deallocate,1}. return.",
        6,
        "{allocate,1,1}. {'try',{y,0},{f,5}}. {call,1,{f,4}}. {try_end,{y,0}}. {deallocate,1}. return. {label,5}. {try_case,{y,0}}. {deallocate,1}. return.",
    ),
    (
        "{allocate,1,1}. {'catch',{y,0},{f,5}}. {call,1,{f,4}}. {catch_end,{y,0}}. {deallocate,1}. return. {label,5}. {catch_end,{y,0}}. {deallocate,1}. return.",
        6,
        "{allocate,1,1}. {'catch',{y,0},{f,5}}. {call,1,{f,4}}. {jump,{f,5}}. {deallocate,1}. return. {label,5}. {catch_end,{y,0}}. {deallocate,1}. return.",
    ),
    (
        "{allocate,3,1}. {'try',{y,1},{f,5}}. {trim,1,2}. {call_ext,1,{extfunc,erlang,exit,1}}. {label,5}. {try_case,{y,1}}. {deallocate,2}. return.",
        8,
        "{allocate,3,1}. {trim,1,2}. {'try',{y,1},{f,5}}. {call_ext,1,{extfunc,erlang,exit,1}}. {label,5}. {try_case,{y,1}}. {deallocate,2}. return.",
    ),
    (
        "{allocate,1,1}. {'catch',{y,0},{f,5}}. {badmatch,{y,0}}. {label,5}. {catch_end,{y,0}}. {deallocate,1}. return.",
        5,
        "{allocate,1,1}. {'catch',{y,0},{f,5}}. {badmatch,{x,0}}. {label,5}. {catch_end,{y,0}}. {deallocate,1}. return.",
    ),
];

/// `TagOrder`
pub const TAG_ORDER: [(&str, u32, &str); 5] = [
    (
        "{allocate,2,1}. {'try',{y,0},{f,5}}. {'try',{y,1},{f,6}}. {call,1,{f,4}}. {try_end,{y,0}}. {try_end,{y,1}}. {deallocate,2}. return. {label,5}. {try_case,{y,0}}. {try_end,{y,1}}. {deallocate,2}. return. {label,6}. {try_case,{y,1}}. {deallocate,2}. return.",
        5,
        "{allocate,2,1}. {'try',{y,1},{f,6}}. {'try',{y,0},{f,5}}. {call,1,{f,4}}. {try_end,{y,0}}. {try_end,{y,1}}. {deallocate,2}. return. {label,5}. {try_case,{y,0}}. {try_end,{y,1}}. {deallocate,2}. return. {label,6}. {try_case,{y,1}}. {deallocate,2}. return.",
    ),
    (
        "{allocate,1,1}. {'catch',{y,0},{f,5}}. {'catch',{y,0},{f,6}}. {label,6}. {catch_end,{y,0}}. {deallocate,1}. return. {label,5}. {catch_end,{y,0}}. {deallocate,1}. return.",
        5,
        "{allocate,2,1}. {'catch',{y,1},{f,5}}. {'catch',{y,0},{f,6}}. {label,6}. {catch_end,{y,0}}. {label,5}. {catch_end,{y,1}}. {deallocate,2}. return.",
    ),
    (
        "{allocate,3,1}. {'catch',{y,1},{f,5}}. {'catch',{y,2},{f,6}}. {label,5}. {catch_end,{y,1}}. {label,6}. {catch_end,{y,2}}. {deallocate,3}. return.",
        5,
        "{allocate,3,1}. {'catch',{y,2},{f,6}}. {'catch',{y,1},{f,5}}. {label,5}. {catch_end,{y,1}}. {label,6}. {catch_end,{y,2}}. {deallocate,3}. return.",
    ),
    (
        "{allocate,3,1}. {'catch',{y,1},{f,6}}. {'try',{y,0},{f,5}}. {call_ext,1,{extfunc,erlang,exit,1}}. {label,5}. {try_case,{y,0}}. {'catch',{y,2},{f,7}}. {label,6}. {catch_end,{y,1}}. {label,7}. {catch_end,{y,2}}. {deallocate,3}. return.",
        9,
        "{allocate,3,1}. {'catch',{y,1},{f,6}}. {'try',{y,0},{f,5}}. {call_ext,1,{extfunc,erlang,exit,1}}. {label,5}. {try_case,{y,0}}. {'catch',{y,0},{f,7}}. {label,7}. {catch_end,{y,0}}. {label,6}. {catch_end,{y,1}}. {deallocate,3}. return.",
    ),
    (
        "{allocate,3,1}. {'catch',{y,2},{f,5}}. {trim,1,2}. {'catch',{y,1},{f,6}}. {label,6}. {catch_end,{y,1}}. {deallocate,2}. return. {label,5}. {catch_end,{y,2}}. {deallocate,3}. return.",
        6,
        "{allocate,3,1}. {trim,1,2}. {'catch',{y,1},{f,6}}. {label,6}. {catch_end,{y,1}}. {deallocate,2}. return. {label,5}. {catch_end,{y,2}}. {deallocate,3}. return.",
    ),
];

/// `Undefined`
pub const UNDEFINED: [(&str, u32, &str); 25] = [
    (
        "{move,{x,2},{x,0}}. return.",
        3,
        "{move,{x,1},{x,0}}. return.",
    ),
    (
        "{test,is_atom,{f,5},[{x,0}]}. {move,{x,0},{x,2}}. {label,5}. {move,{x,2},{x,0}}. return.",
        6,
        "{move,{x,0},{x,2}}. {test,is_atom,{f,5},[{x,0}]}. {label,5}. {move,{x,2},{x,0}}. return.",
    ),
    (
        "{allocate,0,1}. {move,{x,1},{x,0}}. {deallocate,0}. return.",
        4,
        "{allocate,0,2}. {move,{x,1},{x,0}}. {deallocate,0}. return.",
    ),
    (
        "{test_heap,0,1}. {move,{x,1},{x,0}}. return.",
        4,
        "{test_heap,0,2}. {move,{x,1},{x,0}}. return.",
    ),
    ("{test_heap,0,0}. return.", 4, "{test_heap,0,1}. return."),
    (
        "{gc_bif,'+',{f,5},1,[{x,0},{integer,1}],{x,0}}. {move,{x,1},{x,0}}. return. {label,5}. {move,{x,1},{x,0}}. return.",
        4,
        "{gc_bif,'+',{f,5},1,[{x,0},{integer,1}],{x,0}}. {move,{x,0},{x,1}}. return. {label,5}. {move,{x,1},{x,0}}. return.",
    ),
    (
        "{gc_bif,'+',{f,5},0,[{x,0},{integer,1}],{x,2}}. {label,5}. {move,{x,2},{x,0}}. return.",
        5,
        "{gc_bif,'+',{f,0},0,[{x,0},{integer,1}],{x,2}}. {label,5}. {move,{x,2},{x,0}}. return.",
    ),
    (
        "{call,1,{f,4}}. {move,{x,1},{x,0}}. return.",
        4,
        "{call,1,{f,4}}. {move,{x,0},{x,1}}. return.",
    ),
    (
        "{call_ext_only,3,{extfunc,k,g,3}}.",
        3,
        "{call_ext_only,2,{extfunc,k,g,2}}.",
    ),
    (
        "raw_raise. return.",
        3,
        "{move,{x,0},{x,2}}. raw_raise. return.",
    ),
    (
        "{bif,raise,{f,0},[{x,2},{x,0}],{x,0}}.",
        3,
        "{bif,raise,{f,0},[{x,1},{x,0}],{x,2}}.",
    ),
    (
        "{allocate,1,1}. {'try',{y,0},{f,5}}. {call_ext,1,{extfunc,erlang,exit,1}}. {label,5}. {try_case,{y,0}}. {move,{x,3},{x,0}}. {deallocate,1}. return.",
        8,
        "{allocate,1,1}. {'try',{y,0},{f,5}}. {call_ext,1,{extfunc,erlang,exit,1}}. {label,5}. {try_case,{y,0}}. {move,{x,2},{x,0}}. {deallocate,1}. return.",
    ),
    (
        "{allocate,1,2}. {'catch',{y,0},{f,5}}. {gc_bif,'+',{f,0},2,[{x,0},{x,1}],{x,0}}. {label,5}. {catch_end,{y,0}}. {move,{x,1},{x,0}}. {deallocate,1}. return.",
        8,
        "{allocate,1,2}. {'catch',{y,0},{f,5}}. {gc_bif,'=:=',{f,0},2,[{x,0},{x,1}],{x,0}}. {label,5}. {catch_end,{y,0}}. {move,{x,1},{x,0}}. {deallocate,1}. return.",
    ),
    (
        "{allocate,1,0}. {'catch',{y,0},{f,5}}. {label,5}. {catch_end,{y,0}}. {deallocate,1}. return.",
        6,
        "{allocate,1,1}. {'catch',{y,0},{f,5}}. {label,5}. {catch_end,{y,0}}. {deallocate,1}. return.",
    ),
    (
        "{allocate,1,1}. {move,{y,0},{x,0}}. {deallocate,1}. return.",
        4,
        "{allocate,1,1}. {move,{x,0},{y,0}}. {move,{y,0},{x,0}}. {deallocate,1}. return.",
    ),
    (
        "{allocate_zero,1,1}. {init,{y,0}}. {move,{y,0},{x,0}}. {deallocate,1}. return.",
        5,
        "{allocate_zero,1,1}. {init,{y,0}}. {move,{x,0},{y,0}}. {deallocate,1}. return.",
    ),
    (
        "{allocate,1,1}. {move,{x,0},{y,0}}. {kill,{y,0}}. {move,{y,0},{x,0}}. {deallocate,1}. return.",
        6,
        "{allocate,1,1}. {move,{x,0},{y,0}}. {move,{y,0},{x,0}}. {kill,{y,0}}. {deallocate,1}. return.",
    ),
    (
        "{allocate,2,1}. {move,{x,0},{y,0}}. {trim,1,1}. {move,{y,0},{x,0}}. {deallocate,1}. return.",
        6,
        "{allocate,2,1}. {move,{x,0},{y,1}}. {trim,1,1}. {move,{y,0},{x,0}}. {deallocate,1}. return.",
    ),
    (
        "{allocate,1,1}. {'try',{y,0},{f,5}}. {try_end,{y,0}}. {move,{y,0},{x,0}}. {deallocate,1}. return. {label,5}. {try_case,{y,0}}. {deallocate,1}. return.",
        6,
        "{allocate,1,1}. {'try',{y,0},{f,5}}. {try_end,{y,0}}. {move,{x,0},{y,0}}. {deallocate,1}. return. {label,5}. {try_case,{y,0}}. {deallocate,1}. return.",
    ),
    (
        "{allocate,1,1}. {move,{x,0},{y,0}}. {deallocate,1}. {allocate,1,1}. {move,{y,0},{x,0}}. {deallocate,1}. return.",
        7,
        "{allocate,1,1}. {move,{x,0},{y,0}}. {move,{y,0},{x,0}}. {deallocate,1}. {allocate,1,1}. {deallocate,1}. return.",
    ),
    (
        "{gc_bif,'+',{f,0},2,[{x,0},{x,2}],{x,2}}. return.",
        3,
        "{gc_bif,'+',{f,0},2,[{x,0},{x,1}],{x,2}}. return.",
    ),
    (
        "{swap,{x,1},{x,2}}. return.",
        3,
        "{swap,{x,1},{x,0}}. return.",
    ),
    (
        "{test_heap,2,2}. {put_list,{x,0},{x,2},{x,0}}. return.",
        4,
        "{test_heap,2,2}. {put_list,{x,0},{x,1},{x,0}}. return.",
    ),
    // one way defines neither register, the other both: item 12 reads the first, and then 5 the second
    (
        "{jump,{f,7}}. {label,6}. {move,{x,3},{x,0}}. return. {label,7}. {test,is_atom,{f,5},[{x,0}]}. {move,{x,0},{x,2}}. {move,{x,0},{x,3}}. {label,5}. {move,{x,2},{x,1}}. {jump,{f,6}}.",
        12,
        "{jump,{f,7}}. {label,6}. {move,{x,3},{x,0}}. return. {label,7}. {move,{x,0},{x,2}}. {move,{x,0},{x,3}}. {test,is_atom,{f,5},[{x,0}]}. {label,5}. {move,{x,2},{x,1}}. {jump,{f,6}}.",
    ),
    // one way defines the first alone
    (
        "{jump,{f,7}}. {label,6}. {move,{x,3},{x,0}}. return. {label,7}. {move,{x,0},{x,2}}. {test,is_atom,{f,5},[{x,0}]}. {move,{x,0},{x,3}}. {label,5}. {move,{x,2},{x,1}}. {jump,{f,6}}.",
        5,
        "{jump,{f,7}}. {label,6}. {move,{x,3},{x,0}}. return. {label,7}. {move,{x,0},{x,2}}. {move,{x,0},{x,3}}. {test,is_atom,{f,5},[{x,0}]}. {label,5}. {move,{x,2},{x,1}}. {jump,{f,6}}.",
    ),
];

/// `HeapUncovered`
pub const HEAP_UNCOVERED: [(&str, u32, &str); 14] = [
    (
        "{put_list,{x,0},{x,1},{x,0}}. return.",
        3,
        "{test_heap,2,2}. {put_list,{x,0},{x,1},{x,0}}. return.",
    ),
    (
        "{test_heap,3,2}. {put_list,{x,0},{x,1},{x,0}}. {put_list,{x,0},{x,1},{x,0}}. return.",
        5,
        "{test_heap,4,2}. {put_list,{x,0},{x,1},{x,0}}. {put_list,{x,0},{x,1},{x,0}}. return.",
    ),
    (
        "{test_heap,2,2}. {put_tuple2,{x,0},{list,[{x,0},{x,1}]}}. return.",
        4,
        "{test_heap,3,2}. {put_tuple2,{x,0},{list,[{x,0},{x,1}]}}. return.",
    ),
    (
        "{put_tuple2,{x,0},{list,[]}}. return.",
        3,
        "{test_heap,1,0}. {put_tuple2,{x,0},{list,[]}}. return.",
    ),
    (
        "{test_heap,2,2}. {call,2,{f,2}}. {put_list,{x,0},{x,0},{x,0}}. return.",
        5,
        "{call,2,{f,2}}. {test_heap,2,1}. {put_list,{x,0},{x,0},{x,0}}. return.",
    ),
    (
        "{test_heap,2,2}. {call_ext,1,{extfunc,erlang,abs,1}}. {put_list,{x,0},{x,0},{x,0}}. return.",
        5,
        "{test_heap,2,2}. {gc_bif,abs,{f,0},1,[{x,0}],{x,0}}. {put_list,{x,0},{x,0},{x,0}}. return.",
    ),
    (
        "{allocate_heap,1,2,1}. {'catch',{y,0},{f,5}}. {gc_bif,'+',{f,0},1,[{x,0},{integer,1}],{x,0}}. {label,5}. {catch_end,{y,0}}. {put_list,{x,0},{x,0},{x,0}}. {deallocate,1}. return.",
        8,
        "{allocate_heap,1,2,1}. {'catch',{y,0},{f,5}}. {gc_bif,'=:=',{f,0},1,[{x,0},{integer,1}],{x,0}}. {label,5}. {catch_end,{y,0}}. {put_list,{x,0},{x,0},{x,0}}. {deallocate,1}. return.",
    ),
    (
        "{test_heap,1,2}. {bif,hd,{f,5},[{x,0}],{x,2}}. return. {label,5}. {put_list,{x,0},{x,1},{x,0}}. return.",
        7,
        "{test_heap,2,2}. {bif,hd,{f,5},[{x,0}],{x,2}}. return. {label,5}. {put_list,{x,0},{x,1},{x,0}}. return.",
    ),
    (
        "{test_heap,1,2}. {move,{x,0},{x,2}}. raw_raise. {put_list,{x,0},{x,1},{x,0}}. return.",
        6,
        "{test_heap,2,2}. {move,{x,0},{x,2}}. raw_raise. {put_list,{x,0},{x,1},{x,0}}. return.",
    ),
    (
        "{test,is_atom,{f,5},[{x,0}]}. {test_heap,2,2}. {label,5}. {put_list,{x,0},{x,1},{x,0}}. return.",
        6,
        "{test_heap,2,2}. {test,is_atom,{f,5},[{x,0}]}. {label,5}. {put_list,{x,0},{x,1},{x,0}}. return.",
    ),
    (
        "{test_heap,2,2}. {test_heap,1,2}. {put_list,{x,0},{x,1},{x,0}}. return.",
        5,
        "{test_heap,1,2}. {test_heap,2,2}. {put_list,{x,0},{x,1},{x,0}}. return.",
    ),
    (
        "{test_heap,2,2}. {allocate_heap,0,0,2}. {put_list,{x,0},{x,1},{x,0}}. {deallocate,0}. return.",
        5,
        "{test_heap,2,2}. {allocate,0,2}. {put_list,{x,0},{x,1},{x,0}}. {deallocate,0}. return.",
    ),
    // one way asked for nothing, the other for the words of items 11 and 7
    (
        "{test,is_atom,{f,5},[{x,0}]}. {test_heap,4,2}. {jump,{f,7}}. {label,6}. {put_list,{x,0},{x,1},{x,0}}. return. {label,5}. {label,7}. {put_list,{x,0},{x,1},{x,0}}. {jump,{f,6}}.",
        11,
        "{test_heap,4,2}. {test,is_atom,{f,5},[{x,0}]}. {jump,{f,7}}. {label,6}. {put_list,{x,0},{x,1},{x,0}}. return. {label,5}. {label,7}. {put_list,{x,0},{x,1},{x,0}}. {jump,{f,6}}.",
    ),
    // one way asked for those of item 11 alone
    (
        "{test_heap,2,2}. {test,is_atom,{f,5},[{x,0}]}. {test_heap,4,2}. {jump,{f,7}}. {label,6}. {put_list,{x,0},{x,1},{x,0}}. return. {label,5}. {label,7}. {put_list,{x,0},{x,1},{x,0}}. {jump,{f,6}}.",
        8,
        "{test_heap,4,2}. {test,is_atom,{f,5},[{x,0}]}. {jump,{f,7}}. {label,6}. {put_list,{x,0},{x,1},{x,0}}. return. {label,5}. {label,7}. {put_list,{x,0},{x,1},{x,0}}. {jump,{f,6}}.",
    ),
];
