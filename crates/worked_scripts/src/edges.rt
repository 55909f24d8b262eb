//! What the language gives where two readings would be possible.
use crate::row::{Row, rows, values};

static VALUES: &[Row] = values![
    "CompoundExpression[]" => "CompoundExpression[]",
    "Which[1 + 1, 3]" => "Which[2, 3]",
    "Which[a]" => "Which[a]",
    "And[1 + 1, True, x]" => "2 && x",
    "0^0" => "0^0",
    "Array[f, -1]" => "{}",
    "ConstantArray[x, -1]" => "{}",
    "Nest[f, x, -1]" => "Nest[f, x, -1]",
    "Transpose[{}]" => "Transpose[{}]",
    "Take[{a, b}, 0]" => "{}",
    "Take[{a, b, c}, {-2, -1}]" => "{b, c}",
    "Take[{a, b, c}, {3, 1}]" => "{}",
    "Drop[{a, b, c}, {3, 1}]" => "{a, b, c}",
    "{{a, b}, {c, d}}[[{2, 1}, 1]]" => "{c, a}",
    "{a, b}[[3]]" => "Part[{a, b}, 3]",
    "a[[]]" => "Part[a]",
    "OrderedQ[5]" => "OrderedQ[5]",
    "StringJoin[]" => "\"\"",
    "{Unequal[], Less[1], Unequal[x], Less[x]}" => "{True, True, Unequal[x], Less[x]}",
    "ReleaseHold[f[1]]" => "ReleaseHold[f[1]]",
    "ReleaseHold[Hold[1, 2]]" => "ReleaseHold[Hold[1, 2]]",
    "Select[f[1, 2], EvenQ]" => "f[2]",
    "q[c, Unevaluated[a], Sequence[b]]" => "q[c, Unevaluated[a], b]",
    "{FullForm[a - b]}" => "{FullForm[a - b]}",
    "GCD[-6]" => "6",
    "Max[{1, {5}}, 2]" => "5",
    "Abs[-170141183460469231731687303715884105727 - 1]" => "$Aborted",
    "2^127" => "$Aborted",
    "0 2^126" => "0",
    "(f[##2] &)[1]" => "f[##2]",
    "(f[##2] &)[1, 2]" => "f[2]",
    "Function[{x, x}, x][1, 2]" => "Function[{x, x}, x][1, 2]",
    "({Slot[0], Slot[1, #], Slot[]} &)[7]" => "{Slot[0], Slot[1, 7], Slot[]}",
    "With[{x}, x]" => "With[{x}, x]",
    "With[{x = 3}, Hold[With[{x}, x], Function[x, x, x], Module[{x, x}, x]]]" =>
        "Hold[With[{3}, 3], Function[3, 3, 3], Module[{x, x}, x]]",
    "Module[{x = Module[{y}, y]}, x]" => "y$2",
    "a--b" => "$Failed*b",
    "HoldComplete[x_1]" => "HoldComplete[x_*1]",
    "n++" => "$Failed",
    "x /: x = 3" => "$Failed",
    "t /: 3[t] = 1; {3[t], 3[x]}" => "{1, 3[x]}",
    "t /: 3[x] = 1" => "$Failed",
    "f[_Blank] := 1; f[Blank[1, 2]] := 2; {f[Blank[1, 2]], f[Blank[3]]}" => "{2, 1}",
    "f[x_sq] ^:= v" => "$Failed",
    "a -> Sequence[b, c]" => "a -> Sequence[b, c]",
    "FreeQ[f[x], f]" => "False",
    "MatchQ[3, _f]" => "False",
    "MatchQ[{1, 2, 3}, {x__} /; Length[{x}] == 3]" => "True",
    "MatchQ[f[1, 2], f[__?IntegerQ]]" => "True",
    "MatchQ[{a, b, a}, {x_, y_, x_}]" => "True",
];

static SCRIPTS: &[Row] = rows![
    "--kernels 0":
    "what is Null prints nothing": ["Which[]", "If[False, 1]", "1;"] => [],
    "a cell without tokens is Null, and evaluated": ["(* nothing *)", "Unprotect[Null]; Null = 5", "(* nothing *)", "{Null}"] =>
        ["Out[2]= 5", "Out[3]= 5", "Out[4]= {5}"],
    "a rule that gives the expression itself ends the evaluation": ["h[x_] := h[x]", "h[0]"] => ["Out[2]= h[0]"],
    "a refused assignment keeps what its left side did": ["f[n = 1][y] = 2", "n"] =>
        ["Out[1]= $Failed", "Out[2]= 1"],
    "the last condition on the right is the guard": ["f[x_] := x /; False /; True", "f[1]"] =>
        ["Out[2]= 1 /; False"],
    "a condition of an own value is no guard": ["x := 1 /; False", "x"] => ["Out[2]= 1 /; False"],
    "a rule takes the place of one with its left side": ["f[x_] := 1", "f[x_] := 2", "f[0]"] => ["Out[3]= 2"],
    "a typed blank is tried before a sequence": ["f[x__] := 1", "f[x_] := 2", "f[x_g] := 3", "{f[g[]], f[a], f[a, b]}"] =>
        ["Out[4]= {3, 2, 1}"],
    "a Protected symbol keeps its rules": ["Protect[f]", "f[x_] := 1", "f[1]"] => ["Out[2]= $Failed", "Out[3]= f[1]"],
    "a Protected symbol keeps its value": ["n = 1", "Protect[n]", "n++", "n"] =>
        ["Out[1]= 1", "Out[3]= $Failed", "Out[4]= 1"],
    "a symbol may be Protected by the time its new value is known": ["n := (Protect[n]; 1)", "n++", "n"] =>
        ["Out[2]= $Failed", "Out[3]= 1"],
    "or no longer": ["n := (Unprotect[n]; 1)", "Protect[n]", "n++", "n"] => ["Out[3]= 1", "Out[4]= 2"],
    "up rules are tried before down rules": ["g[sq] ^= 1", "g[x_] := 2", "g[sq]"] => ["Out[1]= 1", "Out[3]= 1"],
    "a tag that is the head": ["f /: f[x_] = x", "f[3]"] => ["Out[1]= x", "Out[2]= 3"],
    "a function that is Listable": ["SetAttributes[f, Listable]", "f[{1, 2}, x]"] => ["Out[2]= {f[1, x], f[2, x]}"],
    "a function that holds": ["SetAttributes[h, HoldAll]", "h[1 + 1, Evaluate[1 + 1]]"] => ["Out[2]= h[1 + 1, 2]"],
    "inside Block a local has no attributes": ["SetAttributes[g, Flat]", "Block[{g}, Attributes[g]]", "Attributes[g]"] =>
        ["Out[2]= {}", "Out[3]= {Flat}"],
    "Block puts back also where it stops": ["x = 1", "Block[{x = 2}, 2^200]", "x"] =>
        ["Out[1]= 1", "Out[2]= $Aborted", "Out[3]= 1"],
    "definitions before a stop stay": ["x = 1; 2^200", "x"] => ["Out[1]= $Aborted", "Out[2]= 1"],
    "loops over a List, downwards and not at all": ["Table[i, {i, {a, b}}]", "Table[i, {i, 3, 1, -1}]", "Table[i, {i, 0}]"] =>
        ["Out[1]= {a, b}", "Out[2]= {3, 2, 1}", "Out[3]= {}"],
    "an iterator that does not fit": ["Table[i, {i, x}]", "Do[i, 3]"] =>
        ["Out[1]= Table[i, {i, x}]", "Out[2]= Do[i, 3]"],
];

/// Single cells, and scripts.
pub(crate) fn tables() -> [&'static [Row]; 2] {
    [VALUES, SCRIPTS]
}
